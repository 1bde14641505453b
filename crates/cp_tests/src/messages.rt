// Messages, and runs and bundles worked out by hand.
use cp_model::{Bundle, Event, Key, Msg, Node, Run, Strand, bundle_of, origin_before, run_of};
use std::alloc::{AllocError, Global};
use std::test::Fail;

const fn node(strand: usize, index: usize) -> Node {
    Node { strand, index }
}

/// A text and a name, encrypted under a symmetric key.
fn sealed(alloc: Global) -> Result<Msg, AllocError> {
    let content = Msg::pair(alloc, Msg::text(alloc, 0)?, Msg::name(alloc, 0)?)?;
    Msg::enc(alloc, content, Key::skey(0))
}

/// Whether `carries` answers as wanted for this part.
fn is_carried(whole: &Msg, part: Result<Msg, AllocError>, wanted: bool) -> bool {
    match part {
        Ok(part) => whole.carries(&part) == wanted,
        Err(_) => false,
    }
}

/// Whether the encryption carries itself, its text and its name, and neither other atoms nor its key.
fn carries_content(alloc: Global, sealed: &Msg) -> bool {
    is_carried(sealed, sealed.copy(), true)
        && is_carried(sealed, Msg::text(alloc, 0), true)
        && is_carried(sealed, Msg::name(alloc, 0), true)
        && is_carried(sealed, Msg::name(alloc, 1), false)
        && is_carried(sealed, Msg::datum(alloc, 0), false)
        && is_carried(sealed, Msg::key(alloc, Key::skey(0)), false)
}

#[test]
fn carried(rt: HostRuntime) -> Result<(), Fail> {
    let sealed = sealed(rt.alloc())?;
    assert!(rt; carries_content(rt.alloc(), &sealed));
    Ok(())
}

/// Whether the first key is the inverse of the second.
fn is_inverse(inverse: &Key, key: &Key) -> Result<bool, AllocError> {
    let back = inverse.inverse()?;
    Ok(back.same(key))
}

/// Whether inverting twice gives the key again, and inverting once gives it exactly if `is_own`.
fn inverts(key: &Key, is_own: bool) -> Result<bool, AllocError> {
    let inverse = key.inverse()?;
    Ok(inverse.same(key) == is_own && is_inverse(&inverse, key)?)
}

/// The same for a copy of the key.
fn copy_inverts(key: Key, is_own: bool) -> Result<bool, AllocError> {
    inverts(&key.copy()?, is_own)
}

/// The same for a public key for signing.
fn public_inverts(alloc: Global) -> Result<bool, AllocError> {
    copy_inverts(Key::pubk(alloc, Some("sign"), 2)?, false)
}

#[test]
fn inverses(rt: HostRuntime) -> Result<(), Fail> {
    for is_right in [
        public_inverts(rt.alloc()),
        copy_inverts(Key::akey(0), false),
        copy_inverts(Key::skey(0), true),
        copy_inverts(Key::ltk(0, 1), true),
    ] {
        assert!(rt; is_right?);
    }
    Ok(())
}

/// The message that is sent and received: a text and a tag.
fn said(alloc: Global) -> Result<Msg, AllocError> {
    Msg::pair(alloc, Msg::text(alloc, 7)?, Msg::tag(alloc, "said")?)
}

/// A strand of one event.
fn strand(alloc: Global, event: Event<Msg>) -> Result<Strand, AllocError> {
    Ok(Strand {
        events: Vec::from_array(alloc, [event])?,
    })
}

/// The run of one strand that sends the message.
fn one_event(alloc: Global) -> Result<Run, AllocError> {
    let sender = strand(alloc, Event::Send(said(alloc)?))?;
    Ok(Run {
        strands: Vec::from_array(alloc, [sender])?,
        events: Vec::from_array(alloc, [node(0, 0)])?,
    })
}

/// Adds a strand that receives the message.
fn receive(alloc: Global, run: &mut Run) -> Result<(), AllocError> {
    let receiver = strand(alloc, Event::Receive(said(alloc)?))?;
    run.strands.push(receiver)?;
    run.events.push(node(1, 0))?;
    Ok(())
}

/// Whether the first event and a copy of it have this message.
fn has_first(strand: &Strand, message: &Msg) -> bool {
    let Some(event) = strand.events.first() else {
        return false;
    };
    match event.copy() {
        Ok(copy) => event.payload().same(message) && copy.payload().same(message),
        Err(_) => false,
    }
}

/// The same for a copy of each strand.
fn all_have_first(alloc: Global, strands: &[Strand], message: &Msg) -> Result<bool, AllocError> {
    for strand in strands {
        if !has_first(&strand.copy(alloc)?, message) {
            return Ok(false);
        }
    }
    Ok(true)
}

/// Whether `run_of` turns the bundle into the run again.
fn leads_back(alloc: Global, bundle: &Bundle, run: &Run) -> Result<bool, AllocError> {
    let back = run_of(alloc, bundle)?;
    Ok(
        back.strands.len() == run.strands.len()
            && back.events.as_slice() == run.events.as_slice()
            && all_have_first(alloc, &back.strands, &said(alloc)?)?,
    )
}

/// Whether the bundle of the run links the node to this sender, has the origin of the message at the first node, and turns
/// into the run again.
fn is_bundled(
    alloc: Global,
    run: &Run,
    node_at: Node,
    sender: Option<Node>,
) -> Result<bool, AllocError> {
    let bundle = bundle_of(alloc, run)?;
    let text = said(alloc)?;
    Ok(
        bundle.sender(node_at) == sender
            && origin_before(&bundle, node_at, &text) == node(0, 0)
            && leads_back(alloc, &bundle, run)?,
    )
}

// The bundle of one event has one strand and no links.
#[test]
fn one_event_and_back(rt: HostRuntime) -> Result<(), Fail> {
    let run = one_event(rt.alloc())?;
    assert!(rt; is_bundled(rt.alloc(), &run, node(0, 0), None)?);
    Ok(())
}

// A reception is linked to the event that sends its message.
#[test]
fn linked_to_the_sender(rt: HostRuntime) -> Result<(), Fail> {
    let mut run = one_event(rt.alloc())?;
    receive(rt.alloc(), &mut run)?;
    assert!(rt; is_bundled(rt.alloc(), &run, node(1, 0), Some(node(0, 0)))?);
    Ok(())
}

/// A pair of a text and a pair of that text and so on, this many deep.
fn chain(alloc: Global, len: u32) -> Result<Msg, AllocError> {
    let text = Msg::text(alloc, 0)?;
    let mut chain = text.copy()?;
    for _ in 0..len {
        chain = Msg::pair(alloc, text.copy()?, chain)?;
    }
    Ok(chain)
}

// The work on a chain and its drop are loops: neither needs a deep stack.
#[test]
fn long_chain(rt: HostRuntime) -> Result<(), Fail> {
    let chain = chain(rt.alloc(), 300_000)?;
    assert!(rt; chain.same(&chain) && is_carried(&chain, Msg::datum(rt.alloc(), 0), false));
    Ok(())
}
