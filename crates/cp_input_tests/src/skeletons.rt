// Origins and orders in skeletons.
ghost use Rattle.std.specs.Prelude.{IfOk, IsTrue};
ghost use Rattle.cp_model.specs.Skeleton.{IsOrderPair};

use crate::stated::{NEEDHAM_SCHROEDER, event_at, is_there, skeleton_of, text};
use cp_model::{Node, OrderPair};
use cp_skel::{Event, Skeleton, Strand, StrandShape};
use cp_term::Term;
use std::alloc::{AllocError, Global};
use std::test::Fail;

fn node(strand: usize, index: usize) -> Node {
    Node { strand, index }
}

const SPEAKER: &str = "(defprotocol o basic \
    (defrole r (vars (n m x text)) (trace (send n) (recv m) (send (cat n m x)))))";

const SPOKEN: &str = "(defskeleton o (vars (t m x z text)) \
    (defstrand r 3 (n t) (m m) (x x)) (deflistener t))";

// A strand, an index, the number of a text, and whether it originates there.
const ORIGINS: &[(usize, usize, usize, bool)] = &[
    (0, 0, 0, true),
    (0, 0, 3, false),
    (0, 1, 1, false),
    (0, 2, 0, false),
    (0, 2, 1, false),
    (0, 2, 2, true),
    (0, 3, 2, false),
    (1, 1, 0, false),
];

/// Whether the text originates at this index of the strand, and of its instance if it is one.
fn originates_on(strand: &Strand, index: usize, text: &Term) -> bool {
    let on_strand = strand.originates(index, text);
    match strand.shape() {
        StrandShape::Instance(instance) => on_strand && instance.originates(index, text),
        StrandShape::Listener(_) => on_strand,
    }
}

/// Whether the skeleton and the strand both answer as wanted.
fn is_origin(k: &Skeleton, at: Node, text: &Term, wanted: bool) -> bool {
    match k.strands().get(at.strand) {
        Some(strand) => {
            k.originates(at, text) == wanted && originates_on(strand, at.index, text) == wanted
        }
        None => false,
    }
}

/// Whether the skeleton has these origins and no others.
fn has_origins(alloc: Global, k: &Skeleton) -> Result<bool, AllocError> {
    for &(strand, index, number, wanted) in ORIGINS {
        if !is_origin(k, node(strand, index), &text(alloc, number)?, wanted) {
            return Ok(false);
        }
    }
    Ok(true)
}

#[test]
fn origins(rt: HostRuntime) -> Result<(), Fail> {
    let k = skeleton_of(rt.alloc(), SPEAKER, SPOKEN)?;
    assert!(rt; has_origins(rt.alloc(), &k)?);
    Ok(())
}

const TWO_STRANDS: &str = "(defskeleton ns (vars) (defstrand init 3) (defstrand resp 3))";

/// Whether a transmission stands at n, and a reception of another strand at m.
fn may_be_ordered(alloc: Global, k: &Skeleton, n: Node, m: Node) -> Result<bool, AllocError>
    ensures { IfOk result (λ is. IsTrue is → IsOrderPair k.now (record { earlier = n; later = m })) }
{
    if n.strand == m.strand {
        return Ok(false);
    }
    match (event_at(alloc, k, n)?, event_at(alloc, k, m)?) {
        (Some(Event::Send(_)), Some(Event::Receive(_))) => Ok(true),
        _ => Ok(false),
    }
}

/// Puts n before m, if that closes no cycle.
fn add_pair(alloc: Global, k: &mut Skeleton, n: Node, m: Node) -> Result<bool, Fail> {
    if !may_be_ordered(alloc, k, n, m)? {
        return Err(Fail::new("no pair of a transmission and a reception"));
    }
    Ok(k.add_order(alloc, n, m)?)
}

/// Whether this pair is the only one.
fn has_one(k: &Skeleton, earlier: Node, later: Node) -> bool {
    k.order().pairs() == [OrderPair { earlier, later }].as_slice()
}

/// Whether a pair is added, and another, which would close a cycle, is not.
fn adds_one(alloc: Global, k: &mut Skeleton) -> Result<bool, Fail> {
    let is_first_added = add_pair(alloc, k, node(0, 2), node(1, 0))?;
    let is_second_added = add_pair(alloc, k, node(1, 1), node(0, 1))?;
    Ok(is_first_added && !is_second_added && has_one(k, node(0, 2), node(1, 0)))
}

#[test]
fn pair_that_closes_a_cycle(rt: HostRuntime) -> Result<(), Fail> {
    let mut k = skeleton_of(rt.alloc(), NEEDHAM_SCHROEDER, TWO_STRANDS)?;
    assert!(rt; adds_one(rt.alloc(), &mut k)?);
    Ok(())
}

const ORDERED: &str = "(defskeleton ns (vars) (defstrand init 3) (defstrand resp 3) \
    (precedes ((0 0) (1 0))))";

/// Whether a node that is there is before another.
fn is_before(alloc: Global, k: &Skeleton, n: Node, m: Node) -> Result<bool, Fail> {
    if !is_there(alloc, k, n)? || !is_there(alloc, k, m)? {
        return Err(Fail::new("no such node"));
    }
    Ok(k.before(n, m))
}

/// Whether the first strand's first node is before the other's last, and neither this nor itself is before it.
fn is_first(alloc: Global, k: &Skeleton) -> Result<bool, Fail> {
    let first = node(0, 0);
    let last = node(1, 2);
    Ok(
        is_before(alloc, k, first, last)?
            && !is_before(alloc, k, last, first)?
            && !is_before(alloc, k, first, first)?,
    )
}

/// The same before the order is closed and after it.
fn stays_first(alloc: Global, k: &mut Skeleton) -> Result<bool, Fail> {
    let is_first_open = is_first(alloc, k)?;
    k.order_close(alloc)?;
    Ok(is_first_open && is_first(alloc, k)?)
}

#[test]
fn before(rt: HostRuntime) -> Result<(), Fail> {
    let mut k = skeleton_of(rt.alloc(), NEEDHAM_SCHROEDER, ORDERED)?;
    assert!(rt; stays_first(rt.alloc(), &mut k)?);
    Ok(())
}
