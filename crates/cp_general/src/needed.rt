// Whether a part of a skeleton is seen to be needed: without it a message that is received is not derivable.
ghost use Rattle.std.specs.Prelude.{◌≡◌, ◌≢◌, map, Some, option_map, IsTrue, IfOk};
ghost use Rattle.cp_lists.specs.Lists.{IsIn};
ghost use Rattle.cp_model.specs.Term.{atom_term, Term as Plain};
ghost use Rattle.cp_model.specs.Skeleton.{IsNodeOf};
ghost use Rattle.cp_skel.specs.Events.{events_of};
ghost use Rattle.cp_general.specs.Needed.{loses, IsLedTo, SendsApart, HoldsSent, AddsOnly, IsValueApart, IsAssumedApart, StatesNone, GivesNone, ForgetsNone, AreKept, IsKnownApart, IsNeeded};

use cp_base::Growing;
use cp_derive::{Known, buildable};
use cp_skel::{
    Assumptions, Atom, Event, LocatedEvent, Node, OrderPair, Preceding, Role, Skeleton, Strand,
    StrandShape, UniqueAt,
};
use cp_term::Term;
use std::alloc::{AllocError, Global};

/// A part of a skeleton that a step of generalising takes away.
#[derive(Clone, Copy)]
pub(crate) enum Part {
    Strand(usize),
    Pair(OrderPair),
}

/// Whether what is sent at a node is lost with the part: the node is on the strand, or the earlier one of the pair.
fn loses(part: Part, node: Node) -> bool
    ensures { result ≡ loses part node }
{
    match part {
        Part::Strand(strand) => node.strand == strand,
        Part::Pair(pair) => node == pair.earlier,
    }
}

/// Whether one of the pairs leads from the strand to a node of another one.
fn leads_from(pairs: &[OrderPair], strand: usize, node: Node) -> bool
    ensures { IsTrue result → node.strand ≢ strand }
{
    if node.strand == strand {
        return false;
    }
    pairs
        .iter()
        .any(|pair| pair.earlier.strand == strand && pair.later == node)
}

/// Whether the part leads to a node: one of the pairs does from the strand, which is another one, or the pair itself.
fn leads_to(part: Part, pairs: &[OrderPair], node: Node) -> bool
    ensures { IsTrue result → IsLedTo part node }
{
    match part {
        Part::Strand(strand) => leads_from(pairs, strand, node),
        Part::Pair(pair) => node == pair.later,
    }
}

/// The message of an event, if a role strand sends it before the node and it is not lost with the part.
fn sent_apart<'s>(
    located: &'s LocatedEvent<'_>,
    part: Part,
    preceding: &Preceding<'_>,
) -> Option<&'s Term>
    ensures { (t : Plain) → SendsApart part preceding.now located.now t → option_map (λ m. m.now) result ≡ Some t }
{
    let node = located.node();
    if !located.is_by_role() {
        return None;
    }
    if loses(part, node) {
        return None;
    }
    if !preceding.has(node) {
        return None;
    }
    match located.event() {
        Event::Send(message) => Some(message),
        Event::Receive(_) => None,
    }
}

/// The messages that role strands send before the node, except those that are lost with the part.
fn all_sent_apart(
    alloc: Global,
    events: &[LocatedEvent<'_>],
    part: Part,
    preceding: &Preceding<'_>,
) -> Result<Vec<Term>, AllocError>
    ensures { IfOk result (λ ts. HoldsSent part preceding.now events.now ts.items) }
{
    let mut sent = Growing::with_capacity(alloc, events.len());
    for located in events {
        match sent_apart(located, part, preceding) {
            Some(message) => sent.push_made(message.copy()),
            None => continue,
        }
    }
    sent.finish()
}

/// Appends atoms as terms.
fn add_atoms(atoms: &[Atom], terms: &mut Growing<Term>)
    ensures { AddsOnly (λ t. IsIn t (map atom_term atoms.now)) terms.old terms.new }
{
    for atom in atoms {
        terms.push_made(atom.as_term().copy());
    }
}

/// Appends unique values as terms, except those whose origins are lost with the part.
fn add_uniques(uniques: &[UniqueAt], part: Part, terms: &mut Growing<Term>)
    ensures { AddsOnly (IsValueApart part uniques.now) terms.old terms.new }
{
    for unique in uniques {
        if loses(part, unique.origin()) {
            continue;
        }
        terms.push_made(unique.value().as_term().copy());
    }
}

/// The values of these assumptions, except unique values whose origins are lost with the part.
fn assumed_apart(
    alloc: Global,
    assumptions: &Assumptions,
    part: Part,
) -> Result<Vec<Term>, AllocError>
    ensures { IfOk result (λ ts. (t : Plain) → IsIn t ts.items → IsAssumedApart part assumptions.now t) }
{
    let mut values = Growing::from_items(Vec::new(alloc));
    add_atoms(assumptions.non_originating(), &mut values);
    add_atoms(assumptions.penetrator_non_originating(), &mut values);
    add_uniques(assumptions.uniquely_originating(), part, &mut values);
    values.finish()
}

/// Whether the role states no atoms as non-originating.
fn states_none(role: &Role) -> bool
    ensures { IsTrue result → StatesNone role.now }
{
    if !role.non_originating().is_empty() {
        return false;
    }
    role.penetrator_non_originating().is_empty()
}

/// Whether the strand is no instance of a role that states atoms as non-originating.
fn gives_none(strand: &Strand) -> bool
    ensures { IsTrue result → GivesNone strand.now }
{
    match strand.shape() {
        StrandShape::Instance(instance) => states_none(instance.role()),
        StrandShape::Listener(_) => true,
    }
}

/// Whether no non-originating atom is forgotten with the part. It is clear for a pair, and for a strand that gives none.
fn forgets_none(k: &Skeleton, part: Part) -> bool
    ensures { IsTrue result → ForgetsNone part k.now }
{
    let Part::Strand(number) = part else {
        return true;
    };
    match k.strands().get(number) {
        Some(strand) => gives_none(strand),
        None => false,
    }
}

/// Assumptions that stay without the part, except for unique values whose origins are lost with it: all, if no non-originating
/// atom is forgotten, otherwise those that the problem itself states.
fn kept(k: &Skeleton, part: Part) -> &Assumptions
    ensures { AreKept part k.now result.now }
{
    k.is_sound();
    if forgets_none(k, part) {
        return k.assumptions();
    }
    k.from_problem().assumptions()
}

/// What the penetrator knows at most at a node without the part. The node must exist.
fn known_apart(
    alloc: Global,
    k: &Skeleton,
    events: &[LocatedEvent<'_>],
    part: Part,
    node: Node,
) -> Result<Known, AllocError>
    requires there { IsNodeOf k.now.strands node }
    requires events { events.now ≡ events_of k.now }
    ensures { IfOk result (λ g. IsKnownApart part (record { skeleton = k.now; node = node }) g) }
{
    let preceding = Preceding::of(alloc, k, node)?;
    let sent = all_sent_apart(alloc, events, part, &preceding)?;
    let secrets = assumed_apart(alloc, kept(k, part), part)?;
    Known::new(alloc, sent, secrets)
}

/// Whether the part is seen to be needed: without it the message of a reception to which it leads is not derivable. If so, it
/// can't be taken away.
pub(crate) fn is_needed(
    alloc: Global,
    k: &Skeleton,
    events: &[LocatedEvent<'_>],
    part: Part,
) -> Result<bool, AllocError>
    requires events { events.now ≡ events_of k.now }
    ensures { IfOk result (λ needed. IsTrue needed → IsNeeded part k.now) }
{
    let pairs = k.order().pairs();
    for located in events {
        let Event::Receive(message) = located.event() else {
            continue;
        };
        let node = located.node();
        if !leads_to(part, pairs, node) {
            continue;
        }
        let known = known_apart(alloc, k, events, part, node)?;
        if !buildable(&known, message) {
            return Ok(true);
        }
    }
    Ok(false)
}
