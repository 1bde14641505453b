// Tests whether a term is a test at a node.
ghost use Rattle.std.specs.Prelude.{◌≡◌, ◌↔◌, IsTrue, IfOk};
ghost use Rattle.cp_theory.specs.Critical.{IsTest};
ghost use Rattle.cp_model.specs.Skeleton.{term_event_at};
ghost use Rattle.cp_pattern.specs.HeardTerms.{IsReceivedComponentAt};

use crate::component::is_component;
use cp_derive::{buildable, known};
use cp_skel::{Event, Node, Skeleton};
use cp_term::Term;
use std::alloc::{AllocError, Global};

/// The event at a node, if there is one.
pub(crate) fn event_at(alloc: Global, k: &Skeleton, node: Node) -> Result<Option<Event>, AllocError>
    ensures { IfOk result (λ e. e ≡ term_event_at k.now.strands node) }
{
    match k.strands().get(node.strand) {
        Some(strand) => strand.event(alloc, node.index),
        None => Ok(None),
    }
}

/// Whether the node receives a message of which the term is a component.
fn is_heard(alloc: Global, k: &Skeleton, node: Node, term: &Term) -> Result<bool, AllocError>
    ensures { IfOk result (λ answer. IsTrue answer ↔ IsReceivedComponentAt k.now node term.now) }
{
    match event_at(alloc, k, node)? {
        Some(Event::Receive(message)) => Ok(is_component(term, &message)),
        _ => Ok(false),
    }
}

/// Whether the term is a test at the node of the skeleton: it is a component of the message received there, and not derivable
/// there.
pub fn is_test(alloc: Global, k: &Skeleton, node: Node, critical: &Term) -> Result<bool, AllocError>
    ensures { IfOk result (λ answer. IsTrue answer ↔ IsTest k.now node critical.now) }
{
    if !is_heard(alloc, k, node, critical)? {
        return Ok(false);
    }
    known(alloc, k, node).map(|known| !buildable(&known, critical))
}
