// Transmissions of role strands before a node.
ghost use Rattle.std.specs.Prelude.{◌↔◌, IsTrue, IfOk};
ghost use Rattle.cp_model.specs.Skeleton.{IsNodeOf};
ghost use Rattle.cp_pattern.specs.Sent.{IsGuardedAt, SendInsideAlone};

use crate::first_outside;
use crate::test_terms::event_at;
use cp_skel::{Event, LocatedEvent, Node, Preceding, Skeleton};
use cp_term::{Pattern, Term};
use cp_unify::Subst;
use std::alloc::{AllocError, Global};

/// Whether the event carries the critical term inside the patterns alone, if it is a transmission of a role strand before the
/// node.
fn is_guarded_at(
    alloc: Global,
    preceding: &Preceding<'_>,
    critical: &Term,
    patterns: &[Pattern],
    occurrence: &LocatedEvent<'_>,
) -> Result<bool, AllocError>
    ensures { IfOk result (λ answer. IsTrue answer ↔ IsGuardedAt patterns.now preceding.now.skeleton preceding.now.node critical.now occurrence.now) }
{
    let Event::Send(message) = occurrence.event() else {
        return Ok(true);
    };
    if !occurrence.is_by_role() || !preceding.has(occurrence.node()) {
        return Ok(true);
    }
    let nothing = Subst::new(alloc);
    first_outside(alloc, patterns, &nothing, critical, message).map(|outside| outside.is_none())
}

/// Whether there is an event at the node.
fn is_there(alloc: Global, k: &Skeleton, node: Node) -> Result<bool, AllocError>
    ensures { IfOk result (λ there. IsTrue there ↔ IsNodeOf k.now.strands node) }
{
    event_at(alloc, k, node).map(|event| event.is_some())
}

/// Whether each transmission of a role strand before the node carries the critical term inside the patterns alone.
pub(crate) fn send_inside_alone(
    alloc: Global,
    patterns: &[Pattern],
    critical: &Term,
    k: &Skeleton,
    node: Node,
) -> Result<bool, AllocError>
    ensures { IfOk result (λ answer. IsTrue answer ↔ SendInsideAlone patterns.now k.now node critical.now) }
{
    k.is_sound();
    if !is_there(alloc, k, node)? {
        return Ok(true);
    }
    let preceding = Preceding::of(alloc, k, node)?;
    let occurrences = k.events(alloc)?;
    for occurrence in &occurrences {
        if !is_guarded_at(alloc, &preceding, critical, patterns, occurrence)? {
            return Ok(false);
        }
    }
    Ok(true)
}
