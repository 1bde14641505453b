// Transmissions of role strands before a node.
ghost use Rattle.std.specs.Prelude.{◌↔◌, IsTrue};
ghost use Rattle.cp_cohort.specs.CoveringChildren.{IsTransmissionBefore};

use cp_derive::AtNode;
use cp_skel::{Event, LocatedEvent};

/// Whether an event of the node's skeleton is a transmission of a role strand before the node.
pub fn is_sent_before(at: &AtNode<'_>, occurrence: &LocatedEvent<'_>) -> bool
    ensures { IsTrue result ↔ IsTransmissionBefore at.now.skeleton at.now.node occurrence.now }
{
    if !occurrence.is_by_role() {
        return false;
    }
    match occurrence.event() {
        Event::Send(_) => at.has_before(occurrence.node()),
        Event::Receive(_) => false,
    }
}
