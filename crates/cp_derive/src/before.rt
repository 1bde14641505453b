// The transmissions before a node.
ghost use Rattle.std.specs.Prelude.{◌≡◌, option_map, IfOk};
ghost use Rattle.cp_lists.specs.Lists.{item_at};
ghost use Rattle.cp_derive.specs.AtNode.{AreSentBefore};
ghost use Rattle.cp_derive.specs.Before.{ArePlacesBefore, messages_at};

use crate::transmission::Transmission;
use cp_skel::{Event, LocatedEvent, Node, Preceding, SortedPairs};
use cp_term::Term;
use std::alloc::{AllocError, Global};

/// The places, in the list of transmissions, of those at other nodes that reach this one.
pub(crate) fn places_before(
    alloc: Global,
    sorted: &SortedPairs<'_>,
    transmissions: &[Transmission],
    node: Node,
) -> Result<Vec<usize>, AllocError>
    ensures { IfOk result (λ ps. ArePlacesBefore sorted.now node transmissions.now ps.items) }
{
    let leading = sorted.predecessors_of(alloc, node)?;
    let mut places = Vec::new(alloc);
    for (place, transmission) in transmissions.iter().enumerate() {
        if leading.has(transmission.node) && transmission.node != node {
            places.push(place)?;
        }
    }
    Ok(places)
}

/// The message of the transmission at a place, if there is one.
fn message_of(transmissions: &[Transmission], place: usize) -> Option<&Term>
    ensures { option_map (λ t. t.now) result ≡ option_map (λ t. t.message) (item_at transmissions.now place) }
{
    match transmissions.get(place) {
        Some(transmission) => Some(&transmission.message),
        None => None,
    }
}

/// The messages of the transmissions at these places.
pub(crate) fn messages_at(
    alloc: Global,
    places: &[usize],
    transmissions: &[Transmission],
) -> Result<Vec<Term>, AllocError>
    ensures { IfOk result (λ ts. ts.items ≡ messages_at places.now transmissions.now) }
{
    let mut messages = Vec::with_capacity(alloc, places.len())?;
    for place in places {
        if let Some(sent) = message_of(transmissions, *place) {
            let message = sent.copy()?;
            messages.push(message)?;
        }
    }
    Ok(messages)
}

/// The messages that role strands send at those of the events that are before the node.
pub(crate) fn sent_before(
    alloc: Global,
    events: &[LocatedEvent<'_>],
    preceding: &Preceding<'_>,
) -> Result<Vec<Term>, AllocError>
    ensures { IfOk result (λ ts. AreSentBefore preceding.now events.now ts.items) }
{
    let mut sent = Vec::new(alloc);
    for located in events {
        if !located.is_by_role() || !preceding.has(located.node()) {
            continue;
        }
        if let Event::Send(message) = located.event() {
            let message = message.copy()?;
            sent.push(message)?;
        }
    }
    Ok(sent)
}
