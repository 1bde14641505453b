// What the listeners of a skeleton hear.
ghost use Rattle.std.specs.Prelude.{◌≡◌, if◌then◌else◌, IfOk};
ghost use Rattle.cp_fingerprint.specs.SharedValues.{listened};

use cp_skel::{Event, Strand, StrandShape};
use std::alloc::{AllocError, Global};

/// The messages of the listeners.
pub(crate) fn listened(alloc: Global, strands: &[Strand]) -> Result<Vec<Event>, AllocError>
    ensures { IfOk result (λ es. es.items ≡ listened strands.now) }
{
    let mut events = Vec::new(alloc);
    for strand in strands {
        let StrandShape::Listener(message) = strand.shape() else {
            continue;
        };
        events.push(Event::Receive(message.copy()?))?;
    }
    Ok(events)
}

/// The weight for whether listeners hear a value.
pub(crate) fn heard_weight(heard: bool) -> usize
    ensures { result ≡ (if heard then 4099 else 0) }
{
    if heard { 4099 } else { 0 }
}
