// Transmissions of role strands.
ghost use Rattle.std.specs.Prelude.{◌≡◌, IfOk};
ghost use Rattle.cp_derive.specs.Transmissions.{transmissions_among};

use cp_skel::{Event, LocatedEvent, Node};
use cp_term::Term;
use std::alloc::{AllocError, Global};

/// A transmission of a role strand: its node and message.
#[derive(Drop)]
pub(crate) struct Transmission {
    pub(crate) node: Node,
    pub(crate) message: Term,
}

/// The transmissions of role strands among these events.
pub(crate) fn transmissions(
    alloc: Global,
    occurrences: &[LocatedEvent<'_>],
) -> Result<Vec<Transmission>, AllocError>
    ensures { IfOk result (λ ts. ts.items ≡ transmissions_among occurrences.now) }
{
    let mut transmissions = Vec::new(alloc);
    for occurrence in occurrences {
        if !occurrence.is_by_role() {
            continue;
        }
        if let Event::Send(message) = occurrence.event() {
            let message = message.copy()?;
            transmissions.push(Transmission {
                node: occurrence.node(),
                message,
            })?;
        }
    }
    Ok(transmissions)
}
