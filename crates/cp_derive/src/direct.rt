// Messages that are sent at a node from which a pair leads to another.
ghost use Rattle.std.specs.Prelude.{IsTrue};
ghost use Rattle.cp_lists.specs.Lists.{IsIn};
ghost use Rattle.cp_derive.specs.Direct.{IsSentDirectly};

use crate::transmission::Transmission;
use cp_skel::{Node, OrderPair};
use cp_term::Term;

/// Whether a pair is among these.
fn is_listed(pairs: &[OrderPair], pair: OrderPair) -> bool
    ensures { IsTrue result → IsIn pair pairs.now }
{
    pairs.iter().any(|other| *other == pair)
}

/// Whether one of the transmissions sends this message, at a node from which one of the pairs leads to this one.
pub(crate) fn is_sent_directly(
    transmissions: &[Transmission],
    pairs: &[OrderPair],
    message: &Term,
    later: Node,
) -> bool
    ensures { IsTrue result → IsSentDirectly transmissions.now pairs.now message.now later }
{
    for transmission in transmissions {
        let earlier = transmission.node;
        if transmission.message.same(message) && is_listed(pairs, OrderPair { earlier, later }) {
            return true;
        }
    }
    false
}
