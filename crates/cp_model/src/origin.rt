// Origins of messages.
ghost use Rattle.std.specs.Prelude.{◌≡◌, ◌⊎◌, map, Some};
ghost use Rattle.cp_model.specs.Message.{Message, IsCarriedBy};
ghost use Rattle.cp_model.specs.Strand.{Event as PlainEvent, payload, Protocol};
ghost use Rattle.cp_model.specs.Bundle.{Bundle as PlainBundle, event_at, OriginatesAt, Precedes, IsBundle};
ghost use Rattle.cp_model.specs.RunView.{trace_view, StandsForBundle};
ghost use Rattle.cp_model.specs.FirstCarriers.{IsFirstCarrying, CarriesAt, IsFirstOnStrand};

use crate::bundle::Bundle;
use crate::message::Msg;
use crate::node::Node;
use crate::strand::{Event, Strand};

/// The index of the first event that carries the message.
fn first_carrying(events: &[Event<Msg>], message: &Msg) -> Option<usize>
    ensures { IsFirstCarrying message.now events.now result }
{
    for (place, event) in events.iter().enumerate() {
        if event.payload().carries(message) {
            return Some(place);
        }
    }
    None
}

/// The first node of a node's strand whose event carries the message; the node itself if none does.
fn first_on_strand(strands: &[Strand], node: Node, message: &Msg) -> Node
    ensures { CarriesAt (map trace_view strands.now) message.now node
        → IsFirstOnStrand (map trace_view strands.now) message.now result node }
{
    let Some(strand) = strands.get(node.strand) else {
        return node;
    };
    match first_carrying(&strand.events, message) {
        Some(index) => Node {
            strand: node.strand,
            index,
        },
        None => node,
    }
}

/// An origin of a message that a node of a bundle carries: a node at which the message originates, and which is that node or
/// precedes it. If the node does not carry the message, the answer is meaningless.
pub fn origin_before(bundle: &Bundle, n: Node, m: &Msg) -> Node
    ensures origin { (protocol : Protocol) (p : PlainBundle) (e : PlainEvent Message) → StandsForBundle bundle.now p → IsBundle protocol p
        → event_at p.strands n ≡ Some e → IsCarriedBy m.now (payload e)
        → OriginatesAt p.strands m.now result × ((result ≡ n) ⊎ Precedes p result n) }
{
    let mut node = n;
    // Going back along a link lowers the number, so there are fewer steps than nodes.
    for _step in 0..bundle.order.len() {
        node = first_on_strand(&bundle.strands, node, m);
        match bundle.sender(node) {
            Some(sender) => node = sender,
            None => return node,
        }
    }
    node
}
