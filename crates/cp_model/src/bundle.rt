// Runs and bundles, and the events at their nodes.
ghost use Rattle.std.specs.Prelude.{◌≡◌, map};
ghost use Rattle.std.specs.Option.{option_map, option_and_then};
ghost use Rattle.cp_lists.specs.Lists.{item_at};
ghost use Rattle.cp_model.specs.RunView.{trace_view, event_in, link_in, sender_in, row_view};

use crate::lists::item_at;
use crate::message::Msg;
use crate::node::Node;
use crate::strand::{Event, Strand};

/// A run: strands, and the sequence of their events.
#[derive(Drop)]
pub struct Run {
    pub strands: Vec<Strand>,
    pub events: Vec<Node>,
}

/// A bundle: strands; for each event of each strand its sender, if the event is a reception; and a numbering of the nodes, as a
/// list of them.
#[derive(Drop)]
pub struct Bundle {
    pub strands: Vec<Strand>,
    pub senders: Vec<Vec<Option<Node>>>,
    pub order: Vec<Node>,
}

/// The event at a node, if there is one.
pub(crate) fn event_at(strands: &[Strand], node: Node) -> Option<&Event<Msg>>
    ensures { option_map (λ e. e.now) result ≡ event_in (map trace_view strands.now) node }
{
    match strands.get(node.strand) {
        Some(strand) => item_at(&strand.events, node.index),
        None => None,
    }
}

/// The sender at an index of a strand's row, from 0.
fn sender_on(row: &[Option<Node>], place: usize) -> Option<Node>
    ensures { result ≡ option_and_then (λ o. o) (item_at row.now place) }
{
    match row.get(place) {
        Some(sender) => *sender,
        None => None,
    }
}

/// The sender that the rows give for a node.
fn link_at(rows: &[Vec<Option<Node>>], node: Node) -> Option<Node>
    ensures { result ≡ link_in (map row_view rows.now) node }
{
    match rows.get(node.strand) {
        Some(row) => sender_on(row, node.index),
        None => None,
    }
}

impl Bundle {
    /// The sender of the reception at a node; `None` if there is no reception.
    pub fn sender(&self, node: Node) -> Option<Node>
        ensures { result ≡ sender_in self.now node }
    {
        match event_at(&self.strands, node) {
            Some(Event::Receive(_)) => link_at(&self.senders, node),
            _ => None,
        }
    }
}
