// Nodes of problems: their faults, and the directions of their events.
ghost use Rattle.std.specs.Prelude.{◌≡◌, map, option_map};
ghost use Rattle.cp_lists.specs.Lists.{item_at};
ghost use Rattle.cp_model.specs.Skeleton.{skeleton_trace, term_event_at};
ghost use Rattle.cp_sexpr.specs.View.{view};
ghost use Rattle.cp_language.specs.Problems.{node_of, range_faults, two_number_faults, node_faults};
ghost use Rattle.cp_scope.specs.FirstFault.{first_onto};
ghost use Rattle.cp_load.specs.Directions.{direction_of, number_form, number_faults_if};

use cp_base::{Code, Place};
use cp_scope::{FirstFault, item_at, lacks, list_items, place_of};
use cp_sexpr::Form;
use cp_skel::{Event, Node, Strand, StrandShape, prefix_of};

/// The direction of an event.
#[derive(Clone, Copy, Debug, PartialEq, Eq)]
pub enum Direction {
    Transmission,
    Reception,
}

/// The direction of the event at an index.
fn event_direction(events: &[Event], index: usize) -> Option<Direction>
    ensures { result ≡ direction_of (item_at events.now index) }
{
    match events.get(index) {
        Some(Event::Send(_)) => Some(Direction::Transmission),
        Some(Event::Receive(_)) => Some(Direction::Reception),
        None => None,
    }
}

/// The direction of the event at an index of a strand.
fn strand_direction(strand: &Strand, index: usize) -> Option<Direction>
    ensures { result ≡ direction_of (item_at (skeleton_trace strand.now) index) }
{
    match strand.shape() {
        StrandShape::Instance(instance) => event_direction(
            prefix_of(instance.role(), instance.height()),
            index,
        ),
        StrandShape::Listener(_) => match index {
            0 => Some(Direction::Reception),
            1 => Some(Direction::Transmission),
            _ => None,
        },
    }
}

/// The direction of the event at a node, if there is one.
pub fn node_direction(strands: &[Strand], node: Node) -> Option<Direction>
    ensures { result ≡ direction_of (term_event_at strands.now node) }
{
    match strands.get(node.strand) {
        Some(strand) => strand_direction(strand, node.index),
        None => None,
    }
}

/// The number that a form is, if it is one.
fn number(form: Option<&Form>) -> Option<usize>
    ensures { result ≡ number_form (option_map (λ f. view f.now) form.entry) }
{
    match form {
        Some(Form::Number(_, number)) => Some(*number),
        _ => None,
    }
}

/// The node that a form states, if it states one.
pub fn node_of(form: &Form) -> Option<Node>
    ensures { result ≡ node_of (view form.now) }
{
    let items = list_items(form);
    match (number(item_at(items, 0)), number(item_at(items, 1))) {
        (Some(strand), Some(index)) => Some(Node { strand, index }),
        _ => None,
    }
}

/// An item of a node has to be a number.
fn number_faults(form: Option<&Form>, first: &mut FirstFault)
    ensures { first.new ≡ first_onto first.old (number_faults_if (option_map (λ f. view f.now) form.entry)) }
{
    match form {
        None | Some(Form::Number(..)) => {}
        Some(form) => first.note(place_of(form), Code::BadShape),
    }
}

/// A node has to exist.
fn range_faults(strands: &[Strand], place: Place, node: Option<Node>, first: &mut FirstFault)
    ensures { first.new ≡ first_onto first.old (range_faults strands.now place node) }
{
    if let Some(node) = node {
        first.note_unless(
            node_direction(strands, node).is_some(),
            place,
            Code::BadNode,
        );
    }
}

/// The first two items of a node have to be numbers.
fn two_number_faults(items: &[Form], first: &mut FirstFault)
    ensures { first.new ≡ first_onto first.old (two_number_faults (map view items.now)) }
{
    number_faults(item_at(items, 0), first);
    number_faults(item_at(items, 1), first);
}

/// Notes the faults of a node that a form states.
pub(crate) fn node_faults(strands: &[Strand], form: &Form, first: &mut FirstFault)
    ensures { first.new ≡ first_onto first.old (node_faults strands.now (view form.now)) }
{
    let Form::List(place, items) = form else {
        first.note(place_of(form), Code::BadShape);
        return;
    };
    let items = items.as_slice();
    lacks(2, *place, items, first);
    range_faults(strands, *place, node_of(form), first);
    two_number_faults(items, first);
}
