// Nodes that label forms name.
ghost use Rattle.std.specs.Prelude.{◌≡◌, ◌∷◌, [], map, option_map};
ghost use Rattle.cp_model.specs.Skeleton.{term_event_at};
ghost use Rattle.cp_sexpr.specs.View.{view};
ghost use Rattle.cp_language.specs.Problems.{is_known, option_node};
ghost use Rattle.cp_report.specs.Misfits.{any_number_misfits, entries_misfits, list_misfits};
ghost use Rattle.cp_report.specs.Skeletons.{node_misfits, node_or_first, there_misfits};
ghost use Rattle.cp_spelled.specs.FirstMisfit.{first_onto};

use cp_base::Place;
use cp_load::{node_direction, node_if_there, node_of};
use cp_scope::place_of;
use cp_sexpr::Form;
use cp_skel::{Node, Strand};
use cp_spelled::{FirstMisfit, any_number_misfits, no_more, one_number_misfits};

/// The items of the list at this place must be two numbers.
pub fn two_numbers_misfits(place: Place, items: &[Form], first: &mut FirstMisfit)
    ensures { first.new ≡ first_onto first.old (entries_misfits (any_number_misfits ∷ any_number_misfits ∷ []) place (map view items.now)) }
{
    let Some((number, rest)) = items.split_first() else {
        first.note(place);
        return;
    };
    any_number_misfits(number, first);
    one_number_misfits(place, rest, first);
}

/// The form must be a list of two numbers.
fn numbers_misfits(form: &Form, first: &mut FirstMisfit)
    ensures { first.new ≡ first_onto first.old (list_misfits (entries_misfits (any_number_misfits ∷ any_number_misfits ∷ [])) (view form.now)) }
{
    let Form::List(place, items) = form else {
        first.note(place_of(form));
        return;
    };
    two_numbers_misfits(*place, items.as_slice(), first);
}

/// Whether there is an event at a node.
pub fn is_there(strands: &[Strand], node: Node) -> bool
    ensures { result ≡ is_known (term_event_at strands.now node) }
{
    node_direction(strands, node).is_some()
}

/// If a form names a node, the node must exist.
fn there_misfits(strands: &[Strand], place: Place, node: Option<Node>, first: &mut FirstMisfit)
    ensures { first.new ≡ first_onto first.old (there_misfits strands.now place node) }
{
    if let Some(node) = node {
        first.note_unless(is_there(strands, node), place);
    }
}

/// The form must be a node that exists.
pub fn node_misfits(strands: &[Strand], form: &Form, first: &mut FirstMisfit)
    ensures { first.new ≡ first_onto first.old (node_misfits strands.now (view form.now)) }
{
    numbers_misfits(form, first);
    there_misfits(strands, place_of(form), node_of(form), first);
}

/// The remaining items of the list at this place must be one node that exists.
pub(crate) fn one_node_misfits(
    strands: &[Strand],
    place: Place,
    items: &[Form],
    first: &mut FirstMisfit,
)
    ensures { first.new ≡ first_onto first.old (entries_misfits (node_misfits strands.now ∷ []) place (map view items.now)) }
{
    let Some((node, rest)) = items.split_first() else {
        first.note(place);
        return;
    };
    node_misfits(strands, node, first);
    no_more(rest, first);
}

/// The node that a form states, or the first node if it states none.
pub fn node_or_first(form: Option<&Form>) -> Node
    ensures { result ≡ node_or_first (option_node (option_map (λ f. view f.now) form.entry)) }
{
    match node_if_there(form) {
        Some(node) => node,
        None => Node {
            strand: 0,
            index: 0,
        },
    }
}
