// The pairs that order the nodes of problems.
ghost use Rattle.std.specs.Prelude.{◌≡◌, ◌++◌, map, option_map, IfOk, OnOk};
ghost use Rattle.std.specs.Option.{option_to_list};
ghost use Rattle.cp_sexpr.specs.View.{view};
ghost use Rattle.cp_language.specs.Roles.{headed, item_or_none, forms_under};
ghost use Rattle.cp_language.specs.Problems.{option_node, on_one_strand, pair_of, pairs_in, is_precedes_item, is_some_transmission, is_some_reception, direction_faults};
ghost use Rattle.cp_model.specs.Skeleton.{term_event_at};
ghost use Rattle.cp_scope.specs.FirstFault.{first_onto};

use crate::nodes::{Direction, node_direction, node_of};
use cp_base::Code;
use cp_scope::{
    FirstFault, ItemHead, headed, item_at, item_head, items_behind, list_items, place_of,
};
use cp_sexpr::Form;
use cp_skel::{Node, OrderPair, Strand};
use std::alloc::{AllocError, Global};

/// The node that a form states, if there is a form and it states one.
pub fn node_if_there(form: Option<&Form>) -> Option<Node>
    ensures { result ≡ option_node (option_map (λ f. view f.now) form.entry) }
{
    match form {
        Some(form) => node_of(form),
        None => None,
    }
}

/// Whether a pair is between two nodes of one strand.
pub fn is_on_one_strand(pair: OrderPair) -> bool
    ensures { result ≡ on_one_strand pair }
{
    pair.earlier.strand == pair.later.strand
}

/// The pair that a form states, if it is between two strands.
pub fn pair_of(form: &Form) -> Option<OrderPair>
    ensures { option_to_list result ≡ pair_of (view form.now) }
{
    let items = list_items(form);
    let (Some(earlier), Some(later)) = (
        node_if_there(item_at(items, 0)),
        node_if_there(item_at(items, 1)),
    ) else {
        return None;
    };
    let pair = OrderPair { earlier, later };
    if is_on_one_strand(pair) {
        None
    } else {
        Some(pair)
    }
}

/// Appends a pair, if there is one.
pub fn add_pair(pair: Option<OrderPair>, pairs: &mut Vec<OrderPair>) -> Result<(), AllocError>
    ensures { OnOk result (pairs.new.items ≡ pairs.old.items ++ option_to_list pair) }
{
    if let Some(pair) = pair {
        pairs.push(pair)?;
    }
    Ok(())
}

/// Appends the pairs that these forms state.
pub fn add_pairs(forms: &[Form], pairs: &mut Vec<OrderPair>) -> Result<(), AllocError>
    ensures { OnOk result (pairs.new.items ≡ pairs.old.items ++ pairs_in (map view forms.now)) }
{
    for form in forms {
        add_pair(pair_of(form), pairs)?;
    }
    Ok(())
}

/// Whether an item orders nodes.
fn is_precedes(form: &Form) -> bool
    ensures { result ≡ is_precedes_item (item_or_none (headed (view form.now))) }
{
    match headed(form) {
        Some(list) => matches!(item_head(list.head), ItemHead::Precedes),
        None => false,
    }
}

/// The pairs that these items of a problem state.
pub(crate) fn pairs_of(alloc: Global, body: &[Form]) -> Result<Vec<OrderPair>, AllocError>
    ensures { IfOk result (λ v. v.items ≡ pairs_in (forms_under is_precedes_item (map view body.now))) }
{
    let mut pairs = Vec::new(alloc);
    for item in body {
        if is_precedes(item) {
            add_pairs(items_behind(item), &mut pairs)?;
        }
    }
    Ok(pairs)
}

/// Whether the event at a node is a transmission.
pub fn is_transmission(strands: &[Strand], node: Node) -> bool
    ensures { result ≡ is_some_transmission (term_event_at strands.now node) }
{
    node_direction(strands, node) == Some(Direction::Transmission)
}

/// Whether the event at a node is a reception.
pub fn is_reception(strands: &[Strand], node: Node) -> bool
    ensures { result ≡ is_some_reception (term_event_at strands.now node) }
{
    node_direction(strands, node) == Some(Direction::Reception)
}

/// Notes the faults of the directions of a pair that these forms state: between two strands it must lead from a
/// transmission to a reception.
pub(crate) fn direction_faults(
    strands: &[Strand],
    earlier: &Form,
    later: &Form,
    pair: OrderPair,
    first: &mut FirstFault,
)
    ensures { first.new ≡ first_onto first.old (direction_faults strands.now (view earlier.now) (view later.now) pair) }
{
    if is_on_one_strand(pair) {
        return;
    }
    first.note_unless(
        is_transmission(strands, pair.earlier),
        place_of(earlier),
        Code::BadNode,
    );
    first.note_unless(
        is_reception(strands, pair.later),
        place_of(later),
        Code::BadNode,
    );
}
