// The order that a label form states.
ghost use Rattle.std.specs.Prelude.{◌≡◌, ◌++◌, ◌∷◌, [], map, codes, Some, None, IfOk, OnOk};
ghost use Rattle.cp_sexpr.specs.View.{view};
ghost use Rattle.cp_language.specs.Problems.{pair_of, between_strands};
ghost use Rattle.cp_load.specs.Acyclic.{IsAcyclicIf};
ghost use Rattle.cp_report.specs.Misfits.{entries_misfits, list_misfits};
ghost use Rattle.cp_report.specs.Heads.{item_with, optional_misfits};
ghost use Rattle.cp_report.specs.Skeletons.{node_misfits, has_pair, is_further_pair, pair_stated, pair_misfits, pairs_misfits, precedes_misfits, pairs_under};
ghost use Rattle.cp_spelled.specs.FirstMisfit.{first_onto};

use crate::heads::item_with;
use crate::nodes::{node_misfits, one_node_misfits};
use cp_base::Place;
use cp_load::{
    add_pair, add_pairs, closes_cycle, have_no_cycle, is_on_one_strand, is_reception,
    is_transmission, node_if_there, pair_of, pair_of_nodes,
};
use cp_scope::{item_at, items_behind, list_items, place_of};
use cp_sexpr::Form;
use cp_skel::{OrderPair, Strand};
use cp_spelled::{FirstMisfit, entries_under, lacking};
use std::alloc::{AllocError, Global};

/// Whether a pair is one of these.
fn has_pair(pairs: &[OrderPair], pair: OrderPair) -> bool
    ensures { result ≡ has_pair pairs.now pair }
{
    for other in pairs {
        if *other == pair {
            return true;
        }
    }
    false
}

/// The strands of a label and the pairs before another pair, and whether these are said to have no cycle with it.
#[derive(Clone, Copy)]
struct Before<'a> {
    strands: &'a [Strand],
    pairs: &'a [OrderPair],
    acyclic: bool,
}

/// Whether a pair goes from a transmission to a reception of another strand, is not among those before it, and closes
/// no cycle.
fn is_further(alloc: Global, before: Before<'_>, pair: OrderPair) -> Result<bool, AllocError>
    requires { IsAcyclicIf before.acyclic (before.pairs.now ++ between_strands (Some pair)) }
    ensures { IfOk result (λ b. b ≡ is_further_pair before.entry.strands.now before.entry.pairs.now (Some pair)) }
{
    if !is_transmission(before.strands, pair.earlier) {
        return Ok(false);
    }
    if !is_reception(before.strands, pair.later) {
        return Ok(false);
    }
    if is_on_one_strand(pair) {
        return Ok(false);
    }
    if has_pair(before.pairs, pair) {
        return Ok(false);
    }
    closes_cycle(alloc, before.pairs, before.acyclic, pair).map(|closes| !closes)
}

/// The pair that a form states, if it states one.
fn pair_stated(form: &Form) -> Option<OrderPair>
    ensures { result ≡ pair_stated (view form.now) }
{
    let items = list_items(form);
    pair_of_nodes(
        node_if_there(item_at(items, 0)),
        node_if_there(item_at(items, 1)),
    )
}

/// Whether a pair may follow those before it; `true` if there is no pair.
fn may_follow(
    alloc: Global,
    before: Before<'_>,
    pair: Option<OrderPair>,
) -> Result<bool, AllocError>
    requires { IsAcyclicIf before.acyclic (before.pairs.now ++ between_strands pair) }
    ensures { IfOk result (λ b. b ≡ is_further_pair before.entry.strands.now before.entry.pairs.now pair) }
{
    match pair {
        Some(pair) => is_further(alloc, before, pair),
        None => Ok(true),
    }
}

/// The items of the list at this place must be two nodes.
fn two_nodes_misfits(strands: &[Strand], place: Place, items: &[Form], first: &mut FirstMisfit)
    ensures { first.new ≡ first_onto first.old (entries_misfits (node_misfits strands.now ∷ node_misfits strands.now ∷ []) place (map view items.now)) }
{
    let Some((node, rest)) = items.split_first() else {
        first.note(place);
        return;
    };
    node_misfits(strands, node, first);
    one_node_misfits(strands, place, rest, first);
}

/// The form must be a list of two nodes.
fn nodes_misfits(strands: &[Strand], form: &Form, first: &mut FirstMisfit)
    ensures { first.new ≡ first_onto first.old (list_misfits (entries_misfits (node_misfits strands.now ∷ node_misfits strands.now ∷ [])) (view form.now)) }
{
    let Form::List(place, items) = form else {
        first.note(place_of(form));
        return;
    };
    two_nodes_misfits(strands, *place, items.as_slice(), first);
}

/// The first misfit of a form, which must be a pair that may follow those before it. If `before.acyclic`, those and
/// this pair must have no cycle.
fn pair_misfits(alloc: Global, before: Before<'_>, form: &Form) -> Result<FirstMisfit, AllocError>
    requires { IsAcyclicIf before.acyclic (before.pairs.now ++ pair_of (view form.now)) }
    ensures { IfOk result (λ inside. inside ≡ first_onto None (pair_misfits before.entry.strands.now before.entry.pairs.now (view form.now))) }
{
    let mut inside = FirstMisfit::new();
    nodes_misfits(before.strands, form, &mut inside);
    let follows = may_follow(alloc, before, pair_stated(form))?;
    inside.note_unless_misfit(follows, place_of(form));
    Ok(inside)
}

/// The forms must be pairs, each of which may follow those before it.
fn pairs_misfits(
    alloc: Global,
    strands: &[Strand],
    items: &[Form],
    first: &mut FirstMisfit,
) -> Result<(), AllocError>
    ensures { OnOk result (first.new ≡ first_onto first.old (pairs_misfits strands.now [] (map view items.now))) }
{
    let mut pairs = Vec::new(alloc);
    add_pairs(items, &mut pairs)?;
    let acyclic = have_no_cycle(alloc, &pairs)?;
    let mut before = Vec::new(alloc);
    for form in items {
        let stated = Before {
            strands,
            pairs: &before,
            acyclic,
        };
        let inside = pair_misfits(alloc, stated, form)?;
        first.merge(inside);
        add_pair(pair_of(form), &mut before)?;
    }
    Ok(())
}

/// Notes where the order among these items of a label form, if there is one, does not fit: its entries must be pairs, at
/// least one.
pub(crate) fn order_misfits(
    alloc: Global,
    strands: &[Strand],
    items: &[Form],
    first: &mut FirstMisfit,
) -> Result<(), AllocError>
    ensures { OnOk result (first.new ≡ first_onto first.old (optional_misfits (precedes_misfits strands.now)
        (item_with (codes "precedes" ∷ []) (map view items.now)))) }
{
    let Some(item) = item_with(items, b"precedes") else {
        return Ok(());
    };
    let entries = items_behind(item);
    lacking(1, place_of(item), entries, first);
    pairs_misfits(alloc, strands, entries, first)
}

/// The pairs that these items of a label form state.
pub(crate) fn pairs_under(alloc: Global, items: &[Form]) -> Result<Vec<OrderPair>, AllocError>
    ensures { IfOk result (λ v. v.items ≡ pairs_under (map view items.now)) }
{
    let mut pairs = Vec::new(alloc);
    add_pairs(entries_under(items, b"precedes"), &mut pairs).map(|_| pairs)
}
