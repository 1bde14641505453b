// The faults of the pairs of problems.
ghost use Rattle.std.specs.Prelude.{◌≡◌, ◌++◌, map, Some, IfOk, OnOk};
ghost use Rattle.cp_sexpr.specs.View.{view};
ghost use Rattle.cp_language.specs.Roles.{unless_faulty};
ghost use Rattle.cp_language.specs.Problems.{node_of, node_faults, pair_of_nodes, at_or_after, any_pair, closes_cycle, order_faults, pair_items_faults, pair_faults, pairs_in, pairs_faults, between_strands, pair_of};
ghost use Rattle.cp_scope.specs.FirstFault.{first_onto};
ghost use Rattle.cp_load.specs.Acyclic.{IsAcyclicIf, IsAcyclicUpTo, pair_of_items};
ghost use Rattle.cp_load.specs.Behind.{is_behind_fault};

use crate::nodes::{node_faults, node_of};
use crate::pairs::{add_pair, direction_faults, is_on_one_strand, pair_of};
use cp_base::{Code, Place};
use cp_scope::{FirstFault, exceeds, list_items, place_of};
use cp_sexpr::Form;
use cp_skel::{Node, OrderPair, Predecessors, Strand};
use std::alloc::{AllocError, Global};

/// Whether the other node is this one or comes after it on its strand.
fn is_at_or_after(node: Node, other: Node) -> bool
    ensures { result ≡ at_or_after node other }
{
    node.strand == other.strand && node.index <= other.index
}

/// Whether one of the pairs begins at a node or after it on its strand.
fn some_begins_behind(pairs: &[OrderPair], node: Node) -> bool
    ensures { result ≡ any_pair (λ p. at_or_after node p.earlier) pairs.now }
{
    for pair in pairs {
        if is_at_or_after(node, pair.earlier) {
            return true;
        }
    }
    false
}

/// Whether one of the pairs ends at a node or before it on its strand.
fn some_ends_before(pairs: &[OrderPair], node: Node) -> bool
    ensures { result ≡ any_pair (λ p. at_or_after p.later node) pairs.now }
{
    for pair in pairs {
        if is_at_or_after(pair.later, node) {
            return true;
        }
    }
    false
}

/// Whether a pair goes back or stays on one strand, or closes a cycle with strand order and the pairs before it.
///
/// `acyclic` may be set only if these pairs and this one have no cycle. No path is searched for if it is set, if no
/// pair leaves the strand at which the path would begin, or if none comes to the strand at which it would end.
pub fn closes_cycle(
    alloc: Global,
    before: &[OrderPair],
    acyclic: bool,
    pair: OrderPair,
) -> Result<bool, AllocError>
    requires { IsAcyclicIf acyclic (before.now ++ between_strands (Some pair)) }
    ensures { IfOk result (λ closes. closes ≡ closes_cycle before.now pair) }
{
    if is_on_one_strand(pair) {
        return Ok(pair.later.index <= pair.earlier.index);
    }
    if acyclic {
        return Ok(false);
    }
    if !some_begins_behind(before, pair.later) {
        return Ok(false);
    }
    if !some_ends_before(before, pair.earlier) {
        return Ok(false);
    }
    Predecessors::new(alloc, before, pair.earlier).map(|leading| leading.has(pair.later))
}

/// The pair of two nodes, if both are there.
pub fn pair_of_nodes(earlier: Option<Node>, later: Option<Node>) -> Option<OrderPair>
    ensures { result ≡ pair_of_nodes earlier later }
{
    match (earlier, later) {
        (Some(earlier), Some(later)) => Some(OrderPair { earlier, later }),
        _ => None,
    }
}

/// The context of a pair: the strands of the problem, the pairs that it states before, and whether these are said to
/// have no cycle with the pair.
#[derive(Clone, Copy)]
struct Before<'a> {
    strands: &'a [Strand],
    pairs: &'a [OrderPair],
    acyclic: bool,
}

/// A pair at its place, given by the two forms that state its nodes.
#[derive(Clone, Copy)]
struct Stated<'a> {
    place: Place,
    earlier: &'a Form,
    later: &'a Form,
}

/// Whether a fault was already noted before each fault that the order of a pair can have, so that none of these is the
/// first.
fn is_behind_fault(first: &FirstFault, stated: Stated<'_>) -> bool
    ensures { result ≡ is_behind_fault first.now stated.entry.place (view stated.entry.earlier.now) (view stated.entry.later.now) }
{
    first.stands_before(stated.place, Code::CyclicOrder)
        && first.stands_before(place_of(stated.earlier), Code::BadNode)
        && first.stands_before(place_of(stated.later), Code::BadNode)
}

/// Notes the faults of the pair that two forms state: a cycle, or else its directions. Tests nothing if a fault before
/// these was already noted. If `before.acyclic`, here and below, the pairs before and this pair must have no cycle.
fn order_faults(
    alloc: Global,
    before: Before<'_>,
    stated: Stated<'_>,
    first: &mut FirstFault,
) -> Result<(), AllocError>
    requires { IsAcyclicIf before.acyclic (before.pairs.now ++ between_strands (pair_of_nodes (node_of (view stated.earlier.now)) (node_of (view stated.later.now)))) }
    ensures { OnOk result (first.new ≡ first_onto first.old (order_faults before.entry.strands.now before.entry.pairs.now stated.entry.place (view stated.entry.earlier.now) (view stated.entry.later.now)
        (pair_of_nodes (node_of (view stated.entry.earlier.now)) (node_of (view stated.entry.later.now))))) }
{
    let Some(pair) = pair_of_nodes(node_of(stated.earlier), node_of(stated.later)) else {
        return Ok(());
    };
    if is_behind_fault(first, stated) {
        return Ok(());
    }
    if closes_cycle(alloc, before.pairs, before.acyclic, pair)? {
        first.note(stated.place, Code::CyclicOrder);
    } else {
        direction_faults(before.strands, stated.earlier, stated.later, pair, first);
    }
    Ok(())
}

/// Notes the faults of the two nodes that forms state; if they have none, those of their pair.
fn nodes_or_order_faults(
    alloc: Global,
    before: Before<'_>,
    place: Place,
    earlier: &Form,
    later: &Form,
    first: &mut FirstFault,
) -> Result<(), AllocError>
    requires { IsAcyclicIf before.acyclic (before.pairs.now ++ between_strands (pair_of_nodes (node_of (view earlier.now)) (node_of (view later.now)))) }
    ensures { OnOk result (first.new ≡ first_onto first.old (unless_faulty (node_faults before.entry.strands.now (view earlier.now) ++ node_faults before.entry.strands.now (view later.now))
        (order_faults before.entry.strands.now before.entry.pairs.now place (view earlier.now) (view later.now) (pair_of_nodes (node_of (view earlier.now)) (node_of (view later.now)))))) }
{
    let mut inside = FirstFault::new();
    node_faults(before.strands, earlier, &mut inside);
    node_faults(before.strands, later, &mut inside);
    if inside.is_none() {
        let stated = Stated {
            place,
            earlier,
            later,
        };
        return order_faults(alloc, before, stated, first);
    }
    first.merge(inside);
    Ok(())
}

/// Notes the faults of a pair with these items.
fn pair_items_faults(
    alloc: Global,
    before: Before<'_>,
    place: Place,
    items: &[Form],
    first: &mut FirstFault,
) -> Result<(), AllocError>
    requires { IsAcyclicIf before.acyclic (before.pairs.now ++ pair_of_items (map view items.now)) }
    ensures { OnOk result (first.new ≡ first_onto first.old (pair_items_faults before.entry.strands.now before.entry.pairs.now place (map view items.now))) }
{
    let [earlier, later, rest @ ..] = items else {
        first.note(place, Code::BadShape);
        return Ok(());
    };
    nodes_or_order_faults(alloc, before, place, earlier, later, first)?;
    exceeds(2, list_items(earlier), first);
    exceeds(2, list_items(later), first);
    exceeds(0, rest, first);
    Ok(())
}

/// Notes the faults of a pair that a form states.
fn pair_faults(
    alloc: Global,
    before: Before<'_>,
    form: &Form,
    first: &mut FirstFault,
) -> Result<(), AllocError>
    requires { IsAcyclicIf before.acyclic (before.pairs.now ++ pair_of (view form.now)) }
    ensures { OnOk result (first.new ≡ first_onto first.old (pair_faults before.entry.strands.now before.entry.pairs.now (view form.now))) }
{
    let Form::List(place, items) = form else {
        first.note(place_of(form), Code::BadShape);
        return Ok(());
    };
    pair_items_faults(alloc, before, *place, items.as_slice(), first)
}

/// Notes the faults of the pairs that these forms state, and appends the pairs to `before`. The first `acyclic_count`
/// of all these pairs must have no cycle.
pub(crate) fn pairs_faults(
    alloc: Global,
    strands: &[Strand],
    before: &mut Vec<OrderPair>,
    acyclic_count: usize,
    items: &[Form],
    first: &mut FirstFault,
) -> Result<(), AllocError>
    requires { IsAcyclicUpTo acyclic_count (before.old.items ++ pairs_in (map view items.now)) }
    ensures faults { OnOk result (first.new ≡ first_onto first.old (pairs_faults strands.now before.old.items (map view items.now))) }
    ensures pairs { OnOk result (before.new.items ≡ before.old.items ++ pairs_in (map view items.now)) }
{
    for form in items {
        let stated = Before {
            strands,
            acyclic: before.len() < acyclic_count,
            pairs: before,
        };
        pair_faults(alloc, stated, form, first)?;
        add_pair(pair_of(form), before)?;
    }
    Ok(())
}
