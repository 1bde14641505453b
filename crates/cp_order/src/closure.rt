// Closed orders: whatever reaches a node of another strand reaches it along one pair.
ghost use Rattle.std.specs.Prelude.{◌≡◌, ◌∷◌, IfOk, OnOk};
ghost use Rattle.cp_order.specs.Closed.{IsTransitive, KeepsOrder};
ghost use Rattle.cp_order.specs.Composed.{joined_pair, all_joined, composed_from, composed_pairs};

use crate::paths::leads_along_one;
use crate::predecessors::is_at_or_before;
use cp_model::{Node, OrderPair};
use std::alloc::{AllocError, Global};

/// Appends a pair, unless the others lead from its first node to its second along one pair.
fn join(pairs: &mut Vec<OrderPair>, pair: OrderPair) -> Result<(), AllocError>
    ensures { OnOk result (pairs.new.items ≡ joined_pair pairs.old.items pair) }
{
    if leads_along_one(pairs, pair.earlier, pair.later) {
        return Ok(());
    }
    pairs.push(pair).map_err(AllocError::from)
}

/// Joins the pairs that lead from the first node to the second and on along one of the closed pairs.
fn join_from(
    closed: &[OrderPair],
    earlier: Node,
    later: Node,
    pairs: &mut Vec<OrderPair>,
) -> Result<(), AllocError>
    ensures { OnOk result (pairs.new.items ≡ all_joined pairs.old.items (composed_from closed.now earlier later)) }
{
    join(pairs, OrderPair { earlier, later })?;
    for next in closed {
        if !is_at_or_before(later, next.earlier) {
            continue;
        }
        let later = next.later;
        join(pairs, OrderPair { earlier, later })?;
    }
    Ok(())
}

/// The closed pairs, and what a pair makes with those that reach it and those that it reaches.
fn with_composed(
    alloc: Global,
    closed: &[OrderPair],
    pair: OrderPair,
) -> Result<Vec<OrderPair>, AllocError>
    ensures { IfOk result (λ v. v.items ≡ all_joined closed.now (composed_pairs closed.now pair)) }
{
    let mut pairs = Vec::from_slice(alloc, closed)?;
    join_from(closed, pair.earlier, pair.later, &mut pairs)?;
    for before in closed {
        if !is_at_or_before(before.later, pair.earlier) {
            continue;
        }
        join_from(closed, before.earlier, pair.later, &mut pairs)?;
    }
    Ok(pairs)
}

/// Closed pairs with the same order as these closed pairs and one more.
pub(crate) fn with_pair(
    alloc: Global,
    closed: &[OrderPair],
    pair: OrderPair,
) -> Result<Vec<OrderPair>, AllocError>
    requires { IsTransitive closed.now }
    ensures closed { IfOk result (λ v. IsTransitive v.items) }
    ensures keeps { IfOk result (λ v. KeepsOrder (pair ∷ closed.now) v.items) }
{
    with_composed(alloc, closed, pair)
}

/// Closed pairs with the same order as these.
pub(crate) fn closed_pairs(alloc: Global, pairs: &[OrderPair]) -> Result<Vec<OrderPair>, AllocError>
    ensures closed { IfOk result (λ v. IsTransitive v.items) }
    ensures keeps { IfOk result (λ v. KeepsOrder pairs.now v.items) }
{
    let mut closed = Vec::new(alloc);
    for pair in pairs {
        closed = with_pair(alloc, &closed, *pair)?;
    }
    Ok(closed)
}
