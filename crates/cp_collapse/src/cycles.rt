// Tests whether pairs close a cycle.
ghost use Rattle.std.specs.Prelude.{◌↔◌, IsTrue, IfOk};
ghost use Rattle.cp_collapse.specs.Property.{Has};
ghost use Rattle.cp_collapse.specs.Cycles.{StartsPath, ClosesCycleAt};

use cp_skel::{Node, OrderPair, Predecessors, UniqueAt};
use std::alloc::{AllocError, Global};

/// Whether the pair goes from `node` to one that reaches the node of `leading`.
fn leads_on(leading: &Predecessors<'_>, node: Node, pair: &OrderPair) -> bool
    ensures { IsTrue result ↔ StartsPath leading.now.pairs node leading.now.node pair.now }
{
    pair.earlier == node && leading.has(pair.later)
}

/// Whether some pair goes from `node` to one that reaches the node of `leading`.
fn some_leads_on(leading: &Predecessors<'_>, node: Node, pairs: &[OrderPair]) -> bool
    ensures { IsTrue result ↔ Has (λ p. StartsPath leading.now.pairs node leading.now.node p) pairs.now }
{
    for pair in pairs {
        if leads_on(leading, node, pair) {
            return true;
        }
    }
    false
}

/// Whether some pair from the node closes a cycle with these pairs.
fn is_closed_at(alloc: Global, pairs: &[OrderPair], node: Node) -> Result<bool, AllocError>
    ensures { IfOk result (λ found. IsTrue found ↔ ClosesCycleAt pairs.now node) }
{
    Predecessors::new(alloc, pairs, node).map(|leading| some_leads_on(&leading, node, pairs))
}

/// Whether some pair from the recorded origin of one of these unique values closes a cycle with these pairs.
pub fn some_is_closed(
    alloc: Global,
    pairs: &[OrderPair],
    uniques: &[UniqueAt],
) -> Result<bool, AllocError>
    ensures { IfOk result (λ found. IsTrue found ↔ Has (λ u. ClosesCycleAt pairs.now u.origin) uniques.now) }
{
    for unique in uniques {
        if is_closed_at(alloc, pairs, unique.origin())? {
            return Ok(true);
        }
    }
    Ok(false)
}

/// Whether one of these pairs closes a cycle with the others.
pub(crate) fn some_closes(alloc: Global, pairs: &[OrderPair]) -> Result<bool, AllocError>
    ensures { IfOk result (λ found. IsTrue found ↔ Has (λ q. ClosesCycleAt pairs.now q.earlier) pairs.now) }
{
    for pair in pairs {
        if is_closed_at(alloc, pairs, pair.earlier)? {
            return Ok(true);
        }
    }
    Ok(false)
}
