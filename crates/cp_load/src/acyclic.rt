// Tests whether the pairs of a problem are acyclic, all of them at once; if not, for how many of them this can be seen.
ghost use Rattle.std.specs.Prelude.{◌≡◌, ◌||◌, map, IfOk, OnOk};
ghost use Rattle.cp_lists.specs.Lists.{IsIn};
ghost use Rattle.cp_model.specs.Bundle as bundle;
ghost use Rattle.cp_model.specs.declared.node.Node.{Node};
ghost use Rattle.cp_model.specs.Skeleton as model;
ghost use Rattle.cp_model.specs.declared.node.OrderPair.{OrderPair};
ghost use Rattle.cp_sexpr.specs.View.{view};
ghost use Rattle.cp_model.specs.OrderTests.{at_or_after};
ghost use Rattle.cp_order.specs.PredecessorNodes.{tops_of, is_under_tops};
ghost use Rattle.cp_load.specs.Acyclic.{IsAcyclicIf, IsAcyclicUpTo, pairs_stated};

use crate::pairs::pairs_of;
use crate::ranks::ranks_of;
use cp_sexpr::Form;
use cp_skel::{Node, OrderPair};
use std::alloc::{AllocError, Global};
use std::collections::HashMap;

/// A pair, and the rank of its earlier node.
#[derive(Clone, Copy)]
struct Ranked {
    rank: usize,
    pair: OrderPair,
}

/// The pairs in the order of these ranks. The contract promises only that each pair is in the result: the order is
/// checked.
fn in_order(alloc: Global, pairs: &[OrderPair], ranks: &[usize]) -> Result<Vec<Ranked>, AllocError>
    ensures { IfOk result (λ v. (p : OrderPair) → IsIn p pairs.now → IsIn p (map (λ r. r.pair) v.items)) }
{
    let mut ranked = Vec::new(alloc);
    for (number, pair) in pairs.iter().enumerate() {
        let rank = ranks.get(number).copied().unwrap_or(0);
        ranked.push(Ranked { rank, pair: *pair })?;
    }
    ranked.sort_by_key(|ranked| ranked.rank)?;
    Ok(ranked)
}

/// Whether a node is at the top of its strand or before it.
fn is_below(tops: &HashMap<usize, usize>, node: Node) -> bool
    ensures { result ≡ is_under_tops (tops_of tops.now) node }
{
    match tops.get(&node.strand) {
        Some(top) => node.index <= *top,
        None => false,
    }
}

/// Raises the top of a node's strand to this node, if it is before it.
fn raise(tops: &mut HashMap<usize, usize>, node: Node) -> Result<(), AllocError>
    ensures { OnOk result ((x : Node) → is_under_tops (tops_of tops.new) x ≡ (is_under_tops (tops_of tops.old) x || at_or_after x node)) }
{
    if !is_below(tops, node) {
        tops.insert(node.strand, node.index)?;
    }
    Ok(())
}

/// Whether no pair leads back: none ends at a node at which it or an earlier pair of the list begins, or before such a
/// node on its strand. Then the pairs have no cycle.
fn none_leads_back(alloc: Global, ranked: &[Ranked]) -> Result<bool, AllocError>
    ensures { IfOk result (λ b. IsAcyclicIf b (map (λ r. r.pair) ranked.now)) }
{
    let mut tops = HashMap::new(alloc);
    for next in ranked {
        raise(&mut tops, next.pair.earlier)?;
        if is_below(&tops, next.pair.later) {
            return Ok(false);
        }
    }
    Ok(true)
}

/// Fast test: `true` only if the pairs have no cycle. No contract says that it is `true` for all such pairs.
pub fn have_no_cycle(alloc: Global, pairs: &[OrderPair]) -> Result<bool, AllocError>
    ensures { IfOk result (λ b. IsAcyclicIf b pairs.now) }
{
    let Some(ranks) = ranks_of(alloc, pairs)? else {
        return Ok(false);
    };
    let ranked = in_order(alloc, pairs, &ranks)?;
    none_leads_back(alloc, &ranked)
}

/// How many of the pairs, from the first on, were seen to have no cycle: all, or as many as halving finds. No contract
/// says that one more would close a cycle.
fn count_without_cycle(alloc: Global, pairs: &[OrderPair]) -> Result<usize, AllocError>
    ensures { IfOk result (λ n. IsAcyclicUpTo n pairs.now) }
{
    if have_no_cycle(alloc, pairs)? {
        return Ok(pairs.len());
    }
    let mut known = 0;
    let mut refused = pairs.len();
    while known + 1 < refused {
        let middle = known + (refused - known) / 2;
        if have_no_cycle(alloc, &pairs[..middle])? {
            known = middle;
            continue;
        }
        refused = middle;
    }
    Ok(known)
}

/// Of the pairs that these items of a problem state: how many, from the first on, were seen to have no cycle.
pub(crate) fn stated_without_cycle(alloc: Global, items: &[Form]) -> Result<usize, AllocError>
    ensures { IfOk result (λ n. IsAcyclicUpTo n (pairs_stated (map view items.now))) }
{
    let pairs = pairs_of(alloc, items)?;
    count_without_cycle(alloc, &pairs)
}
