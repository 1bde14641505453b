// Paths from node to node along strands and pairs.
ghost use Rattle.std.specs.Prelude.{◌≡◌};
ghost use Rattle.cp_model.specs.OrderTests.{any_pair, reaches_within};
ghost use Rattle.cp_order.specs.Composed.{is_between, leads_along_one};

use crate::predecessors::is_at_or_before;
use cp_model::{Node, OrderPair};

/// Whether a pair leads from x, or a node after it on its strand, to y, or a node before it on its strand.
fn is_between(x: Node, y: Node, pair: &OrderPair) -> bool
    ensures { result ≡ is_between x y pair.now }
{
    is_at_or_before(x, pair.earlier) && is_at_or_before(pair.later, y)
}

/// Whether one of the pairs leads from x, or a node after it on its strand, to y, or a node before it on its strand.
fn some_is_between(pairs: &[OrderPair], x: Node, y: Node) -> bool
    ensures { result ≡ any_pair (is_between x y) pairs.now }
{
    for pair in pairs {
        if is_between(x, y, pair) {
            return true;
        }
    }
    false
}

/// Whether x reaches y on its strand or along one of the pairs.
pub(crate) fn leads_along_one(pairs: &[OrderPair], x: Node, y: Node) -> bool
    ensures { result ≡ leads_along_one pairs.now x y }
{
    is_at_or_before(x, y) || some_is_between(pairs, x, y)
}

/// Whether x reaches y along at most so many pairs.
pub(crate) fn leads_within(pairs: &[OrderPair], count: usize, x: Node, y: Node) -> bool
    ensures { result ≡ reaches_within count pairs.now x y }
{
    if is_at_or_before(x, y) {
        return true;
    }
    if count == 0 {
        return false;
    }
    for pair in pairs {
        if is_at_or_before(x, pair.earlier) && leads_within(pairs, count - 1, pair.later, y) {
            return true;
        }
    }
    false
}
