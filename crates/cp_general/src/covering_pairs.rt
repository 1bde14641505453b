// Covering pairs, given all pairs of an order.
ghost use Rattle.std.specs.Prelude.{◌≡◌};
ghost use Rattle.cp_general.specs.CoveringPairs.{led_to, lasts_of, is_earlier_on_strand, is_below_one, some_is_below, is_covered};

use cp_skel::{Node, OrderPair};

/// Whether a node is before another one on the same strand.
fn is_below(node: Node, other: Node) -> bool
    ensures { result ≡ is_earlier_on_strand node other }
{
    node.strand == other.strand && node.index < other.index
}

/// Whether a node is before the last one on its strand, or before one from which a pair leads to that.
fn is_below_last(pairs: &[OrderPair], node: Node, last: Node) -> bool
    ensures { result ≡ is_below_one node (lasts_of pairs.now last) }
{
    if is_below(node, last) {
        return true;
    }
    pairs
        .iter()
        .any(|pair| pair.later == last && is_below(node, pair.earlier))
}

/// Whether a pair leads from a node to one that is so.
fn leads_below(pairs: &[OrderPair], node: Node, last: Node) -> bool
    ensures { result ≡ some_is_below (led_to pairs.now node) (lasts_of pairs.now last) }
{
    pairs.iter().any(|pair| pair.earlier == node && is_below_last(pairs, pair.later, last))
}

/// Whether some node is between the two nodes of a pair. `pairs` must be all pairs of the order.
pub(crate) fn is_covered(pairs: &[OrderPair], pair: OrderPair) -> bool
    ensures { result ≡ is_covered pairs.now pair }
{
    if leads_below(pairs, pair.earlier, pair.later) {
        return true;
    }
    is_below_last(pairs, pair.earlier, pair.later)
}
