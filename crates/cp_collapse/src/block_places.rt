// The places that the blocks of a partition take.
ghost use Rattle.std.specs.Prelude.{◌≡◌, ◌↔◌, ◌≤◌, Some, length, IsTrue};
ghost use Rattle.cp_model.specs.Homomorphism.{strand_in};
ghost use Rattle.cp_lists.specs.Lists.{item_at};
ghost use Rattle.cp_collapse.specs.Collapses.{collapsed_pair};
ghost use Rattle.cp_collapse.specs.Partitions.{lowest_before, place_in, node_in};

use cp_skel::{Node, OrderPair};

/// Whether a strand is the lowest of its block.
fn is_lowest(lowest: &[usize], strand: usize) -> bool
    ensures { IsTrue result ↔ (item_at lowest.now strand ≡ Some strand) }
{
    match lowest.get(strand) {
        Some(own) => *own == strand,
        None => false,
    }
}

/// How many of the first `end` strands are the lowest of their blocks.
fn lowest_within(lowest: &[usize], end: usize) -> usize
    requires { end ≤ length lowest.now }
    ensures count { result ≡ lowest_before lowest.now end }
    ensures no_more { result ≤ end }
{
    let mut count = 0;
    for strand in 0..end {
        if !is_lowest(lowest, strand) {
            continue;
        }
        count += 1;
    }
    count
}

/// How many of the strands with numbers below `end` are the lowest of their blocks. A strand past the end of the list is alone in
/// its block.
fn lowest_before(lowest: &[usize], end: usize) -> usize
    ensures { result ≡ lowest_before lowest.now end }
{
    if end <= lowest.len() {
        lowest_within(lowest, end)
    } else {
        lowest_within(lowest, lowest.len()) + (end - lowest.len())
    }
}

/// The number of the lowest strand of a strand's block. A strand past the end of the list is alone in its block.
fn strand_in(lowest: &[usize], strand: usize) -> usize
    ensures { result ≡ strand_in lowest.now strand }
{
    match lowest.get(strand) {
        Some(own) => *own,
        None => strand,
    }
}

/// The place of a strand's block.
pub(crate) fn place_in(lowest: &[usize], strand: usize) -> usize
    ensures { result ≡ place_in lowest.now strand }
{
    lowest_before(lowest, strand_in(lowest, strand))
}

/// The node, moved to the place of its strand's block.
pub(crate) fn node_in(lowest: &[usize], node: Node) -> Node
    ensures { result ≡ node_in lowest.now node }
{
    Node {
        strand: place_in(lowest, node.strand),
        index: node.index,
    }
}

/// The pair, with both nodes moved to the places of their strands' blocks.
pub(crate) fn pair_in(lowest: &[usize], pair: &OrderPair) -> OrderPair
    ensures { result ≡ collapsed_pair lowest.now pair.now }
{
    OrderPair {
        earlier: node_in(lowest, pair.earlier),
        later: node_in(lowest, pair.later),
    }
}
