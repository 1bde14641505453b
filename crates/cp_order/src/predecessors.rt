// The predecessors of a node.
ghost use Rattle.std.specs.Prelude.{◌≡◌, ◌↔◌, ◌++◌, IsTrue, IfOk, OnOk};
ghost use Rattle.cp_model.specs.Order.{ReachesAlong};
ghost use Rattle.cp_model.specs.OrderTests.{at_or_after};
ghost use Rattle.cp_order.specs.PredecessorNodes.{AreTops, tops_in, TakesNode, reached};
ghost use Rattle.cp_order.specs.Sorted.{AreSorted, is_passed, first_nodes};
ghost use Rattle.std.specs.List.Sorted.{IsPermutation};

use crate::tops::{Tops, is_within};
use cp_model::{Node, OrderPair};
use smallvec::SmallVec;
use std::alloc::{AllocError, Global};
use std::marker::Model;

/// The predecessors of one node along strands and these pairs: the nodes that reach it, the node itself among them.
#[derive(Drop)]
pub struct Predecessors<'a> {
    pairs: &'a [OrderPair],
    node: Node,
    /// For each strand with a node that reaches it, the greatest index of such a node.
    tops: Tops,
}

impl<'a> Model for Predecessors<'a> {
    ghost use Rattle.cp_order.specs.PredecessorNodes.{Target, AreTops, tops_in};

    ghost Value = { Target };

    ghost view = { λ l. record { pairs = l.pairs.now; node = l.node } };

    ghost invariant = { λ l. AreTops l.pairs.now l.node (tops_in l.tops) };
}

/// Pairs, and the same sorted by their later nodes. Use it to ask for the predecessors of one node after another.
#[derive(Drop)]
pub struct SortedPairs<'a> {
    pairs: &'a [OrderPair],
    sorted: Vec<OrderPair>,
}

impl<'a> Model for SortedPairs<'a> {
    ghost use Rattle.std.specs.Prelude.{List};
    ghost use Rattle.std.specs.List.Sorted.{IsPermutation};
    ghost use Rattle.cp_model.specs.declared.node.OrderPair.{OrderPair};
    ghost use Rattle.cp_order.specs.Sorted.{AreSorted};

    ghost Value = { List OrderPair };

    ghost view = { λ s. s.pairs.now };

    ghost invariant = { λ s. AreSorted s.sorted.items × IsPermutation s.pairs.now s.sorted.items };
}

/// Whether a node is on an earlier strand, or on this one at its top or before it.
fn is_passed(top: Option<usize>, strand: usize, node: Node) -> bool
    ensures { result ≡ is_passed top strand node }
{
    node.strand < strand || node.strand == strand && is_within(top, node.index)
}

/// Whether a node is the other or before it on its strand.
pub(crate) fn is_at_or_before(node: Node, other: Node) -> bool
    ensures { result ≡ at_or_after node other }
{
    node.strand == other.strand && node.index <= other.index
}

/// Appends the earlier nodes of the first pairs to the work list, as long as these pairs end at the node or at one
/// before it on its strand.
fn push_first(
    pairs: &[OrderPair],
    node: Node,
    work: &mut SmallVec<Node, 8>,
) -> Result<(), AllocError>
    ensures { OnOk result (work.new.items ≡ work.old.items ++ first_nodes node pairs.now) }
{
    for pair in pairs {
        if !is_at_or_before(pair.later, node) {
            return Ok(());
        }
        work.push(pair.earlier)?;
    }
    Ok(())
}

/// Appends the earlier nodes of the pairs that are reached to the work list.
fn push_reached(
    pairs: &[OrderPair],
    top: Option<usize>,
    node: Node,
    work: &mut SmallVec<Node, 8>,
) -> Result<(), AllocError>
    requires { AreSorted pairs.now }
    ensures { OnOk result (work.new.items ≡ work.old.items ++ reached top node pairs.now) }
{
    let start = pairs.partition_point(|pair| is_passed(top, node.strand, pair.later));
    push_first(&pairs[start..], node, work)
}

/// Takes a predecessor, and appends the nodes that reach it by one pair to the work list.
fn take(
    pairs: &[OrderPair],
    node: Node,
    tops: &mut Tops,
    work: &mut SmallVec<Node, 8>,
) -> Result<(), AllocError>
    requires { AreSorted pairs.now }
    ensures { OnOk result (TakesNode pairs.now node (tops_in tops.old) (tops_in tops.new) work.old.items work.new.items) }
{
    let top = tops.top(node.strand);
    if is_within(top, node.index) {
        return Ok(());
    }
    tops.put(node)?;
    push_reached(pairs, top, node, work)
}

impl<'a> SortedPairs<'a> {
    /// Sorts the pairs.
    pub fn new(alloc: Global, pairs: &'a [OrderPair]) -> Result<SortedPairs<'a>, AllocError>
        ensures { IfOk result (λ s. s ≡ pairs.now) }
    {
        let mut sorted = Vec::from_slice(alloc, pairs)?;
        sorted.sort_by_key(|pair| (pair.later.strand, pair.later.index))?;
        Ok(SortedPairs { pairs, sorted })
    }

    /// The predecessors of the node along strands and these pairs.
    pub fn predecessors_of(&self, alloc: Global, node: Node) -> Result<Predecessors<'a>, AllocError>
        ensures { IfOk result (λ l. l ≡ record { pairs = self.now; node = node }) }
    {
        let sorted = self.sorted.as_slice();
        let mut tops = Tops::new(alloc);
        let mut work = SmallVec::new(alloc);
        work.push(node)?;
        while let Some(next) = work.pop() {
            take(sorted, next, &mut tops, &mut work)?;
        }
        Ok(Predecessors {
            pairs: self.pairs,
            node,
            tops,
        })
    }
}

impl<'a> Predecessors<'a> {
    /// The predecessors of the node along strands and these pairs. The pairs are sorted only if one of them ends at the node or
    /// before it on its strand: otherwise nothing else reaches the node.
    pub fn new(
        alloc: Global,
        pairs: &'a [OrderPair],
        node: Node,
    ) -> Result<Predecessors<'a>, AllocError>
        ensures { IfOk result (λ l. l ≡ record { pairs = pairs.now; node = node }) }
    {
        for pair in pairs {
            if is_at_or_before(pair.later, node) {
                return SortedPairs::new(alloc, pairs)?.predecessors_of(alloc, node);
            }
        }
        let mut tops = Tops::new(alloc);
        tops.put(node)?;
        Ok(Predecessors { pairs, node, tops })
    }

    /// Whether a node reaches the node whose predecessors these are.
    pub fn has(&self, node: Node) -> bool
        ensures { IsTrue result ↔ ReachesAlong self.now.pairs node self.now.node }
    {
        is_within(self.tops.top(node.strand), node.index)
    }
}
