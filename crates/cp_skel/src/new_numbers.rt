// Nodes, pairs and recorded origins once a strand is gone.
ghost use Rattle.std.specs.Prelude.{◌≡◌, ◌↔◌, ℕ, map, IsTrue, IfOk};
ghost use Rattle.cp_skel.specs.Deletion.{renumbered, node_renumbered, pair_renumbered, unique_renumbered, IsPairOn, IsOriginOn, LeavesOut};

use crate::assumptions::UniqueAt;
use crate::skeleton::{Node, OrderPair};
use std::alloc::{AllocError, Global};

/// The number of a strand once another is gone: numbers above that one fall by one.
pub(crate) fn renumbered(gone: usize, strand: usize) -> usize
    ensures { result ≡ renumbered gone strand }
{
    if gone < strand { strand - 1 } else { strand }
}

/// The node once a strand is gone.
pub(crate) fn node_renumbered(gone: usize, node: Node) -> Node
    ensures { result ≡ node_renumbered gone node }
{
    Node {
        strand: renumbered(gone, node.strand),
        index: node.index,
    }
}

/// What stands at nodes: once a strand is gone, it goes with the strand or is renumbered.
pub(crate) trait AtNodes {
    /// It stands on the strand.
    ghost goes: { ℕ → Self → Type 0 };

    /// What it is once the strand is gone.
    ghost form: { ℕ → Self → Self };

    /// Whether it stands on the strand.
    fn is_on(&self, strand: usize) -> bool
        ensures { IsTrue result ↔ goes strand self.now };

    /// What it is once a strand is gone.
    fn without(&self, gone: usize) -> Result<Self, AllocError>
        ensures { IfOk result (λ x. x ≡ form gone self.now) };
}

impl AtNodes for OrderPair {
    ghost goes = { IsPairOn };

    ghost form = { pair_renumbered };

    fn is_on(&self, strand: usize) -> bool {
        self.earlier.strand == strand || self.later.strand == strand
    }

    fn without(&self, gone: usize) -> Result<OrderPair, AllocError> {
        Ok(OrderPair {
            earlier: node_renumbered(gone, self.earlier),
            later: node_renumbered(gone, self.later),
        })
    }
}

impl AtNodes for UniqueAt {
    ghost goes = { IsOriginOn };

    ghost form = { unique_renumbered };

    fn is_on(&self, strand: usize) -> bool {
        self.origin().strand == strand
    }

    fn without(&self, gone: usize) -> Result<UniqueAt, AllocError> {
        let origin = node_renumbered(gone, self.origin());
        self.value()
            .copy()
            .map(|value| UniqueAt::new(value, origin))
    }
}

/// The numbers of strands once one is gone.
pub(crate) fn strands_renumbered(
    alloc: Global,
    gone: usize,
    strands: &[usize],
) -> Result<Vec<usize>, AllocError>
    ensures { IfOk result (λ v. v.items ≡ map (renumbered gone) strands.now) }
{
    strands
        .iter()
        .map(|strand| renumbered(gone, *strand))
        .collect(alloc)
}

/// The items that do not stand on the strand, once it is gone.
pub(crate) fn left_without<T: AtNodes + Drop>(
    alloc: Global,
    gone: usize,
    items: &[T],
) -> Result<Vec<T>, AllocError>
    ensures { IfOk result (λ v. LeavesOut (T.goes gone) (T.form gone) items.now v.items) }
{
    let mut left = Vec::new(alloc);
    for item in items {
        if item.is_on(gone) {
            continue;
        }
        left.push(item.without(gone)?)?;
    }
    Ok(left)
}
