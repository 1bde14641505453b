// Strands that the order keeps apart: it leads from a node of one to a node of the other that has no higher index, so it would
// lead backward if they were one.
ghost use Rattle.std.specs.Prelude.{◌≡◌, ℕ, IfOk, OnOk};
ghost use Rattle.cp_lists.specs.Lists.{IsIn};
ghost use Rattle.cp_model.specs.Skeleton.{Skeleton as PlainSkeleton, IsNodeOf, IsOrderPair};
ghost use Rattle.cp_model.specs.declared.node.OrderPair.{OrderPair as Pair};
ghost use Rattle.cp_collapse.specs.FirstPartitions.{AreKeptApart, AreApart};

use crate::partitions::instance_at;
use cp_skel::{Node, Skeleton, SortedPairs};
use std::alloc::{AllocError, Global};

/// Two strands that the order keeps apart, by their numbers.
#[derive(Clone, Copy)]
pub(crate) struct Apart {
    lower: usize,
    higher: usize,
}

/// Two strands, by their numbers.
fn two_apart(s: usize, t: usize) -> Apart
    ensures { (k : PlainSkeleton) → AreKeptApart k s t → AreKeptApart k result.higher result.lower }
{
    if s < t {
        Apart {
            lower: s,
            higher: t,
        }
    } else {
        Apart {
            lower: t,
            higher: s,
        }
    }
}

/// Appends the strands that are kept apart from a node's strand since their node with its index reaches it.
fn put_reaching(
    alloc: Global,
    order: &SortedPairs<'_>,
    count: usize,
    node: Node,
    all: &mut Vec<Apart>,
) -> Result<(), AllocError>
    ensures { OnOk result ((k : PlainSkeleton) → k.pairs ≡ order.now → ((q : Pair) → IsIn q k.pairs → IsOrderPair k q) → IsNodeOf k.strands node
        → AreApart k all.old.items → AreApart k all.new.items) }
{
    let reaching = order.predecessors_of(alloc, node)?;
    for strand in 0..count {
        let other = Node {
            strand,
            index: node.index,
        };
        if strand == node.strand || !reaching.has(other) {
            continue;
        }
        all.push(two_apart(strand, node.strand))?;
    }
    Ok(())
}

/// The role strands that the order keeps apart. Since what reaches a node of a strand does so by a pair that ends there, only the
/// later nodes of the pairs are asked.
pub(crate) fn all_apart(alloc: Global, k: &Skeleton) -> Result<Vec<Apart>, AllocError>
    ensures { IfOk result (λ v. AreApart k.now v.items) }
{
    k.is_sound();
    let pairs = k.order().pairs();
    let order = SortedPairs::new(alloc, pairs)?;
    let mut all = Vec::new(alloc);
    for pair in pairs {
        if instance_at(k.strands(), pair.later.strand).is_none() {
            continue;
        }
        put_reaching(alloc, &order, k.strands().len(), pair.later, &mut all)?;
    }
    Ok(all)
}

/// The strands before strand `number` that are kept apart from it.
pub(crate) fn apart_from(
    alloc: Global,
    all: &[Apart],
    number: usize,
) -> Result<Vec<usize>, AllocError>
    ensures { IfOk result (λ v. (k : PlainSkeleton) → AreApart k all.now → (t : ℕ) → IsIn t v.items → AreKeptApart k number t) }
{
    let mut strands = Vec::new(alloc);
    for two in all {
        if two.higher != number {
            continue;
        }
        strands.push(two.lower)?;
    }
    Ok(strands)
}
