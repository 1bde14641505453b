// The strands of a skeleton after each block is merged into its tallest strand.
ghost use Rattle.std.specs.Prelude.{◌≡◌, ◌<◌, Some, length, IfOk};
ghost use Rattle.cp_lists.specs.Lists.{item_at};
ghost use Rattle.cp_unify.specs.Bindings.{as_substitution};
ghost use Rattle.cp_model.specs.Declares.{HasDeclaredPrefixes};
ghost use Rattle.cp_collapse.specs.MergedStrands.{height_of, IsTallestTo, IsUnder, AreMergedAlike};
ghost use Rattle.cp_collapse.specs.Partitions.{IsPartitionByRole};

use crate::partitions::{Partial, is_in_block};
use crate::substituted::Substituted;
use cp_skel::{Skeleton, Strand, StrandShape};
use cp_unify::Subst;
use std::alloc::{AllocError, Global};

/// The height of a strand that is an instance; 0 for a listener.
fn height_at(strands: &[Strand], number: usize) -> usize
    ensures { result ≡ height_of (item_at strands.now number) }
{
    let Some(strand) = strands.get(number) else {
        return 0;
    };
    match strand.shape() {
        StrandShape::Instance(instance) => instance.height(),
        StrandShape::Listener(_) => 0,
    }
}

/// The tallest strand of a block; of several, the first.
fn tallest(k: &Skeleton, partial: &Partial, block: usize) -> usize
    requires partition { IsPartitionByRole k.now partial.now.lowest.items }
    requires own { item_at partial.now.lowest.items block ≡ Some block }
    ensures { IsTallestTo k.now partial.now.lowest.items block (length partial.now.lowest.items) result }
{
    let mut tallest = block;
    for strand in 0..partial.lowest.len() {
        if !is_in_block(partial, strand, block) {
            continue;
        }
        if height_at(k.strands(), strand) <= height_at(k.strands(), tallest) {
            continue;
        }
        tallest = strand;
    }
    tallest
}

/// The strand with this number under a substitution.
fn merged_strand(
    alloc: Global,
    strands: &[Strand],
    number: usize,
    s: &Subst,
) -> Result<Strand, AllocError>
    requires { number < length strands.now }
    ensures { IfOk result (λ t. IsUnder strands.now number (as_substitution s.now) t) }
{
    strands[number].under(alloc, s)
}

/// The strands after each block is merged: its tallest strand, under the bindings.
pub(crate) fn merged_strands(
    alloc: Global,
    k: &Skeleton,
    partial: &Partial,
) -> Result<Vec<Strand>, AllocError>
    requires declared { HasDeclaredPrefixes k.now }
    requires partition { IsPartitionByRole k.now partial.now.lowest.items }
    ensures { IfOk result (λ v. AreMergedAlike k.now partial.now.lowest.items (as_substitution partial.now.bindings.value) (length partial.now.lowest.items) v.items) }
{
    let mut strands = Vec::new(alloc);
    for strand in 0..partial.lowest.len() {
        if !is_in_block(partial, strand, strand) {
            continue;
        }
        let tallest = tallest(k, partial, strand);
        strands.push(merged_strand(alloc, k.strands(), tallest, &partial.bindings)?)?;
    }
    Ok(strands)
}
