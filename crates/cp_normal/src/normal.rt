// Tests whether a skeleton is normal, and computes the pairs of its normal form.
ghost use Rattle.std.specs.Prelude.{◌≡◌, ◌↔◌, ◌++◌, option_map, IsTrue, IfOk};
ghost use Rattle.cp_normal.specs.Exact.{IsRefuted};
ghost use Rattle.cp_normal.specs.Findings.{AreNormalPairs, IsNormalised};
ghost use Rattle.cp_normal.specs.NextSteps.{form_pairs};
ghost use Rattle.cp_normal.specs.NormalForms.{IsNormal};

use crate::carried_values::some_carries_non_originating;
use crate::misplaced_values::some_is_misplaced;
use crate::origins::{has_two_origins, some_loses_origin};
use crate::own_pairs::{all_lead, others};
use crate::pairs::pairs_among;
use cp_collapse::some_is_closed;
use cp_skel::{ListedSkeleton, OrderPair, Skeleton};
use std::alloc::{AllocError, Global};

/// Whether the assumptions contradict what the nodes carry.
pub(crate) fn is_refuted(k: &ListedSkeleton<'_>) -> bool
    ensures { IsTrue result ↔ IsRefuted k.now }
{
    if some_carries_non_originating(k) {
        return true;
    }
    if has_two_origins(k.skeleton()) {
        return true;
    }
    some_loses_origin(k)
}

/// The pairs of a normal form.
#[derive(Drop)]
pub(crate) enum FormPairs {
    /// The skeleton's own.
    Own,
    /// These, of which one at least is not the skeleton's own.
    More(Vec<OrderPair>),
}

/// The pairs that unique values add and that are not the skeleton's own.
fn new_pairs(alloc: Global, k: &ListedSkeleton<'_>) -> Result<Vec<OrderPair>, AllocError>
    ensures { IfOk result (λ added. AreNormalPairs k.now (k.now.pairs ++ added.items)) }
{
    let added = pairs_among(alloc, k)?;
    others(alloc, k.skeleton().order().pairs(), added)
}

/// The pairs of the first list, followed by those of the second.
fn joined(
    alloc: Global,
    own: &[OrderPair],
    more: &[OrderPair],
) -> Result<Vec<OrderPair>, AllocError>
    ensures { IfOk result (λ pairs. pairs.items ≡ own.now ++ more.now) }
{
    own.iter().chain(more).copied().collect(alloc)
}

/// The pairs of the normal form of a skeleton whose assumptions do not contradict what its nodes carry; `None` if the pairs close
/// a cycle. The skeleton's own close none.
pub(crate) fn normal_pairs_among(
    alloc: Global,
    k: &ListedSkeleton<'_>,
) -> Result<Option<FormPairs>, AllocError>
    requires consistent { IsRefuted k.now → ⊥ }
    ensures { IfOk result (λ found. IsNormalised k.now (option_map (form_pairs k.now) found)) }
{
    let skeleton = k.skeleton();
    skeleton.is_sound();
    let added = new_pairs(alloc, k)?;
    if added.is_empty() {
        return Ok(Some(FormPairs::Own));
    }
    let pairs = joined(alloc, skeleton.order().pairs(), &added)?;
    if some_is_closed(alloc, &pairs, skeleton.assumptions().uniquely_originating())? {
        return Ok(None);
    }
    Ok(Some(FormPairs::More(pairs)))
}

/// The pairs of a normal form of the skeleton, in a list.
fn pairs_of(alloc: Global, k: &Skeleton, pairs: FormPairs) -> Result<Vec<OrderPair>, AllocError>
    ensures { IfOk result (λ all. all.items ≡ form_pairs k.now pairs) }
{
    match pairs {
        FormPairs::Own => Vec::from_slice(alloc, k.order().pairs()),
        FormPairs::More(pairs) => Ok(pairs),
    }
}

/// The pairs of the skeleton's normal form, if no unique value is misplaced in it: its own pairs, and those from the recorded
/// origin of each unique value to the receptions of other strands, listeners included, that carry the value. `None` if there is
/// no normal form: some node carries a non-originating value, a unique value has two recorded origins or does not originate at
/// its own, or the pairs close a cycle.
pub fn normal_pairs(alloc: Global, k: &Skeleton) -> Result<Option<Vec<OrderPair>>, AllocError>
    ensures { IfOk result (λ found. IsNormalised k.now (option_map (λ pairs. pairs.items) found)) }
{
    let listed = ListedSkeleton::of(alloc, k)?;
    if is_refuted(&listed) {
        return Ok(None);
    }
    match normal_pairs_among(alloc, &listed)? {
        Some(pairs) => pairs_of(alloc, k, pairs).map(Some),
        None => Ok(None),
    }
}

/// Whether no rule of normalising changes the skeleton: its assumptions do not contradict what its nodes carry, no unique value
/// originates elsewhere than at its recorded origin, and its order contains the pairs that unique values add and has no cycle.
pub fn is_normal(alloc: Global, k: &Skeleton) -> Result<bool, AllocError>
    ensures { IfOk result (λ normal. IsTrue normal ↔ IsNormal k.now) }
{
    k.is_sound();
    let listed = ListedSkeleton::of(alloc, k)?;
    if is_refuted(&listed) {
        return Ok(false);
    }
    if some_is_misplaced(&listed) {
        return Ok(false);
    }
    let added = pairs_among(alloc, &listed)?;
    all_lead(alloc, k.order().pairs(), &added)
}
