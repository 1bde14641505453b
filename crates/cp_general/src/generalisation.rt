// Generalises a skeleton, step by step.
ghost use Rattle.std.specs.Prelude.{◌≡◌, IsTrue, IfOk, IfSome, IfNone};
ghost use Rattle.cp_model.specs.Homomorphism.{Embeds};
ghost use Rattle.cp_model.specs.Skeleton.{Skeleton as Plain};
ghost use Rattle.cp_general.specs.Fit.{IsFit};
ghost use Rattle.cp_general.specs.Generalisation.{DeletesNone, WeakensNone, IsMaximallyGeneral, GeneralisesTo, IsGeneralisationOf};
ghost use Rattle.cp_general.specs.ListedPairs.{ListsAdded, ListsOrder};
ghost use Rattle.cp_general.specs.ProgramSteps.{ComesBySteps, WeakensFirst, IsReachedByWeakening};

use crate::deletion::first_deletion;
use crate::dropped_pair::{first_drop, some_may_drop};
use crate::fit::is_known_or_fit;
use crate::pairs::with_all_pairs;
use cp_normal::added_pairs;
use cp_skel::{OrderPair, Skeleton};
use std::alloc::{AllocError, Global};

/// The skeleton after further strands are deleted until none can be.
fn deleted(alloc: Global, first: Skeleton) -> Result<Skeleton, AllocError>
    ensures comes { IfOk result (λ h. (k : Plain) → ComesBySteps k first → ComesBySteps k h) }
    ensures last { IfOk result (λ h. DeletesNone h) }
    ensures fit { IfOk result (λ h. IsFit first → IsFit h) }
    ensures variables { IfOk result (λ h. h.variables ≡ first.variables) }
{
    let mut left = first;
    while let Some(next) = first_deletion(alloc, &left)? {
        left = next;
    }
    Ok(left)
}

/// The skeleton after pairs are dropped until none can be; `None` if none can be dropped at first. It must be fit and list all
/// pairs of its order; the pairs that unique values add are given.
fn dropped_of_all(
    alloc: Global,
    all: &Skeleton,
    added: &[OrderPair],
) -> Result<Option<Skeleton>, AllocError>
    requires lists { ListsOrder all.now all.now.pairs }
    requires fit { IsFit all.now }
    requires added { ListsAdded all.now added.now }
    ensures some { IfOk result (λ found. IfSome found (λ g. (k : Plain)
        → ((h : Plain) → WeakensFirst all.now h → IsReachedByWeakening k h) → GeneralisesTo k g)) }
    ensures none { IfOk result (λ found. IfNone found (WeakensNone all.now)) }
    ensures variables { IfOk result (λ found. IfSome found (λ g. g.variables ≡ all.now.variables)) }
{
    let Some(mut left) = first_drop(alloc, all, added)? else {
        return Ok(None);
    };
    while let Some(next) = first_drop(alloc, &left, added)? {
        left = next;
    }
    Ok(Some(left))
}

/// The skeleton after pairs are dropped until none can be; `None` if none can be dropped at first. It must be fit, and no strand
/// of it may be deletable; the pairs that unique values add are given.
fn dropped_where_fit(
    alloc: Global,
    k: &Skeleton,
    added: &[OrderPair],
) -> Result<Option<Skeleton>, AllocError>
    requires none { DeletesNone k.now }
    requires fit { IsFit k.now }
    requires added { ListsAdded k.now added.now }
    ensures some { IfOk result (λ found. IfSome found (λ g. GeneralisesTo k.now g)) }
    ensures none { IfOk result (λ found. IfNone found (WeakensNone k.now)) }
    ensures variables { IfOk result (λ found. IfSome found (λ g. g.variables ≡ k.now.variables)) }
{
    k.is_sound();
    let all = with_all_pairs(alloc, k)?;
    dropped_of_all(alloc, &all, added)
}

/// The skeleton after pairs are dropped until none can be; `None` if none can be dropped at first, which is mostly seen without
/// dropping one. No strand may be deletable; dropping pairs keeps it so. Whether it is fit is
/// tested if that is not known.
fn dropped(alloc: Global, k: &Skeleton, known_fit: bool) -> Result<Option<Skeleton>, AllocError>
    requires none { DeletesNone k.now }
    requires fit { IsTrue known_fit → IsFit k.now }
    ensures some { IfOk result (λ found. IfSome found (λ g. GeneralisesTo k.now g)) }
    ensures none { IfOk result (λ found. IfNone found (WeakensNone k.now)) }
    ensures variables { IfOk result (λ found. IfSome found (λ g. g.variables ≡ k.now.variables)) }
{
    k.is_sound();
    let added = added_pairs(alloc, k)?;
    if !some_may_drop(alloc, k, &added)? {
        return Ok(None);
    }
    if !is_known_or_fit(alloc, k, known_fit)? {
        return Ok(None);
    }
    dropped_where_fit(alloc, k, &added)
}

/// Generalises a skeleton by one step or more; `None` exactly if no step applies. There are two kinds of step:
///
/// - delete a strand to which no strand of the problem maps, the highest number first;
/// - drop a covering pair of the order that is neither stated by the problem nor added by a unique value, the lowest first.
///
/// A step is taken if the rest is normal and realised and keeps what the problem states of the order. After each step the first
/// kind is tried again.
pub fn generalised(alloc: Global, k: &Skeleton) -> Result<Option<Skeleton>, AllocError>
    ensures some { IfOk result (λ found. IfSome found (λ g. GeneralisesTo k.now g)) }
    ensures none { IfOk result (λ found. IfNone found (IsMaximallyGeneral k.now)) }
    ensures variables { IfOk result (λ found. IfSome found (λ g. g.variables ≡ k.now.variables)) }
{
    let Some(first) = first_deletion(alloc, k)? else {
        return dropped(alloc, k, false);
    };
    let left = deleted(alloc, first)?;
    match dropped(alloc, &left, true)? {
        Some(freer) => Ok(Some(freer)),
        None => Ok(Some(left)),
    }
}

/// The generalisation of a skeleton: the result of [`generalised`], or the skeleton itself if no step applies. It embeds in the
/// skeleton over the problem, and no step applies to it. If the skeleton is normal and realised, so is the generalisation.
pub fn generalise(alloc: Global, k: &Skeleton) -> Result<Skeleton, AllocError>
    ensures exact { IfOk result (λ g. IsGeneralisationOf k.now g) }
    ensures most_general { IfOk result (λ g. IsMaximallyGeneral g) }
    ensures embeds { IfOk result (λ g. Embeds g k.now) }
    ensures fit { IfOk result (λ g. IsFit k.now → IsFit g) }
    ensures variables { IfOk result (λ g. g.variables ≡ k.now.variables) }
{
    match generalised(alloc, k)? {
        Some(general) => Ok(general),
        None => k.copy(alloc),
    }
}
