// The step that deletes a strand.
ghost use Rattle.std.specs.Prelude.{◌≡◌, ◌↔◌, ◌<◌, length, IsTrue, IfOk, IfSome, IfNone};
ghost use Rattle.cp_lists.specs.Lists.{IsIn};
ghost use Rattle.cp_skel.specs.Events.{events_of};
ghost use Rattle.cp_general.specs.Steps.{Deletes};
ghost use Rattle.cp_general.specs.Generalisation.{DeletesNone, StepsTo};
ghost use Rattle.cp_general.specs.ProgramSteps.{NeverDeletes, LeavesFit};

use crate::fit::is_fit;
use crate::needed::{Part, is_needed};
use cp_skel::{LocatedEvent, Skeleton};
use std::alloc::{AllocError, Global};

/// Whether some strand of the problem maps to this one.
fn is_image(strands: &[usize], strand: usize) -> bool
    ensures { IsTrue result ↔ IsIn strand strands.now }
{
    for image in strands {
        if *image == strand {
            return true;
        }
    }
    false
}

/// The skeleton without a strand that exists and to which no strand of the problem maps.
fn without_strand(alloc: Global, k: &Skeleton, strand: usize) -> Result<Skeleton, AllocError>
    requires there_is { strand < length k.now.strands }
    requires no_image { IsIn strand k.now.from_problem.strands → ⊥ }
    ensures deletes { IfOk result (λ h. Deletes strand k.now h) }
    ensures variables { IfOk result (λ h. h.variables ≡ k.now.variables) }
{
    let mut left = k.copy(alloc)?;
    left.delete_strand(alloc, strand)?;
    left.is_sound();
    Ok(left)
}

/// The skeleton without a strand that exists, if it may be deleted and the rest is fit: normal and realised. That the strand is
/// needed is mostly seen before the rest is made.
fn try_deletion(
    alloc: Global,
    k: &Skeleton,
    events: &[LocatedEvent<'_>],
    strand: usize,
) -> Result<Option<Skeleton>, AllocError>
    requires there_is { strand < length k.now.strands }
    requires events { events.now ≡ events_of k.now }
    ensures some { IfOk result (λ found. IfSome found (λ h. LeavesFit strand k.now h)) }
    ensures none { IfOk result (λ found. IfNone found (NeverDeletes strand k.now)) }
    ensures variables { IfOk result (λ found. IfSome found (λ h. h.variables ≡ k.now.variables)) }
{
    k.is_sound();
    if is_image(k.from_problem().strands(), strand) {
        return Ok(None);
    }
    if is_needed(alloc, k, events, Part::Strand(strand))? {
        return Ok(None);
    }
    let left = without_strand(alloc, k, strand)?;
    is_fit(alloc, &left).map(|fit| fit.then_some(left))
}

/// The step that deletes a strand: of all strands whose deletion leaves a fit skeleton, the one with the highest number. The
/// result lists its assumptions in report order. `None` if there is no such strand.
pub(crate) fn first_deletion(alloc: Global, k: &Skeleton) -> Result<Option<Skeleton>, AllocError>
    ensures some { IfOk result (λ found. IfSome found (λ h. StepsTo k.now h)) }
    ensures none { IfOk result (λ found. IfNone found (DeletesNone k.now)) }
    ensures fewer { IfOk result (λ found. IfSome found (λ h. length h.strands < length k.now.strands)) }
    ensures variables { IfOk result (λ found. IfSome found (λ h. h.variables ≡ k.now.variables)) }
{
    let events = k.events(alloc)?;
    let mut rest = k.strands().len();
    while rest > 0 {
        rest -= 1;
        match try_deletion(alloc, k, &events, rest)? {
            Some(mut left) => {
                left.list_assumptions(alloc)?;
                return Ok(Some(left));
            }
            None => {}
        }
    }
    Ok(None)
}
