// Misplaced values: unique values that originate elsewhere than at their recorded origins.
ghost use Rattle.std.specs.Prelude.{◌≡◌, ◌↔◌, false, IsTrue, IfOk, MatchOption};
ghost use Rattle.cp_model.specs.Given.{listed};
ghost use Rattle.cp_lists.specs.Lists.{IsIn};
ghost use Rattle.cp_model.specs.Skeleton.{UniqueAt as Plain};
ghost use Rattle.cp_normal.specs.Branches.{IsSettled};
ghost use Rattle.cp_skel.specs.Events.{events_of};
ghost use Rattle.cp_normal.specs.MisplacedValues.{OriginatesElsewhere, IsOtherMisplaced, IsFirstMisplacedAt, IsFirstMisplaced};

use crate::origins::originates_at;
use cp_skel::{Atom, ListedSkeleton, LocatedEvent, Node, UniqueAt, listed};
use std::alloc::{AllocError, Global};

/// A unique value, and a node of a role strand at which it originates and that is not its recorded origin.
#[derive(Drop)]
pub(crate) struct Misplaced {
    pub(crate) value: Atom,
    pub(crate) node: Node,
}

/// Whether a unique value is misplaced at this event.
fn originates_elsewhere(
    k: &ListedSkeleton<'_>,
    occurrence: &LocatedEvent<'_>,
    unique: &UniqueAt,
) -> bool
    requires is_there { IsIn occurrence.now (events_of k.now) }
    ensures { IsTrue result ↔ OriginatesElsewhere k.now occurrence.now.node unique.now }
{
    let node = occurrence.node();
    if node == unique.origin() {
        return false;
    }
    originates_at(k, occurrence, unique.value())
}

/// The value of the first entry that is misplaced at this event.
fn first_at<'a>(
    k: &ListedSkeleton<'_>,
    occurrence: &LocatedEvent<'_>,
    uniques: &'a [UniqueAt],
) -> Option<&'a Atom>
    requires is_there { IsIn occurrence.now (events_of k.now) }
    ensures { MatchOption result
        ((u : Plain) → IsIn u uniques.now → OriginatesElsewhere k.now occurrence.now.node u → ⊥)
        (λ v. IsFirstMisplacedAt k.now occurrence.now.node uniques.now v.now) }
{
    for unique in uniques {
        if originates_elsewhere(k, occurrence, unique) {
            return Some(unique.value());
        }
    }
    None
}

/// Whether some unique value is misplaced.
pub(crate) fn some_is_misplaced(k: &ListedSkeleton<'_>) -> bool
    ensures none { result ≡ false → IsSettled k.now }
    ensures some { IsTrue result → IsSettled k.now → ⊥ }
{
    let occurrences = k.events();
    let uniques = k.skeleton().assumptions().uniquely_originating();
    for occurrence in occurrences {
        match first_at(k, occurrence, uniques) {
            Some(_) => return true,
            None => {}
        }
    }
    false
}

/// Whether another unique value than this one is misplaced at this event.
fn is_other_misplaced(
    k: &ListedSkeleton<'_>,
    occurrence: &LocatedEvent<'_>,
    unique: &UniqueAt,
    value: &Atom,
) -> bool
    requires is_there { IsIn occurrence.now (events_of k.now) }
    ensures { IsTrue result ↔ IsOtherMisplaced k.now occurrence.now.node value.now unique.now }
{
    !unique.value().same(value) && originates_elsewhere(k, occurrence, unique)
}

/// Whether no other unique value than this one is misplaced at this event.
fn is_alone(
    k: &ListedSkeleton<'_>,
    occurrence: &LocatedEvent<'_>,
    uniques: &[UniqueAt],
    value: &Atom,
) -> bool
    requires is_there { IsIn occurrence.now (events_of k.now) }
    ensures { IsTrue result
        → (u : Plain) → IsIn u uniques.now → IsOtherMisplaced k.now occurrence.now.node value.now u → ⊥ }
{
    for unique in uniques {
        if is_other_misplaced(k, occurrence, unique, value) {
            return false;
        }
    }
    true
}

/// The value that a report lists first of those that are misplaced at this event; `found` is the one that the skeleton lists
/// first. They are put into the order of the report only if there are several.
fn first_listed(
    alloc: Global,
    k: &ListedSkeleton<'_>,
    occurrence: &LocatedEvent<'_>,
    found: &Atom,
) -> Result<Atom, AllocError>
    requires is_there { IsIn occurrence.now (events_of k.now) }
    requires misplaced { IsFirstMisplacedAt k.now occurrence.now.node k.now.assumptions.uniquely_originating found.now }
    ensures { IfOk result (λ v. IsFirstMisplacedAt k.now occurrence.now.node (listed k.now).uniquely_originating v) }
{
    let uniques = k.skeleton().assumptions().uniquely_originating();
    if is_alone(k, occurrence, uniques, found) {
        return found.copy();
    }
    let assumptions = listed(alloc, k.skeleton())?;
    match first_at(k, occurrence, assumptions.uniquely_originating()) {
        Some(first) => first.copy(),
        None => found.copy(),
    }
}

/// The first unique value that is misplaced: by the strand of the node where it originates, then the node's index, then the
/// report order of unique values.
pub(crate) fn first_misplaced(
    alloc: Global,
    k: &ListedSkeleton<'_>,
) -> Result<Option<Misplaced>, AllocError>
    ensures { IfOk result (λ found. MatchOption found
        (IsSettled k.now)
        (λ s. IsFirstMisplaced k.now s.value s.node)) }
{
    let occurrences = k.events();
    let uniques = k.skeleton().assumptions().uniquely_originating();
    for occurrence in occurrences {
        match first_at(k, occurrence, uniques) {
            Some(found) => {
                let value = first_listed(alloc, k, occurrence, found)?;
                let node = occurrence.node();
                return Ok(Some(Misplaced { value, node }));
            }
            None => {}
        }
    }
    Ok(None)
}
