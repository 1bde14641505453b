// Recorded origins of unique values: values that have two, and values that do not originate there.
ghost use Rattle.std.specs.Prelude.{◌≡◌, ◌↔◌, IsTrue, IfOk};
ghost use Rattle.cp_model.specs.Realisation.{OriginatesAtTerm};
ghost use Rattle.cp_lists.specs.Lists.{IsIn};
ghost use Rattle.cp_collapse.specs.Property.{Has};
ghost use Rattle.cp_skel.specs.Events.{events_of};
ghost use Rattle.cp_normal.specs.Events.{HasOtherOrigin, IsSentAtOrigin, IsCarriedBefore};
ghost use Rattle.cp_normal.specs.Findings.{HasTwoOrigins, LosesOrigin};

use crate::carried_values::carries_value;
use cp_skel::{Atom, Event, ListedSkeleton, LocatedEvent, Node, Skeleton, UniqueAt};
use std::alloc::{AllocError, Global};

/// Whether the other entry has the same value and another origin.
fn is_elsewhere(unique: &UniqueAt, other: &UniqueAt) -> bool
    ensures { IsTrue result ↔ HasOtherOrigin unique.now other.now }
{
    unique.origin() != other.origin() && unique.value().same(other.value())
}

/// Whether some entry gives the value another origin.
fn has_another_origin(uniques: &[UniqueAt], unique: &UniqueAt) -> bool
    ensures { IsTrue result ↔ Has (λ w. HasOtherOrigin unique.now w) uniques.now }
{
    for other in uniques {
        if is_elsewhere(unique, other) {
            return true;
        }
    }
    false
}

/// Whether some value has two origins among these entries.
fn some_has_two_origins(uniques: &[UniqueAt]) -> bool
    ensures { IsTrue result ↔ Has (λ u. Has (λ w. HasOtherOrigin u w) uniques.now) uniques.now }
{
    for unique in uniques {
        if has_another_origin(uniques, unique) {
            return true;
        }
    }
    false
}

/// Whether a unique value has two recorded origins, at different nodes.
pub fn has_two_origins(k: &Skeleton) -> bool
    ensures { IsTrue result ↔ HasTwoOrigins k.now }
{
    some_has_two_origins(k.assumptions().uniquely_originating())
}

/// Whether the event is a transmission at the node, and carries the value.
fn is_sent_at_origin(occurrence: &LocatedEvent<'_>, value: &Atom, origin: Node) -> bool
    ensures { IsTrue result ↔ IsSentAtOrigin (record { value = value.now; origin = origin }) occurrence.now }
{
    matches!(occurrence.event(), Event::Send(_))
        && occurrence.node() == origin
        && carries_value(occurrence, value)
}

/// Whether the event is before the node on its strand, and carries the value.
fn is_carried_before(occurrence: &LocatedEvent<'_>, value: &Atom, origin: Node) -> bool
    ensures { IsTrue result ↔ IsCarriedBefore (record { value = value.now; origin = origin }) occurrence.now }
{
    let at = occurrence.node();
    at.strand == origin.strand && at.index < origin.index && carries_value(occurrence, value)
}

/// Whether some event before the node, on its strand, carries the value.
fn some_is_carried_before(occurrences: &[LocatedEvent<'_>], value: &Atom, origin: Node) -> bool
    ensures { IsTrue result ↔ Has (λ o. IsCarriedBefore (record { value = value.now; origin = origin }) o) occurrences.now }
{
    occurrences
        .iter()
        .any(|occurrence| is_carried_before(occurrence, value, origin))
}

/// Whether the event stands at the node.
fn is_at(occurrence: &LocatedEvent<'_>, node: Node) -> bool
    ensures { IsTrue result ↔ (occurrence.now.node ≡ node) }
{
    occurrence.node() == node
}

/// Whether the value originates at this event.
pub(crate) fn originates_at(
    k: &ListedSkeleton<'_>,
    occurrence: &LocatedEvent<'_>,
    value: &Atom,
) -> bool
    requires is_there { IsIn occurrence.now (events_of k.now) }
    ensures { IsTrue result ↔ OriginatesAtTerm k.now value.now occurrence.now.node }
{
    if !occurrence.is_by_role() {
        return false;
    }
    let node = occurrence.node();
    if !is_sent_at_origin(occurrence, value, node) {
        return false;
    }
    !some_is_carried_before(k.events(), value, node)
}

/// Whether the value originates at the node.
fn originates(k: &ListedSkeleton<'_>, value: &Atom, origin: Node) -> bool
    ensures { IsTrue result ↔ OriginatesAtTerm k.now value.now origin }
{
    let occurrences = k.events();
    for occurrence in occurrences {
        if is_at(occurrence, origin) {
            return originates_at(k, occurrence, value);
        }
    }
    false
}

/// Whether some of these unique values does not originate at its recorded origin.
fn one_loses_origin(k: &ListedSkeleton<'_>, uniques: &[UniqueAt]) -> bool
    ensures { IsTrue result ↔ Has (λ u. OriginatesAtTerm k.now u.value u.origin → ⊥) uniques.now }
{
    for unique in uniques {
        if !originates(k, unique.value(), unique.origin()) {
            return true;
        }
    }
    false
}

/// Whether some unique value does not originate at its recorded origin.
pub(crate) fn some_loses_origin(k: &ListedSkeleton<'_>) -> bool
    ensures { IsTrue result ↔ LosesOrigin k.now }
{
    one_loses_origin(k, k.skeleton().assumptions().uniquely_originating())
}

/// Whether some unique value does not originate at its recorded origin.
pub fn loses_origin(alloc: Global, k: &Skeleton) -> Result<bool, AllocError>
    ensures { IfOk result (λ found. IsTrue found ↔ LosesOrigin k.now) }
{
    ListedSkeleton::of(alloc, k).map(|listed| some_loses_origin(&listed))
}
