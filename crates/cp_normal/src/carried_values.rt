// Tests whether nodes carry non-originating values.
ghost use Rattle.std.specs.Prelude.{◌↔◌, IsTrue, IfOk};
ghost use Rattle.cp_model.specs.Term.{atom_term, IsCarriedByTerm};
ghost use Rattle.cp_model.specs.Strand.{payload};
ghost use Rattle.cp_collapse.specs.Property.{Has};
ghost use Rattle.cp_normal.specs.Events.{CarriesOne};
ghost use Rattle.cp_normal.specs.Findings.{CarriesNonOriginating};

use cp_skel::{Atom, ListedSkeleton, LocatedEvent, Skeleton};
use cp_term::carries;
use std::alloc::{AllocError, Global};

/// Whether the event carries the value.
pub(crate) fn carries_value(occurrence: &LocatedEvent<'_>, value: &Atom) -> bool
    ensures { IsTrue result ↔ IsCarriedByTerm (atom_term value.now) (payload occurrence.now.event) }
{
    carries(occurrence.event().payload(), value.as_term())
}

/// Whether the event carries one of the values.
fn carries_one(occurrence: &LocatedEvent<'_>, values: &[Atom]) -> bool
    ensures { IsTrue result ↔ CarriesOne values.now occurrence.now }
{
    for value in values {
        if carries_value(occurrence, value) {
            return true;
        }
    }
    false
}

/// Whether some event carries one of the values.
fn some_carries_one(occurrences: &[LocatedEvent<'_>], values: &[Atom]) -> bool
    ensures { IsTrue result ↔ Has (λ o. CarriesOne values.now o) occurrences.now }
{
    occurrences
        .iter()
        .any(|occurrence| carries_one(occurrence, values))
}

/// Whether some node carries a non-originating value.
pub(crate) fn some_carries_non_originating(k: &ListedSkeleton<'_>) -> bool
    ensures { IsTrue result ↔ CarriesNonOriginating k.now }
{
    some_carries_one(k.events(), k.skeleton().assumptions().non_originating())
}

/// Whether some node, of a role strand or a listener, carries a non-originating value.
pub fn carries_non_originating(alloc: Global, k: &Skeleton) -> Result<bool, AllocError>
    ensures { IfOk result (λ found. IsTrue found ↔ CarriesNonOriginating k.now) }
{
    ListedSkeleton::of(alloc, k).map(|listed| some_carries_non_originating(&listed))
}
