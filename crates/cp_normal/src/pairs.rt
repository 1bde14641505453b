// The pairs from recorded origins of unique values to receptions that carry them.
ghost use Rattle.std.specs.Prelude.{◌↔◌, IfOk, IfSome, IfNone};
ghost use Rattle.cp_lists.specs.Lists.{IsIn};
ghost use Rattle.cp_model.specs.declared.node.OrderPair.{OrderPair as Plain};
ghost use Rattle.cp_normal.specs.Events.{IsPairBetween};
ghost use Rattle.cp_normal.specs.Findings.{IsAddedPair};

use crate::carried_values::carries_value;
use cp_skel::{Event, ListedSkeleton, LocatedEvent, OrderPair, Skeleton, UniqueAt};
use std::alloc::{AllocError, Global};

/// The pair from the recorded origin of a unique value to an event, if the event is a reception on another strand that carries
/// the value.
fn pair_between(occurrence: &LocatedEvent<'_>, unique: &UniqueAt) -> Option<OrderPair>
    ensures some { IfSome result (λ p. IsPairBetween occurrence.now unique.now p) }
    ensures none { IfNone result ((p : Plain) → IsPairBetween occurrence.now unique.now p → ⊥) }
{
    let later = occurrence.node();
    let is_pair = matches!(occurrence.event(), Event::Receive(_))
        && unique.origin().strand != later.strand
        && carries_value(occurrence, unique.value());
    if is_pair {
        Some(OrderPair {
            earlier: unique.origin(),
            later,
        })
    } else {
        None
    }
}

/// The pairs that unique values add.
pub(crate) fn pairs_among(
    alloc: Global,
    k: &ListedSkeleton<'_>,
) -> Result<Vec<OrderPair>, AllocError>
    ensures { IfOk result (λ pairs. (p : Plain) → IsIn p pairs.items ↔ IsAddedPair k.now p) }
{
    let occurrences = k.events();
    let uniques = k.skeleton().assumptions().uniquely_originating();
    let mut pairs = Vec::new(alloc);
    for occurrence in occurrences {
        for unique in uniques {
            match pair_between(occurrence, unique) {
                Some(pair) => pairs.push(pair)?,
                None => continue,
            }
        }
    }
    Ok(pairs)
}

/// The pairs from the recorded origin of each unique value to the receptions of other strands, listeners included, that carry it.
pub fn added_pairs(alloc: Global, k: &Skeleton) -> Result<Vec<OrderPair>, AllocError>
    ensures { IfOk result (λ pairs. (p : Plain) → IsIn p pairs.items ↔ IsAddedPair k.now p) }
{
    let listed = ListedSkeleton::of(alloc, k)?;
    pairs_among(alloc, &listed)
}
