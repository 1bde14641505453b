// The step that drops a pair of the order.
ghost use Rattle.std.specs.Prelude.{◌≡◌, ◌↔◌, drop, false, IsTrue, Some, IfOk, IfSome, IfNone};
ghost use Rattle.std.specs.List.{filter};
ghost use Rattle.cp_lists.specs.Lists.{IsIn};
ghost use Rattle.cp_model.specs.OrderTests.{any_pair};
ghost use Rattle.cp_model.specs.Term.{Term};
ghost use Rattle.cp_model.specs.declared.strand.Event.TheVariants.{Receive as recv};
ghost use Rattle.cp_model.specs.Skeleton.{IsNodeOf, term_event_at};
ghost use Rattle.cp_model.specs.Derivable.{DerivableAt};
ghost use Rattle.cp_skel.specs.Events.{events_of};
ghost use Rattle.cp_skel.specs.Ordered.{ordered_by};
ghost use Rattle.cp_skel.specs.Sound.{IsSound};
ghost use Rattle.cp_collapse.specs.Property.{Has};
ghost use Rattle.cp_normal.specs.OwnPairs.{AllLead};
ghost use Rattle.cp_general.specs.Fit.{IsFit};
ghost use Rattle.cp_general.specs.Generalisation.{WeakensNone};
ghost use Rattle.cp_general.specs.ListedPairs.{ListsAdded, ListsOrder, IsInNeither, is_same_pair, is_other_pair};
ghost use Rattle.cp_general.specs.ProgramSteps.{NeverDrops, MayDrop, HasFreePair, LeavesFitOrder, WeakensFirst};

use crate::covering_pairs::is_covered;
use crate::needed::{Part, is_needed};
use crate::pairs::reordered;
use cp_derive::critical;
use cp_normal::all_lead;
use cp_skel::{LocatedEvent, Node, Order, OrderPair, Skeleton};
use std::alloc::{AllocError, Global};

/// Whether the pair is one of these.
fn is_among(pairs: &[OrderPair], pair: OrderPair) -> bool
    ensures { result ≡ any_pair (is_same_pair pair) pairs.now }
{
    for other in pairs {
        if pair == *other {
            return true;
        }
    }
    false
}

/// The first place, from `from` on, at which the pair stands. The contract says only whether there is one.
fn place_from(pairs: &[OrderPair], from: usize, pair: OrderPair) -> Option<usize>
    ensures some { IfSome result (λ _. IsIn pair pairs.now) }
    ensures none { IfNone result (IsIn pair (drop from pairs.now) → ⊥) }
{
    for place in from..pairs.len() {
        if pair == pairs[place] {
            return Some(place);
        }
    }
    None
}

/// Whether one of these pairs is in neither of the two lists. All lists mostly have the same order, so each pair is looked for
/// first from the place of the last one found, and only then from the beginning.
fn some_is_in_neither(first: &[OrderPair], second: &[OrderPair], pairs: &[OrderPair]) -> bool
    ensures { IsTrue result ↔ Has (IsInNeither first.now second.now) pairs.now }
{
    let mut in_first = 0;
    let mut in_second = 0;
    for pair in pairs {
        if let Some(place) = place_from(first, in_first, *pair) {
            in_first = place;
            continue;
        }
        if let Some(place) = place_from(second, in_second, *pair) {
            in_second = place;
            continue;
        }
        if let Some(place) = place_from(first, 0, *pair) {
            in_first = place;
            continue;
        }
        let Some(place) = place_from(second, 0, *pair) else {
            return true;
        };
        in_second = place;
    }
    false
}

/// Whether one of the skeleton's pairs is neither stated by the problem nor one of those that unique values add. Only such a pair
/// can be dropped.
fn some_is_free(k: &Skeleton, added: &[OrderPair]) -> bool
    requires { ListsAdded k.now added.now }
    ensures { IsTrue result ↔ HasFreePair k.now }
{
    let own = k.from_problem().pairs();
    let pairs = k.order().pairs();
    some_is_in_neither(own, added, pairs)
}

/// Whether a pair may be dropped so that the rest is fit: it is neither stated by the problem nor added by a unique value, and not
/// seen to be needed.
fn is_spare(
    alloc: Global,
    k: &Skeleton,
    events: &[LocatedEvent<'_>],
    added: &[OrderPair],
    pair: OrderPair,
) -> Result<bool, AllocError>
    requires events { events.now ≡ events_of k.now }
    requires added { ListsAdded k.now added.now }
    ensures { IfOk result (λ spare. spare ≡ false → NeverDrops pair k.now) }
{
    if is_among(k.from_problem().pairs(), pair) || is_among(added, pair) {
        return Ok(false);
    }
    is_needed(alloc, k, events, Part::Pair(pair)).map(|needed| !needed)
}

/// Whether some pair may be dropped so that the rest is fit. That none can be is mostly seen so, without making what is left.
pub(crate) fn some_may_drop(
    alloc: Global,
    k: &Skeleton,
    added: &[OrderPair],
) -> Result<bool, AllocError>
    requires { ListsAdded k.now added.now }
    ensures { IfOk result (λ may. may ≡ false → WeakensNone k.now) }
{
    if !some_is_free(k, added) {
        return Ok(false);
    }
    let events = k.events(alloc)?;
    for pair in k.order().pairs() {
        if is_spare(alloc, k, &events, added, *pair)? {
            return Ok(true);
        }
    }
    Ok(false)
}

/// The pairs except this one.
fn others(alloc: Global, pairs: &[OrderPair], pair: OrderPair) -> Result<Vec<OrderPair>, AllocError>
    ensures { IfOk result (λ ps. ps.items ≡ filter (is_other_pair pair) pairs.now) }
{
    pairs
        .iter()
        .copied()
        .filter(|other| *other != pair)
        .collect(alloc)
}

/// Whether a pair may be dropped: it is a covering pair, and neither stated by the problem nor added by a unique value. The
/// skeleton must list all pairs of its order.
fn may_drop(k: &Skeleton, added: &[OrderPair], pair: OrderPair) -> bool
    requires lists { ListsOrder k.now k.now.pairs }
    requires added { ListsAdded k.now added.now }
    requires listed { IsIn pair k.now.pairs }
    ensures { IsTrue result ↔ MayDrop pair k.now }
{
    k.is_sound();
    if is_among(k.from_problem().pairs(), pair) {
        return false;
    }
    if is_among(added, pair) {
        return false;
    }
    !is_covered(k.order().pairs(), pair)
}

/// The skeleton's order without this pair, if the rest still has the order that the problem states.
fn order_without(alloc: Global, k: &Skeleton, pair: OrderPair) -> Result<Option<Order>, AllocError>
    ensures order { IfOk result (λ found. IfSome found (λ o. o ≡ filter (is_other_pair pair) k.now.pairs)) }
    ensures keeps { IfOk result (λ found. IfSome found (λ o. AllLead o k.now.from_problem.pairs)) }
    ensures none { IfOk result (λ found. IfNone found (AllLead (filter (is_other_pair pair) k.now.pairs) k.now.from_problem.pairs → ⊥)) }
{
    let pairs = others(alloc, k.order().pairs(), pair)?;
    let order = Order::of(pairs);
    all_lead(alloc, order.pairs(), k.from_problem().pairs()).map(|keeps| keeps.then_some(order))
}

/// Whether the message received at this reception is derivable there.
fn is_derived(alloc: Global, k: &Skeleton, node: Node) -> Result<bool, AllocError>
    requires { IsNodeOf k.now.strands node }
    ensures { IfOk result (λ derived. (t : Term) → term_event_at k.now.strands node ≡ Some (recv t) → IsTrue derived ↔ DerivableAt k.now node t) }
{
    critical(alloc, k, node).map(|found| found.is_none())
}

/// The skeleton with another order, if the message received at this reception is derivable there. The skeleton must be sound with
/// that order.
fn derived_in_order(
    alloc: Global,
    k: &Skeleton,
    order: Order,
    node: Node,
) -> Result<Option<Skeleton>, AllocError>
    requires sound { IsSound (ordered_by k.now order) }
    requires there { IsNodeOf k.now.strands node }
    ensures exact { IfOk result (λ found. IfSome found (λ h. h ≡ record (k.now) { pairs = order })) }
    ensures derived { IfOk result (λ found. IfSome found (λ _. (t : Term) → term_event_at k.now.strands node ≡ Some (recv t)
        → DerivableAt (ordered_by k.now order) node t)) }
    ensures none { IfOk result (λ found. IfNone found ((t : Term) → term_event_at k.now.strands node ≡ Some (recv t)
        → DerivableAt (ordered_by k.now order) node t → ⊥)) }
{
    let less = reordered(alloc, k, order)?;
    is_derived(alloc, &less, node).map(|derived| derived.then_some(less))
}

/// The skeleton without a pair that may be dropped, if the rest keeps what the problem states and is fit. Only the reception of
/// that pair needs to be tested.
fn try_drop(alloc: Global, k: &Skeleton, pair: OrderPair) -> Result<Option<Skeleton>, AllocError>
    requires lists { ListsOrder k.now k.now.pairs }
    requires fit { IsFit k.now }
    requires may { MayDrop pair k.now }
    ensures some { IfOk result (λ found. IfSome found (λ h. LeavesFitOrder pair k.now h)) }
    ensures none { IfOk result (λ found. IfNone found (NeverDrops pair k.now)) }
    ensures variables { IfOk result (λ found. IfSome found (λ h. h.variables ≡ k.now.variables)) }
{
    k.is_sound();
    match order_without(alloc, k, pair)? {
        Some(order) => derived_in_order(alloc, k, order, pair.later),
        None => Ok(None),
    }
}

/// The step that drops a pair: of all pairs that can be dropped, the lowest. The skeleton must be fit and list all pairs of its
/// order; the pairs that unique values add are given. `None` if no pair can be dropped so that the rest is fit.
pub(crate) fn first_drop(
    alloc: Global,
    k: &Skeleton,
    added: &[OrderPair],
) -> Result<Option<Skeleton>, AllocError>
    requires lists { ListsOrder k.now k.now.pairs }
    requires fit { IsFit k.now }
    requires added { ListsAdded k.now added.now }
    ensures some { IfOk result (λ found. IfSome found (λ h. WeakensFirst k.now h)) }
    ensures none { IfOk result (λ found. IfNone found (WeakensNone k.now)) }
    ensures variables { IfOk result (λ found. IfSome found (λ h. h.variables ≡ k.now.variables)) }
{
    for pair in k.order().pairs() {
        if !may_drop(k, added, *pair) {
            continue;
        }
        match try_drop(alloc, k, *pair)? {
            Some(less) => return Ok(Some(less)),
            None => {}
        }
    }
    Ok(None)
}
