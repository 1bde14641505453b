// Searches for an embedding: places the items one after another, and tries the next choice when one fails.
ghost use Rattle.std.specs.Prelude.{◌≡◌, ◌↔◌, ◌<◌, ◌-◌, [], ◌∷◌, ◌++◌, ◌^◌, option_map, IsTrue, IfOk, OnOk, IfSome, IfNone};
ghost use Rattle.cp_lists.specs.Lists.{IsIn};
ghost use Rattle.cp_model.specs.Homomorphism.{IsEmbedding};
ghost use Rattle.cp_skel.specs.Ordered.{IsOrdered};
ghost use Rattle.cp_hom.specs.Maps.{map_view};
ghost use Rattle.cp_hom.specs.PartialMaps.{partial_view, FindsAmong};
ghost use Rattle.cp_hom.specs.Counterparts.{TakesItem, AreItemsOf, KeepsOrderApart};
ghost use Rattle.cp_hom.specs.OpenMaps.{branch_view, branches_view, next_maps, from_choice, placed_map, IsStarted, IsWholeMap, NeverEmbeds, IsOpenMap, AreOpen, TakePlace};

use crate::broken::breaks_order;
use crate::items::{Item, count};
use crate::kept_order::{is_blocked, keeps_apart, keeps_pairs};
use crate::known::next_choice;
use crate::numbered_items::item_at;
use crate::partials::Partial;
use crate::placed_items::place;
use crate::strand_map::Map;
use cp_skel::Skeleton;
use std::alloc::{AllocError, Global};

/// A partial map that places the first items, and the number of the first choice still to be tried for the next item.
#[derive(Drop)]
pub(crate) struct Branch {
    done: usize,
    choice: usize,
    given: Partial,
}

/// The embedding given by a partial map that places all items, if it is one.
pub(crate) fn finish(
    alloc: Global,
    a: &Skeleton,
    b: &Skeleton,
    given: Partial,
) -> Result<Option<Map>, AllocError>
    requires ordered { IsOrdered a.now }
    requires other_ordered { IsOrdered b.now }
    requires whole { IsWholeMap a.now b.now (partial_view given) }
    ensures some { IfOk result (λ found. IfSome found (λ f. IsEmbedding a.now b.now (map_view f))) }
    ensures none { IfOk result (λ found. IfNone found (NeverEmbeds a.now b.now (partial_view given))) }
{
    let mapping = given.into_map(alloc)?;
    if !keeps_apart(a.strands(), &mapping) {
        return Ok(None);
    }
    if !keeps_pairs(alloc, a.order().pairs(), b.order().pairs(), &mapping)? {
        return Ok(None);
    }
    Ok(Some(mapping))
}

/// Appends what remains of a branch after this choice was tried: the next choice, and after it the result of this one, which is
/// thus tried first.
fn push_next(
    branch: Branch,
    choice: usize,
    found: Option<Partial>,
    branches: &mut Vec<Branch>,
) -> Result<(), AllocError>
    requires done { branch.done < 2 ^ 64 - 1 }
    requires choice { choice < 2 ^ 64 - 1 }
    ensures { OnOk result (branches_view branches.new.items
        ≡ branches_view branches.old.items ++ next_maps (from_choice (branch_view branch) choice) (option_map partial_view found)) }
{
    let done = branch.done;
    branches.push(Branch {
        done,
        choice: choice + 1,
        given: branch.given,
    })?;
    if let Some(given) = found {
        branches.push(Branch {
            done: done + 1,
            choice: 0,
            given,
        })?;
    }
    Ok(())
}

/// Tries one choice for an item. It fails if the item is a role strand and another one has that image, or if the placed strands
/// would not keep the order.
fn try_choice(
    alloc: Global,
    a: &Skeleton,
    b: &Skeleton,
    item: Item,
    choice: usize,
    given: &Partial,
) -> Result<Option<Partial>, AllocError>
    ensures { IfOk result (FindsAmong (KeepsOrderApart a.now b.now)
        (TakesItem a.now b.now item choice) (partial_view given.now)) }
{
    if is_blocked(a.strands(), item, choice, &given.placements) {
        return Ok(None);
    }
    let copy = given.copy(alloc)?;
    let Some(found) = place(alloc, a, b, item, choice, copy)? else {
        return Ok(None);
    };
    if breaks_order(alloc, a, b, item, &found.placements)? {
        return Ok(None);
    }
    Ok(Some(found))
}

/// Whether the items are the same.
fn is_same_item(x: Item, y: Item) -> bool
    ensures { IsTrue result ↔ (x ≡ y) }
{
    x.kind == y.kind && x.index == y.index
}

/// Whether an item is one of these.
fn is_listed(items: &[Item], item: Item) -> bool
    ensures { IsTrue result → IsIn item items.now }
{
    for other in items {
        if is_same_item(*other, item) {
            return true;
        }
    }
    false
}

/// Appends what remains of a branch whose next item is placed already.
fn push_placed(branch: Branch, branches: &mut Vec<Branch>) -> Result<(), AllocError>
    requires done { branch.done < 2 ^ 64 - 1 }
    ensures { OnOk result (branches_view branches.new.items ≡ branches_view branches.old.items ++ (placed_map (branch_view branch) ∷ [])) }
{
    let placed = Branch {
        done: branch.done + 1,
        choice: 0,
        given: branch.given,
    };
    branches.push(placed).map_err(AllocError::from)
}

/// Takes one step from a branch. If the next item is placed already, or its next possible choice surely holds, goes on to the
/// item after it. Otherwise tries that choice. Choices that fail for every map are skipped. Appends what is left to try to the
/// other branches. Returns the embedding if this was the last step to one.
fn advance(
    alloc: Global,
    a: &Skeleton,
    b: &Skeleton,
    items: &[Item],
    branch: Branch,
    branches: &mut Vec<Branch>,
) -> Result<Option<Map>, AllocError>
    requires ordered { IsOrdered a.now }
    requires other_ordered { IsOrdered b.now }
    requires items { AreItemsOf a.now items.now }
    requires branch { IsOpenMap a.now b.now items.now (branch_view branch) }
    requires branches { AreOpen a.now b.now items.now (branches_view branches.old.items) }
    ensures some { IfOk result (λ found. IfSome found (λ f. IsEmbedding a.now b.now (map_view f))) }
    ensures none { IfOk result (λ found. IfNone found (TakePlace a.now b.now items.now
        (branch_view branch) (branches_view branches.old.items) (branches_view branches.new.items))) }
{
    let Some(item) = item_at(items, branch.done) else {
        return finish(alloc, a, b, branch.given);
    };
    if branch.choice >= count(item.kind, b) {
        return Ok(None);
    }
    // A choice other than the first is left only if the item is not placed yet.
    if branch.choice == 0 && is_listed(&items[..branch.done], item) {
        push_placed(branch, branches)?;
        return Ok(None);
    }
    let Some(next) = next_choice(a, b, item, branch.choice, &branch.given) else {
        return Ok(None);
    };
    if next.is_sure {
        push_placed(branch, branches)?;
        return Ok(None);
    }
    let found = try_choice(alloc, a, b, item, next.number, &branch.given)?;
    push_next(branch, next.number, found, branches)?;
    Ok(None)
}

/// An embedding of a skeleton in another that extends a partial map, if there is one.
pub(crate) fn search(
    alloc: Global,
    a: &Skeleton,
    b: &Skeleton,
    items: &[Item],
    given: Partial,
) -> Result<Option<Map>, AllocError>
    requires ordered { IsOrdered a.now }
    requires other_ordered { IsOrdered b.now }
    requires items { AreItemsOf a.now items.now }
    requires started { IsStarted a.now b.now (partial_view given) }
    ensures some { IfOk result (λ found. IfSome found (λ f. IsEmbedding a.now b.now (map_view f))) }
    ensures none { IfOk result (λ found. IfNone found (NeverEmbeds a.now b.now (partial_view given))) }
{
    let mut branches = Vec::new(alloc);
    branches.push(Branch {
        done: 0,
        choice: 0,
        given,
    })?;
    while let Some(branch) = branches.pop() {
        if let Some(found) = advance(alloc, a, b, items, branch, &mut branches)? {
            return Ok(Some(found));
        }
    }
    Ok(None)
}
