// Embeddings that are found without going back: each item is placed at the first choice that may hold.
ghost use Rattle.std.specs.Prelude.{IfOk, IfSome};
ghost use Rattle.cp_model.specs.Homomorphism.{IsEmbedding};
ghost use Rattle.cp_skel.specs.Ordered.{IsOrdered};
ghost use Rattle.cp_hom.specs.Maps.{map_view};
ghost use Rattle.cp_hom.specs.PartialMaps.{partial_view};
ghost use Rattle.cp_hom.specs.OpenMaps.{IsStarted};
ghost use Rattle.cp_hom.specs.FirstChoices.{PlacesItem, PlacesKinds};

use crate::items::{Item, Kind, count};
use crate::kept_order::is_blocked;
use crate::known::known_place;
use crate::partials::Partial;
use crate::placed_items::place;
use crate::search::finish;
use crate::strand_map::Map;
use cp_skel::Skeleton;
use std::alloc::{AllocError, Global};

/// The strand that an embedding the other way, with these images, maps to a strand.
fn origin_of(item: Item, images: &[usize]) -> Option<usize> {
    if item.kind == Kind::Strands {
        images.iter().position(|image| *image == item.index)
    } else {
        None
    }
}

/// Places an item at the choice that is guessed, if one is; otherwise at the first that is not known to fail, for a role strand
/// one that no other has. `None` if that choice fails, or if there is none.
fn place_first(
    alloc: Global,
    a: &Skeleton,
    b: &Skeleton,
    item: Item,
    guess: Option<usize>,
    given: Partial,
) -> Result<Option<Partial>, AllocError>
    ensures { IfOk result (λ found. IfSome found (λ p. PlacesItem a.now b.now item (partial_view given) (partial_view p))) }
{
    if let Some(number) = guess {
        return place(alloc, a, b, item, number, given);
    }
    for number in 0..count(item.kind, b) {
        match known_place(a, b, item, number, &given) {
            Some(true) => return Ok(Some(given)),
            Some(false) => continue,
            None => {
                if is_blocked(a.strands(), item, number, &given.placements) {
                    continue;
                }
                return place(alloc, a, b, item, number, given);
            }
        }
    }
    Ok(None)
}

/// Places the items of these kinds, one after another, strands where the images of an embedding the other way lead back.
fn place_kinds(
    alloc: Global,
    a: &Skeleton,
    b: &Skeleton,
    kinds: &[Kind],
    images: &[usize],
    given: Partial,
) -> Result<Option<Partial>, AllocError>
    ensures { IfOk result (λ found. IfSome found (λ p. PlacesKinds a.now b.now kinds.now (partial_view given) (partial_view p))) }
{
    let mut found = given;
    for kind in kinds {
        for index in 0..count(*kind, a) {
            let item = Item { kind: *kind, index };
            let guess = origin_of(item, images);
            let Some(next) = place_first(alloc, a, b, item, guess, found)? else {
                return Ok(None);
            };
            found = next;
        }
    }
    Ok(Some(found))
}

/// An embedding that extends a partial map, if first choices lead to one. The images are those of an embedding the other way, if
/// there are any.
pub(crate) fn embed_at_once(
    alloc: Global,
    a: &Skeleton,
    b: &Skeleton,
    images: &[usize],
    given: &Partial,
) -> Result<Option<Map>, AllocError>
    requires ordered { IsOrdered a.now }
    requires other_ordered { IsOrdered b.now }
    requires started { IsStarted a.now b.now (partial_view given.now) }
    ensures { IfOk result (λ found. IfSome found (λ f. IsEmbedding a.now b.now (map_view f))) }
{
    let kinds = [
        Kind::Strands,
        Kind::NonOriginating,
        Kind::PenetratorNonOriginating,
        Kind::Uniques,
    ];
    match place_kinds(alloc, a, b, &kinds, images, given.copy(alloc)?)? {
        Some(whole) => finish(alloc, a, b, whole),
        None => Ok(None),
    }
}
