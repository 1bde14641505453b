// Maps items of a skeleton to items of another.
ghost use Rattle.std.specs.Prelude.{IfOk};
ghost use Rattle.cp_hom.specs.PartialMaps.{partial_view, FindsMaps};
ghost use Rattle.cp_hom.specs.Counterparts.{TakesItem};
ghost use Rattle.cp_hom.specs.Pairings.{TakesPair};

use crate::items::Item;
use crate::pairings::{Pairing, paired};
use crate::partials::{Partial, match_numbers, match_terms};
use crate::strand_matches::match_strands;
use cp_skel::Skeleton;
use std::alloc::{AllocError, Global};

/// Maps two items to each other.
fn place_pair(
    alloc: Global,
    pair: Pairing<'_>,
    given: Partial,
) -> Result<Option<Partial>, AllocError>
    ensures { IfOk result (FindsMaps (TakesPair pair.entry) (partial_view given)) }
{
    match pair {
        Pairing::Strands(strand, image, from, to) => match match_numbers(strand, image, given)? {
            Some(found) => match_strands(alloc, from, to, found),
            None => Ok(None),
        },
        Pairing::Terms(from, to) => match_terms(alloc, from, to, given),
        Pairing::Origins(strand, image, from, to) => match match_numbers(strand, image, given)? {
            Some(found) => match_terms(alloc, from, to, found),
            None => Ok(None),
        },
    }
}

/// Maps an item of the first skeleton to the item with this number of the second.
pub(crate) fn place(
    alloc: Global,
    a: &Skeleton,
    b: &Skeleton,
    item: Item,
    image: usize,
    given: Partial,
) -> Result<Option<Partial>, AllocError>
    ensures { IfOk result (FindsMaps (TakesItem a.now b.now item image) (partial_view given)) }
{
    match paired(a, b, item, image) {
        Some(pair) => place_pair(alloc, pair, given),
        None => Ok(None),
    }
}
