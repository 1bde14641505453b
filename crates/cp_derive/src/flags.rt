// Compares lists of places by flagging them.
ghost use Rattle.std.specs.Prelude.{◌≡◌, ◌++◌, [], false, get_or, replicate, IfOk, IfSome};
ghost use Rattle.cp_derive.specs.Places.{AreSamePlaces, flagged_places, are_flagged, unflagged_behind};

use std::alloc::{AllocError, Global};

/// For each place below `count`, whether it is in the list.
fn marks_at(alloc: Global, count: usize, places: &[usize]) -> Result<Vec<bool>, AllocError>
    ensures { IfOk result (λ flags. flags.items ≡ flagged_places places.now (replicate count false)) }
{
    let mut flags = vec![in alloc; false; count]?;
    for place in places {
        let place = *place;
        if place < flags.len() {
            flags[place] = true;
        }
    }
    Ok(flags)
}

/// Whether this place is flagged.
fn is_flagged(flags: &[bool], place: usize) -> bool
    ensures { result ≡ get_or flags.now place false }
{
    place < flags.len() && flags[place]
}

/// Whether all these places are flagged.
fn are_flagged(flags: &[bool], places: &[usize]) -> bool
    ensures { result ≡ are_flagged flags.now places.now }
{
    for place in places {
        if !is_flagged(flags, *place) {
            return false;
        }
    }
    true
}

/// Those of these places that are not flagged.
fn unflagged(alloc: Global, flags: &[bool], places: &[usize]) -> Result<Vec<usize>, AllocError>
    ensures { IfOk result (λ more. more.items ≡ unflagged_behind [] flags.now places.now) }
{
    let mut more = Vec::new(alloc);
    for place in places {
        if is_flagged(flags, *place) {
            continue;
        }
        more.push(*place)?;
    }
    Ok(more)
}

/// If these places contain all the last ones: those of them that are not among the last. `count` is greater than every place.
pub(crate) fn places_behind(
    alloc: Global,
    count: usize,
    last: &[usize],
    places: &[usize],
) -> Result<Option<Vec<usize>>, AllocError>
    ensures { IfOk result (λ found. IfSome found (λ more. AreSamePlaces places.now (last.now ++ more.items))) }
{
    let there = marks_at(alloc, count, places)?;
    if !are_flagged(&there, last) {
        return Ok(None);
    }
    let before = marks_at(alloc, count, last)?;
    let more = unflagged(alloc, &before, places)?;
    Ok(Some(more))
}
