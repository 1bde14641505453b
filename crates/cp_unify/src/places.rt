// A table that gives for a variable's number where its bindings begin.
ghost use Rattle.std.specs.Prelude.{◌≡◌, ◌==◌, ℕ, List, ◌∷◌, get_or, if◌then◌else◌, IfOk, OnOk};
ghost use Rattle.cp_unify.specs.Bindings.{Binding as Plain};
ghost use Rattle.cp_unify.specs.Places.{ArePlaces, ArePlacesIfAny};

use crate::binding::Binding;
use std::alloc::{AllocError, Global};

/// Up to this many bindings are searched one by one.
const FEW: usize = 16;

/// A table is kept if it has at most this many entries for each binding.
const ENTRIES: usize = 32;

/// The count of a number; 0 past the end of the table.
pub(crate) fn count_at(places: &[usize], number: usize) -> usize
    ensures { result ≡ get_or places.now number 0 }
{
    match places.get(number) {
        Some(count) => *count,
        None => 0,
    }
}

/// Sets the count of a number.
fn put(places: &mut Vec<usize>, number: usize, count: usize) -> Result<(), AllocError>
    ensures { OnOk result ((n : ℕ) → get_or places.new.items n 0
        ≡ (if n == number then count else get_or places.old.items n 0)) }
{
    while places.len() <= number {
        places.push(0)?;
    }
    places[number] = count;
    Ok(())
}

/// The table of bindings.
fn places_of(alloc: Global, bindings: &[Binding]) -> Result<Vec<usize>, AllocError>
    ensures { IfOk result (λ places. ArePlaces places.items bindings.now) }
{
    let mut places = Vec::new(alloc);
    let mut start = bindings.len();
    while start > 0 {
        start -= 1;
        let number = bindings[start].variable().number;
        put(&mut places, number, bindings.len() - start)?;
    }
    Ok(places)
}

/// Whether a table up to this number is worth its memory for so many bindings.
fn is_worth(number: usize, count: usize) -> bool {
    count > FEW && number / ENTRIES < count
}

/// The greatest number of a bound variable, or 0.
fn greatest(bindings: &[Binding]) -> usize {
    let mut greatest = 0;
    for binding in bindings {
        greatest = greatest.max(binding.variable().number);
    }
    greatest
}

/// The table of bindings, or an empty one if it is not worth its memory.
pub(crate) fn worthy_places(alloc: Global, bindings: &[Binding]) -> Result<Vec<usize>, AllocError>
    ensures { IfOk result (λ places. ArePlacesIfAny places.items bindings.now) }
{
    if bindings.len() <= FEW || !is_worth(greatest(bindings), bindings.len()) {
        return Ok(Vec::new(alloc));
    }
    places_of(alloc, bindings)
}

/// The table of bindings, made from that of the others: the first binding is new and has this number. If that table is
/// empty, whether one has become worth its memory is tested only once every `FEW` bindings.
pub(crate) fn places_with(
    alloc: Global,
    places: Vec<usize>,
    bindings: &[Binding],
    number: usize,
) -> Result<Vec<usize>, AllocError>
    ensures { IfOk result (λ found. (b : Plain) (bs : List Plain) → bindings.now ≡ b ∷ bs → number ≡ b.variable.number
        → ArePlacesIfAny places.items bs → ArePlacesIfAny found.items bindings.now) }
{
    if places.is_empty() {
        if bindings.len() % FEW != 0 {
            return Ok(places);
        }
        return worthy_places(alloc, bindings);
    }
    if !is_worth(number, bindings.len()) {
        return Ok(Vec::new(alloc));
    }
    let mut places = places;
    put(&mut places, number, bindings.len())?;
    Ok(places)
}
