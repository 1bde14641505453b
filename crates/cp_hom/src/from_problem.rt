// Matches the maps from the problem.
ghost use Rattle.std.specs.Prelude.{◌≡◌, map, IfOk};
ghost use Rattle.cp_model.specs.Term.{apply_to};
ghost use Rattle.cp_hom.specs.PartialMaps.{partial_view, nothing, FindsMaps};
ghost use Rattle.cp_hom.specs.Counterparts.{KeepsProblem};

use crate::partials::{Partial, match_numbers, match_terms};
use cp_skel::Skeleton;
use cp_term::Term;
use std::alloc::{AllocError, Global};

/// Maps the strands of one list to those of another, in order.
fn match_number_lists(
    strands: &[usize],
    others: &[usize],
    given: Partial,
) -> Result<Option<Partial>, AllocError>
    ensures { IfOk result (FindsMaps (λ f. map f.strands strands.now ≡ others.now) (partial_view given)) }
{
    if strands.len() != others.len() {
        return Ok(None);
    }
    let mut found = given;
    for index in 0..strands.len() {
        match match_numbers(strands[index], others[index], found)? {
            Some(next) => found = next,
            None => return Ok(None),
        }
    }
    Ok(Some(found))
}

/// Maps the terms of one list to those of another, in order.
fn match_term_lists(
    alloc: Global,
    terms: &[Term],
    others: &[Term],
    given: Partial,
) -> Result<Option<Partial>, AllocError>
    ensures { IfOk result (FindsMaps (λ f. map (apply_to f.terms) terms.now ≡ others.now) (partial_view given)) }
{
    if terms.len() != others.len() {
        return Ok(None);
    }
    let mut found = given;
    for index in 0..terms.len() {
        match match_terms(alloc, &terms[index], &others[index], found)? {
            Some(next) => found = next,
            None => return Ok(None),
        }
    }
    Ok(Some(found))
}

/// The partial map under which the first skeleton's map from the problem becomes the second's.
pub(crate) fn start(
    alloc: Global,
    a: &Skeleton,
    b: &Skeleton,
) -> Result<Option<Partial>, AllocError>
    ensures { IfOk result (FindsMaps (KeepsProblem a.now b.now) nothing) }
{
    let first = a.from_problem();
    let second = b.from_problem();
    match match_number_lists(first.strands(), second.strands(), Partial::new(alloc))? {
        Some(found) => match_term_lists(alloc, first.values(), second.values(), found),
        None => Ok(None),
    }
}
