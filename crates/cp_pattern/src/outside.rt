// Positions of a term inside and outside patterns.
ghost use Rattle.std.specs.Prelude.{◌≡◌, ◌↔◌, IsTrue, IfOk, IfSome, IfNone};
ghost use Rattle.std.specs.Option.{option_copied};
ghost use Rattle.cp_model.specs.Positions.{part_at};
ghost use Rattle.cp_unify.specs.Bindings.{as_substitution};
ghost use Rattle.cp_theory.specs.Inside.{IsInside, CarriesInsideAlone};
ghost use Rattle.cp_pattern.specs.Outside.{IsFirstPositionOutside};
ghost use Rattle.cp_pattern.specs.Said.{HasMatch};

use crate::pattern_matches::some_match;
use cp_term::{Path, Pattern, Shape, Step, Term, paths_of};
use cp_unify::Subst;
use std::alloc::{AllocError, Global};

/// The part of a term to which a step leads, if any.
fn part_of(term: &Term, step: Step) -> Option<&Term>
    ensures { option_copied result ≡ part_at step term.now }
{
    match (step, term.shape()) {
        (Step::Left, Shape::Pair(left, _)) => Some(left),
        (Step::Right, Shape::Pair(_, right)) => Some(right),
        (Step::Plaintext, Shape::Encryption(body, _)) => Some(body),
        _ => None,
    }
}

/// Whether the step leads into the plaintext of a term that one of the patterns matches.
fn enters(
    alloc: Global,
    patterns: &[Pattern],
    from: &Subst,
    term: &Term,
    step: Step,
) -> Result<bool, AllocError>
    ensures { IfOk result (λ answer. IsTrue answer ↔ ((step ≡ Step.Plaintext) × HasMatch patterns.now (as_substitution from.now) term.now)) }
{
    if step == Step::Plaintext {
        some_match(alloc, patterns, from, term)
    } else {
        Ok(false)
    }
}

/// Whether the carried position of the term is inside the patterns: an encryption around it matches one of them, where the
/// substitution gives the patterns' variables except their locals.
pub fn is_inside(
    alloc: Global,
    patterns: &[Pattern],
    from: &Subst,
    term: &Term,
    path: &[Step],
) -> Result<bool, AllocError>
    ensures { IfOk result (λ answer. IsTrue answer ↔ IsInside patterns.now (as_substitution from.now) term.now path.now) }
{
    let mut rest = term;
    for step in path {
        let Some(part) = part_of(rest, *step) else {
            return Ok(false);
        };
        if enters(alloc, patterns, from, rest, *step)? {
            return Ok(true);
        }
        rest = part;
    }
    Ok(false)
}

/// The first position, in preorder, at which the term carries the critical one outside the patterns; `None` if it carries it
/// inside them alone. The substitution gives the patterns' variables except their locals.
pub fn first_outside(
    alloc: Global,
    patterns: &[Pattern],
    from: &Subst,
    critical: &Term,
    term: &Term,
) -> Result<Option<Path>, AllocError>
    ensures some { IfOk result (λ answer. IfSome answer (λ path. IsFirstPositionOutside patterns.now (as_substitution from.now) critical.now term.now path)) }
    ensures none { IfOk result (λ answer. IfNone answer (CarriesInsideAlone patterns.now (as_substitution from.now) critical.now term.now)) }
{
    let paths = paths_of(alloc, term, critical)?;
    for path in &paths {
        if is_inside(alloc, patterns, from, term, path.as_slice())? {
            continue;
        }
        let first = path.copy()?;
        return Ok(Some(first));
    }
    Ok(None)
}
