// Matches patterns under a substitution of their variables except their locals.
ghost use Rattle.std.specs.Prelude.{◌≡◌, ◌↔◌, IsTrue, IfOk};
ghost use Rattle.cp_model.specs.Term.{Substitution, apply_to};
ghost use Rattle.cp_unify.specs.Beside.{Agrees};
ghost use Rattle.cp_model.specs.Same.{has_variable};
ghost use Rattle.cp_unify.specs.Bindings.{as_substitution};
ghost use Rattle.cp_theory.specs.Matches.{Matches};
ghost use Rattle.cp_pattern.specs.Said.{AgreesBut, AgreesOnFree, HasMatch};

use crate::pattern::holds_local;
use cp_model::{Variable, has_variable};
use cp_term::{Pattern, Shape, Term};
use cp_unify::{Binding, Subst, apply, matching_beside};
use std::alloc::{AllocError, Global};

/// Whether the binding is of one of these variables.
fn is_of_local(binding: &Binding, locals: &[Variable]) -> bool
    ensures { result ≡ has_variable locals.now binding.now.variable }
{
    has_variable(locals, binding.variable())
}

/// The bindings, except those of these variables.
fn without(alloc: Global, bindings: &[Binding], locals: &[Variable]) -> Result<Subst, AllocError>
    ensures { IfOk result (λ r. (f : Substitution) → Agrees f r ↔ AgreesBut locals.now f bindings.now) }
{
    let mut kept = Subst::new(alloc);
    for binding in bindings {
        if is_of_local(binding, locals) {
            continue;
        }
        let term = binding.term().copy()?;
        kept = kept.with(Binding::new(binding.variable(), term))?;
    }
    Ok(kept)
}

/// Bindings of the pattern's variables, except the locals, to what the substitution gives them.
fn said_of(alloc: Global, pattern: &Pattern, from: &Subst) -> Result<Subst, AllocError>
    ensures { IfOk result (λ r. (f : Substitution) → Agrees f r ↔ AgreesOnFree pattern.now (as_substitution from.now) f) }
{
    let image = apply(alloc, from, pattern.term())?;
    match matching_beside(alloc, pattern.term(), &image, Subst::new(alloc))? {
        Some(found) => without(alloc, found.bindings(), pattern.locals()),
        None => unreachable!(),
    }
}

/// Whether the substitution makes the part the term.
fn is_image(alloc: Global, from: &Subst, part: &Term, term: &Term) -> Result<bool, AllocError>
    ensures { IfOk result (λ answer. IsTrue answer ↔ (apply_to (as_substitution from.now) part.now ≡ term.now)) }
{
    let image = apply(alloc, from, part)?;
    Ok(image.same(term))
}

/// Fast test: true only if the pattern does not match the term. A key that holds no local becomes its image alone.
fn keys_differ(
    alloc: Global,
    pattern: &Pattern,
    from: &Subst,
    term: &Term,
) -> Result<bool, AllocError>
    ensures { IfOk result (λ differ. IsTrue differ → Matches pattern.now (as_substitution from.now) term.now → ⊥) }
{
    let Shape::Encryption(_, key) = pattern.term().shape() else {
        return Ok(false);
    };
    let Shape::Encryption(_, other) = term.shape() else {
        return Ok(false);
    };
    if holds_local(pattern.locals(), key) {
        return Ok(false);
    }
    is_image(alloc, from, key, other).map(|same| !same)
}

/// Whether some values of the pattern's locals make it the term.
fn is_filled(
    alloc: Global,
    pattern: &Pattern,
    from: &Subst,
    term: &Term,
) -> Result<bool, AllocError>
    ensures { IfOk result (λ answer. IsTrue answer ↔ Matches pattern.now (as_substitution from.now) term.now) }
{
    let said = said_of(alloc, pattern, from)?;
    matching_beside(alloc, pattern.term(), term, said).map(|found| found.is_some())
}

/// Whether the pattern matches the term, where the substitution gives the pattern's variables except its locals.
pub fn matches(
    alloc: Global,
    pattern: &Pattern,
    from: &Subst,
    term: &Term,
) -> Result<bool, AllocError>
    ensures { IfOk result (λ answer. IsTrue answer ↔ Matches pattern.now (as_substitution from.now) term.now) }
{
    // Without locals the pattern matches its image alone.
    if pattern.locals().is_empty() {
        return is_image(alloc, from, pattern.term(), term);
    }
    if keys_differ(alloc, pattern, from, term)? {
        return Ok(false);
    }
    is_filled(alloc, pattern, from, term)
}

/// Whether one of the patterns matches the term.
pub(crate) fn some_match(
    alloc: Global,
    patterns: &[Pattern],
    from: &Subst,
    term: &Term,
) -> Result<bool, AllocError>
    ensures { IfOk result (λ answer. IsTrue answer ↔ HasMatch patterns.now (as_substitution from.now) term.now) }
{
    for pattern in patterns {
        if matches(alloc, pattern, from, term)? {
            return Ok(true);
        }
    }
    Ok(false)
}
