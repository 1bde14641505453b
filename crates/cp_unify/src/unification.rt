// Unification.
ghost use Rattle.std.specs.Prelude.{[], MatchOption, IfSome, IfNone, IfOk};
ghost use Rattle.cp_model.specs.Term.{Term as Plain};
ghost use Rattle.cp_term.specs.Spines.{HasTail};
ghost use Rattle.cp_unify.specs.Solved.{IsSolved, IsSolution, AreSolvedBut};
ghost use Rattle.cp_unify.specs.Unifiers.{IsMostGeneralUnifier, HasNoUnifier};

use crate::composition::join_one;
use crate::difference::{Difference, is_all, leaf_difference};
use crate::sides::{Sides, beside};
use crate::subst::Subst;
use crate::terms_under::apply;
use cp_term::Term;
use std::alloc::{AllocError, Global};

/// Solves the equation of two terms of which the first is a tag or of an atom sort, beside solved bindings: while the terms
/// under the bindings differ and a binding can remove their first difference, that binding is added.
fn solve_leaf(alloc: Global, a: &Term, b: &Term, solved: &mut Subst) -> Result<bool, AllocError>
    requires solved { IsSolved solved.old }
    requires leaf { ¬ HasTail a.now }
    ensures { IfOk result (λ same. IsSolution same a.now b.now solved.old solved.new) }
{
    loop {
        let left = apply(alloc, solved, a)?;
        let right = apply(alloc, solved, b)?;
        match leaf_difference(alloc, &left, &right)? {
            Difference::Same => return Ok(true),
            Difference::Clash => return Ok(false),
            Difference::Bind(binding) => {
                let is_last = is_all(&binding, &left, &right);
                join_one(alloc, solved, binding)?;
                if is_last {
                    return Ok(true);
                }
            }
        }
    }
}

/// Solves the equation of two terms beside solved bindings. Right parts and plaintexts are walked by a loop, since a term
/// may be long.
fn solve(alloc: Global, a: &Term, b: &Term, solved: &mut Subst) -> Result<bool, AllocError>
    requires { IsSolved solved.old }
    ensures { IfOk result (λ same. IsSolution same a.now b.now solved.old solved.new) }
{
    let mut left = a;
    let mut right = b;
    loop {
        match beside(left, right) {
            Sides::Parts(first, other_first, rest, other_rest) => {
                if !solve(alloc, first, other_first, solved)? {
                    return Ok(false);
                }
                left = rest;
                right = other_rest;
            }
            Sides::Leaf => return solve_leaf(alloc, left, right, solved),
            Sides::Apart => return Ok(false),
        }
    }
}

/// Solved bindings that are met if those of a substitution are; `None` if no assignment meets these.
fn solved_form(alloc: Global, s: &Subst) -> Result<Option<Subst>, AllocError>
    ensures { IfOk result (λ found. MatchOption found
        ((a b : Plain) → HasNoUnifier a b s.now) (λ r. AreSolvedBut s.now [] r)) }
{
    if s.is_solved() {
        return s.copy(alloc).map(Some);
    }
    let mut solved = Subst::new(alloc);
    for binding in s.bindings() {
        let left = binding.left(alloc)?;
        if !solve(alloc, &left, binding.term(), &mut solved)? {
            return Ok(None);
        }
    }
    Ok(Some(solved))
}

/// A most general unifier of two terms beside a substitution, whose bindings are solved along with them as equations.
/// `None` exactly if there is no unifier.
pub fn unify(alloc: Global, a: &Term, b: &Term, s: &Subst) -> Result<Option<Subst>, AllocError>
    ensures some { IfOk result (λ answer. IfSome answer (λ r. IsMostGeneralUnifier a.now b.now s.now r)) }
    ensures none { IfOk result (λ answer. IfNone answer (HasNoUnifier a.now b.now s.now)) }
{
    let Some(mut solved) = solved_form(alloc, s)? else {
        return Ok(None);
    };
    if solve(alloc, a, b, &mut solved)? {
        Ok(Some(solved.into_solved()))
    } else {
        Ok(None)
    }
}
