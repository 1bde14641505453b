// Matching: values of local variables that make a pattern a term.
ghost use Rattle.std.specs.Prelude.{◌≡◌, ◌↔◌, ◌==◌, Bool, true, List, [], IsTrue, IfSome, IfNone, IfOk};
ghost use Rattle.std.specs.Option.{option_map};
ghost use Rattle.cp_model.specs.Term.{atom_term, ltk_term, pubk_term, symmetric_term, asymmetric_term, tag_term, variables_of};
ghost use Rattle.cp_term.specs.Keys.{key_as_term};
ghost use Rattle.cp_model.specs.declared.variable.Variable.{Variable};
ghost use Rattle.cp_model.specs.Same.{same_term};
ghost use Rattle.cp_term.specs.Variables.{variable_of_sort};
ghost use Rattle.cp_unify.specs.Differences.{akey_atom};
ghost use Rattle.cp_unify.specs.Beside.{MatchesBeside, NeverMatchesBeside};
ghost use Rattle.cp_unify.specs.Bindings.{Binding as Plain};
ghost use Rattle.cp_unify.specs.Matched.{IsFound, is_listed, bound_term, matched, matched_names};
ghost use Rattle.cp_unify.specs.Matches.{BindsOnly, IsMatch, HasNoMatch};
ghost use Rattle.cp_term.specs.Spines.{HasTail};

use crate::binding::Binding;
use crate::difference::is_same_purpose;
use crate::sides::{Sides, beside};
use crate::subst::Subst;
use cp_model::{Variable, has_variable};
use cp_term::{Shape, Sort, Term, VarId, invert, is_of_sort, var};
use std::alloc::{AllocError, Global};

/// Whether a variable is one of the locals; without a list, every variable is.
fn is_local(locals: Option<&[Variable]>, sort: Sort, variable: VarId) -> bool
    ensures { result ≡ is_listed (option_map (λ xs. xs.now) locals.entry) (record { sort = sort; number = variable }) }
{
    match locals {
        Some(locals) => has_variable(
            locals,
            Variable {
                sort,
                number: variable.number(),
            },
        ),
        None => true,
    }
}

/// Whether a term is this variable of this sort.
pub(crate) fn is_variable(term: &Term, sort: Sort, variable: VarId) -> bool
    ensures { IsTrue result ↔ (term.now ≡ variable_of_sort sort variable) }
{
    match term.shape() {
        Shape::Variable(other, other_sort) => other == variable && other_sort == sort,
        _ => false,
    }
}

/// Whether a variable of this sort is bound to the term, if it is bound.
pub(crate) fn is_bound_to(given: &Subst, sort: Sort, variable: VarId, term: &Term) -> Option<bool>
    ensures { result ≡ option_map (λ t. same_term t term.now)
        (bound_term given.now (variable_of_sort sort variable)) }
{
    match given.bound(sort, variable) {
        Some(found) => Some(found.same(term)),
        None => None,
    }
}

/// Matches a variable of this sort with a term: adds to what was found so far, or answers that it contradicts it.
fn variable_match(
    variable: VarId,
    sort: Sort,
    term: &Term,
    locals: Option<&[Variable]>,
    found: &mut Subst,
) -> Result<bool, AllocError>
    ensures { IfOk result (λ same. IsFound same found.new
        (matched (is_listed (option_map (λ xs. xs.now) locals.entry)) (variable_of_sort sort variable) term.now found.old)) }
{
    if !is_of_sort(term, sort) {
        return Ok(false);
    }
    if !is_local(locals, sort, variable) {
        return Ok(is_variable(term, sort, variable));
    }
    match is_bound_to(found, sort, variable, term) {
        Some(same) => Ok(same),
        None => {
            let copy = term.copy()?;
            found.put(Binding::of(sort, variable, copy)).map(|_| true)
        }
    }
}

/// Matches a name with a name.
fn name_match(
    alloc: Global,
    a: VarId,
    b: VarId,
    locals: Option<&[Variable]>,
    found: &mut Subst,
) -> Result<bool, AllocError>
    ensures { IfOk result (λ same. IsFound same found.new
        (matched_names (is_listed (option_map (λ xs. xs.now) locals.entry)) a b found.old)) }
{
    if !is_local(locals, Sort::Name, a) {
        return Ok(a == b);
    }
    match found.bound(Sort::Name, a) {
        Some(name) => Ok(is_variable(name, Sort::Name, b)),
        None => {
            let name = var(alloc, b, Sort::Name)?;
            found.put(Binding::of(Sort::Name, a, name)).map(|_| true)
        }
    }
}

/// Whether a term is this tag.
fn is_tag(text: &str, term: &Term) -> bool
    ensures { (f : Variable → Bool) (r : List Plain) → IsFound result r (matched f (tag_term text.now) term.now r) }
{
    match term.shape() {
        Shape::Tag(other) => text == other,
        _ => false,
    }
}

/// Matches the inverse of a variable of sort akey with a term.
fn inverse_match(
    alloc: Global,
    variable: VarId,
    term: &Term,
    locals: Option<&[Variable]>,
    found: &mut Subst,
) -> Result<bool, AllocError>
    ensures { IfOk result (λ same. IsFound same found.new
        (matched (is_listed (option_map (λ xs. xs.now) locals.entry)) (atom_term (akey_atom true variable)) term.now found.old)) }
{
    if !is_of_sort(term, Sort::Akey) {
        return Ok(false);
    }
    let inverse = invert(alloc, term)?;
    variable_match(variable, Sort::Akey, &inverse, locals, found)
}

/// Matches a long-term key of two names with a term.
fn ltk_match(
    alloc: Global,
    a: VarId,
    b: VarId,
    term: &Term,
    locals: Option<&[Variable]>,
    found: &mut Subst,
) -> Result<bool, AllocError>
    ensures { IfOk result (λ same. IsFound same found.new
        (matched (is_listed (option_map (λ xs. xs.now) locals.entry)) (key_as_term (symmetric_term (ltk_term a b))) term.now found.old)) }
{
    match term.shape() {
        Shape::Ltk(c, d) => {
            if name_match(alloc, a, c, locals, found)? {
                name_match(alloc, b, d, locals, found)
            } else {
                Ok(false)
            }
        }
        _ => Ok(false),
    }
}

/// Matches a key of a name with a term.
fn pubk_match(
    alloc: Global,
    flag: bool,
    purpose: Option<&str>,
    a: VarId,
    term: &Term,
    locals: Option<&[Variable]>,
    found: &mut Subst,
) -> Result<bool, AllocError>
    ensures { IfOk result (λ same. IsFound same found.new (matched (is_listed (option_map (λ xs. xs.now) locals.entry))
        (key_as_term (asymmetric_term flag (pubk_term (option_map (λ s. s.now) purpose.entry) a))) term.now found.old)) }
{
    match term.shape() {
        Shape::Pubk(other, other_purpose, b) => {
            if flag == other && is_same_purpose(purpose, other_purpose) {
                name_match(alloc, a, b, locals, found)
            } else {
                Ok(false)
            }
        }
        _ => Ok(false),
    }
}

/// Matches a tag or a term of an atom sort with a term.
fn leaf_match(
    alloc: Global,
    pattern: &Term,
    term: &Term,
    locals: Option<&[Variable]>,
    found: &mut Subst,
) -> Result<bool, AllocError>
    requires { ¬ HasTail pattern.now }
    ensures { IfOk result (λ same. IsFound same found.new
        (matched (is_listed (option_map (λ xs. xs.now) locals.entry)) pattern.now term.now found.old)) }
{
    match pattern.shape() {
        Shape::Tag(text) => Ok(is_tag(text, term)),
        Shape::Variable(variable, sort) => variable_match(variable, sort, term, locals, found),
        Shape::Inverse(variable) => inverse_match(alloc, variable, term, locals, found),
        Shape::Ltk(a, b) => ltk_match(alloc, a, b, term, locals, found),
        Shape::Pubk(flag, purpose, a) => pubk_match(alloc, flag, purpose, a, term, locals, found),
        _ => unreachable!(),
    }
}

/// Matches a term with a term: adds to what was found so far, or answers that it contradicts it. Right parts and plaintexts
/// are walked by a loop, since a term may be long.
fn add_match(
    alloc: Global,
    pattern: &Term,
    term: &Term,
    locals: Option<&[Variable]>,
    found: &mut Subst,
) -> Result<bool, AllocError>
    ensures { IfOk result (λ same. IsFound same found.new
        (matched (is_listed (option_map (λ xs. xs.now) locals.entry)) pattern.now term.now found.old)) }
{
    let mut left = pattern;
    let mut right = term;
    loop {
        match beside(left, right) {
            Sides::Parts(first, other_first, rest, other_rest) => {
                if !add_match(alloc, first, other_first, locals, found)? {
                    return Ok(false);
                }
                left = rest;
                right = other_rest;
            }
            Sides::Leaf => return leaf_match(alloc, left, right, locals, found),
            Sides::Apart => return Ok(false),
        }
    }
}

/// Matches a term with a term.
fn match_beside(
    alloc: Global,
    pattern: &Term,
    term: &Term,
    locals: Option<&[Variable]>,
    given: Subst,
) -> Result<Option<Subst>, AllocError>
    ensures { IfOk result (λ found. found
        ≡ matched (is_listed (option_map (λ xs. xs.now) locals.entry)) pattern.now term.now given) }
{
    let mut found = given;
    if add_match(alloc, pattern, term, locals, &mut found)? {
        Ok(Some(found))
    } else {
        Ok(None)
    }
}

/// Values of the locals that occur in the pattern which make it the term; `None` exactly if none do.
pub fn matching(
    alloc: Global,
    pattern: &Term,
    term: &Term,
    locals: &[Variable],
) -> Result<Option<Subst>, AllocError>
    ensures some { IfOk result (λ answer. IfSome answer (λ r. IsMatch pattern.now term.now locals.now r)) }
    ensures occur { IfOk result (λ answer. IfSome answer (λ r. BindsOnly (variables_of pattern.now) r)) }
    ensures none { IfOk result (λ answer. IfNone answer (HasNoMatch pattern.now term.now locals.now)) }
{
    match_beside(alloc, pattern, term, Some(locals), Subst::new(alloc))
}

/// Values of the pattern's variables that make it the term, beside those that are given; `None` exactly if none do.
///
/// Every variable of the pattern may get a value; the pattern's variables are kept apart from those of the term. If the
/// given bindings contradict each other, no substitution agrees with them, and either answer meets both clauses.
pub fn matching_beside(
    alloc: Global,
    pattern: &Term,
    term: &Term,
    given: Subst,
) -> Result<Option<Subst>, AllocError>
    ensures some { IfOk result (λ answer. IfSome answer (MatchesBeside pattern.now term.now given)) }
    ensures none { IfOk result (λ answer. IfNone answer (NeverMatchesBeside pattern.now term.now given)) }
{
    match_beside(alloc, pattern, term, None, given)
}
