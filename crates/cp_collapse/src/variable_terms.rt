// The terms of an instance's variables.
ghost use Rattle.std.specs.Prelude.{◌≡◌, ◌↔◌, IfOk, IsTrue};
ghost use Rattle.std.specs.Option.{option_map};
ghost use Rattle.cp_model.specs.Homomorphism.{substitution_by};
ghost use Rattle.cp_model.specs.Term.{Assignment, value_of, apply_to, composed};
ghost use Rattle.cp_model.specs.PrefixVariables.{declared_variables, terms_of};
ghost use Rattle.cp_unify.specs.Bindings.{as_substitution};
ghost use Rattle.cp_collapse.specs.Values.{image_of_variable, AreOtherKeys};

use cp_model::item_at;
use cp_skel::{Declaration, value_of_variable};
use cp_term::{Shape, Sort, Term, VarId, is_of_sort, var};
use cp_unify::{Subst, apply, leaves};
use std::alloc::{AllocError, Global};

/// The term of a role's variable in an instance with these terms: the one at the variable's number if it has the variable's sort,
/// otherwise the variable itself.
pub(crate) fn term_of_variable(
    alloc: Global,
    terms: &[Term],
    id: VarId,
    sort: Sort,
) -> Result<Term, AllocError>
    ensures { IfOk result (λ t. t ≡ image_of_variable (substitution_by terms.now) (record { sort = sort; number = id })) }
{
    value_of_variable(alloc, terms, id, sort)
}

/// Whether the purposes of two keys are the same.
fn have_same_purpose(a: Option<&str>, b: Option<&str>) -> bool
    ensures { IsTrue result ↔ (option_map (λ s. s.now) a.entry ≡ option_map (λ s. s.now) b.entry) }
{
    match (a, b) {
        (Some(first), Some(second)) => first == second,
        _ => a.is_none() && b.is_none(),
    }
}

/// Whether both terms are keys of names, but not both public or both private, or with different purposes.
fn are_other_keys(a: &Term, b: &Term) -> bool
    ensures { IsTrue result → AreOtherKeys a.now b.now }
{
    let Shape::Pubk(flag, purpose, _) = a.shape() else {
        return false;
    };
    let Shape::Pubk(other_flag, other_purpose, _) = b.shape() else {
        return false;
    };
    if flag == other_flag {
        !have_same_purpose(purpose, other_purpose)
    } else {
        true
    }
}

/// Fast test: true only if nothing makes the terms of a role's variable in instances with these terms equal.
pub(crate) fn never_agree(a: &[Term], b: &[Term], id: VarId, sort: Sort) -> bool
    ensures { IsTrue result → (g : Assignment)
        → value_of g (image_of_variable (substitution_by a.now) (record { sort = sort; number = id }))
        ≡ value_of g (image_of_variable (substitution_by b.now) (record { sort = sort; number = id })) → ⊥ }
{
    let Some(first) = item_at(a, id.number()) else {
        return false;
    };
    let Some(second) = item_at(b, id.number()) else {
        return false;
    };
    sort == Sort::Akey && are_other_keys(first, second)
}

/// The term of a role's variable in an instance with these terms, under a substitution.
fn term_under(
    alloc: Global,
    terms: &[Term],
    id: VarId,
    sort: Sort,
    s: &Subst,
) -> Result<Term, AllocError>
    ensures { IfOk result (λ t. t ≡ apply_to (as_substitution s.now) (image_of_variable (substitution_by terms.now) (record { sort = sort; number = id }))) }
{
    match item_at(terms, id.number()) {
        Some(term) if is_of_sort(term, sort) => apply(alloc, s, term),
        _ => {
            let variable = var(alloc, id, sort)?;
            apply(alloc, s, &variable)
        }
    }
}

/// The terms of the declared variables under a substitution.
pub(crate) fn declared_terms(
    alloc: Global,
    declarations: &[Declaration],
    terms: &[Term],
    s: &Subst,
) -> Result<Vec<Term>, AllocError>
    ensures { IfOk result (λ v. v.items ≡ terms_of (composed (substitution_by terms.now) (as_substitution s.now)) (declared_variables 0 declarations.now)) }
{
    let mut changed = Vec::with_capacity(alloc, declarations.len())?;
    for (number, declaration) in declarations.iter().enumerate() {
        let id = VarId::numbered(number);
        let term = term_under(alloc, terms, id, declaration.sort, s)?;
        changed.push(term)?;
    }
    Ok(changed)
}

/// Fast test: true only if there is a term of its sort for each declared variable and the substitution leaves them all.
pub(crate) fn leaves_declared(s: &Subst, declarations: &[Declaration], terms: &[Term]) -> bool
    ensures { IsTrue result → terms.now ≡ terms_of (composed (substitution_by terms.now) (as_substitution s.now)) (declared_variables 0 declarations.now) }
{
    if terms.len() != declarations.len() {
        return false;
    }
    for (number, declaration) in declarations.iter().enumerate() {
        let term = &terms[number];
        if !leaves(s, term) || !is_of_sort(term, declaration.sort) {
            return false;
        }
    }
    true
}
