// What instances of roles stand for.
ghost use Rattle.std.specs.Prelude.{◌≡◌, ◌++◌, ◌∷◌, [], length, map, option_map, if◌then◌else◌, IfOk, OnOk};
ghost use Rattle.cp_model.specs.Strand.{variables_of_prefix};
ghost use Rattle.cp_sexpr.specs.View.{view};
ghost use Rattle.cp_language.specs.Words.{is_one_of};
ghost use Rattle.cp_language.specs.Problems.{mapped_identifier, second_form, term_mapped, term_or_fresh, is_fresh, instantiated};
ghost use Rattle.cp_language.specs.Roles.{list_items};
ghost use Rattle.cp_roles.specs.InstanceTerms.{maplet_named, term_if_there, wants_fresh, IsInstantiated};

use crate::event_variables::{Prefix, occurs};
use cp_scope::{
    Variable, Variables, is_word, item_at, list_items, no_term, symbol_or_empty, term_of,
    variable_term,
};
use cp_sexpr::Form;
use cp_strand::Declaration;
use cp_term::{Sort, Term};
use std::alloc::{AllocError, Global};

/// Whether a maplet maps this identifier.
fn maps(maplet: &Form, identifier: &[u8]) -> bool
    ensures { result ≡ is_one_of identifier.now (mapped_identifier (view maplet.now)) }
{
    match item_at(list_items(maplet), 0) {
        Some(form) => is_word(identifier, symbol_or_empty(form)),
        None => false,
    }
}

/// The first maplet that maps this identifier.
fn maplet_named<'a>(maplets: &'a [Form], identifier: &[u8]) -> Option<&'a Form>
    ensures { option_map (λ f. view f.now) result ≡ maplet_named identifier.now (map view maplets.now) }
{
    for maplet in maplets {
        if maps(maplet, identifier) {
            return Some(maplet);
        }
    }
    None
}

/// The term on the right of a maplet.
fn right_term(alloc: Global, variables: &Variables, maplet: &Form) -> Result<Term, AllocError>
    ensures { IfOk result (λ t. t ≡ term_if_there variables.now (second_form (list_items (view maplet.now)))) }
{
    match item_at(list_items(maplet), 1) {
        Some(term) => term_of(alloc, variables, term),
        None => no_term(alloc),
    }
}

/// The term that the maplets give to an identifier.
#[tactic(auto, using(crate::proofs::MapletTerms::mapped_some, crate::proofs::MapletTerms::mapped_none))]
fn term_mapped(
    alloc: Global,
    variables: &Variables,
    identifier: &[u8],
    maplets: &[Form],
) -> Result<Option<Term>, AllocError>
    ensures { IfOk result (λ o. o ≡ term_mapped variables.now identifier.now (map view maplets.now)) }
{
    match maplet_named(maplets, identifier) {
        Some(maplet) => right_term(alloc, variables, maplet).map(Some),
        None => Ok(None),
    }
}

/// The term of a role's variable: what it is mapped to, or the variable that is made for it.
fn term_or_fresh(
    alloc: Global,
    mapped: Option<Term>,
    is_fresh: bool,
    sort: Sort,
    next: usize,
) -> Result<Term, AllocError>
    ensures { IfOk result (λ t. t ≡ term_or_fresh mapped is_fresh sort next) }
{
    match mapped {
        Some(term) => Ok(term),
        None if is_fresh => variable_term(alloc, Variable { sort, number: next }),
        None => no_term(alloc),
    }
}

/// Whether a variable is made for this variable of a role, which is mapped to this term.
fn is_fresh(prefix: Prefix<'_>, mapped: &Option<Term>, variable: Variable) -> bool
    ensures { result ≡ wants_fresh (variables_of_prefix prefix.entry.role.now prefix.entry.height) mapped.now variable }
{
    mapped.is_none() && occurs(prefix, variable)
}

/// A copy of a declaration.
fn copy_of(declaration: &Declaration) -> Result<Declaration, AllocError>
    ensures { IfOk result (λ d. d ≡ declaration.now) }
{
    let sort = declaration.sort;
    let identifier = declaration.identifier.copy();
    identifier.map(|identifier| Declaration { identifier, sort })
}

/// Copies of declarations.
pub fn copies_of(
    alloc: Global,
    declarations: &[Declaration],
) -> Result<Vec<Declaration>, AllocError>
    ensures { IfOk result (λ v. v.items ≡ declarations.now) }
{
    declarations.iter().map(copy_of).try_collect(alloc)
}

/// The term of this variable of a role, with this number. A variable that is made for it is appended to `all`.
fn variable_value(
    alloc: Global,
    prefix: Prefix<'_>,
    declared: &Variables,
    maplets: &[Form],
    number: usize,
    declaration: &Declaration,
    all: &mut Vec<Declaration>,
) -> Result<Term, AllocError>
    ensures term { IfOk result (λ t. t ≡ term_or_fresh (term_mapped declared.now declaration.now.identifier (map view maplets.now))
        (is_fresh (variables_of_prefix prefix.entry.role.now prefix.entry.height) declared.now (map view maplets.now) number declaration.now)
        declaration.now.sort (length all.old.items)) }
    ensures fresh { OnOk result (all.new.items ≡ all.old.items
        ++ (if is_fresh (variables_of_prefix prefix.entry.role.now prefix.entry.height) declared.now (map view maplets.now) number declaration.now
        then declaration.now ∷ [] else [])) }
{
    let sort = declaration.sort;
    let mapped = term_mapped(
        alloc,
        declared,
        declaration.identifier.as_str().as_bytes(),
        maplets,
    )?;
    let fresh = is_fresh(prefix, &mapped, Variable { sort, number });
    let next = all.len();
    if fresh {
        all.push(copy_of(declaration)?)?;
    }
    term_or_fresh(alloc, mapped, fresh, sort, next)
}

/// The terms of the variables of a role with this prefix. Variables that are made for it are appended to `all`.
pub(crate) fn instantiated(
    alloc: Global,
    prefix: Prefix<'_>,
    variables: &[Declaration],
    declared: &Variables,
    maplets: &[Form],
    all: &mut Vec<Declaration>,
) -> Result<Vec<Term>, AllocError>
    ensures { IfOk result (λ v. IsInstantiated (instantiated (variables_of_prefix prefix.entry.role.now prefix.entry.height) declared.now (map view maplets.now)
        (length all.old.items) 0 variables.now) v.items all.old.items all.new.items) }
{
    let mut terms = Vec::new(alloc);
    for (number, declaration) in variables.iter().enumerate() {
        let term = variable_value(alloc, prefix, declared, maplets, number, declaration, all)?;
        terms.push(term)?;
    }
    Ok(terms)
}
