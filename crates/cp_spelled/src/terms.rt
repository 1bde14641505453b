// What terms of a report stand for. What stands for a form that does not fit has no meaning.
ghost use Rattle.std.specs.Prelude.{◌≡◌, ◌+◌, [], map, option_map, None, IfOk};
ghost use Rattle.cp_sexpr.specs.View.{view};
ghost use Rattle.cp_language.specs.Roles.{headed};
ghost use Rattle.cp_language.specs.Terms.{variable_named, term_of_variable};
ghost use Rattle.cp_report.specs.Spelled.{local_by, variable_of_local, term_in, atom_in};
ghost use Rattle.cp_report.specs.Skeletons.{term_or_tag};
ghost use Rattle.cp_spelled.specs.Views.{scope_view};
ghost use Rattle.cp_spelled.specs.Own.{headed_term};

use crate::local_by;
use crate::scope::{Scope, is_local_head};
use cp_scope::{HeadedList, Variable, applied, headed, no_atom, no_term, term_head, variable_term};
use cp_sexpr::Form;
use cp_strand::Atom;
use cp_term::{Term, tag};
use std::alloc::{AllocError, Global};

/// The number that is this many places after another. The error is that there is no such number.
pub(crate) fn number_behind(number: usize, places: usize) -> Result<usize, AllocError>
    ensures { IfOk result (λ n. n ≡ number + places) }
{
    match number.checked_add(places) {
        Some(sum) => Ok(sum),
        None => Err(AllocError),
    }
}

/// What the entries after the head of a local stand for.
fn local_term(alloc: Global, scope: Scope<'_>, items: &[Form]) -> Result<Term, AllocError>
    ensures { IfOk result (λ t. t ≡ term_of_variable (variable_of_local (scope_view scope.entry) (local_by (map view items.now)))) }
{
    let Some(local) = local_by(items) else {
        return no_term(alloc);
    };
    let number = number_behind(scope.variables.len(), scope.locals.place_of(local.number))?;
    variable_term(
        alloc,
        Variable {
            sort: local.sort,
            number,
        },
    )
}

/// What a symbol stands for.
fn named_term(alloc: Global, scope: Scope<'_>, identifier: &[u8]) -> Result<Term, AllocError>
    ensures { IfOk result (λ t. t ≡ term_of_variable (variable_named (scope_view scope.entry).variables identifier.now)) }
{
    match scope.variables.named(identifier) {
        Some(variable) => variable_term(alloc, variable),
        None => no_term(alloc),
    }
}

/// What a form that is no list with a head stands for.
fn leaf_term(alloc: Global, scope: Scope<'_>, form: &Form) -> Result<Term, AllocError>
    ensures { IfOk result (λ t. headed (view form.now) ≡ None → t ≡ term_in (scope_view scope.entry) (view form.now)) }
{
    match form {
        Form::Symbol(_, identifier) => named_term(alloc, scope, identifier.as_bytes()),
        Form::String(_, text) => tag(alloc, text.as_str()),
        Form::Number(..) | Form::List(..) => no_term(alloc),
    }
}

/// What a list with a head stands for, if its items stand for these terms. A local does not depend on them.
fn headed_term(
    alloc: Global,
    scope: Scope<'_>,
    list: HeadedList<'_>,
    terms: Vec<Term>,
) -> Result<Term, AllocError>
    ensures { IfOk result (λ t. t ≡ headed_term (scope_view scope.entry) list.entry.head.now (map view list.entry.items.now) terms.items) }
{
    if is_local_head(scope, list.head) {
        local_term(alloc, scope, list.items)
    } else {
        applied(alloc, term_head(list.head), list.items, terms)
    }
}

/// What a term stands for.
pub fn term_in(alloc: Global, scope: Scope<'_>, form: &Form) -> Result<Term, AllocError>
    ensures { IfOk result (λ t. t ≡ term_in (scope_view scope.entry) (view form.now)) }
{
    let Some(list) = headed(form) else {
        return leaf_term(alloc, scope, form);
    };
    let mut terms = Vec::new(alloc);
    for item in list.items {
        terms.push(term_in(alloc, scope, item)?)?;
    }
    headed_term(alloc, scope, list, terms)
}

/// What a form stands for, if there is one. Without a form the result has no meaning.
pub fn term_or_tag(alloc: Global, scope: Scope<'_>, form: Option<&Form>) -> Result<Term, AllocError>
    ensures { IfOk result (λ t. t ≡ term_or_tag (scope_view scope.entry) (option_map (λ f. view f.now) form.entry)) }
{
    match form {
        Some(form) => term_in(alloc, scope, form),
        None => no_term(alloc),
    }
}

/// The atom that a form stands for.
pub fn atom_in(alloc: Global, scope: Scope<'_>, form: &Form) -> Result<Atom, AllocError>
    ensures { IfOk result (λ a. a ≡ atom_in (scope_view scope.entry) (view form.now)) }
{
    match Atom::new(term_in(alloc, scope, form)?) {
        Some(atom) => Ok(atom),
        None => no_atom(alloc),
    }
}
