// What may stand for a variable, and the sorts of terms.
ghost use Rattle.std.specs.Prelude.{◌≡◌, ◌&&◌, ◌||◌, option_map, None, codes, if◌then◌else◌};
ghost use Rattle.cp_model.specs.declared.sort.Sort.TheVariants.{Skey as skey_sort, Akey as akey_sort};
ghost use Rattle.cp_model.specs.Same.{same_text};
ghost use Rattle.cp_sexpr.specs.View.{view};
ghost use Rattle.cp_language.specs.Roles.{headed};
ghost use Rattle.cp_language.specs.Terms.{variable_named, is_sort, admits_atom};
ghost use Rattle.cp_report.specs.Heads.{forms_after_head};
ghost use Rattle.cp_report.specs.Spelled.{is_local, local_by, variable_of_local, variable_in, sort_of_head, sort_by_shape, sort_in, is_found_of_sort};
ghost use Rattle.cp_spelled.specs.Views.{scope_view};

use crate::{Locals, Variables, is_any, local_by};
use cp_scope::{
    TermHead, TermSort, Variable, headed, is_same_sort, is_word, items_behind, symbol, term_head,
};
use cp_sexpr::Form;
use cp_term::Sort;

/// What may stand for a variable: the variables of a label form by their identifiers, and in a pattern its locals.
#[derive(Clone, Copy)]
pub struct Scope<'a> {
    pub variables: &'a Variables,
    pub in_pattern: bool,
    pub locals: &'a Locals,
}

/// Whether a form has the head of a local, where a local may stand.
pub(crate) fn is_local(scope: Scope<'_>, form: &Form) -> bool
    ensures { result ≡ is_local (scope_view scope.entry) (view form.now) }
{
    is_any(form) && scope.in_pattern
}

/// Whether a list with this head is a local here.
pub(crate) fn is_local_head(scope: Scope<'_>, head: &[u8]) -> bool
    ensures { result ≡ (same_text head.now (codes "any") && scope.entry.in_pattern) }
{
    is_word(head, b"any") && scope.in_pattern
}

/// The sort of a local, if there is one.
fn sort_of_local(local: Option<Variable>) -> Option<Sort>
    ensures { result ≡ option_map (λ l. l.sort) local }
{
    match local {
        Some(local) => Some(local.sort),
        None => None,
    }
}

/// The sort of the local that a form states.
fn local_sort(scope: Scope<'_>, form: &Form) -> Option<Sort>
    ensures { result ≡ option_map (λ x. x.sort)
        (if is_local (scope_view scope.entry) (view form.now) then variable_of_local (scope_view scope.entry) (local_by (forms_after_head (view form.now))) else None) }
{
    if is_local(scope, form) {
        sort_of_local(local_by(items_behind(form)))
    } else {
        None
    }
}

/// The sort of the variable with this identifier.
fn named_sort(scope: Scope<'_>, identifier: &[u8]) -> Option<Sort>
    ensures { result ≡ option_map (λ x. x.sort) (variable_named (scope_view scope.entry).variables identifier.now) }
{
    match scope.variables.named(identifier) {
        Some(variable) => Some(variable.sort),
        None => None,
    }
}

/// The sort of the variable that a form stands for.
fn variable_sort(scope: Scope<'_>, form: &Form) -> Option<Sort>
    ensures { result ≡ option_map (λ x. x.sort) (variable_in (scope_view scope.entry) (view form.now)) }
{
    match symbol(form) {
        Some(identifier) => named_sort(scope, identifier),
        None => local_sort(scope, form),
    }
}

/// Whether a form stands for a variable of this sort.
pub(crate) fn is_variable_of(scope: Scope<'_>, sort: Sort, form: &Form) -> bool
    ensures { result ≡ is_found_of_sort sort (variable_in (scope_view scope.entry) (view form.now)) }
{
    match variable_sort(scope, form) {
        Some(other) => is_same_sort(sort, other),
        None => false,
    }
}

/// The sort of a list with this head.
fn sort_of_head(head: TermHead) -> Option<TermSort>
    ensures { result ≡ sort_of_head head }
{
    match head {
        TermHead::Cat | TermHead::Enc => Some(TermSort::All),
        TermHead::Ltk => Some(TermSort::Atoms(Sort::Skey)),
        TermHead::Pubk | TermHead::Privk | TermHead::Invk => Some(TermSort::Atoms(Sort::Akey)),
        TermHead::OutOfProfile | TermHead::Unknown => None,
    }
}

/// The sort of a form that is no list with a head, if it is no variable.
fn sort_of_leaf(form: &Form) -> Option<TermSort>
    ensures { headed (view form.now) ≡ None → result ≡ sort_by_shape (view form.now) }
{
    match form {
        Form::String(..) => Some(TermSort::All),
        Form::Symbol(..) | Form::Number(..) | Form::List(..) => None,
    }
}

/// The sort of a form that is no variable.
fn sort_by_shape(form: &Form) -> Option<TermSort>
    ensures { result ≡ sort_by_shape (view form.now) }
{
    match headed(form) {
        Some(list) => sort_of_head(term_head(list.head)),
        None => sort_of_leaf(form),
    }
}

/// The sort of a term, decided by its head alone; `None` if it cannot be known.
fn sort_in(scope: Scope<'_>, form: &Form) -> Option<TermSort>
    ensures { result ≡ sort_in (scope_view scope.entry) (view form.now) }
{
    match variable_sort(scope, form) {
        Some(sort) => Some(TermSort::Atoms(sort)),
        None => sort_by_shape(form),
    }
}

/// Whether a term has this sort; also `true` if its sort cannot be known.
pub(crate) fn has_sort(scope: Scope<'_>, sort: Sort, form: &Form) -> bool
    ensures { result ≡ is_sort sort (sort_in (scope_view scope.entry) (view form.now)) }
{
    match sort_in(scope, form) {
        None => true,
        Some(TermSort::All) => false,
        Some(TermSort::Atoms(other)) => is_same_sort(sort, other),
    }
}

/// Whether a term has a sort of keys; also `true` if its sort cannot be known.
pub(crate) fn has_key_sort(scope: Scope<'_>, form: &Form) -> bool
    ensures { result ≡ (is_sort skey_sort (sort_in (scope_view scope.entry) (view form.now))
        || is_sort akey_sort (sort_in (scope_view scope.entry) (view form.now))) }
{
    has_sort(scope, Sort::Skey, form) || has_sort(scope, Sort::Akey, form)
}

/// Whether a term has an atom sort; also `true` if its sort cannot be known.
pub(crate) fn has_atom_sort(scope: Scope<'_>, form: &Form) -> bool
    ensures { result ≡ admits_atom (sort_in (scope_view scope.entry) (view form.now)) }
{
    match sort_in(scope, form) {
        None => true,
        Some(TermSort::All) => false,
        Some(TermSort::Atoms(_)) => true,
    }
}
