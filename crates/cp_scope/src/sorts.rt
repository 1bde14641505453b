// Variables by their identifiers, and the sorts of terms.
ghost use Rattle.std.specs.Prelude.{◌≡◌, ◌||◌, None};
ghost use Rattle.cp_model.specs.declared.sort.Sort.TheVariants.{Skey as skey_sort, Akey as akey_sort};
ghost use Rattle.cp_sexpr.specs.View.{view};
ghost use Rattle.cp_model.specs.Same.{same_sort};
ghost use Rattle.cp_language.specs.Roles.{headed};
ghost use Rattle.cp_language.specs.Terms.{variable_named, sort_of, is_sort, admits_atom};

use crate::{TermHead, Variables, headed, is_word, term_head};
use cp_language::TermSort;
use cp_model::Variable;
use cp_sexpr::Form;
use cp_strand::Declaration;
use cp_term::Sort;

/// The variable with this identifier.
pub fn variable_named(variables: &[Declaration], identifier: &[u8]) -> Option<Variable>
    ensures { result ≡ variable_named variables.now identifier.now }
{
    for (number, declaration) in variables.iter().enumerate() {
        if is_word(declaration.identifier.as_str().as_bytes(), identifier) {
            return Some(Variable {
                sort: declaration.sort,
                number,
            });
        }
    }
    None
}

/// Whether the sorts are the same.
pub fn is_same_sort(first: Sort, second: Sort) -> bool
    ensures { result ≡ same_sort first second }
{
    first == second
}

/// The sort of a term that is no list with a head; `None` if it cannot be known.
fn sort_of_leaf(variables: &Variables, form: &Form) -> Option<TermSort>
    ensures { headed (view form.now) ≡ None
        → result ≡ sort_of variables.now (view form.now) }
{
    match form {
        Form::Symbol(_, identifier) => {
            let variable = variables.named(identifier.as_bytes())?;
            Some(TermSort::Atoms(variable.sort))
        }
        Form::String(..) => Some(TermSort::All),
        Form::Number(..) | Form::List(..) => None,
    }
}

/// The sort of a term, decided by its head alone; `None` if it cannot be known.
pub(crate) fn sort_of(variables: &Variables, form: &Form) -> Option<TermSort>
    ensures { result ≡ sort_of variables.now (view form.now) }
{
    let Some(list) = headed(form) else {
        return sort_of_leaf(variables, form);
    };
    match term_head(list.head) {
        TermHead::Cat => match list.items {
            [] => None,
            [item] => sort_of(variables, item),
            _ => Some(TermSort::All),
        },
        TermHead::Enc => Some(TermSort::All),
        TermHead::Ltk => Some(TermSort::Atoms(Sort::Skey)),
        TermHead::Pubk | TermHead::Privk | TermHead::Invk => Some(TermSort::Atoms(Sort::Akey)),
        TermHead::OutOfProfile | TermHead::Unknown => None,
    }
}

/// Whether a term has this sort; also `true` if its sort cannot be known.
pub(crate) fn has_sort(variables: &Variables, sort: Sort, form: &Form) -> bool
    ensures { result ≡ is_sort sort (sort_of variables.now (view form.now)) }
{
    match sort_of(variables, form) {
        None => true,
        Some(TermSort::All) => false,
        Some(TermSort::Atoms(other)) => is_same_sort(sort, other),
    }
}

/// Whether a term has a sort of keys; also `true` if its sort cannot be known.
pub(crate) fn has_key_sort(variables: &Variables, form: &Form) -> bool
    ensures { result ≡ (is_sort skey_sort (sort_of variables.now (view form.now))
        || is_sort akey_sort (sort_of variables.now (view form.now))) }
{
    has_sort(variables, Sort::Skey, form) || has_sort(variables, Sort::Akey, form)
}

/// Whether a term has an atom sort; also `true` if its sort cannot be known.
pub(crate) fn has_atom_sort(variables: &Variables, form: &Form) -> bool
    ensures { result ≡ admits_atom (sort_of variables.now (view form.now)) }
{
    match sort_of(variables, form) {
        None => true,
        Some(TermSort::All) => false,
        Some(TermSort::Atoms(_)) => true,
    }
}
