// Where terms do not fit.
ghost use Rattle.std.specs.Prelude.{◌≡◌, ◌++◌, [], ◌∷◌, map, option_map, None, if◌then◌else◌};
ghost use Rattle.cp_model.specs.declared.sort.Sort.TheVariants.{Name as name_sort};
ghost use Rattle.cp_sexpr.specs.View.{view};
ghost use Rattle.cp_language.specs.declared.words.TermHead.TheVariants.{Enc as encrypt};
ghost use Rattle.cp_language.specs.Words.{term_head};
ghost use Rattle.cp_language.specs.Roles.{headed, last_form};
ghost use Rattle.cp_report.specs.Misfits.{lacking};
ghost use Rattle.cp_report.specs.Heads.{forms_after_head};
ghost use Rattle.cp_report.specs.Spelled.{is_local, local_misfits, sort_misfits, variable_misfits, variables_misfits, name_misfits, spread_misfits, last_key_misfits, term_misfits, value_misfits, atom_misfits};
ghost use Rattle.cp_language.specs.Faults.{place_of};
ghost use Rattle.cp_scope.specs.OwnFaults.{is_purpose, behind_purpose};
ghost use Rattle.cp_spelled.specs.FirstMisfit.{first_onto};
ghost use Rattle.cp_spelled.specs.Views.{scope_view};
ghost use Rattle.cp_spelled.specs.Own.{wanted_sort_misfits, own_misfits, judged_in_report, headed_misfits, headed_judged};

use crate::scope::{
    Scope, has_atom_sort, has_key_sort, has_sort, is_local, is_local_head, is_variable_of,
};
use crate::{FirstMisfit, has_head, lacking, local_misfits, no_more};
use cp_base::Place;
use cp_scope::{
    HeadedList, TermHead, Variable, front_items, headed, items_behind, last_item, later_items,
    place_of, term_head,
};
use cp_sexpr::Form;
use cp_term::Sort;

/// The term must have this sort.
pub(crate) fn sort_misfits(scope: Scope<'_>, sort: Sort, form: &Form, first: &mut FirstMisfit)
    ensures { first.new ≡ first_onto first.old (sort_misfits (scope_view scope.entry) sort (view form.now)) }
{
    first.note_unless(has_sort(scope, sort, form), place_of(form));
}

/// Where a local may stand, a form with the head of a local must be one.
fn stated_local_misfits(scope: Scope<'_>, form: &Form, first: &mut FirstMisfit)
    ensures { first.new ≡ first_onto first.old
        (if is_local (scope_view scope.entry) (view form.now) then local_misfits (place_of (view form.now)) (forms_after_head (view form.now)) else []) }
{
    if is_local(scope, form) {
        local_misfits(place_of(form), items_behind(form), first);
    }
}

/// The form must be a variable of this sort.
fn variable_misfits(scope: Scope<'_>, sort: Sort, form: &Form, first: &mut FirstMisfit)
    ensures { first.new ≡ first_onto first.old (variable_misfits (scope_view scope.entry) sort (view form.now)) }
{
    let mut inner = FirstMisfit::new();
    stated_local_misfits(scope, form, &mut inner);
    inner.note_unless_misfit(is_variable_of(scope, sort, form), place_of(form));
    first.merge(inner);
}

/// The items of the list at this place must be one variable of this sort.
fn one_variable_misfits(
    scope: Scope<'_>,
    sort: Sort,
    place: Place,
    items: &[Form],
    first: &mut FirstMisfit,
)
    ensures { first.new ≡ first_onto first.old (variables_misfits (scope_view scope.entry) (sort ∷ []) place (map view items.now)) }
{
    let Some((item, rest)) = items.split_first() else {
        first.note(place);
        return;
    };
    variable_misfits(scope, sort, item, first);
    no_more(rest, first);
}

/// The items of the list at this place must be two variables of sort name.
fn two_names_misfits(scope: Scope<'_>, place: Place, items: &[Form], first: &mut FirstMisfit)
    ensures { first.new ≡ first_onto first.old (variables_misfits (scope_view scope.entry) (name_sort ∷ name_sort ∷ []) place (map view items.now)) }
{
    let Some((item, rest)) = items.split_first() else {
        first.note(place);
        return;
    };
    variable_misfits(scope, Sort::Name, item, first);
    one_variable_misfits(scope, Sort::Name, place, rest, first);
}

/// Whether the first entry is a string, the purpose of a key.
fn is_purpose(items: &[Form]) -> bool
    ensures { result ≡ is_purpose (map view items.now) }
{
    matches!(items.first(), Some(Form::String(..)))
}

/// The entries after the purpose, if one comes first.
fn behind_purpose(items: &[Form]) -> &[Form]
    ensures { map view result.now ≡ behind_purpose (map view items.now) }
{
    if is_purpose(items) {
        later_items(items, 1)
    } else {
        items
    }
}

/// The items of the list at this place must be the name of a public or private key, after its purpose if it has one.
fn name_misfits(scope: Scope<'_>, place: Place, items: &[Form], first: &mut FirstMisfit)
    ensures { first.new ≡ first_onto first.old (name_misfits (scope_view scope.entry) place (map view items.now)) }
{
    one_variable_misfits(scope, Sort::Name, place, behind_purpose(items), first);
}

/// The form, if there is one, must be no `cat`.
fn spread_misfits(form: Option<&Form>, first: &mut FirstMisfit)
    ensures { first.new ≡ first_onto first.old (spread_misfits (option_map (λ f. view f.now) form.entry)) }
{
    if let Some(form) = form {
        first.note_unless(!has_head(form, b"cat"), place_of(form));
    }
}

/// The form, if there is one, must be a key.
fn last_key_misfits(scope: Scope<'_>, form: Option<&Form>, first: &mut FirstMisfit)
    ensures { first.new ≡ first_onto first.old (last_key_misfits (scope_view scope.entry) (option_map (λ f. view f.now) form.entry)) }
{
    if let Some(form) = form {
        first.note_unless(has_key_sort(scope, form), place_of(form));
    }
}

/// Notes where the entries of a `cat` do not fit, except inside the entries.
fn pairing_misfits(place: Place, items: &[Form], first: &mut FirstMisfit)
    ensures { first.new ≡ first_onto first.old (lacking 2 place (map view items.now) ++ spread_misfits (last_form (map view items.now))) }
{
    lacking(2, place, items, first);
    spread_misfits(last_item(items), first);
}

/// Notes where the entries of an encryption do not fit, except inside the entries.
fn encryption_misfits(scope: Scope<'_>, place: Place, items: &[Form], first: &mut FirstMisfit)
    ensures { first.new ≡ first_onto first.old (own_misfits (scope_view scope.entry) place encrypt (map view items.now)) }
{
    lacking(2, place, items, first);
    spread_misfits(last_item(front_items(items)), first);
    last_key_misfits(scope, last_item(items), first);
}

/// Notes where a list in a term does not fit, except inside its items. Returns the items that must be terms.
fn own_misfits<'a>(scope: Scope<'_>, list: HeadedList<'a>, first: &mut FirstMisfit) -> &'a [Form]
    ensures judged { map view result.now ≡ judged_in_report (term_head list.entry.head.now) (map view list.entry.items.now) }
    ensures misfits { first.new ≡ first_onto first.old
        (own_misfits (scope_view scope.entry) list.entry.place (term_head list.entry.head.now) (map view list.entry.items.now)) }
{
    let place = list.place;
    let items = list.items;
    match term_head(list.head) {
        TermHead::Cat => {
            pairing_misfits(place, items, first);
            items
        }
        TermHead::Enc => {
            encryption_misfits(scope, place, items, first);
            items
        }
        TermHead::Ltk => {
            two_names_misfits(scope, place, items, first);
            &[]
        }
        TermHead::Pubk | TermHead::Privk => {
            name_misfits(scope, place, items, first);
            &[]
        }
        TermHead::Invk => {
            one_variable_misfits(scope, Sort::Akey, place, items, first);
            &[]
        }
        TermHead::OutOfProfile | TermHead::Unknown => {
            first.note(place);
            &[]
        }
    }
}

/// Notes where a list in a term, possibly with the head of a local, does not fit, except inside its items. Returns the
/// items that must be terms.
fn headed_misfits<'a>(scope: Scope<'_>, list: HeadedList<'a>, first: &mut FirstMisfit) -> &'a [Form]
    ensures judged { map view result.now ≡ headed_judged (scope_view scope.entry) list.entry.head.now (map view list.entry.items.now) }
    ensures misfits { first.new ≡ first_onto first.old
        (headed_misfits (scope_view scope.entry) list.entry.place list.entry.head.now (map view list.entry.items.now)) }
{
    if is_local_head(scope, list.head) {
        local_misfits(list.place, list.items, first);
        &[]
    } else {
        own_misfits(scope, list, first)
    }
}

/// Notes where a form that is no list with a head is no term.
fn leaf_misfits(scope: Scope<'_>, form: &Form, first: &mut FirstMisfit)
    ensures { headed (view form.now) ≡ None
        → first.new ≡ first_onto first.old (term_misfits (scope_view scope.entry) (view form.now)) }
{
    match form {
        Form::Symbol(place, identifier) => first.note_unless(
            scope.variables.has(identifier.as_bytes()),
            *place,
        ),
        Form::String(..) => {}
        Form::Number(place, _) | Form::List(place, _) => first.note(*place),
    }
}

/// Notes where a form is no term in the spelling of a report: the innermost forms that do not fit.
pub fn term_misfits(scope: Scope<'_>, form: &Form, first: &mut FirstMisfit)
    ensures { first.new ≡ first_onto first.old (term_misfits (scope_view scope.entry) (view form.now)) }
{
    let Some(list) = headed(form) else {
        leaf_misfits(scope, form, first);
        return;
    };
    for item in headed_misfits(scope, list, first) {
        term_misfits(scope, item, first);
    }
}

/// The term must have the sort of the variable, if there is one.
fn wanted_sort_misfits(
    scope: Scope<'_>,
    variable: Option<Variable>,
    form: &Form,
    first: &mut FirstMisfit,
)
    ensures { first.new ≡ first_onto first.old (wanted_sort_misfits (scope_view scope.entry) variable (view form.now)) }
{
    if let Some(variable) = variable {
        sort_misfits(scope, variable.sort, form, first);
    }
}

/// The form must be a term, of the sort of the variable if there is one.
pub fn value_misfits(
    scope: Scope<'_>,
    variable: Option<Variable>,
    form: &Form,
    first: &mut FirstMisfit,
)
    ensures { first.new ≡ first_onto first.old (value_misfits (scope_view scope.entry) variable (view form.now)) }
{
    wanted_sort_misfits(scope, variable, form, first);
    term_misfits(scope, form, first);
}

/// The form must be a term of an atom sort.
pub fn atom_misfits(scope: Scope<'_>, form: &Form, first: &mut FirstMisfit)
    ensures { first.new ≡ first_onto first.old (atom_misfits (scope_view scope.entry) (view form.now)) }
{
    first.note_unless(has_atom_sort(scope, form), place_of(form));
    term_misfits(scope, form, first);
}
