// The variables of a label form.
ghost use Rattle.std.specs.Prelude.{◌≡◌, ◌∷◌, [], map, option_map, not, IfOk, OnOk};
ghost use Rattle.cp_sexpr.specs.View.{view};
ghost use Rattle.cp_language.specs.Words.{is_one_of};
ghost use Rattle.cp_language.specs.Names.{identifiers_in};
ghost use Rattle.cp_language.specs.Problems.{name_in_front, second_form};
ghost use Rattle.cp_report.specs.Misfits.{symbol_misfits, entries_misfits, list_misfits};
ghost use Rattle.cp_report.specs.Spelled.{names_sort};
ghost use Rattle.cp_report.specs.Skeletons.{vars_misfits, declaration_of, declarations_of_label, identifier_of};
ghost use Rattle.cp_spelled.specs.FirstMisfit.{first_onto};

use crate::entries::{entries_under, one_sort_misfits};
use crate::first_misfit::FirstMisfit;
use cp_base::{Place, Text};
use cp_scope::{Variables, list_items, name_of, place_of, sort_named, sort_or_text};
use cp_sexpr::Form;
use cp_strand::Declaration;
use std::alloc::{AllocError, Global};

/// The form must be an identifier that is none of those before it.
fn identifier_misfits(before: &Variables, form: &Form, first: &mut FirstMisfit)
    ensures { first.new ≡ first_onto first.old
        (symbol_misfits (λ t. not (is_one_of t (identifiers_in before.now))) (view form.now)) }
{
    let Form::Symbol(place, identifier) = form else {
        first.note(place_of(form));
        return;
    };
    first.note_unless(!before.declares(identifier.as_bytes()), *place);
}

/// The items of the list at this place must be an identifier, none of those before it, and a sort.
fn declaration_entries_misfits(
    before: &Variables,
    place: Place,
    items: &[Form],
    first: &mut FirstMisfit,
)
    ensures { first.new ≡ first_onto first.old (entries_misfits
        (symbol_misfits (λ t. not (is_one_of t (identifiers_in before.now))) ∷ symbol_misfits names_sort ∷ [])
        place (map view items.now)) }
{
    let Some((identifier, rest)) = items.split_first() else {
        first.note(place);
        return;
    };
    identifier_misfits(before, identifier, first);
    one_sort_misfits(place, rest, first);
}

/// The form must be a list of an identifier, none of those before it, and a sort.
fn declaration_misfits(before: &Variables, form: &Form, first: &mut FirstMisfit)
    ensures { first.new ≡ first_onto first.old (list_misfits (entries_misfits
        (symbol_misfits (λ t. not (is_one_of t (identifiers_in before.now))) ∷ symbol_misfits names_sort ∷ [])) (view form.now)) }
{
    let Form::List(place, items) = form else {
        first.note(place_of(form));
        return;
    };
    declaration_entries_misfits(before, *place, items.as_slice(), first);
}

/// The name that comes first; empty if none does.
fn name_in_front(alloc: Global, items: &[Form]) -> Result<Text, AllocError>
    ensures { IfOk result (λ t. t ≡ name_in_front (map view items.now)) }
{
    match items {
        [] => Text::new(alloc, ""),
        [item, ..] => name_of(alloc, item),
    }
}

/// The identifier at the start of an entry that is a list; empty if there is none.
pub fn identifier_of(alloc: Global, form: &Form) -> Result<Text, AllocError>
    ensures { IfOk result (λ t. t ≡ identifier_of (view form.now)) }
{
    name_in_front(alloc, list_items(form))
}

/// The second entry, if there is one.
pub fn second(items: &[Form]) -> Option<&Form>
    ensures { option_map (λ f. view f.now) result ≡ second_form (map view items.now) }
{
    match items {
        [_, item, ..] => Some(item),
        _ => None,
    }
}

/// The declaration that an entry states. For an entry with a misfit it has no meaning.
fn declaration_of(alloc: Global, form: &Form) -> Result<Declaration, AllocError>
    ensures { IfOk result (λ d. d ≡ declaration_of (view form.now)) }
{
    let sort = sort_or_text(sort_named(second(list_items(form))));
    identifier_of(alloc, form).map(|identifier| Declaration { identifier, sort })
}

/// The variables that entries of a label form declare. Notes where the entries do not fit.
pub fn variables_of(
    alloc: Global,
    items: &[Form],
    first: &mut FirstMisfit,
) -> Result<Variables, AllocError>
    ensures misfits { OnOk result (first.new ≡ first_onto first.old (vars_misfits [] (map view items.now))) }
    ensures declared { IfOk result (λ v. v ≡ map declaration_of (map view items.now)) }
{
    let mut variables = Variables::new(alloc);
    for item in items {
        declaration_misfits(&variables, item, first);
        let declaration = declaration_of(alloc, item)?;
        variables.push(alloc, declaration)?;
    }
    Ok(variables)
}

/// The variables of a label form with these items.
pub fn declarations_of_label(alloc: Global, items: &[Form]) -> Result<Variables, AllocError>
    ensures { IfOk result (λ v. v ≡ declarations_of_label (map view items.now)) }
{
    let mut ignored = FirstMisfit::new();
    variables_of(alloc, entries_under(items, b"vars"), &mut ignored)
}
