// Declarations of variables.
ghost use Rattle.std.specs.Prelude.{◌≡◌, ◌++◌, [], List, map, option_map, IfOk, OnOk, MatchOption, Some};
ghost use Rattle.cp_base.specs.declared.place.Place.{Place as PlaceData};
ghost use Rattle.cp_base.specs.declared.place.Refusal.{Refusal as Fault};
ghost use Rattle.cp_sexpr.specs.Syntax.{Form as FormData};
ghost use Rattle.cp_sexpr.specs.View.{view};
ghost use Rattle.cp_language.specs.Names.{identifiers_in};
ghost use Rattle.cp_language.specs.Roles.{headed, text_of_symbol, list_items, front_of, last_form, sort_named, is_of_messages, sort_or_text, sort_word_faults, last_sort_faults, identifier_faults, identifiers_faults, declaration_faults, declarations_faults, vars_faults, declared_of, declarations_in, declarations_of, fixed_faults};
ghost use Rattle.cp_scope.specs.FirstFault.{first_onto};
ghost use Rattle.cp_scope.specs.Forms.{headed_view};
ghost use Rattle.cp_scope.specs.Fixed.{faults_inside};

use crate::faults::lacks;
use crate::{
    FirstFault, HeadedList, SortWord, Variables, front_items, headed, is_out_of_profile, is_word,
    items_behind, last_item, place_of, sort_word,
};
use cp_base::{Code, Place, Text};
use cp_sexpr::Form;
use cp_strand::Declaration;
use cp_term::Sort;
use std::alloc::{AllocError, Global};

/// The list with this head that must stand here, if the form is one; otherwise notes the fault.
pub fn fixed<'a>(form: &'a Form, word: &[u8], first: &mut FirstFault) -> Option<HeadedList<'a>>
    ensures faults { (inside : PlaceData → List FormData → List Fault)
        → first_onto first.new (faults_inside inside (option_map headed_view result)) ≡ first_onto first.old (fixed_faults word.now inside (view form.now)) }
    ensures list { MatchOption result (Unit {0}) (λ h. Some (headed_view h) ≡ headed (view form.now)) }
{
    let Some(list) = headed(form) else {
        first.note(place_of(form), Code::BadShape);
        return None;
    };
    if is_word(list.head, word) {
        return Some(list);
    }
    let code = if is_out_of_profile(list.head) {
        Code::OutOfProfile
    } else {
        Code::BadShape
    };
    first.note(place_of(form), code);
    None
}

/// The text of a symbol, as an identifier or a name; empty for any other form.
pub fn name_of(alloc: Global, form: &Form) -> Result<Text, AllocError>
    ensures { IfOk result (λ t. t ≡ text_of_symbol (view form.now)) }
{
    match form {
        Form::Symbol(_, text) => text.copy(),
        _ => Text::new(alloc, ""),
    }
}

fn is_of_messages(word: SortWord) -> bool
    ensures { result ≡ is_of_messages word }
{
    matches!(word, SortWord::Messages)
}

/// The atom sort that a word names. For any other word the result has no meaning.
pub fn sort_or_text(word: SortWord) -> Sort
    ensures { result ≡ sort_or_text word }
{
    match word {
        SortWord::Atoms(sort) => sort,
        _ => Sort::Text,
    }
}

/// What a declaration names as its sort.
pub fn sort_named(form: Option<&Form>) -> SortWord
    ensures { result ≡ sort_named (option_map (λ f. view f.now) form.entry) }
{
    match form {
        Some(Form::Symbol(_, word)) => sort_word(word.as_bytes()),
        _ => SortWord::Unknown,
    }
}

fn sort_word_faults(place: Place, word: SortWord, first: &mut FirstFault)
    ensures { first.new ≡ first_onto first.old (sort_word_faults place word) }
{
    match word {
        SortWord::Atoms(_) | SortWord::Messages => {}
        SortWord::OutOfProfile => first.note(place, Code::OutOfProfile),
        SortWord::Unknown => first.note(place, Code::UnknownSort),
    }
}

/// Notes the faults of the last item of a declaration, its sort.
fn last_sort_faults(form: Option<&Form>, first: &mut FirstFault)
    ensures { first.new ≡ first_onto first.old (last_sort_faults (option_map (λ f. view f.now) form.entry)) }
{
    match form {
        None => {}
        Some(Form::Symbol(place, word)) => sort_word_faults(
            *place,
            sort_word(word.as_bytes()),
            first,
        ),
        Some(form) => first.note(place_of(form), Code::BadShape),
    }
}

/// Notes the faults of an identifier that is declared after these variables.
fn identifier_faults(variables: &Variables, word: SortWord, form: &Form, first: &mut FirstFault)
    ensures { first.new ≡ first_onto first.old
        (identifier_faults (identifiers_in variables.now) word (view form.now)) }
{
    let Form::Symbol(place, identifier) = form else {
        first.note(place_of(form), Code::BadShape);
        return;
    };
    if is_of_messages(word) {
        first.note(*place, Code::MesgVar);
    }
    if variables.declares(identifier.as_bytes()) {
        first.note(*place, Code::DuplicateVar);
    }
}

/// Declares these identifiers after the variables. Notes their faults.
fn declare(
    alloc: Global,
    variables: &mut Variables,
    word: SortWord,
    identifiers: &[Form],
    first: &mut FirstFault,
) -> Result<(), AllocError>
    ensures faults { OnOk result (first.new ≡ first_onto first.old
        (identifiers_faults (identifiers_in variables.old) word (map view identifiers.now))) }
    ensures declared { OnOk result (variables.new
        ≡ variables.old ++ declared_of (sort_or_text word) (map view identifiers.now)) }
{
    for form in identifiers {
        identifier_faults(variables, word, form, first);
        let identifier = name_of(alloc, form)?;
        variables.push(
            alloc,
            Declaration {
                identifier,
                sort: sort_or_text(word),
            },
        )?;
    }
    Ok(())
}

/// Declares the identifiers of one declaration after the variables. Notes its faults.
fn declaration(
    alloc: Global,
    variables: &mut Variables,
    form: &Form,
    first: &mut FirstFault,
) -> Result<(), AllocError>
    ensures faults { OnOk result (first.new ≡ first_onto first.old
        (declaration_faults (identifiers_in variables.old) (view form.now))) }
    ensures declared { OnOk result (variables.new ≡ variables.old
        ++ declared_of (sort_or_text (sort_named (last_form (list_items (view form.now))))) (front_of (list_items (view form.now)))) }
{
    let Form::List(place, items) = form else {
        first.note(place_of(form), Code::BadShape);
        return Ok(());
    };
    let items = items.as_slice();
    let sort = last_item(items);
    lacks(2, *place, items, first);
    declare(
        alloc,
        variables,
        sort_named(sort),
        front_items(items),
        first,
    )?;
    last_sort_faults(sort, first);
    Ok(())
}

/// The variables that these declarations declare. Notes their faults.
fn declarations(
    alloc: Global,
    items: &[Form],
    first: &mut FirstFault,
) -> Result<Variables, AllocError>
    ensures faults { OnOk result (first.new ≡ first_onto first.old (declarations_faults [] (map view items.now))) }
    ensures declared { IfOk result (λ v. v ≡ declarations_in (map view items.now)) }
{
    let mut variables = Variables::new(alloc);
    for item in items {
        declaration(alloc, &mut variables, item, first)?;
    }
    Ok(variables)
}

/// The variables that a `vars` list declares. Notes its faults. A list with another head has a fault, but declares them
/// too.
pub fn variables_of(
    alloc: Global,
    form: &Form,
    first: &mut FirstFault,
) -> Result<Variables, AllocError>
    ensures faults { OnOk result (first.new ≡ first_onto first.old (vars_faults (view form.now))) }
    ensures declared { IfOk result (λ v. v ≡ declarations_of (view form.now)) }
{
    if fixed(form, b"vars", first).is_some() {
        return declarations(alloc, items_behind(form), first);
    }
    let mut ignored = FirstFault::new();
    declarations(alloc, items_behind(form), &mut ignored)
}
