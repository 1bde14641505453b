// Entries of lists, and lists by their heads.
ghost use Rattle.std.specs.Prelude.{◌≡◌, [], ◌∷◌, map};
ghost use Rattle.cp_base.specs.declared.place.Place.{Place as Where};
ghost use Rattle.cp_sexpr.specs.View.{view};
ghost use Rattle.cp_language.specs.Problems.{is_known};
ghost use Rattle.cp_report.specs.Misfits.{lacking, entries_misfits, any_number_misfits, symbol_misfits};
ghost use Rattle.cp_report.specs.Heads.{has_head, entries_under};
ghost use Rattle.cp_report.specs.Spelled.{names_sort, sort_or_none};
ghost use Rattle.cp_spelled.specs.FirstMisfit.{first_onto};

use crate::first_misfit::FirstMisfit;
use cp_base::Place;
use cp_scope::{SortWord, headed, is_word, items_behind, place_of, sort_word};
use cp_sexpr::Form;
use cp_term::Sort;

/// Whether a form is a list with this head.
pub fn has_head(form: &Form, word: &[u8]) -> bool
    ensures { result ≡ has_head (word.now ∷ []) (view form.now) }
{
    match headed(form) {
        Some(list) => is_word(list.head, word),
        None => false,
    }
}

/// The entries of the first item with this head; none if there is no such item.
pub fn entries_under<'a>(items: &'a [Form], word: &[u8]) -> &'a [Form]
    ensures { map view result.now ≡ entries_under word.now (map view items.now) }
{
    for item in items {
        if has_head(item, word) {
            return items_behind(item);
        }
    }
    &[]
}

/// Notes a misfit at this place, that of a list, if the list has fewer than `count` entries.
pub fn lacking(count: usize, place: Place, items: &[Form], first: &mut FirstMisfit)
    ensures { first.new ≡ first_onto first.old (lacking count place (map view items.now)) }
{
    first.note_unless(count <= items.len(), place);
}

/// Notes a misfit at the first of these entries, which follow as many as a list may have.
pub fn no_more(items: &[Form], first: &mut FirstMisfit)
    ensures { (at : Where) → first.new ≡ first_onto first.old (entries_misfits [] at (map view items.now)) }
{
    match items {
        [] => {}
        [item, ..] => first.note(place_of(item)),
    }
}

/// The form must be a number.
pub fn any_number_misfits(form: &Form, first: &mut FirstMisfit)
    ensures { first.new ≡ first_onto first.old (any_number_misfits (view form.now)) }
{
    match form {
        Form::Number(..) => {}
        Form::Symbol(place, _) | Form::String(place, _) | Form::List(place, _) => first.note(
            *place,
        ),
    }
}

/// The atom sort that a word names, if it names one.
pub(crate) fn sort_or_none(word: SortWord) -> Option<Sort>
    ensures { result ≡ sort_or_none word }
{
    match word {
        SortWord::Atoms(sort) => Some(sort),
        _ => None,
    }
}

/// Whether a word names an atom sort.
fn is_sort(word: SortWord) -> bool
    ensures { result ≡ is_known (sort_or_none word) }
{
    matches!(word, SortWord::Atoms(_))
}

/// Whether a word names one of the five atom sorts.
fn names_sort(word: &[u8]) -> bool
    ensures { result ≡ names_sort word.now }
{
    is_sort(sort_word(word))
}

/// The form must be a symbol that names a sort.
pub(crate) fn sort_symbol_misfits(form: &Form, first: &mut FirstMisfit)
    ensures { first.new ≡ first_onto first.old (symbol_misfits names_sort (view form.now)) }
{
    let Form::Symbol(place, word) = form else {
        first.note(place_of(form));
        return;
    };
    first.note_unless(names_sort(word.as_bytes()), *place);
}

/// The items of the list at this place must be one symbol that names a sort.
pub(crate) fn one_sort_misfits(place: Place, items: &[Form], first: &mut FirstMisfit)
    ensures { first.new ≡ first_onto first.old (entries_misfits (symbol_misfits names_sort ∷ []) place (map view items.now)) }
{
    let Some((sort, rest)) = items.split_first() else {
        first.note(place);
        return;
    };
    sort_symbol_misfits(sort, first);
    no_more(rest, first);
}

/// The items of the list at this place must be one number.
pub fn one_number_misfits(place: Place, items: &[Form], first: &mut FirstMisfit)
    ensures { first.new ≡ first_onto first.old (entries_misfits (any_number_misfits ∷ []) place (map view items.now)) }
{
    let Some((number, rest)) = items.split_first() else {
        first.note(place);
        return;
    };
    any_number_misfits(number, first);
    no_more(rest, first);
}
