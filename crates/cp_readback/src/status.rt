// Status forms: where one does not fit, and the outcome that it states.
ghost use Rattle.std.specs.Prelude.{◌≡◌, [], ◌∷◌, codes, map};
ghost use Rattle.cp_sexpr.specs.View.{view};
ghost use Rattle.cp_language.specs.Words.{is_one_of};
ghost use Rattle.cp_report.specs.Misfits.{symbol_misfits, entries_misfits};
ghost use Rattle.cp_report.specs.ReadBack.{word_misfits, count_misfits, behind_outcome, outcome_of};
ghost use Rattle.cp_spelled.specs.FirstMisfit.{first_onto};
ghost use Rattle.cp_items.specs.Parts.{is_fitting};
ghost use Rattle.cp_readback.specs.Kinds.{kind_misfits};
ghost use Rattle.cp_readback.specs.Counts.{AreCountsIn, is_tested, is_shape_form, count_of, count_kinds, status_misfits_by_counts, status_form_misfits, outcome_in};

use crate::marks::{limit_misfits, mark_of};
use cp_base::Place;
use cp_items::{items_of_label, mark_item, name_in_front};
use cp_scope::{is_word, items_behind, place_of, symbol_or_empty};
use cp_sexpr::Form;
use cp_skel::{Mark, Outcome};
use cp_spelled::{FirstMisfit, no_more};
use cp_stated::item_with;

/// How many labels a tree has, how many of them have a test, and how many are shapes.
#[derive(Clone, Copy)]
pub(crate) struct Counts {
    pub(crate) labels: usize,
    pub(crate) expanded: usize,
    pub(crate) shapes: usize,
}

/// Whether a label form has a test.
fn is_tested(form: &Form) -> bool
    ensures { result ≡ is_tested (view form.now) }
{
    item_with(items_of_label(form), b"test").is_some()
}

/// Whether a label form has the mark of a shape.
fn is_shape(form: &Form) -> bool
    ensures { result ≡ is_shape_form (view form.now) }
{
    matches!(mark_of(mark_item(items_of_label(form))), Some(Mark::Shape))
}

/// How many of the label forms have a test.
#[tactic(auto, using(crate::proofs::Counted::counted))]
fn tested_count(labels: &[Form]) -> usize
    ensures { result ≡ count_of is_tested (map view labels.now) }
{
    labels.iter().filter(|label| is_tested(label)).count()
}

/// How many of the label forms have the mark of a shape.
#[tactic(auto, using(crate::proofs::Counted::counted))]
fn shape_count(labels: &[Form]) -> usize
    ensures { result ≡ count_of is_shape_form (map view labels.now) }
{
    labels.iter().filter(|label| is_shape(label)).count()
}

/// The counts of a tree with these label forms.
pub(crate) fn counts_of(labels: &[Form]) -> Counts
    ensures { AreCountsIn (map view labels.now) result }
{
    Counts {
        labels: labels.len(),
        expanded: tested_count(labels),
        shapes: shape_count(labels),
    }
}

/// The form must be this word.
fn word_misfits(word: &[u8], form: &Form, first: &mut FirstMisfit)
    ensures { first.new ≡ first_onto first.old (word_misfits word.now (view form.now)) }
{
    match form {
        Form::Symbol(place, text) => first.note_unless(is_word(text.as_bytes(), word), *place),
        _ => first.note(place_of(form)),
    }
}

/// The form must be this number.
fn count_misfits(count: usize, form: &Form, first: &mut FirstMisfit)
    ensures { first.new ≡ first_onto first.old (count_misfits count (view form.now)) }
{
    match form {
        Form::Number(place, number) => first.note_unless(*number == count, *place),
        _ => first.note(place_of(form)),
    }
}

/// What must stand among the counts: this word, or this number.
#[derive(Clone, Copy)]
enum Kind {
    Word(&'static str),
    Count(usize),
}

/// The form must be of this kind.
fn kind_misfits(kind: Kind, form: &Form, first: &mut FirstMisfit)
    ensures { first.new ≡ first_onto first.old (kind_misfits kind (view form.now)) }
{
    match kind {
        Kind::Word(word) => word_misfits(word.as_bytes(), form, first),
        Kind::Count(count) => count_misfits(count, form, first),
    }
}

/// The items of the list at this place must be one of each of these kinds, in order.
fn kinds_misfits(kinds: &[Kind], place: Place, items: &[Form], first: &mut FirstMisfit)
    ensures { first.new ≡ first_onto first.old (entries_misfits (map kind_misfits kinds.now) place (map view items.now)) }
{
    let mut rest = items;
    for kind in kinds {
        let Some((item, behind)) = rest.split_first() else {
            first.note(place);
            return;
        };
        kind_misfits(*kind, item, first);
        rest = behind;
    }
    no_more(rest, first);
}

/// The items of the list at this place must be the counts, each after its word.
fn counts_misfits(counts: Counts, place: Place, items: &[Form], first: &mut FirstMisfit)
    ensures { first.new ≡ first_onto first.old (entries_misfits (count_kinds counts) place (map view items.now)) }
{
    let kinds = [
        Kind::Word("labels"),
        Kind::Count(counts.labels),
        Kind::Word("expanded"),
        Kind::Count(counts.expanded),
        Kind::Word("shapes"),
        Kind::Count(counts.shapes),
    ];
    kinds_misfits(&kinds, place, items, first);
}

/// The items of the list at this place must be the kind of limit and the counts.
fn limit_counts_misfits(counts: Counts, place: Place, items: &[Form], first: &mut FirstMisfit)
    ensures { first.new ≡ first_onto first.old (entries_misfits
        (symbol_misfits (λ t. is_one_of t (codes "steps" ∷ codes "strands" ∷ [])) ∷ count_kinds counts) place (map view items.now)) }
{
    let Some((word, rest)) = items.split_first() else {
        first.note(place);
        return;
    };
    limit_misfits(word, first);
    counts_misfits(counts, place, rest, first);
}

/// In a list at this place, what belongs to the first word of an outcome must follow it.
fn behind_outcome_misfits(
    word: &[u8],
    counts: Counts,
    place: Place,
    items: &[Form],
    first: &mut FirstMisfit,
)
    ensures { first.new ≡ first_onto first.old (entries_misfits (behind_outcome word.now (count_kinds counts)) place (map view items.now)) }
{
    if is_word(word, b"limit") {
        limit_counts_misfits(counts, place, items, first);
    } else {
        counts_misfits(counts, place, items, first);
    }
}

/// Whether a form is the first word of an outcome.
fn names_outcome(form: &Form) -> bool
    ensures { result ≡ is_fitting (symbol_misfits (λ t. is_one_of t (codes "complete" ∷ codes "limit" ∷ [])) (view form.now)) }
{
    let Form::Symbol(_, word) = form else {
        return false;
    };
    let word = word.as_bytes();
    is_word(word, b"complete") || is_word(word, b"limit")
}

/// The items of the list at this place must be an outcome and the counts.
fn status_entries_misfits(counts: Counts, place: Place, items: &[Form], first: &mut FirstMisfit)
    ensures { first.new ≡ first_onto first.old (status_misfits_by_counts counts place (map view items.now)) }
{
    let Some((word, rest)) = items.split_first() else {
        first.note(place);
        return;
    };
    if names_outcome(word) {
        behind_outcome_misfits(symbol_or_empty(word), counts, place, rest, first);
    } else {
        first.note(place_of(word));
    }
}

/// Notes where a status form does not fit after labels with these counts.
pub(crate) fn status_misfits(counts: Counts, form: &Form, first: &mut FirstMisfit)
    ensures { first.new ≡ first_onto first.old (status_form_misfits counts (view form.now)) }
{
    status_entries_misfits(counts, place_of(form), items_behind(form), first);
}

/// The outcome that the entries of a status form state.
fn outcome_of(items: &[Form]) -> Outcome
    ensures { result ≡ outcome_of (map view items.now) }
{
    let Some((word, rest)) = items.split_first() else {
        return Outcome::Complete;
    };
    if is_word(symbol_or_empty(word), b"complete") {
        Outcome::Complete
    } else if is_word(name_in_front(rest), b"steps") {
        Outcome::LimitSteps
    } else {
        Outcome::LimitStrands
    }
}

/// The outcome that the first of these forms states; complete if there is none.
pub(crate) fn outcome_in(behind: &[Form]) -> Outcome
    ensures { result ≡ outcome_in (map view behind.now) }
{
    match behind {
        [] => Outcome::Complete,
        [status, ..] => outcome_of(items_behind(status)),
    }
}
