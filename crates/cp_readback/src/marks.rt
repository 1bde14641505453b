// Marks of labels.
ghost use Rattle.std.specs.Prelude.{◌≡◌, ◌∷◌, [], codes, map, option_map};
ghost use Rattle.cp_sexpr.specs.View.{view};
ghost use Rattle.cp_language.specs.Words.{is_one_of};
ghost use Rattle.cp_language.specs.Faults.{place_of};
ghost use Rattle.cp_language.specs.Roles.{headed};
ghost use Rattle.cp_report.specs.Misfits.{entries_misfits, number_misfits, symbol_misfits};
ghost use Rattle.cp_report.specs.Labels.{is_label_in, mark_kinds, mark_named, mark_of, headed_mark_misfits};
ghost use Rattle.cp_spelled.specs.FirstMisfit.{first_onto};
ghost use Rattle.cp_readback.specs.Families.{labels_of};
ghost use Rattle.cp_readback.specs.Parts.{mark_item_misfits, mark_of_item};

use crate::parents::{Family, is_label_in};
use cp_base::Place;
use cp_items::{name_in_front, number_stated};
use cp_scope::{headed, is_word, place_of};
use cp_sexpr::Form;
use cp_skel::Mark;
use cp_spelled::{FirstMisfit, no_more};

/// The form must be the number of a label.
fn label_number_misfits(tree: Option<&Family<'_>>, form: &Form, first: &mut FirstMisfit)
    ensures { first.new ≡ first_onto first.old (number_misfits (is_label_in (option_map (λ f. labels_of f.now) tree.entry)) (view form.now)) }
{
    match form {
        Form::Number(place, number) => first.note_unless(is_label_in(tree, *number), *place),
        _ => first.note(place_of(form)),
    }
}

/// The items of the list at this place must be the number of a label.
fn one_label_misfits(
    tree: Option<&Family<'_>>,
    place: Place,
    items: &[Form],
    first: &mut FirstMisfit,
)
    ensures { first.new ≡ first_onto first.old
        (entries_misfits (number_misfits (is_label_in (option_map (λ f. labels_of f.now) tree.entry)) ∷ []) place (map view items.now)) }
{
    let Some((number, rest)) = items.split_first() else {
        first.note(place);
        return;
    };
    label_number_misfits(tree, number, first);
    no_more(rest, first);
}

/// The form must be the word for a kind of limit.
pub(crate) fn limit_misfits(form: &Form, first: &mut FirstMisfit)
    ensures { first.new ≡ first_onto first.old (symbol_misfits (λ t. is_one_of t (codes "steps" ∷ codes "strands" ∷ [])) (view form.now)) }
{
    let Form::Symbol(place, word) = form else {
        first.note(place_of(form));
        return;
    };
    let word = word.as_bytes();
    first.note_unless(is_word(word, b"steps") || is_word(word, b"strands"), *place);
}

/// The items of the list at this place must be the word for a kind of limit.
fn one_limit_misfits(place: Place, items: &[Form], first: &mut FirstMisfit)
    ensures { first.new ≡ first_onto first.old
        (entries_misfits (symbol_misfits (λ t. is_one_of t (codes "steps" ∷ codes "strands" ∷ [])) ∷ []) place (map view items.now)) }
{
    let Some((word, rest)) = items.split_first() else {
        first.note(place);
        return;
    };
    limit_misfits(word, first);
    no_more(rest, first);
}

/// Whether a mark with this head names a label.
fn names_label(head: &[u8]) -> bool
    ensures { result ≡ is_one_of head.now (codes "seen" ∷ codes "instance-of" ∷ []) }
{
    is_word(head, b"seen") || is_word(head, b"instance-of")
}

/// What follows the head of a mark must belong to it.
fn mark_entries_misfits(
    tree: Option<&Family<'_>>,
    head: &[u8],
    place: Place,
    items: &[Form],
    first: &mut FirstMisfit,
)
    ensures { first.new ≡ first_onto first.old (entries_misfits (mark_kinds (option_map (λ f. labels_of f.now) tree.entry) head.now) place (map view items.now)) }
{
    if names_label(head) {
        one_label_misfits(tree, place, items, first);
    } else if is_word(head, b"limit") {
        one_limit_misfits(place, items, first);
    } else {
        no_more(items, first);
    }
}

/// Notes where a mark does not fit, whether or not there are children.
fn headed_mark_misfits(tree: Option<&Family<'_>>, form: &Form, first: &mut FirstMisfit)
    ensures { first.new ≡ first_onto first.old
        (headed_mark_misfits (option_map (λ f. labels_of f.now) tree.entry) (place_of (view form.now)) (headed (view form.now))) }
{
    if let Some(list) = headed(form) {
        mark_entries_misfits(tree, list.head, list.place, list.items, first);
    }
}

/// Notes where the mark, if there is one, does not fit. There may be one only if there are no children.
pub(crate) fn mark_misfits(
    tree: Option<&Family<'_>>,
    has_children: bool,
    item: Option<&Form>,
    first: &mut FirstMisfit,
)
    ensures { first.new ≡ first_onto first.old
        (mark_item_misfits (option_map (λ f. labels_of f.now) tree.entry) has_children (option_map (λ f. view f.now) item.entry)) }
{
    if let Some(item) = item {
        first.note_unless(!has_children, place_of(item));
        headed_mark_misfits(tree, item, first);
    }
}

/// The mark named by a head and what follows it.
fn mark_by(head: &[u8], items: &[Form]) -> Mark
    ensures { result ≡ mark_named head.now (map view items.now) }
{
    if is_word(head, b"shape") {
        Mark::Shape
    } else if is_word(head, b"dead") {
        Mark::Dead
    } else if is_word(head, b"seen") {
        Mark::Seen(number_stated(items))
    } else if is_word(head, b"instance-of") {
        Mark::InstanceOf(number_stated(items))
    } else if is_word(name_in_front(items), b"steps") {
        Mark::LimitSteps
    } else {
        Mark::LimitStrands
    }
}

/// The mark that a form states, if it is a list with a head.
fn mark_of_form(form: &Form) -> Option<Mark>
    ensures { result ≡ mark_of (headed (view form.now)) }
{
    match headed(form) {
        Some(list) => Some(mark_by(list.head, list.items)),
        None => None,
    }
}

/// The mark that an item states, if there is an item and it states one.
pub(crate) fn mark_of(item: Option<&Form>) -> Option<Mark>
    ensures { result ≡ mark_of_item (option_map (λ f. view f.now) item.entry) }
{
    match item {
        Some(item) => mark_of_form(item),
        None => None,
    }
}
