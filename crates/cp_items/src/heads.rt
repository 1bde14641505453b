// The items of a label form by their heads.
ghost use Rattle.std.specs.Prelude.{◌≡◌, map, option_map};
ghost use Rattle.cp_sexpr.specs.View.{view};
ghost use Rattle.cp_language.specs.Words.{is_one_of};
ghost use Rattle.cp_language.specs.Problems.{name_in_front};
ghost use Rattle.cp_report.specs.Heads.{has_head, item_with, mark_heads, up_to_strands, is_of_tree, is_label};
ghost use Rattle.cp_report.specs.Labels.{items_of_label};

use cp_scope::{first_items, headed, is_word, items_behind, symbol_or_empty};
use cp_sexpr::Form;
use cp_spelled::has_head;

/// The heads of marks.
pub const MARK_HEADS: &[&str] = &["shape", "dead", "seen", "instance-of", "limit"];

/// The heads of the items that belong after the strands.
const HEADS_BEHIND_STRANDS: &[&str] = &[
    "precedes",
    "non-orig",
    "pen-non-orig",
    "uniq-orig",
    "map",
    "unrealised",
    "test",
    "escape",
    "children",
    "shape",
    "dead",
    "seen",
    "instance-of",
    "limit",
];

/// Whether a word is one of these.
fn is_one_of(word: &[u8], words: &[&str]) -> bool
    ensures { result ≡ is_one_of word.now (map (λ w. w.now) words.now) }
{
    for other in words {
        if is_word(word, other.as_bytes()) {
            return true;
        }
    }
    false
}

/// Whether a form is a list with one of these heads.
pub fn has_one_of(form: &Form, heads: &[&str]) -> bool
    ensures { result ≡ has_head (map (λ w. w.now) heads.now) (view form.now) }
{
    match headed(form) {
        Some(list) => is_one_of(list.head, heads),
        None => false,
    }
}

/// The first of the items with the head of a mark.
pub fn mark_item(items: &[Form]) -> Option<&Form>
    ensures { option_map (λ f. view f.now) result ≡ item_with mark_heads (map view items.now) }
{
    for item in items {
        if has_one_of(item, MARK_HEADS) {
            return Some(item);
        }
    }
    None
}

/// The items before the first that belongs after the strands.
pub fn up_to_strands(items: &[Form]) -> &[Form]
    ensures { map view result.now ≡ up_to_strands (map view items.now) }
{
    for (place, item) in items.iter().enumerate() {
        if has_one_of(item, HEADS_BEHIND_STRANDS) {
            return first_items(items, place);
        }
    }
    items
}

/// Whether a form is a label form.
pub(crate) fn is_label(form: &Form) -> bool
    ensures { result ≡ is_label (view form.now) }
{
    has_head(form, b"label")
}

/// Whether a form is a label form or a status form.
pub fn is_of_tree(form: &Form) -> bool
    ensures { result ≡ is_of_tree (view form.now) }
{
    has_one_of(form, &["label", "status"])
}

/// The items of a label form, after its number. If the form begins with a list, that is no number but an item.
pub fn items_of_label(form: &Form) -> &[Form]
    ensures { map view result.now ≡ items_of_label (view form.now) }
{
    let entries = items_behind(form);
    match entries.split_first() {
        None | Some((Form::List(_, _), _)) => entries,
        Some((_, behind)) => behind,
    }
}

/// The text of the symbol that comes first; empty if none does.
pub fn name_in_front(items: &[Form]) -> &[u8]
    ensures { result.now ≡ name_in_front (map view items.now) }
{
    match items {
        [] => &[],
        [item, ..] => symbol_or_empty(item),
    }
}
