// Single items of label forms: whether they exist, and where they do not fit.
ghost use Rattle.std.specs.Prelude.{◌≡◌, ◌||◌, [], ◌∷◌, not, codes, if◌then◌else◌, map, option_map, IfOk, OnOk, IfSome};
ghost use Rattle.cp_sexpr.specs.View.{view};
ghost use Rattle.cp_language.specs.Problems.{is_known};
ghost use Rattle.cp_report.specs.Heads.{item_with};
ghost use Rattle.cp_report.specs.Skeletons.{declarations_of_label, vars_item_misfits};
ghost use Rattle.cp_report.specs.Labels.{word_of_label, wants_parent, has_children, has_mark, missing_misfits};
ghost use Rattle.cp_spelled.specs.FirstMisfit.{first_onto};
ghost use Rattle.cp_readback.specs.Families.{labels_of, IsFamily};
ghost use Rattle.cp_readback.specs.Parts.{no_parent_item_misfits, operation_of_item_misfits, children_item_misfits};

use crate::parents::{Family, children_misfits};
use cp_base::Place;
use cp_items::{
    OperationWord, is_operation, makes_root, mark_item, operation_misfits, word_in_front,
};
use cp_scope::{items_behind, place_of};
use cp_sexpr::Form;
use cp_spelled::{FirstMisfit, Variables, entries_under, lacking, variables_of};
use cp_stated::item_with;
use std::alloc::{AllocError, Global};

/// Whether one of the items has this head.
pub(crate) fn has_item(items: &[Form], word: &[u8]) -> bool
    ensures { result ≡ is_known (item_with (word.now ∷ []) (map view items.now)) }
{
    item_with(items, word).is_some()
}

/// What the word after `by` names.
pub(crate) fn word_of_label(items: &[Form]) -> OperationWord
    ensures { result ≡ word_of_label (map view items.now) }
{
    word_in_front(entries_under(items, b"by"))
}

/// Whether a label has children.
pub(crate) fn has_children(items: &[Form]) -> bool
    ensures { result ≡ has_children (map view items.now) }
{
    has_item(items, b"children")
}

/// Whether a label has a mark.
fn has_mark(items: &[Form]) -> bool
    ensures { result ≡ has_mark (map view items.now) }
{
    mark_item(items).is_some()
}

/// Whether a label has children or a mark.
fn is_ended(items: &[Form]) -> bool
    ensures { result ≡ (has_children (map view items.now) || has_mark (map view items.now)) }
{
    has_children(items) || has_mark(items)
}

/// Whether a label is no root, according to its operation.
fn wants_parent(items: &[Form]) -> bool
    ensures { result ≡ wants_parent (map view items.now) }
{
    let word = word_of_label(items);
    is_operation(word) && !makes_root(word)
}

/// Whether a label that is no root has a parent.
fn has_parent_if_wanted(items: &[Form]) -> bool
    ensures { result ≡ (not (wants_parent (map view items.now)) || is_known (item_with (codes "parent" ∷ []) (map view items.now))) }
{
    !wants_parent(items) || has_item(items, b"parent")
}

/// Notes what a label form at this place lacks: its operation, its map, a mark or children, or the parent of a label
/// that is no root.
fn missing_misfits(place: Place, items: &[Form], first: &mut FirstMisfit)
    ensures { first.new ≡ first_onto first.old (missing_misfits place (map view items.now)) }
{
    first.note_unless(has_item(items, b"by"), place);
    first.note_unless(has_item(items, b"map"), place);
    first.note_unless(is_ended(items), place);
    first.note_unless(has_parent_if_wanted(items), place);
}

/// If asked, notes what a label form at this place lacks.
pub(crate) fn missing_if(is_asked: bool, place: Place, items: &[Form], first: &mut FirstMisfit)
    ensures { first.new ≡ first_onto first.old (if is_asked then missing_misfits place (map view items.now) else []) }
{
    if is_asked {
        missing_misfits(place, items, first);
    }
}

/// A label may have a parent only if it is no root.
pub(crate) fn no_parent_misfits(items: &[Form], first: &mut FirstMisfit)
    ensures { first.new ≡ first_onto first.old (no_parent_item_misfits (map view items.now)) }
{
    let Some(item) = item_with(items, b"parent") else {
        return;
    };
    first.note_unless(!makes_root(word_of_label(items)), place_of(item));
}

/// Notes where the operation, if there is one, does not fit in a tree for a problem with so many strands.
pub(crate) fn operation_item_misfits(strands: usize, items: &[Form], first: &mut FirstMisfit)
    ensures { first.new ≡ first_onto first.old (operation_of_item_misfits strands (map view items.now)) }
{
    let Some(item) = item_with(items, b"by") else {
        return;
    };
    operation_misfits(strands, place_of(item), items_behind(item), first);
}

/// The variables. Notes where they, if there are any, do not fit.
pub(crate) fn variables_item(
    alloc: Global,
    items: &[Form],
    first: &mut FirstMisfit,
) -> Result<Variables, AllocError>
    ensures misfits { OnOk result (first.new ≡ first_onto first.old (vars_item_misfits (map view items.now))) }
    ensures declared { IfOk result (λ v. v ≡ declarations_of_label (map view items.now)) }
{
    let Some(item) = item_with(items, b"vars") else {
        return Ok(Variables::new(alloc));
    };
    let entries = items_behind(item);
    lacking(1, place_of(item), entries, first);
    variables_of(alloc, entries, first)
}

/// Notes where the children, if any, of the label with this number do not fit.
pub(crate) fn children_item_misfits(
    alloc: Global,
    tree: Option<&Family<'_>>,
    number: usize,
    items: &[Form],
    first: &mut FirstMisfit,
) -> Result<(), AllocError>
    requires { IfSome tree (λ f. IsFamily f.now) }
    ensures { OnOk result (first.new ≡ first_onto first.old
        (children_item_misfits (option_map (λ f. labels_of f.now) tree.entry) number (map view items.now))) }
{
    let Some(item) = item_with(items, b"children") else {
        return Ok(());
    };
    let entries = items_behind(item);
    lacking(1, place_of(item), entries, first);
    children_misfits(alloc, tree, number, entries, first)
}
