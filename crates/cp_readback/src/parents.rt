// Parents and children of the labels of a tree.
ghost use Rattle.std.specs.Prelude.{◌≡◌, ℕ, ◌&&◌, ◌||◌, [], not, nat_eq, map, option_map, IfOk, OnOk, IfSome};
ghost use Rattle.std.specs.HashSet.{contains};
ghost use Rattle.cp_lists.specs.Lists.{item_at};
ghost use Rattle.cp_sexpr.specs.View.{view};
ghost use Rattle.cp_report.specs.Misfits.{number_misfits};
ghost use Rattle.cp_report.specs.Labels.{stated_parent, stated_children, has_parent, has_parent_in, has_child_in, is_label_in, children_misfits};
ghost use Rattle.cp_spelled.specs.FirstMisfit.{first_onto};
ghost use Rattle.cp_readback.specs.Families.{is_same_child, names_child, labels_of, parent_in, IsFamily};
ghost use Rattle.cp_readback.specs.Parts.{parent_item_misfits};

use cp_items::{items_of_label, number_in_front, stated_number};
use cp_scope::{items_behind, place_of};
use cp_sexpr::Form;
use cp_spelled::{FirstMisfit, entries_under, no_more};
use cp_stated::{item_with, number_of};
use std::alloc::{AllocError, Global};
use std::collections::HashSet;

/// The label forms of a tree, with the parents and children that they state: for each label the number of its parent,
/// if it states one, and the pairs of a label's number and a child's number.
#[derive(Drop)]
pub(crate) struct Family<'a> {
    pub(crate) labels: &'a [Form],
    pub(crate) parents: Vec<Option<usize>>,
    pub(crate) children: HashSet<(usize, usize)>,
}

/// The parent that a label form states.
fn stated_parent(form: &Form) -> Option<usize>
    ensures { result ≡ stated_parent (view form.now) }
{
    number_in_front(entries_under(items_of_label(form), b"parent"))
}

/// Adds a label with the children that its form states.
fn add_children(
    label: usize,
    form: &Form,
    children: &mut HashSet<(usize, usize)>,
) -> Result<(), AllocError>
    ensures { OnOk result ((q : ℕ × ℕ) → contains is_same_child children.new q
        ≡ (names_child label (stated_children (view form.now)) q || contains is_same_child children.old q)) }
{
    for item in entries_under(items_of_label(form), b"children") {
        let Some(child) = stated_number(item) else {
            continue;
        };
        children.insert((label, child))?;
    }
    Ok(())
}

/// The family of the label forms of a tree.
pub(crate) fn family_of(alloc: Global, labels: &[Form]) -> Result<Family<'_>, AllocError>
    ensures labels { IfOk result (λ f. labels_of f ≡ map view labels.now) }
    ensures stated { IfOk result IsFamily }
{
    let mut parents = Vec::new(alloc);
    let mut children = HashSet::new(alloc);
    for (number, label) in labels.iter().enumerate() {
        parents.push(stated_parent(label))?;
        add_children(number, label, &mut children)?;
    }
    Ok(Family {
        labels,
        parents,
        children,
    })
}

/// The parent at this place, if there is such a place.
fn parent_at(parents: &[Option<usize>], label: usize) -> Option<&Option<usize>>
    ensures { option_map (λ p. p.now) result ≡ item_at parents.now label }
{
    parents.get(label)
}

/// The parent that a label of the family states, if the label exists and states one.
fn parent_of(family: &Family<'_>, label: usize) -> Option<usize>
    requires { IsFamily family.now }
    ensures { result ≡ parent_in (item_at (labels_of family.now) label) }
{
    match parent_at(&family.parents, label) {
        Some(parent) => *parent,
        None => None,
    }
}

/// Whether a label of the family has this one as its parent.
fn is_parent_of(family: &Family<'_>, parent: usize, label: usize) -> bool
    requires { IsFamily family.now }
    ensures { result ≡ has_parent parent (item_at (labels_of family.now) label) }
{
    match parent_of(family, label) {
        Some(stated) => stated == parent,
        None => false,
    }
}

/// Whether a label of the tree has this one as its parent; also `true` if the tree is not whole.
fn has_parent_in(tree: Option<&Family<'_>>, parent: usize, label: usize) -> bool
    requires { IfSome tree (λ f. IsFamily f.now) }
    ensures { result ≡ has_parent_in (option_map (λ f. labels_of f.now) tree.entry) parent label }
{
    match tree {
        Some(family) => is_parent_of(family, parent, label),
        None => true,
    }
}

/// Whether a label of the tree has this one among its children; also `true` if the tree is not whole.
fn has_child_in(tree: Option<&Family<'_>>, child: usize, label: usize) -> bool
    requires { IfSome tree (λ f. IsFamily f.now) }
    ensures { result ≡ has_child_in (option_map (λ f. labels_of f.now) tree.entry) child label }
{
    match tree {
        Some(family) => family.children.contains(&(label, child)),
        None => true,
    }
}

/// Whether the tree has a label with this number; also `true` if the tree is not whole.
pub(crate) fn is_label_in(tree: Option<&Family<'_>>, label: usize) -> bool
    ensures { result ≡ is_label_in (option_map (λ f. labels_of f.now) tree.entry) label }
{
    match tree {
        Some(family) => label < family.labels.len(),
        None => true,
    }
}

/// The form must be the number of a label that has this one among its children.
fn parent_number_misfits(
    tree: Option<&Family<'_>>,
    label: usize,
    form: &Form,
    first: &mut FirstMisfit,
)
    requires { IfSome tree (λ f. IsFamily f.now) }
    ensures { first.new ≡ first_onto first.old (number_misfits (has_child_in (option_map (λ f. labels_of f.now) tree.entry) label) (view form.now)) }
{
    match form {
        Form::Number(place, number) => first.note_unless(
            has_child_in(tree, label, *number),
            *place,
        ),
        _ => first.note(place_of(form)),
    }
}

/// If there is a parent, it must be the number of a label that has this one among its children.
pub(crate) fn parent_item_misfits(
    tree: Option<&Family<'_>>,
    label: usize,
    items: &[Form],
    first: &mut FirstMisfit,
)
    requires { IfSome tree (λ f. IsFamily f.now) }
    ensures { first.new ≡ first_onto first.old (parent_item_misfits (option_map (λ f. labels_of f.now) tree.entry) label (map view items.now)) }
{
    let Some(item) = item_with(items, b"parent") else {
        return;
    };
    let place = place_of(item);
    let Some((number, rest)) = items_behind(item).split_first() else {
        first.note(place);
        return;
    };
    parent_number_misfits(tree, label, number, first);
    no_more(rest, first);
}

/// The form must be the number of a label that has this one as its parent, and none of the numbers before it.
fn child_misfits(
    tree: Option<&Family<'_>>,
    label: usize,
    before: &HashSet<usize>,
    form: &Form,
    first: &mut FirstMisfit,
)
    requires { IfSome tree (λ f. IsFamily f.now) }
    ensures { first.new ≡ first_onto first.old (number_misfits
        (λ n. has_parent_in (option_map (λ f. labels_of f.now) tree.entry) label n && not (contains nat_eq before.now n)) (view form.now)) }
{
    match form {
        Form::Number(place, number) => {
            let holds = has_parent_in(tree, label, *number) && !before.contains(number);
            first.note_unless(holds, *place);
        }
        _ => first.note(place_of(form)),
    }
}

/// The items must be numbers of labels that have this one as their parent, none of them twice.
pub(crate) fn children_misfits(
    alloc: Global,
    tree: Option<&Family<'_>>,
    label: usize,
    items: &[Form],
    first: &mut FirstMisfit,
) -> Result<(), AllocError>
    requires { IfSome tree (λ f. IsFamily f.now) }
    ensures { OnOk result (first.new ≡ first_onto first.old (children_misfits (option_map (λ f. labels_of f.now) tree.entry) label [] (map view items.now))) }
{
    let mut before = HashSet::new(alloc);
    for item in items {
        child_misfits(tree, label, &before, item, first);
        before.insert(number_of(item))?;
    }
    Ok(())
}
