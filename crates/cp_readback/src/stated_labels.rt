// The labels that label forms state.
ghost use Rattle.std.specs.Prelude.{◌≡◌, [], ◌∷◌, map, drop, codes, Some, IfOk};
ghost use Rattle.cp_lists.specs.Lists.{IsIn};
ghost use Rattle.cp_sexpr.specs.Syntax.{Form as Syntax};
ghost use Rattle.cp_sexpr.specs.View.{view};
ghost use Rattle.cp_language.specs.Problems.{option_node, number_of};
ghost use Rattle.cp_load.specs.UncheckedProblems.{unchecked_view};
ghost use Rattle.cp_report.specs.Misfits.{each_misfits};
ghost use Rattle.cp_report.specs.Heads.{item_with, entries_under, mark_heads};
ghost use Rattle.cp_report.specs.Spelled.{pattern_misfits, pattern_of};
ghost use Rattle.cp_report.specs.Skeletons.{declarations_of_label, scope_of, node_or_first, problem_variables, skeleton_stated};
ghost use Rattle.cp_report.specs.Labels.{items_of_label, word_of_label, operation_by, number_in_front, test_of, label_by, label_of};
ghost use Rattle.cp_spelled.specs.Views.{scope_view};
ghost use Rattle.cp_readback.specs.Items.{HasFitting};
ghost use Rattle.cp_readback.specs.Parts.{mark_of_item};

use crate::items::word_of_label;
use crate::marks::mark_of;
use cp_items::{
    items_of_label, mark_item, nodes_of, number_in_front, numbers_of, operation_by, test_of,
};
use cp_load::UncheckedProblem;
use cp_scope::later_items;
use cp_sexpr::Form;
use cp_skel::{Label, Nodes, Numbers, Operation, Skeleton, Test};
use cp_spelled::{Locals, Scope, Variables, declarations_of_label, entries_under, pattern_of};
use cp_stated::{item_with, skeleton_stated, strands_of};
use cp_term::{Pattern, Patterns};
use std::alloc::{AllocError, Global};

/// The operation that the items of a label form state.
fn operation_stated(alloc: Global, items: &[Form]) -> Result<Operation, AllocError>
    ensures { IfOk result (λ o. o ≡ operation_by (word_of_label (map view items.now)) (drop 1 (entries_under (codes "by") (map view items.now)))) }
{
    let behind = later_items(entries_under(items, b"by"), 1);
    operation_by(alloc, word_of_label(items), behind)
}

/// The pattern that a form is. It must be one.
fn pattern_stated(alloc: Global, variables: &Variables, form: &Form) -> Result<Pattern, AllocError>
    requires { pattern_misfits variables.now (view form.now) ≡ [] }
    ensures { IfOk result (λ p. p ≡ pattern_of variables.now (view form.now)) }
{
    match pattern_of(alloc, variables, form)? {
        Some(pattern) => Ok(pattern),
        None => unreachable!(),
    }
}

/// The patterns that forms are. Each must be one.
fn patterns_of(
    alloc: Global,
    variables: &Variables,
    items: &[Form],
) -> Result<Vec<Pattern>, AllocError>
    requires { each_misfits (pattern_misfits variables.now) (map view items.now) ≡ [] }
    ensures { IfOk result (λ v. v.items ≡ map (pattern_of variables.now) (map view items.now)) }
{
    let mut patterns = Vec::new(alloc);
    for item in items {
        let pattern = pattern_stated(alloc, variables, item)?;
        patterns.push(pattern)?;
    }
    Ok(patterns)
}

/// How a label is expanded: its unrealised nodes, its test, the escape set of the test, and its children.
#[derive(Drop)]
struct Expansion {
    unrealised: Nodes,
    test: Option<Test>,
    patterns: Patterns,
    children: Numbers,
}

/// How the label is expanded according to the items of its form. The patterns must fit the scope's variables.
fn expansion_stated(
    alloc: Global,
    scope: Scope<'_>,
    items: &[Form],
) -> Result<Expansion, AllocError>
    requires { each_misfits (pattern_misfits (scope_view scope).variables) (entries_under (codes "escape") (map view items.now)) ≡ [] }
    ensures unrealised { IfOk result (λ e. e.unrealised ≡ map (λ f. node_or_first (option_node (Some f))) (entries_under (codes "unrealised") (map view items.now))) }
    ensures test { IfOk result (λ e. e.test ≡ test_of (scope_view scope.entry) (item_with (codes "test" ∷ []) (map view items.now))) }
    ensures patterns { IfOk result (λ e. e.patterns ≡ map (pattern_of (scope_view scope.entry).variables) (entries_under (codes "escape") (map view items.now))) }
    ensures children { IfOk result (λ e. e.children ≡ map number_of (entries_under (codes "children") (map view items.now))) }
{
    let unrealised = nodes_of(alloc, entries_under(items, b"unrealised"))?;
    let children = numbers_of(alloc, entries_under(items, b"children"))?;
    let patterns = patterns_of(alloc, scope.variables, entries_under(items, b"escape"))?;
    let test = test_of(alloc, scope, item_with(items, b"test"))?;
    Ok(Expansion {
        unrealised: Nodes::of(unrealised),
        test,
        patterns: Patterns::of(patterns),
        children: Numbers::of(children),
    })
}

/// The label with the parent and the mark that the items state, and with this operation, skeleton and expansion.
fn label_with(
    items: &[Form],
    operation: Operation,
    skeleton: Skeleton,
    expansion: Expansion,
) -> Label
    ensures parent { result.parent ≡ number_in_front (entries_under (codes "parent") (map view items.now)) }
    ensures operation { result.operation ≡ operation }
    ensures skeleton { result.skeleton ≡ skeleton }
    ensures unrealised { result.unrealised ≡ expansion.unrealised }
    ensures test { result.test ≡ expansion.test }
    ensures escape { result.escape ≡ expansion.patterns }
    ensures children { result.children ≡ expansion.children }
    ensures mark { result.mark ≡ mark_of_item (item_with mark_heads (map view items.now)) }
{
    let Expansion {
        unrealised,
        test,
        patterns,
        children,
    } = expansion;
    Label {
        parent: number_in_front(entries_under(items, b"parent")),
        operation,
        skeleton,
        unrealised,
        test,
        escape: patterns,
        children,
        mark: mark_of(mark_item(items)),
    }
}

/// The label that the items state in a tree for the problem. They must fit. The names are those of the problem's
/// variables in a report; the scope has the variables that the items declare.
fn label_by(
    alloc: Global,
    problem: &UncheckedProblem,
    names: &Variables,
    scope: Scope<'_>,
    items: &[Form],
) -> Result<Label, AllocError>
    requires names { names.now ≡ problem_variables (unchecked_view problem.now) }
    requires scope { scope_view scope ≡ scope_of (map view items.now) }
    requires fits { HasFitting (unchecked_view problem.now) (map view items.now) }
    ensures { IfOk result (λ l. l ≡ label_by (unchecked_view problem.now) (map view items.now)) }
{
    let operation = operation_stated(alloc, items)?;
    let expansion = expansion_stated(alloc, scope, items)?;
    let strands = strands_of(alloc, problem.protocol.roles(), scope, items)?;
    let skeleton = skeleton_stated(alloc, problem, names, scope, strands, items)?;
    Ok(label_with(items, operation, skeleton, expansion))
}

/// The label that a label form states in a tree for the problem. The form must fit. The names are those of the
/// problem's variables in a report.
fn label_of(
    alloc: Global,
    problem: &UncheckedProblem,
    names: &Variables,
    form: &Form,
) -> Result<Label, AllocError>
    requires names { names.now ≡ problem_variables (unchecked_view problem.now) }
    requires fits { HasFitting (unchecked_view problem.now) (items_of_label (view form.now)) }
    ensures { IfOk result (λ l. l ≡ label_of (unchecked_view problem.now) (view form.now)) }
{
    let items = items_of_label(form);
    let variables = declarations_of_label(alloc, items)?;
    let locals = Locals::new(alloc);
    let scope = Scope {
        variables: &variables,
        in_pattern: false,
        locals: &locals,
    };
    label_by(alloc, problem, names, scope, items)
}

/// The labels that these label forms state in a tree for the problem. The forms must fit. The names are those of the
/// problem's variables in a report.
pub(crate) fn labels_stated(
    alloc: Global,
    problem: &UncheckedProblem,
    names: &Variables,
    labels: &[Form],
) -> Result<Vec<Label>, AllocError>
    requires names { names.now ≡ problem_variables (unchecked_view problem.now) }
    requires fit { (f : Syntax) → IsIn f (map view labels.now) → HasFitting (unchecked_view problem.now) (items_of_label f) }
    ensures { IfOk result (λ v. v.items ≡ map (label_of (unchecked_view problem.now)) (map view labels.now)) }
{
    let mut stated = Vec::new(alloc);
    for label in labels {
        let next = label_of(alloc, problem, names, label)?;
        stated.push(next)?;
    }
    Ok(stated)
}
