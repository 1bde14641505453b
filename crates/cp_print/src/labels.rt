// Label forms.
ghost use Rattle.std.specs.Prelude.{◌++◌, [], ◌∷◌, codes, map, true};
ghost use Rattle.cp_base.specs.Growing.{Grows};
ghost use Rattle.cp_language.specs.Printed.{headed_list, numeral, atom_form, pattern_form};
ghost use Rattle.cp_language.specs.Report.{named_by, item_unless_empty, parent_items, operation_words, strand_form, covering_pairs, unique_form, map_form, node_form, test_items, mark_items, label_form};
ghost use Rattle.cp_model.specs.Given.{listed};
ghost use Rattle.cp_sexpr.specs.Spelling.{top_spelling};
ghost use Rattle.cp_print.specs.MarkedForms.{vars_by};
ghost use Rattle.cp_print.specs.Named.{named_in};
ghost use Rattle.cp_print.specs.Spelled.{items_text};

use crate::assumptions::{put_map, put_test};
use crate::items::{put_mark, put_operation, put_parent};
use crate::order::covering_pairs;
use crate::strands::{put_strands, put_vars};
use crate::variable_names::Naming;
use crate::writing::{put_numeral, put_section};
use cp_base::Growing;
use cp_names::{LabelVariables, variables_of_label};
use cp_skel::{Assumptions, Label, Skeleton, is_listed, listed};
use cp_term::Text;
use std::alloc::Global;

/// Appends the label's parent, its operation, its variables and its strands.
fn put_strand_items(
    alloc: Global,
    naming: &Naming<'_>,
    variables: &LabelVariables,
    label: &Label,
    out: &mut Growing<u8>,
)
    ensures { Grows out.old out.new (items_text true (parent_items label.now.parent
        ++ headed_list (codes "by") (operation_words label.now.operation) ∷ []
        ++ item_unless_empty (codes "vars") (vars_by variables.now.names.items variables.now.flags.items 0 variables.now.declared.items)
        ++ map (strand_form (named_in naming.now)) label.now.skeleton.strands)) }
{
    put_parent(alloc, label.parent, out);
    put_operation(alloc, &label.operation, out);
    put_vars(&variables.names, &variables.flags, &variables.declared, out);
    put_strands(alloc, naming, label.skeleton.strands(), out);
}

/// Appends the order, unless it is empty.
fn put_order(alloc: Global, skeleton: &Skeleton, out: &mut Growing<u8>)
    ensures { Grows out.old out.new (items_text true (item_unless_empty (codes "precedes") (covering_pairs skeleton.now))) }
{
    match covering_pairs(alloc, skeleton) {
        Ok(pairs) => put_section(alloc, &[], "precedes", &pairs, out),
        Err(_) => out.fail(),
    }
}

/// Appends these assumptions.
fn put_assumptions(alloc: Global, names: &[Text], assumptions: &Assumptions, out: &mut Growing<u8>)
    ensures { Grows out.old out.new (items_text true (item_unless_empty (codes "non-orig") (map (atom_form (named_by names.now)) assumptions.now.non_originating)
        ++ item_unless_empty (codes "pen-non-orig") (map (atom_form (named_by names.now)) assumptions.now.penetrator_non_originating)
        ++ item_unless_empty (codes "uniq-orig") (map (unique_form (named_by names.now)) assumptions.now.uniquely_originating))) }
{
    put_section(alloc, names, "non-orig", assumptions.non_originating(), out);
    let penetrator_non = assumptions.penetrator_non_originating();
    put_section(alloc, names, "pen-non-orig", penetrator_non, out);
    let uniques = assumptions.uniquely_originating();
    put_section(alloc, names, "uniq-orig", uniques, out);
}

/// Appends the assumptions in the order of a report, each once.
fn put_listed(alloc: Global, names: &[Text], skeleton: &Skeleton, out: &mut Growing<u8>)
    ensures { Grows out.old out.new (items_text true (item_unless_empty (codes "non-orig") (map (atom_form (named_by names.now)) (listed skeleton.now).non_originating)
        ++ item_unless_empty (codes "pen-non-orig") (map (atom_form (named_by names.now)) (listed skeleton.now).penetrator_non_originating)
        ++ item_unless_empty (codes "uniq-orig") (map (unique_form (named_by names.now)) (listed skeleton.now).uniquely_originating))) }
{
    if is_listed(alloc, skeleton) {
        return put_assumptions(alloc, names, skeleton.assumptions(), out);
    }
    match listed(alloc, skeleton) {
        Ok(assumptions) => put_assumptions(alloc, names, &assumptions, out),
        Err(_) => out.fail(),
    }
}

/// Appends the map, the unrealised nodes, the test and its patterns, the children and the mark.
fn put_result_items(
    alloc: Global,
    naming: &Naming<'_>,
    of_problem: &[Text],
    label: &Label,
    out: &mut Growing<u8>,
)
    ensures { Grows out.old out.new (items_text true (map_form (named_in naming.now) of_problem.now label.now.skeleton ∷ []
        ++ item_unless_empty (codes "unrealised") (map node_form label.now.unrealised)
        ++ test_items (named_in naming.now) label.now.test
        ++ item_unless_empty (codes "escape") (map (pattern_form (named_by naming.now.names.now)) label.now.escape)
        ++ item_unless_empty (codes "children") (map numeral label.now.children)
        ++ mark_items label.now.mark)) }
{
    put_map(alloc, naming, of_problem, &label.skeleton, out);
    put_section(alloc, &[], "unrealised", label.unrealised.as_slice(), out);
    put_test(alloc, naming, &label.test, out);
    put_section(alloc, naming.names, "escape", label.escape.as_slice(), out);
    put_section(alloc, &[], "children", label.children.as_slice(), out);
    put_mark(alloc, label.mark, out);
}

/// Appends a label form: its number and its items. `of_problem` are the names of the problem's variables.
pub(crate) fn put_label(
    alloc: Global,
    of_problem: &[Text],
    number: usize,
    label: &Label,
    out: &mut Growing<u8>,
)
    ensures { Grows out.old out.new (top_spelling (label_form of_problem.now number label.now)) }
{
    let Ok(variables) = variables_of_label(alloc, of_problem, label) else {
        return out.fail();
    };
    let naming = Naming {
        names: &variables.names,
        locals: &[],
    };
    out.append(b"(label");
    put_numeral(number, out);
    put_strand_items(alloc, &naming, &variables, label, out);
    put_order(alloc, &label.skeleton, out);
    put_listed(alloc, naming.names, &label.skeleton, out);
    put_result_items(alloc, &naming, of_problem, label, out);
    out.append(b")\n");
}
