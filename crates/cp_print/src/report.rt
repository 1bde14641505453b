// The report.
ghost use Rattle.std.specs.Prelude.{◌≡◌, ◌++◌, [], ◌∷◌, length, List, ℕ, true, false, IfOk, OnOk, OnErr};
ghost use Rattle.cp_base.specs.Growing.{Grows, growth};
ghost use Rattle.cp_language.specs.Input.{form_of, stated};
ghost use Rattle.cp_language.specs.Printed.{word, numeral};
ghost use Rattle.cp_language.specs.Report.{label_form, status_form, report_forms, report_text, shape_count, text_of_forms};
ghost use Rattle.cp_language.specs.ShapesText.{chosen_from, chosen_tree_forms, chosen_report_forms, chosen_text, shapes_forms, shapes_text};
ghost use Rattle.cp_load.specs.Inputs.{problem_view, entry_view, input_entries};
ghost use Rattle.cp_model.specs.Tree.{expanded_count};
ghost use Rattle.cp_sexpr.specs.Spelling.{AppendsFront, top_spelling};
ghost use Rattle.cp_print.specs.Spelled.{items_text};
ghost use Rattle.cp_sexpr.specs.Syntax.{Form as Plain};
ghost use Rattle.cp_sexpr.specs.View.{view};
ghost use Rattle.cp_print.specs.Chosen.{chosen_by};
ghost use Rattle.cp_print.specs.WrittenForms.{ends_from, HasAppendedForms, entry_forms, trees_behind};

use crate::items::put_outcome;
use crate::labels::put_label;
use crate::writing::{put_numeral, put_word};
use cp_base::Growing;
use cp_load::{Entry, Input, Problem};
use cp_names::problem_names;
use cp_sexpr::{Form, write_top};
use cp_skel::{Label, Mark, Tree};
use cp_term::Text;
use std::alloc::{AllocError, Global};

/// Which labels of a tree are printed.
#[derive(Clone, Copy)]
enum Chosen {
    All,
    Shapes,
}

/// Whether the label is one of those that are printed.
fn is_chosen(chosen: Chosen, label: &Label) -> bool
    ensures { result ≡ chosen_by chosen label.now }
{
    match chosen {
        Chosen::All => true,
        Chosen::Shapes => matches!(label.mark, Some(Mark::Shape)),
    }
}

/// Writes a top form.
#[tactic(auto, using(crate::proofs::Writings::written_one, crate::proofs::Writings::front_one, crate::proofs::Writings::front_whole))]
fn put(form: &Form, out: &mut Vec<u8>, ends: &mut Vec<usize>) -> Result<(), AllocError>
    ensures ok { OnOk result (HasAppendedForms out.old.items ends.old.items out.new.items ends.new.items (view form.now ∷ [])) }
    ensures err { OnErr result (AppendsFront out.old.items out.new.items (text_of_forms (view form.now ∷ []))) }
{
    write_top(form, out)?;
    ends.push(out.len())?;
    Ok(())
}

/// Puts back a text that grew by a top form.
fn end_form(text: Growing<u8>, out: &mut Vec<u8>, ends: &mut Vec<usize>) -> Result<(), AllocError>
    ensures ok { (old : List ℕ) (f : Plain) → Grows (growth old false) text (top_spelling f) → OnOk result (HasAppendedForms old ends.old.items out.new.items ends.new.items (f ∷ [])) }
    ensures err { (old : List ℕ) (f : Plain) → Grows (growth old false) text (top_spelling f) → OnErr result (AppendsFront old out.new.items (text_of_forms (f ∷ []))) }
{
    text.put_back(out)?;
    ends.push(out.len())?;
    Ok(())
}

/// Writes a label form. `of_problem` are the names of the problem's variables.
fn put_label_form(
    alloc: Global,
    of_problem: &[Text],
    number: usize,
    label: &Label,
    out: &mut Vec<u8>,
    ends: &mut Vec<usize>,
) -> Result<(), AllocError>
    ensures ok { OnOk result (HasAppendedForms out.old.items ends.old.items out.new.items ends.new.items (label_form of_problem.now number label.now ∷ [])) }
    ensures err { OnErr result (AppendsFront out.old.items out.new.items (text_of_forms (label_form of_problem.now number label.now ∷ []))) }
{
    let mut text = Growing::taken(out);
    put_label(alloc, of_problem, number, label, &mut text);
    end_form(text, out, ends)
}

/// Writes the chosen labels of a tree. `of_problem` are the names of the problem's variables.
fn put_labels(
    alloc: Global,
    chosen: Chosen,
    of_problem: &[Text],
    labels: &[Label],
    out: &mut Vec<u8>,
    ends: &mut Vec<usize>,
) -> Result<(), AllocError>
    ensures ok { OnOk result (HasAppendedForms out.old.items ends.old.items out.new.items ends.new.items (chosen_from (chosen_by chosen) of_problem.now 0 labels.now)) }
    ensures err { OnErr result (AppendsFront out.old.items out.new.items (text_of_forms (chosen_from (chosen_by chosen) of_problem.now 0 labels.now))) }
{
    for number in 0..labels.len() {
        let label = &labels[number];
        if !is_chosen(chosen, label) {
            continue;
        }
        put_label_form(alloc, of_problem, number, label, out, ends)?;
    }
    Ok(())
}

/// How many of the labels were expanded.
pub fn expanded_count(labels: &[Label]) -> usize
    ensures { result ≡ expanded_count labels.now }
{
    let mut count = 0;
    for label in labels {
        if label.test.is_some() {
            count += 1;
        }
    }
    count
}

/// How many of the labels are shapes.
pub fn shape_count(labels: &[Label]) -> usize
    ensures { result ≡ shape_count labels.now }
{
    let mut count = 0;
    for label in labels {
        if matches!(label.mark, Some(Mark::Shape)) {
            count += 1;
        }
    }
    count
}

/// Appends a word and a number.
fn put_count(text: &str, count: usize, out: &mut Growing<u8>)
    ensures { Grows out.old out.new (items_text true (word text.now ∷ numeral count ∷ [])) }
{
    put_word(text, out);
    put_numeral(count, out);
}

/// Appends the outcome, the number of labels, how many were expanded, and how many are shapes.
fn put_status(tree: &Tree, out: &mut Growing<u8>)
    ensures { Grows out.old out.new (top_spelling (status_form tree.now)) }
{
    let labels = tree.labels.as_slice();
    out.append(b"(status");
    put_outcome(tree.outcome, out);
    put_count("labels", labels.len(), out);
    put_count("expanded", expanded_count(labels), out);
    put_count("shapes", shape_count(labels), out);
    out.append(b")\n");
}

/// Writes the status of a tree.
fn put_status_form(tree: &Tree, out: &mut Vec<u8>, ends: &mut Vec<usize>) -> Result<(), AllocError>
    ensures ok { OnOk result (HasAppendedForms out.old.items ends.old.items out.new.items ends.new.items (status_form tree.now ∷ [])) }
    ensures err { OnErr result (AppendsFront out.old.items out.new.items (text_of_forms (status_form tree.now ∷ []))) }
{
    let mut text = Growing::taken(out);
    put_status(tree, &mut text);
    end_form(text, out, ends)
}

/// Writes the chosen labels of a problem's tree, and its status.
#[tactic(auto, using(crate::proofs::Writings::front_none))]
fn put_tree(
    alloc: Global,
    chosen: Chosen,
    problem: &Problem,
    tree: &Tree,
    out: &mut Vec<u8>,
    ends: &mut Vec<usize>,
) -> Result<(), AllocError>
    ensures ok { OnOk result (HasAppendedForms out.old.items ends.old.items out.new.items ends.new.items (chosen_tree_forms (chosen_by chosen) (problem_view problem.now) tree.now)) }
    ensures err { OnErr result (AppendsFront out.old.items out.new.items (text_of_forms (chosen_tree_forms (chosen_by chosen) (problem_view problem.now) tree.now))) }
{
    let names = problem_names(alloc, problem.declared, problem.skeleton.variables())?;
    put_labels(alloc, chosen, &names, tree.labels.as_slice(), out, ends)?;
    put_status_form(tree, out, ends)
}

/// Writes the form of an entry and, if it states a problem, the first of these trees, if there is one. Returns the
/// trees that follow.
fn put_entry<'a>(
    alloc: Global,
    chosen: Chosen,
    entry: &Entry<'_>,
    trees: &'a [Tree],
    out: &mut Vec<u8>,
    ends: &mut Vec<usize>,
) -> Result<&'a [Tree], AllocError>
    ensures ok { OnOk result (HasAppendedForms out.old.items ends.old.items out.new.items ends.new.items (entry_forms (chosen_by chosen) (form_of (entry_view entry.now)) (stated (entry_view entry.now)) trees.now)) }
    ensures rest { IfOk result (λ rest. rest.now ≡ trees_behind (stated (entry_view entry.now)) trees.now) }
    ensures err { OnErr result (AppendsFront out.old.items out.new.items (text_of_forms (entry_forms (chosen_by chosen) (form_of (entry_view entry.now)) (stated (entry_view entry.now)) trees.now))) }
{
    put(entry.form(), out, ends)?;
    let Some(problem) = entry.problem() else {
        return Ok(trees);
    };
    let Some((tree, rest)) = trees.split_first() else {
        return Ok(trees);
    };
    put_tree(alloc, chosen, problem, tree, out, ends)?;
    Ok(rest)
}

/// Writes the report of the chosen labels.
fn put_report(
    alloc: Global,
    chosen: Chosen,
    input: &Input<'_>,
    trees: &[Tree],
    out: &mut Vec<u8>,
    ends: &mut Vec<usize>,
) -> Result<(), AllocError>
    ensures ok { OnOk result (HasAppendedForms out.old.items ends.old.items out.new.items ends.new.items (chosen_report_forms (chosen_by chosen) (input_entries input.now) trees.now)) }
    ensures err { OnErr result (AppendsFront out.old.items out.new.items (chosen_text (chosen_by chosen) (input_entries input.now) trees.now)) }
{
    let mut rest = trees;
    for entry in &input.entries {
        rest = put_entry(alloc, chosen, entry, rest, out, ends)?;
    }
    Ok(())
}

/// Appends the text of the report on the input with these trees, one for each problem in order. Appends to `ends`, for
/// each top form of the report, the place in `out`, in bytes, at which it ends. If memory runs out, a prefix of the
/// text may have been appended.
pub fn print_pieces(
    alloc: Global,
    input: &Input<'_>,
    trees: &[Tree],
    out: &mut Vec<u8>,
    ends: &mut Vec<usize>,
) -> Result<(), AllocError>
    ensures ok { OnOk result (out.new.items ≡ out.old.items ++ report_text (input_entries input.now) trees.now) }
    ensures ends { OnOk result (ends.new.items ≡ ends.old.items ++ ends_from (length out.old.items) (report_forms (input_entries input.now) trees.now)) }
    ensures err { OnErr result (AppendsFront out.old.items out.new.items (report_text (input_entries input.now) trees.now)) }
{
    put_report(alloc, Chosen::All, input, trees, out, ends)
}

/// Appends the text of the report on the input with these trees, one for each problem in order. If memory runs out, a
/// prefix of the text may have been appended.
pub fn print(
    alloc: Global,
    input: &Input<'_>,
    trees: &[Tree],
    out: &mut Vec<u8>,
) -> Result<(), AllocError>
    ensures ok { OnOk result (out.new.items ≡ out.old.items ++ report_text (input_entries input.now) trees.now) }
    ensures err { OnErr result (AppendsFront out.old.items out.new.items (report_text (input_entries input.now) trees.now)) }
{
    let mut ends = Vec::new(alloc);
    print_pieces(alloc, input, trees, out, &mut ends)
}

/// Appends the text of the report without the labels that are not marked as shapes. Appends to `ends`, for each top
/// form of this text, the place in `out`, in bytes, at which it ends. If memory runs out, a prefix of the text may have
/// been appended.
pub fn print_shape_pieces(
    alloc: Global,
    input: &Input<'_>,
    trees: &[Tree],
    out: &mut Vec<u8>,
    ends: &mut Vec<usize>,
) -> Result<(), AllocError>
    ensures ok { OnOk result (out.new.items ≡ out.old.items ++ shapes_text (input_entries input.now) trees.now) }
    ensures ends { OnOk result (ends.new.items ≡ ends.old.items ++ ends_from (length out.old.items) (shapes_forms (input_entries input.now) trees.now)) }
    ensures err { OnErr result (AppendsFront out.old.items out.new.items (shapes_text (input_entries input.now) trees.now)) }
{
    put_report(alloc, Chosen::Shapes, input, trees, out, ends)
}

/// Appends the text of the report on the input with these trees, one for each problem in order, without the labels that
/// are not marked as shapes. If memory runs out, a prefix of the text may have been appended.
pub fn print_shapes(
    alloc: Global,
    input: &Input<'_>,
    trees: &[Tree],
    out: &mut Vec<u8>,
) -> Result<(), AllocError>
    ensures ok { OnOk result (out.new.items ≡ out.old.items ++ shapes_text (input_entries input.now) trees.now) }
    ensures err { OnErr result (AppendsFront out.old.items out.new.items (shapes_text (input_entries input.now) trees.now)) }
{
    let mut ends = Vec::new(alloc);
    print_shape_pieces(alloc, input, trees, out, &mut ends)
}
