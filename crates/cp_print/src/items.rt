// The items of a label form that list numbers, nodes and words.
ghost use Rattle.std.specs.Prelude.{[], ◌∷◌, codes, map, true, false};
ghost use Rattle.cp_base.specs.Growing.{Grows};
ghost use Rattle.cp_language.specs.Printed.{word, numeral, headed_list, plain_list};
ghost use Rattle.cp_language.specs.Report.{node_form, parent_items, operation_words, mark_words, mark_items, outcome_words};
ghost use Rattle.cp_sexpr.specs.Spelling.{spelling};
ghost use Rattle.cp_print.specs.Spelled.{item_text, items_text};

use crate::writing::{Printed, begin_list, put_each, put_list, put_number, put_numeral, put_word};
use cp_base::Growing;
use cp_skel::{Mark, Node, Operation, Outcome};
use cp_term::Text;
use std::alloc::Global;

/// Appends a node: the number of its strand, and its index.
pub(crate) fn put_node(node: Node, out: &mut Growing<u8>)
    ensures { Grows out.old out.new (spelling (node_form node)) }
{
    out.push(b'(');
    put_number(node.strand, out);
    put_numeral(node.index, out);
    out.push(b')');
}

impl Printed for Node {
    ghost printed = { λ names n. node_form n };

    fn put(&self, alloc: Global, names: &[Text], out: &mut Growing<u8>) {
        out.push(b' ');
        put_node(*self, out);
    }
}

/// Appends the label's parent, if it has one.
pub(crate) fn put_parent(alloc: Global, parent: Option<usize>, out: &mut Growing<u8>)
    ensures { Grows out.old out.new (items_text true (parent_items parent)) }
{
    if let Some(parent) = parent {
        put_list(alloc, &[], "parent", &[parent], out);
    }
}

/// Appends a word and these numbers.
fn put_words(alloc: Global, text: &str, numbers: &[usize], out: &mut Growing<u8>)
    ensures { Grows out.old out.new (items_text false (word text.now ∷ map numeral numbers.now)) }
{
    put_word(text, out);
    put_each(alloc, &[], numbers, out);
}

/// Appends how a label was made.
fn put_operation_words(alloc: Global, operation: &Operation, out: &mut Growing<u8>)
    ensures { Grows out.old out.new (items_text false (operation_words operation.now)) }
{
    match operation {
        Operation::Problem => put_words(alloc, "problem", &[], out),
        Operation::Contracted(node) => {
            put_words(alloc, "contracted", &[node.strand, node.index], out)
        }
        Operation::Displaced(node) => {
            put_words(alloc, "displaced", &[node.strand, node.index], out)
        }
        Operation::AddedStrand(strand) => put_words(alloc, "added-strand", &[*strand], out),
        Operation::AddedListener(strand) => put_words(alloc, "added-listener", &[*strand], out),
        Operation::Collapsed(strands) => { put_words(alloc, "collapsed", strands.as_slice(), out) }
        Operation::Generalised => put_words(alloc, "generalised", &[], out),
    }
}

/// Appends the label's operation.
pub(crate) fn put_operation(alloc: Global, operation: &Operation, out: &mut Growing<u8>)
    ensures { Grows out.old out.new (item_text true (headed_list (codes "by") (operation_words operation.now))) }
{
    begin_list("by", out);
    put_operation_words(alloc, operation, out);
    out.push(b')');
}

/// Appends what a leaf is.
fn put_mark_words(alloc: Global, mark: Mark, out: &mut Growing<u8>)
    ensures { Grows out.old out.new (item_text true (plain_list (mark_words mark))) }
{
    match mark {
        Mark::Shape => out.append(b"\n  (shape)"),
        Mark::Dead => out.append(b"\n  (dead)"),
        Mark::Seen(label) => put_list(alloc, &[], "seen", &[label], out),
        Mark::InstanceOf(label) => put_list(alloc, &[], "instance-of", &[label], out),
        Mark::LimitSteps => out.append(b"\n  (limit steps)"),
        Mark::LimitStrands => out.append(b"\n  (limit strands)"),
    }
}

/// Appends the label's mark, if it has one.
pub(crate) fn put_mark(alloc: Global, mark: Option<Mark>, out: &mut Growing<u8>)
    ensures { Grows out.old out.new (items_text true (mark_items mark)) }
{
    if let Some(mark) = mark {
        put_mark_words(alloc, mark, out);
    }
}

/// Appends how the search for a problem ended.
pub(crate) fn put_outcome(outcome: Outcome, out: &mut Growing<u8>)
    ensures { Grows out.old out.new (items_text true (outcome_words outcome)) }
{
    match outcome {
        Outcome::Complete => out.append(b" complete"),
        Outcome::LimitSteps => out.append(b" limit steps"),
        Outcome::LimitStrands => out.append(b" limit strands"),
    }
}
