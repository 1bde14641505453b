// Builds the tree once all labels are resolved.
ghost use Rattle.std.specs.Prelude.{◌≡◌, ◌↔◌, List, ◌∷◌, length, reverse, Some, IsTrue, IfOk};
ghost use Rattle.cp_skel.specs.Tables.{DiffersInTable};
ghost use Rattle.cp_tree.specs.Searched.{mark_by_children, IsMarked, HasOutcome};
ghost use Rattle.cp_search.specs.Candidates.{open_from};
ghost use Rattle.cp_model.specs.declared.tree.Mark.{Mark as PlainMark};
ghost use Rattle.cp_search.specs.TreeLabels.{label_with, labels_with, AreCandidateMarks};
ghost use Rattle.cp_search.specs.ResolvedLabels.{leaf_label, generalised_label, expanded_label, AreExpandedOf};
ghost use Rattle.cp_search.specs.declared.made.Made as program;
ghost use Rattle.cp_search.specs.declared.resolved.Resolved as program_resolved;
ghost use Rattle.cp_search.specs.declared.resolved.Resolved.TheVariants as resolved_as;
ghost use Rattle.cp_search.specs.declared.expanded.Expanded as program_expanded;

use crate::candidates::candidate_marks;
use crate::expanded::Expanded;
use crate::label_search::Search;
use crate::made::Made;
use crate::resolved::Resolved;
use crate::waiting::Queue;
use cp_skel::{Label, Labels, Mark, Numbers, Outcome, Tree};
use cp_term::Patterns;
use std::alloc::{AllocError, Global};

/// A leaf of the tree with this mark.
fn leaf(alloc: Global, made: Made, mark: Option<Mark>) -> Label
    ensures { result ≡ leaf_label made mark }
{
    let Made {
        parent,
        operation,
        skeleton,
        unrealised,
        ..
    } = made;
    Label {
        parent,
        operation,
        skeleton,
        unrealised,
        test: None,
        escape: Patterns::new(alloc),
        children: Numbers::new(alloc),
        mark,
    }
}

/// The tree's label for one that generalises to the label with this number.
fn generalised(alloc: Global, made: Made, child: usize) -> Result<Label, AllocError>
    ensures { IfOk result (λ l. l ≡ generalised_label made child) }
{
    let mut label = leaf(alloc, made, None);
    label.children.push(child)?;
    Ok(label)
}

/// The mark of an expanded label with these children.
fn mark_by(children: &[usize]) -> Option<Mark>
    ensures { result ≡ mark_by_children children.now }
{
    if children.is_empty() {
        return Some(Mark::Dead);
    }
    None
}

/// The tree's label for an expanded one.
fn expanded(made: Made, settled: Expanded) -> Label
    requires { DiffersInTable made.skeleton settled.skeleton }
    ensures { result ≡ expanded_label made settled }
{
    let mark = mark_by(settled.children.as_slice());
    let Made {
        parent,
        operation,
        unrealised,
        ..
    } = made;
    let Expanded {
        skeleton,
        test,
        patterns,
        children,
    } = settled;
    Label {
        parent,
        operation,
        skeleton,
        unrealised,
        test: Some(test),
        escape: patterns,
        children,
        mark,
    }
}

/// The tree's label for one that was made and resolved like this. If its own mark is open, it gets `mark`.
fn label(
    alloc: Global,
    made: Made,
    settled: Resolved,
    mark: Option<Mark>,
) -> Result<Label, AllocError>
    requires { (e : program_expanded.Expanded) → settled ≡ resolved_as.Expanded e → DiffersInTable made.skeleton e.skeleton }
    ensures { IfOk result (λ l. l ≡ label_with made settled mark) }
{
    match settled {
        Resolved::Expanded(expansion) => Ok(expanded(made, expansion.into_inner())),
        Resolved::Generalised(child) => generalised(alloc, made, child),
        Resolved::Leaf(Some(own)) => Ok(leaf(alloc, made, Some(own))),
        Resolved::Leaf(None) => Ok(leaf(alloc, made, mark)),
    }
}

/// Takes the next mark, the last of these, if the label's own mark is open.
fn next_mark(settled: &Resolved, marks: &mut Vec<Mark>) -> Option<Mark>
    ensures { (m : program.Made) (ms : List program.Made) (ss : List program_resolved.Resolved) → labels_with (m ∷ ms) (settled.now ∷ ss) (reverse marks.old.items) ≡ label_with m settled.now result ∷ labels_with ms ss (reverse marks.new.items) }
{
    match settled {
        Resolved::Leaf(None) => marks.pop(),
        _ => None,
    }
}

/// The tree's labels. Those whose own mark is open get these marks, in order.
fn labels(
    alloc: Global,
    made: Vec<Made>,
    settled: Vec<Resolved>,
    marks: Vec<Mark>,
) -> Result<Vec<Label>, AllocError>
    requires tables { AreExpandedOf made.items settled.items }
    ensures { IfOk result (λ ls. ls.items ≡ labels_with made.items settled.items marks.items) }
{
    let mut labels = Vec::with_capacity(alloc, made.len())?;
    let mut rest_resolved = settled.into_iter();
    let mut rest_marks = marks;
    rest_marks.reverse();
    for made in made {
        let Some(settled) = rest_resolved.next() else {
            return Ok(labels);
        };
        let mark = next_mark(&settled, &mut rest_marks);
        let label = label(alloc, made, settled, mark)?;
        labels.push(label)?;
    }
    Ok(labels)
}

/// Whether the label has this mark.
fn has_mark(label: &Label, mark: Mark) -> bool
    ensures { IsTrue result ↔ (label.now.mark ≡ Some mark) }
{
    label.mark == Some(mark)
}

/// Whether some label has this mark.
fn is_marked(labels: &[Label], mark: Mark) -> bool
    ensures { IsTrue result ↔ IsMarked labels.now mark }
{
    for label in labels {
        if has_mark(label, mark) {
            return true;
        }
    }
    false
}

/// The outcome of a search that ended with these labels.
fn outcome_of(labels: &[Label]) -> Outcome
    ensures { HasOutcome labels.now result }
{
    if is_marked(labels, Mark::LimitSteps) {
        return Outcome::LimitSteps;
    }
    if is_marked(labels, Mark::LimitStrands) {
        return Outcome::LimitStrands;
    }
    Outcome::Complete
}

/// The tree of a search that has resolved all labels.
pub(crate) fn tree_of(alloc: Global, search: Search) -> Result<Tree, AllocError>
    requires all { length search.settled.items ≡ length search.queue.made }
    requires tables { AreExpandedOf search.queue.made search.settled.items }
    ensures labels { IfOk result (λ t. (marks : List PlainMark) × AreCandidateMarks (open_from 0 search.queue.made search.settled.items) marks × (t.labels ≡ labels_with search.queue.made search.settled.items marks)) }
    ensures outcome { IfOk result (λ t. HasOutcome t.labels t.outcome) }
{
    let Search { queue, settled, .. } = search;
    let Queue { made, .. } = queue;
    let marks = candidate_marks(alloc, made.all(), &settled)?;
    let all = labels(alloc, made.into_all(), settled, marks)?;
    let outcome = outcome_of(&all);
    Ok(Tree {
        labels: Labels::of(all),
        outcome,
    })
}
