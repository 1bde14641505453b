// Compares the trees that were read with those that were found.
use crate::operations::is_same_operation;
use crate::strands::have_same_shapes;
use crate::terms::have_same_terms;
use crate::verdict::Verdict;
use cp_hom::isomorphic;
use cp_skel::{Label, Node, Tree};
use cp_term::Pattern;
use std::alloc::{AllocError, Global};

/// The node that a label tests, if it has a test.
fn tested(label: &Label) -> Option<Node> {
    label.test.as_ref().map(|test| test.node)
}

/// Whether both have equally many patterns, each with equally many locals.
fn have_as_many_locals(ones: &[Pattern], others: &[Pattern]) -> bool {
    ones.len() == others.len()
        && ones
            .iter()
            .zip(others)
            .all(|(one, other)| one.locals().len() == other.locals().len())
}

/// Whether two labels agree in all except their terms, orders and assumptions.
fn agree(one: &Label, other: &Label) -> bool {
    one.parent == other.parent
        && is_same_operation(&one.operation, &other.operation)
        && one.mark == other.mark
        && one.children.as_slice() == other.children.as_slice()
        && tested(one) == tested(other)
        && one.unrealised.as_slice() == other.unrealised.as_slice()
        && have_as_many_locals(one.escape.as_slice(), other.escape.as_slice())
        && have_same_shapes(one.skeleton.strands(), other.skeleton.strands())
}

/// Whether two labels are the same up to the names of their variables: they agree, their terms are the same place by
/// place, and their skeletons are isomorphic over the problem. The last also judges their orders and assumptions.
fn is_same_label(alloc: Global, one: &Label, other: &Label) -> Result<bool, AllocError> {
    if !agree(one, other) || !have_same_terms(alloc, one, other)? {
        return Ok(false);
    }
    isomorphic(alloc, &one.skeleton, &other.skeleton)
}

/// The number of the first label that differs.
fn first_other(
    alloc: Global,
    read: &[Label],
    found: &[Label],
) -> Result<Option<usize>, AllocError> {
    for (label, (one, other)) in read.iter().zip(found).enumerate() {
        if !is_same_label(alloc, one, other)? {
            return Ok(Some(label));
        }
    }
    Ok(None)
}

/// How many labels the trees have.
fn count_labels(trees: &[Tree]) -> usize {
    trees.iter().fold(
        0,
        |count: usize, tree| count.saturating_add(tree.labels.as_slice().len()),
    )
}

/// The verdict on trees that were read, compared with those that were found.
pub(crate) fn compared(
    alloc: Global,
    read: &[Tree],
    found: &[Tree],
) -> Result<Verdict, AllocError> {
    for (problem, (tree, other)) in read.iter().zip(found).enumerate() {
        if tree.outcome != other.outcome
            || tree.labels.as_slice().len() != other.labels.as_slice().len()
        {
            return Ok(Verdict::ProblemDiffers(problem));
        }
        if let Some(label) = first_other(alloc, tree.labels.as_slice(), other.labels.as_slice())? {
            return Ok(Verdict::LabelDiffers { problem, label });
        }
    }
    if read.len() != found.len() {
        return Ok(Verdict::ProblemDiffers(read.len().min(found.len())));
    }
    Ok(Verdict::AsSearched(count_labels(read)))
}
