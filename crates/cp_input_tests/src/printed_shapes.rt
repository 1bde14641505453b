// What is printed of a tree's shapes alone.
use crate::stated::{NEEDHAM_SCHROEDER, forms_of, joined, last_problem};
use cp_load::load;
use cp_print::print_shapes;
use cp_sexpr::Form;
use cp_skel::{Label, Labels, Mark, Nodes, Numbers, Operation, Outcome, Skeleton, Tree};
use cp_term::Patterns;
use std::alloc::{AllocError, Global};
use std::test::Fail;

const PROBLEM: &str =
    "(defskeleton ns\n  (vars (n1 text))\n  (defstrand init 1 (n1 n1))\n  (uniq-orig n1))\n";

const SHAPE: &str =
    "(label 0\n  (by problem)\n  (vars (n1 text) (a name) (b name))\n  (defstrand init 1 (a a) (b b) (n1 n1))\n  \
    (uniq-orig (n1 (0 0)))\n  (map (0) (n1 n1) (a a) (b b))\n  (shape))\n\
    (status complete labels 1 expanded 0 shapes 1)\n";

/// The label of the problem's skeleton, as a shape.
fn shape(alloc: Global, skeleton: Skeleton) -> Label {
    Label {
        parent: None,
        operation: Operation::Problem,
        skeleton,
        unrealised: Nodes::new(alloc),
        test: None,
        escape: Patterns::new(alloc),
        children: Numbers::new(alloc),
        mark: Some(Mark::Shape),
    }
}

/// The tree of that label.
fn tree(alloc: Global, skeleton: Skeleton) -> Result<Tree, AllocError> {
    Ok(Tree {
        labels: Labels::of(Vec::from_array(alloc, [shape(alloc, skeleton)])?),
        outcome: Outcome::Complete,
    })
}

/// The tree of the problem that the last of the forms states, alone.
fn trees(alloc: Global, forms: &[Form]) -> Result<Vec<Tree>, Fail> {
    let tree = tree(alloc, last_problem(alloc, forms)?.skeleton)?;
    Ok(Vec::from_array(alloc, [tree])?)
}

/// What is printed of the trees' shapes, where the forms state their problems.
fn printed(alloc: Global, forms: &[Form], trees: &[Tree]) -> Result<Vec<u8>, Fail> {
    let Ok(input) = load(alloc, forms) else {
        return Err(Fail::new("the forms have a fault"));
    };
    let mut shapes = Vec::new(alloc);
    print_shapes(alloc, &input, trees, &mut shapes)?;
    Ok(shapes)
}

/// What is printed where the forms state one problem.
fn printed_of(alloc: Global, forms: &[Form]) -> Result<Vec<u8>, Fail> {
    let trees = trees(alloc, forms)?;
    printed(alloc, forms, &trees)
}

/// What is printed of the problem, after its protocol.
fn shapes(alloc: Global) -> Result<Vec<u8>, Fail> {
    let text = joined(alloc, &[NEEDHAM_SCHROEDER, PROBLEM])?;
    printed_of(alloc, &forms_of(alloc, &text)?)
}

#[test]
fn shapes_alone(rt: HostRuntime) -> Result<(), Fail> {
    let wanted = joined(rt.alloc(), &[NEEDHAM_SCHROEDER, PROBLEM, SHAPE])?;
    assert!(rt; shapes(rt.alloc())?.as_slice() == wanted.as_slice());
    Ok(())
}
