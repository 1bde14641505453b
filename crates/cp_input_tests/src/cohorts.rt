// The cohort of a test, and its escape set.
use crate::stated::{NEEDHAM_SCHROEDER, problem_of, skeleton_of, text};
use cp_cohort::{Child, cohort};
use cp_derive::message_at;
use cp_escape::escape;
use cp_load::Problem;
use cp_model::{Node, Operation};
use cp_pattern::{is_guarded, is_test};
use cp_skel::Skeleton;
use cp_term::{Pattern, Term};
use std::alloc::{AllocError, Global};
use std::test::Fail;

const ALONE: &str = "(defskeleton ns (vars (a b name) (n1 n2 text)) \
    (defstrand init 3 (a a) (b b) (n1 n1) (n2 n2)) (non-orig (privk a) (privk b)) (uniq-orig n1))";

const OVERHEARD: &str = "(defskeleton ns (vars (a b name) (n1 n2 text)) \
    (defstrand init 3 (a a) (b b) (n1 n1) (n2 n2)) (deflistener n1) (precedes ((0 0) (1 0))) \
    (non-orig (privk a) (privk b)) (uniq-orig n1))";

fn node(strand: usize, index: usize) -> Node {
    Node { strand, index }
}

/// The cohort of the test of the term at the node, which needs no patterns.
fn children(
    alloc: Global,
    problem: &Problem,
    node: Node,
    critical: &Term,
) -> Result<Vec<Child>, Fail> {
    let k = &problem.skeleton;
    if !is_test(alloc, k, node, critical)? || !is_guarded(alloc, k, node, critical, &[])? {
        return Err(Fail::new("no test that is guarded without patterns"));
    }
    Ok(cohort(alloc, &problem.protocol, k, node, critical, &[])?)
}

/// Whether a strand was added in the first child and a listener in the second, and there is no third.
fn are_two(children: &[Child]) -> bool {
    let [first, second] = children else {
        return false;
    };
    matches!(first.operation, Operation::AddedStrand(1))
        && matches!(second.operation, Operation::AddedListener(1))
}

/// The message at the node, which must be there.
fn message_of(alloc: Global, k: &Skeleton, node: Node) -> Result<Term, Fail> {
    match message_at(alloc, k, node)? {
        Some(message) => Ok(message),
        None => Err(Fail::new("no such node")),
    }
}

/// Whether these are the children of the test of the whole message that the first strand receives.
fn has_two(alloc: Global, problem: &Problem) -> Result<bool, Fail> {
    let received = node(0, 1);
    let message = message_of(alloc, &problem.skeleton, received)?;
    Ok(are_two(&children(alloc, problem, received, &message)?))
}

/// The escape set of the test of the term at the node.
fn patterns(
    alloc: Global,
    k: &Skeleton,
    node: Node,
    critical: &Term,
) -> Result<Vec<Pattern>, Fail> {
    if !is_test(alloc, k, node, critical)? {
        return Err(Fail::new("no test"));
    }
    Ok(escape(alloc, k, node, critical)?)
}

/// Whether the only pattern is this term, without locals.
fn is_only(patterns: &[Pattern], term: &Term) -> bool {
    let [pattern] = patterns else {
        return false;
    };
    pattern.locals().is_empty() && pattern.term().same(term)
}

/// Whether the nonce, where it is heard, is protected by the message that the first strand sends, and by it alone.
fn is_protected(alloc: Global, k: &Skeleton) -> Result<bool, Fail> {
    let nonce = text(alloc, 2)?;
    let message = message_of(alloc, k, node(0, 0))?;
    Ok(is_only(&patterns(alloc, k, node(1, 0), &nonce)?, &message))
}

#[test]
fn first_of_the_initiator(rt: HostRuntime) -> Result<(), Fail> {
    let problem = problem_of(rt.alloc(), NEEDHAM_SCHROEDER, ALONE)?;
    assert!(rt; has_two(rt.alloc(), &problem)?);
    Ok(())
}

#[test]
fn escape_set_of_a_nonce(rt: HostRuntime) -> Result<(), Fail> {
    let k = skeleton_of(rt.alloc(), NEEDHAM_SCHROEDER, OVERHEARD)?;
    assert!(rt; is_protected(rt.alloc(), &k)?);
    Ok(())
}
