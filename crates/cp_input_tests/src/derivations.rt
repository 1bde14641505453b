// Critical terms at nodes of skeletons.
use crate::stated::{NEEDHAM_SCHROEDER, is_there, skeleton_of};
use cp_derive::{Critical, critical, message_at};
use cp_model::Node;
use cp_skel::Skeleton;
use cp_term::{Step, Term, at};
use std::alloc::{AllocError, Global};
use std::test::Fail;

const ALONE: &str = "(defskeleton ns (vars (a b name) (n1 n2 text)) \
    (defstrand init 3 (a a) (b b) (n1 n1) (n2 n2)) (non-orig (privk a) (privk b)) (uniq-orig n1))";

const OVERHEARD: &str = "(defskeleton ns (vars (a b name) (n1 n2 text)) \
    (defstrand init 3 (a a) (b b) (n1 n1) (n2 n2)) (deflistener (cat a n1)) \
    (non-orig (privk a) (privk b)) (uniq-orig n1))";

const NOTHING_ASSUMED: &str = "(defskeleton ns (vars (a b name) (n1 n2 text)) \
    (defstrand init 3 (a a) (b b) (n1 n1) (n2 n2)) (deflistener n1))";

const OPENED: &str = "(defprotocol d basic (defrole s (vars (n text) (a name) (k skey)) \
    (trace (send (enc n a k)) (send (enc k a (pubk a))) (send (privk a)))))";

const SEALED_KEY: &str = "(defskeleton d (vars (n text) (a name) (k skey)) \
    (defstrand s 2 (n n) (a a) (k k)) (deflistener n) (precedes ((0 1) (1 0))) \
    (non-orig (privk a)) (pen-non-orig n k))";

const OPEN_KEY: &str = "(defskeleton d (vars (n text) (a name) (k skey)) \
    (defstrand s 3 (n n) (a a) (k k)) (deflistener n) (precedes ((0 2) (1 0))) (pen-non-orig n k))";

/// A protocol, a problem, a node, and the path of the critical term in its message, if there is one.
type Row = (
    &'static str,
    &'static str,
    (usize, usize),
    Option<&'static [Step]>,
);

const ROWS: &[Row] = &[
    (NEEDHAM_SCHROEDER, ALONE, (0, 1), Some(&[])),
    (NEEDHAM_SCHROEDER, ALONE, (0, 2), None),
    (NEEDHAM_SCHROEDER, OVERHEARD, (1, 0), Some(&[Step::Right])),
    (NEEDHAM_SCHROEDER, NOTHING_ASSUMED, (0, 1), None),
    (NEEDHAM_SCHROEDER, NOTHING_ASSUMED, (1, 0), None),
    (OPENED, SEALED_KEY, (1, 0), Some(&[])),
    (OPENED, OPEN_KEY, (1, 0), None),
];

/// Whether the critical term was found at the path, and stands there in the message.
fn is_critical(message: &Option<Term>, found: &Critical, path: Option<&[Step]>) -> bool {
    match (message, path) {
        (Some(message), Some(path)) => {
            found.path.as_slice() == path
                && at(message, &found.path).is_some_and(|part| part.same(&found.term))
        }
        _ => false,
    }
}

/// The same for the message at a node.
fn is_found_at(
    alloc: Global,
    k: &Skeleton,
    node: Node,
    found: &Critical,
    path: Option<&[Step]>,
) -> Result<bool, AllocError> {
    Ok(is_critical(&message_at(alloc, k, node)?, found, path))
}

/// Whether the critical term at a node of the skeleton stands at the path; without a path, whether there is none.
fn is_found(alloc: Global, k: &Skeleton, node: Node, path: Option<&[Step]>) -> Result<bool, Fail> {
    if !is_there(alloc, k, node)? {
        return Err(Fail::new("no such node"));
    }
    match critical(alloc, k, node)? {
        Some(found) => Ok(is_found_at(alloc, k, node, &found, path)?),
        None => Ok(path.is_none()),
    }
}

/// The same for the node of a row.
fn is_right(alloc: Global, row: &Row) -> Result<bool, Fail> {
    let &(protocol, problem, (strand, index), path) = row;
    let k = skeleton_of(alloc, protocol, problem)?;
    is_found(alloc, &k, Node { strand, index }, path)
}

#[test]
fn nodes_of_skeletons(rt: HostRuntime) -> Result<(), Fail> {
    for row in ROWS {
        assert!(rt; is_right(rt.alloc(), row)?, "{}", row.1);
    }
    Ok(())
}
