// Contradictions in skeletons, and their normal forms.
use crate::stated::{NEEDHAM_SCHROEDER, skeleton_of, text};
use cp_collapse::under;
use cp_model::{Node, OrderPair, Sort, Variable};
use cp_normal::{carries_non_originating, has_two_origins, loses_origin, normal_pairs, normalise};
use cp_skel::Skeleton;
use cp_unify::{Binding, Subst};
use std::alloc::{AllocError, Global};
use std::test::Fail;

/// A protocol and a problem; whether it carries a non-originating value, and has a value with two origins; how many normal
/// forms it has; and how many pairs from the first strand's first node to the second's its unique values give, if they
/// give a normal form.
type Row = (&'static str, &'static str, bool, bool, usize, Option<usize>);

const SENT_KEY: &str = "(defprotocol q basic (defrole s (vars (a name)) (trace (send (privk a)))))";

const SAID_AND_HEARD: &str = "(defprotocol u basic \
    (defrole s (vars (n text)) (trace (send n)) (uniq-orig n)) \
    (defrole e (vars (x y text)) (trace (recv x) (send y))) \
    (defrole g (vars (y text)) (trace (send y))) \
    (defrole h (vars (x y z w text) (a name)) (trace (recv (cat x y (enc y z (pubk a)))) (send w))))";

const ROWS: &[Row] = &[
    (
        NEEDHAM_SCHROEDER,
        "(defskeleton ns (vars (n1 text)) (defstrand init 1 (n1 n1)) (defstrand init 1 (n1 n1)) (uniq-orig n1))",
        false,
        true,
        0,
        None,
    ),
    (
        SENT_KEY,
        "(defskeleton q (vars (a name)) (defstrand s 1 (a a)) (non-orig (privk a)))",
        true,
        false,
        0,
        None,
    ),
    // A unique value that is sent again: not received before, received as the only text, received as one of three.
    (
        SAID_AND_HEARD,
        "(defskeleton u (vars (n text)) (defstrand s 1 (n n)) (defstrand g 1 (y n)))",
        false,
        false,
        0,
        Some(0),
    ),
    (
        SAID_AND_HEARD,
        "(defskeleton u (vars (n text)) (defstrand s 1 (n n)) (defstrand e 2 (x n) (y n)))",
        false,
        false,
        1,
        Some(1),
    ),
    (
        SAID_AND_HEARD,
        "(defskeleton u (vars (n text)) (defstrand s 1 (n n)) (defstrand h 2 (w n)))",
        false,
        false,
        3,
        Some(0),
    ),
];

/// How many normal forms the skeleton has.
fn forms(alloc: Global, k: &Skeleton) -> Result<usize, AllocError> {
    Ok(normalise(alloc, k.copy(alloc)?)?.len())
}

/// How many pairs from the first strand's first node to the second's `normal_pairs` finds, if it finds a normal form.
fn pairs(alloc: Global, k: &Skeleton) -> Result<Option<usize>, AllocError> {
    let wanted = OrderPair {
        earlier: Node {
            strand: 0,
            index: 0,
        },
        later: Node {
            strand: 1,
            index: 0,
        },
    };
    Ok(match normal_pairs(alloc, k)? {
        Some(pairs) => Some(pairs.iter().filter(|pair| **pair == wanted).count()),
        None => None,
    })
}

/// Whether the calls find what the row says.
fn is_right(alloc: Global, k: &Skeleton, row: &Row) -> Result<bool, AllocError> {
    Ok(
        carries_non_originating(alloc, k)? == row.2
            && has_two_origins(k) == row.3
            && !loses_origin(alloc, k)?
            && forms(alloc, k)? == row.4
            && pairs(alloc, k)? == row.5,
    )
}

/// The same for the problem of the row.
fn is_row_right(alloc: Global, row: &Row) -> Result<bool, Fail> {
    let k = skeleton_of(alloc, row.0, row.1)?;
    Ok(is_right(alloc, &k, row)?)
}

#[test]
fn findings(rt: HostRuntime) -> Result<(), Fail> {
    for row in ROWS {
        assert!(rt; is_row_right(rt.alloc(), row)?, "{}", row.1);
    }
    Ok(())
}

const HEARD_AND_SAID: &str = "(defprotocol v basic \
    (defrole r (vars (x m text)) (trace (recv x) (send m)) (uniq-orig m)))";

const ANOTHER_HEARD: &str = "(defskeleton v (vars (n m text)) (defstrand r 2 (x m) (m n)))";

/// The skeleton with the first text in place of the second.
fn bound(alloc: Global, k: &Skeleton) -> Result<Skeleton, AllocError> {
    let second = Variable {
        sort: Sort::Text,
        number: 1,
    };
    let binding = Binding::new(second, text(alloc, 0)?);
    let s = Subst::new(alloc).with(binding)?;
    under(alloc, k, &s)
}

/// Whether the skeleton has its origins, and loses one when its two texts become one.
fn loses_one(alloc: Global, k: &Skeleton) -> Result<bool, AllocError> {
    Ok(!loses_origin(alloc, k)? && loses_origin(alloc, &bound(alloc, k)?)?)
}

// The text that the strand sends is then the one that it received.
#[test]
fn an_origin_that_is_lost(rt: HostRuntime) -> Result<(), Fail> {
    let k = skeleton_of(rt.alloc(), HEARD_AND_SAID, ANOTHER_HEARD)?;
    assert!(rt; loses_one(rt.alloc(), &k)?);
    Ok(())
}
