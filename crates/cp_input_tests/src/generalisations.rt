// The generalisation of a skeleton with a strand that is not needed.
use crate::stated::{skeleton_of, text};
use cp_general::generalise;
use cp_skel::Skeleton;
use std::alloc::{AllocError, Global};
use std::test::Fail;

const SPEAKER: &str = "(defprotocol g basic (defrole speaker (vars (n text)) (trace (send n))))";

const ONE: &str = "(defskeleton g (vars (x text)) (defstrand speaker 1 (n x)))";

/// How many strands the generalisation has.
fn strands(alloc: Global, k: &Skeleton) -> Result<usize, AllocError> {
    Ok(generalise(alloc, k)?.strands().len())
}

/// Whether a listener that is added is deleted again, and the problem's strand is not.
fn goes_back(alloc: Global, k: &mut Skeleton) -> Result<bool, AllocError> {
    let before = strands(alloc, k)?;
    k.add_listener(alloc, text(alloc, 0)?)?;
    Ok(before == 1 && k.strands().len() == 2 && strands(alloc, k)? == 1)
}

#[test]
fn a_strand_is_deleted(rt: HostRuntime) -> Result<(), Fail> {
    let mut k = skeleton_of(rt.alloc(), SPEAKER, ONE)?;
    assert!(rt; goes_back(rt.alloc(), &mut k)?);
    Ok(())
}
