// Skeletons, each with a substitution beside it.
use cp_skel::Skeleton;
use cp_unify::Subst;

/// A skeleton that comes from another by a substitution, and a second substitution: a given one into the terms of that other
/// skeleton, followed by the one by which the skeleton comes.
#[derive(Drop)]
pub struct Form {
    pub skeleton: Skeleton,
    pub substitution: Subst,
}
