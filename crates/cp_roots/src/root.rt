// A root of a derivation tree.
use cp_skel::{Operation, Skeleton};

/// A root of a problem's tree: the operation that made it, its skeleton, and whether it is dead. Only a problem without a normal
/// form is a dead root.
#[derive(Drop)]
pub struct Root {
    pub operation: Operation,
    pub skeleton: Skeleton,
    pub dead: bool,
}
