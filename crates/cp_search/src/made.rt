// Labels as they are made.
use cp_fingerprint::Signature;
use cp_skel::{Nodes, Operation, Skeleton};

/// A label as it is made: its parent, if it has one, the operation that made it, and its skeleton; whether it is `general`, which
/// is set only if no step of generalising applies to it any more; and whether it is dead from the start. Then what was found when
/// it was made: its signature, the label in which it is seen, if any, its unrealised receptions, and the key of its record, if it
/// waits to be expanded.
#[derive(Drop)]
pub(crate) struct Made {
    pub parent: Option<usize>,
    pub operation: Operation,
    pub skeleton: Skeleton,
    pub general: bool,
    pub dead: bool,
    pub signature: Signature,
    pub seen_in: Option<usize>,
    pub unrealised: Nodes,
    pub waiting: Option<usize>,
}
