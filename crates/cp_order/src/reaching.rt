// Whether one node reaches another along strands and pairs.
ghost use Rattle.std.specs.Prelude.{◌↔◌, IsTrue, IfOk};
ghost use Rattle.cp_model.specs.Order.{ReachesAlong};

use crate::predecessors::{Predecessors, is_at_or_before};
use cp_model::{Node, OrderPair};
use std::alloc::{AllocError, Global};

/// Whether the first node reaches the second along strands and these pairs. The second node's predecessors are gathered only if one
/// of the pairs ends at it or before it on its strand: otherwise nothing else reaches it.
pub fn reaches(
    alloc: Global,
    pairs: &[OrderPair],
    first: Node,
    second: Node,
) -> Result<bool, AllocError>
    ensures { IfOk result (λ answer. IsTrue answer ↔ ReachesAlong pairs.now first second) }
{
    for pair in pairs {
        if is_at_or_before(pair.later, second) {
            return Predecessors::new(alloc, pairs, second).map(|before| before.has(first));
        }
    }
    Ok(is_at_or_before(first, second))
}
