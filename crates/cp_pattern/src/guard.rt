// Tests whether patterns guard a test.
ghost use Rattle.std.specs.Prelude.{◌↔◌, IsTrue, IfOk};
ghost use Rattle.cp_theory.specs.Guards.{Guards};

use crate::pattern::all_may_guard;
use crate::sent::send_inside_alone;
use crate::within::all_within;
use cp_skel::{Node, Skeleton, used_terms};
use cp_term::{Pattern, Term};
use std::alloc::{AllocError, Global};

/// Whether the patterns guard the test of the critical term at the node: no pattern's key holds a local; the variables of the
/// term, and those of the patterns except the locals, are variables of the skeleton; and each transmission of a role strand
/// before the node carries the term inside the patterns alone.
pub fn is_guarded(
    alloc: Global,
    k: &Skeleton,
    node: Node,
    critical: &Term,
    patterns: &[Pattern],
) -> Result<bool, AllocError>
    ensures { IfOk result (λ answer. IsTrue answer ↔ Guards patterns.now k.now node critical.now) }
{
    let used = used_terms(alloc, k)?;
    if !all_within(&used, &[], critical) {
        return Ok(false);
    }
    if !all_may_guard(&used, patterns) {
        return Ok(false);
    }
    send_inside_alone(alloc, patterns, critical, k, node)
}
