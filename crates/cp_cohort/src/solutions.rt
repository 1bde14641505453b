// Solves a release.
ghost use Rattle.std.specs.Prelude.{IfOk};
ghost use Rattle.cp_cohort.specs.Stages.{SolvesRelease, on_the_way};

use crate::attempts::Attempt;
use crate::release::{PartialSolution, Release};
use cp_normal::leaves;
use std::alloc::{AllocError, Global};
use std::marker::Brand;

/// Solves a release: returns, in order, the normal forms for which both conditions on it hold.
///
/// - If the position of the release is inside the patterns, there are none. A position at a node without an event is not inside
///   them.
/// - If an earlier event of the strand carries the term outside the patterns, the first such occurrence is taken, by event, then
///   by position. Each encryption that properly encloses it, outermost first, is unified with each pattern, in order; the
///   pattern's locals become new variables of the skeleton each time. Each unifier gives a branch, on which the conditions are
///   tested again.
/// - If both conditions hold, the skeleton is normalised, and the conditions are tested again on each normal form, until nothing
///   changes.
pub fn solve(
    alloc: Global,
    release: &Release,
    tried: PartialSolution,
) -> Result<Vec<PartialSolution>, AllocError>
    ensures { IfOk result (λ ts. SolvesRelease release.now on_the_way tried ts.items) }
{
    let attempt = Attempt {
        tried,
        is_normal: false,
    };
    leaves::<Release, Brand>(alloc, release, attempt)
}
