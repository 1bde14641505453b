// The roots of a problem.
ghost use Rattle.std.specs.Prelude.{◌≡◌, IfOk};
ghost use Rattle.cp_lists.specs.Lists.{IsIn};
ghost use Rattle.cp_model.specs.PointOfView.{IsPointOfView};
ghost use Rattle.cp_roots.specs.Over.{IsOver};
ghost use Rattle.cp_roots.specs.Roots.{Root as root, AreRoots};
ghost use Rattle.cp_roots.specs.Sound.{AreSound};

use crate::gathered_roots::{first_roots, put_collapse};
use crate::instances::has_two_instances;
use crate::root::Root;
use cp_normal::collapses;
use cp_skel::{Protocol, Skeleton};
use std::alloc::{AllocError, Global};

/// The roots of a problem, from which its search starts. First come the normal forms of the problem or, if there are none, the
/// problem itself, dead. Then come, for each collapse in descending order of the partitions, its normal forms, each with the
/// partition. A collapse without a normal form gives no root. Equal roots are kept. The assumptions of a root that is not dead
/// are in report order, each once.
///
/// The problem's strands must have roles of the protocol, and the problem must be a point-of-view skeleton: it maps to itself, it
/// declares the variables that occur in it, its assumptions are those that it states and those that its strands' roles give, and
/// the pairs that it states generate its order.
pub fn roots(
    alloc: Global,
    protocol: &Protocol,
    problem: &Skeleton,
) -> Result<Vec<Root>, AllocError>
    requires over { IsOver protocol.now problem.now }
    requires own { IsPointOfView problem.now.variables problem.now }
    ensures exact { IfOk result (λ rs. AreRoots problem.now rs.items) }
    ensures sound { IfOk result (λ rs. AreSound protocol.now problem.now rs.items) }
    ensures variables { IfOk result (λ rs. (r : root) → IsIn r rs.items → r.skeleton.variables ≡ problem.now.variables) }
{
    problem.is_sound();
    let mut roots = first_roots(alloc, problem)?;
    // With fewer than two instances there is nothing to identify; looking for partitions would compare all pairs of strands.
    if !has_two_instances(problem.strands()) {
        return Ok(roots);
    }
    let mut rest = collapses(alloc, problem)?;
    rest.reverse();
    while let Some(collapse) = rest.pop() {
        put_collapse(alloc, collapse, &mut roots)?;
    }
    Ok(roots)
}
