// Skeletons without one of their strands.
ghost use Rattle.std.specs.Prelude.{◌≡◌, ◌<◌, length, IfOk, OnOk, OnErr};
ghost use Rattle.std.specs.List.{remove};
ghost use Rattle.cp_lists.specs.Lists.{IsIn};
ghost use Rattle.cp_order.specs.Closed.{IsTransitive};
ghost use Rattle.cp_skel.specs.Deletion.{ForgetsAssumptions, KeepsFromProblem, KeepsOrderOfOthers};

use crate::assumptions_left::assumptions_without;
use crate::bridges::pairs_without;
use crate::from_problem::FromProblem;
use crate::new_numbers::{left_without, strands_renumbered};
use crate::skeleton::Skeleton;
use cp_order::Order;
use std::alloc::{AllocError, Global};

/// The map from the problem once a strand is gone.
fn from_problem_without(
    alloc: Global,
    from: &FromProblem,
    gone: usize,
) -> Result<FromProblem, AllocError>
    ensures { IfOk result (λ p. KeepsFromProblem gone from.now p) }
{
    let own = from.assumptions();
    let uniques = left_without(alloc, gone, own.uniquely_originating())?;
    let assumptions = own.with_uniques(alloc, uniques)?;
    let strands = strands_renumbered(alloc, gone, from.strands())?;
    let pairs = left_without(alloc, gone, from.pairs())?;
    from.with_strands(alloc, strands, assumptions, pairs)
}

impl Skeleton {
    /// Deletes a strand, which must exist and be the image of no strand of the problem.
    ///
    /// The numbers of the strands above it fall by one. The nodes of the others keep their order, also where it went
    /// through the strand, and the order is closed. What only its role gave is forgotten, unless the problem itself
    /// states it. On an error nothing has changed.
    pub fn delete_strand(&mut self, alloc: Global, strand: usize) -> Result<(), AllocError>
        requires there_is { strand < length self.old.strands }
        requires no_image { IsIn strand self.old.from_problem.strands → ⊥ }
        ensures strands { OnOk result (self.new.strands ≡ remove self.old.strands strand) }
        ensures order { OnOk result (KeepsOrderOfOthers strand self.old self.new) }
        ensures closed { OnOk result (IsTransitive self.new.pairs) }
        ensures assumptions { OnOk result (ForgetsAssumptions strand self.old self.new.assumptions) }
        ensures from_problem { OnOk result (KeepsFromProblem strand self.old.from_problem self.new.from_problem) }
        ensures variables { self.new.variables ≡ self.old.variables }
        ensures unchanged { OnErr result (self.new ≡ self.old) }
    {
        let pairs = pairs_without(alloc, strand, self.order.pairs())?;
        let mut order = Order::of(pairs);
        order.close(alloc)?;
        let assumptions = assumptions_without(alloc, self, strand)?;
        let from_problem = from_problem_without(alloc, &self.from_problem, strand)?;
        self.strands.remove(strand);
        self.order = order;
        self.assumptions = assumptions;
        self.from_problem = from_problem;
        Ok(())
    }
}
