// Skeletons, and the pairs of their orders.
ghost use Rattle.std.specs.Prelude.{◌≡◌};
ghost use Rattle.cp_model.specs.Skeleton.{skeleton_of};
ghost use Rattle.cp_skel.specs.Sound.{IsSound};

use crate::assumptions::Assumptions;
use crate::from_problem::FromProblem;
pub use cp_model::{Node, OrderPair};
use cp_order::Order;
use cp_strand::Strand;
use cp_term::VarTable;
use std::alloc::{AllocError, Global};
use std::marker::Model;

/// A skeleton: its variables (those of its problem and those made on the way to it), its strands, the order of their
/// nodes in addition to the order of each strand, its assumptions, and the map from the problem (CPSA Primer,
/// "Skeletons"; TACAS 2007, section 3).
///
/// Every skeleton is sound. The heights of its instances are heights of their roles, which declare the variables of
/// their events. Its pairs go from a transmission to a reception of another strand, and its order has no cycle. Its
/// recorded origins are origins, and what its strands' roles give is assumed. Each entry of the map from the problem is
/// one of its strands. It keeps what the problem states itself: these assumptions are among its own, and these pairs
/// are in its order.
pub struct Skeleton {
    pub(crate) variables: VarTable,
    pub(crate) strands: Vec<Strand>,
    pub(crate) order: Order,
    pub(crate) assumptions: Assumptions,
    pub(crate) from_problem: FromProblem,
}

// A value drops by one call of its own, wherever it is held.
impl Drop for Skeleton {
    fn drop(self) {
        let Skeleton {
            variables,
            strands,
            order,
            assumptions,
            from_problem,
        } = self;
    }
}

impl Model for Skeleton {
    ghost use Rattle.cp_model.specs.Skeleton.{Skeleton};
    ghost use Rattle.cp_skel.specs.Code.{coded_skeleton};

    ghost Value = { Skeleton };

    ghost coded = { coded_skeleton };

    ghost use Rattle.cp_skel.specs.Parts.{skeleton_of_parts};
    ghost use Rattle.cp_skel.specs.Sound.{IsSound};

    ghost view = { skeleton_of_parts };

    ghost invariant = { λ k. IsSound (skeleton_of_parts k) };
}

impl Skeleton {
    /// The skeleton of these parts, which must be sound.
    pub fn new(
        variables: VarTable,
        strands: Vec<Strand>,
        order: Order,
        assumptions: Assumptions,
        from_problem: FromProblem,
    ) -> Skeleton
        requires { IsSound (skeleton_of variables strands.items order assumptions from_problem) }
        ensures { result ≡ skeleton_of variables strands.items order assumptions from_problem }
    {
        Skeleton {
            variables,
            strands,
            order,
            assumptions,
            from_problem,
        }
    }

    /// Every skeleton is sound.
    pub fn is_sound(&self)
        ensures { IsSound self.now }
    {
        let _ = &self.order;
    }

    /// Its variables.
    pub fn variables(&self) -> &VarTable
        ensures { result.now ≡ self.now.variables }
    {
        &self.variables
    }

    /// Its strands.
    pub fn strands(&self) -> &[Strand]
        ensures { result.now ≡ self.now.strands }
    {
        &self.strands
    }

    /// The order of its nodes.
    pub fn order(&self) -> &Order
        ensures { result.now ≡ self.now.pairs }
    {
        &self.order
    }

    /// What it assumes.
    pub fn assumptions(&self) -> &Assumptions
        ensures { result.now ≡ self.now.assumptions }
    {
        &self.assumptions
    }

    /// The map from its problem.
    pub fn from_problem(&self) -> &FromProblem
        ensures { result.now ≡ self.now.from_problem }
    {
        &self.from_problem
    }
}
