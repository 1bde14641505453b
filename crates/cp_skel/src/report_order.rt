// The order in which a report lists assumptions.
ghost use Rattle.std.specs.Prelude.{◌≡◌, IfOk, OnOk, OnErr};
ghost use Rattle.cp_model.specs.Given.{listed};

use crate::already_listed::is_listed;
use crate::assumptions::Assumptions;
use crate::gathered::stated_first;
use crate::given_assumptions::lacking;
use crate::skeleton::Skeleton;
use std::alloc::{AllocError, Global};

/// The assumptions of a skeleton in the order in which a report lists them: the problem's own, then those that the
/// strands' roles give, strand by strand, each once, then any others.
pub fn listed(alloc: Global, skeleton: &Skeleton) -> Result<Assumptions, AllocError>
    ensures { IfOk result (λ a. a ≡ listed skeleton.now) }
{
    let own = skeleton.from_problem().assumptions();
    let given = lacking(alloc, skeleton.strands(), own)?;
    let old = skeleton.assumptions();
    Assumptions::of(
        stated_first(
            alloc,
            own.non_originating(),
            given.non_originating(),
            old.non_originating(),
        ),
        stated_first(
            alloc,
            own.penetrator_non_originating(),
            given.penetrator_non_originating(),
            old.penetrator_non_originating(),
        ),
        stated_first(
            alloc,
            own.uniquely_originating(),
            given.uniquely_originating(),
            old.uniquely_originating(),
        ),
    )
}

impl Skeleton {
    /// Puts the assumptions into the order in which a report lists them: the problem's own, then those that the
    /// strands' roles give, strand by strand, each once, then any others. What is assumed stays the same. On an error
    /// nothing has changed.
    pub fn list_assumptions(&mut self, alloc: Global) -> Result<(), AllocError>
        ensures listed { OnOk result (self.new ≡ record self.old { assumptions = listed self.old }) }
        ensures unchanged { OnErr result (self.new ≡ self.old) }
        ensures variables { self.new.variables ≡ self.old.variables }
    {
        if is_listed(alloc, self) {
            return Ok(());
        }
        self.assumptions = listed(alloc, self)?;
        Ok(())
    }
}
