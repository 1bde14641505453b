// The assumptions that the roles of strands give, added strand by strand.
ghost use Rattle.std.specs.Prelude.{◌≡◌, IfOk, OnOk};
ghost use Rattle.cp_model.specs.Given.{with_given};
ghost use Rattle.cp_skel.specs.JoinedAssumptions.{joined_assumptions};

use crate::assumptions::Assumptions;
use crate::role_assumptions::Missing;
use cp_strand::Strand;
use std::alloc::{AllocError, Global};

/// What the roles of these strands give and the assumptions lack, strand by strand, each once.
pub(crate) fn lacking(
    alloc: Global,
    strands: &[Strand],
    assumptions: &Assumptions,
) -> Result<Assumptions, AllocError>
    ensures { IfOk result (λ more. joined_assumptions assumptions.now more
        ≡ with_given strands.now assumptions.now) }
{
    let mut missing = Missing::none(alloc);
    for (number, strand) in strands.iter().enumerate() {
        missing.add_lacking(alloc, number, strand, assumptions)?;
    }
    Ok(missing.into_assumptions())
}

/// Adds what the roles of these strands give, strand by strand, except what is already there.
pub fn add_given(
    alloc: Global,
    strands: &[Strand],
    assumptions: &mut Assumptions,
) -> Result<(), AllocError>
    ensures { OnOk result (assumptions.new
        ≡ with_given strands.now assumptions.old) }
{
    let more = lacking(alloc, strands, assumptions)?;
    assumptions.append(more)
}
