// Tests whether a skeleton is fit: normal and realised.
ghost use Rattle.std.specs.Prelude.{◌↔◌, IsTrue, IfOk};
ghost use Rattle.cp_model.specs.Realisation.{AllDerivable};
ghost use Rattle.cp_general.specs.Fit.{IsFit};

use cp_derive::unrealised;
use cp_normal::is_normal;
use cp_skel::Skeleton;
use std::alloc::{AllocError, Global};

/// Whether all receptions are derivable.
fn is_realised(alloc: Global, k: &Skeleton) -> Result<bool, AllocError>
    ensures { IfOk result (λ realised. IsTrue realised ↔ AllDerivable k.now) }
{
    unrealised(alloc, k).map(|nodes| nodes.is_empty())
}

/// Whether the skeleton is normal, and all its receptions are derivable. Where it is not fit, mostly some reception is not
/// derivable, so this is asked first.
pub(crate) fn is_fit(alloc: Global, k: &Skeleton) -> Result<bool, AllocError>
    ensures { IfOk result (λ fit. IsTrue fit ↔ IsFit k.now) }
{
    if !is_realised(alloc, k)? {
        return Ok(false);
    }
    is_normal(alloc, k)
}

/// Whether a skeleton is fit that may be known to be.
pub(crate) fn is_known_or_fit(alloc: Global, k: &Skeleton, known: bool) -> Result<bool, AllocError>
    requires { IsTrue known → IsFit k.now }
    ensures { IfOk result (λ fit. IsTrue fit ↔ IsFit k.now) }
{
    if known {
        return Ok(true);
    }
    is_fit(alloc, k)
}
