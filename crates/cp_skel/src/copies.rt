// Copies of skeletons.
ghost use Rattle.std.specs.Prelude.{◌≡◌, IfOk};

use crate::skeleton::Skeleton;
use cp_strand::Strand;
use std::alloc::{AllocError, Global};

/// The same strands, in a list that has room for one more.
fn with_room(alloc: Global, strands: &[Strand]) -> Result<Vec<Strand>, AllocError>
    ensures { IfOk result (λ v. v.items ≡ strands.now) }
{
    let mut copied = Vec::with_capacity(alloc, strands.len().saturating_add(1))?;
    copied.extend_with_clones(strands).map(|_| copied)
}

impl Skeleton {
    /// The same skeleton. It has a list of strands of its own; all else, and each strand, is shared with this one.
    pub fn copy(&self, alloc: Global) -> Result<Skeleton, AllocError>
        ensures same { IfOk result (λ k. k ≡ self.now) }
    {
        self.is_sound();
        Ok(Skeleton::new(
            self.variables().copy()?,
            with_room(alloc, self.strands())?,
            self.order().copy(alloc)?,
            self.assumptions().copy(alloc)?,
            self.from_problem().copy(alloc)?,
        ))
    }
}
