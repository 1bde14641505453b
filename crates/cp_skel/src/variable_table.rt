// New variables in the table of a skeleton.
ghost use Rattle.std.specs.Prelude.{◌≡◌, [], ◌∷◌, ◌++◌, length, IfOk, OnOk, OnErr};

use crate::skeleton::Skeleton;
use cp_term::{Sort, VarId};
use std::alloc::AllocError;

impl Skeleton {
    /// Makes a variable of this sort, later than all others, that is named after this identifier. On an error nothing
    /// has changed.
    pub fn declare(&mut self, root: &str, sort: Sort) -> Result<VarId, AllocError>
        ensures later { IfOk result (λ v. v ≡ length self.old.variables) }
        ensures declared { OnOk result (self.new ≡ record self.old { variables = self.old.variables ++ record { identifier = root.now; sort = sort } ∷ [] }) }
        ensures unchanged { OnErr result (self.new ≡ self.old) }
    {
        self.variables.fresh(root, sort)
    }
}
