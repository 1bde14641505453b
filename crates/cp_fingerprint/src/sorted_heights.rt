// The heights of a skeleton's role strands, in order.
use crate::heights::RoleHeight;
use std::marker::Model;

/// The fingerprint of a skeleton: the names of the roles of its role strands and their heights, by name and then by height.
/// Listeners are not in it, since an embedding may map two of them to one.
#[derive(Drop)]
pub struct Fingerprint {
    pub(crate) entries: Vec<RoleHeight>,
}

impl Model for Fingerprint {
    ghost use Rattle.std.specs.Prelude.{List};
    ghost use Rattle.cp_fingerprint.specs.declared.heights.RoleHeight.{RoleHeight};
    ghost use Rattle.cp_fingerprint.specs.InTurn.{coded_fingerprint, IsInOrder};

    ghost Value = { List RoleHeight };

    ghost coded = { coded_fingerprint };

    ghost view = { λ f. f.entries.items };

    ghost invariant = { λ f. IsInOrder f.entries.items };
}
