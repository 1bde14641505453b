// Tests whether a skeleton has instances that could be identified.
ghost use Rattle.std.specs.Prelude.{◌≡◌, count_by, nat_lt};
ghost use Rattle.cp_skel.specs.Events.{is_role_strand};

use cp_skel::{Strand, StrandShape};

/// Whether the strand is an instance of a role.
fn is_instance(strand: &Strand) -> bool
    ensures { result ≡ is_role_strand strand.now }
{
    matches!(strand.shape(), StrandShape::Instance(_))
}

/// Whether at least two of the strands are instances of roles.
pub(crate) fn has_two_instances(strands: &[Strand]) -> bool
    ensures { result ≡ nat_lt 1 (count_by (λ s. is_role_strand s) strands.now) }
{
    strands.iter().filter(|strand| is_instance(strand)).count() > 1
}
