// Variables that occur in prefixes of roles.
ghost use Rattle.std.specs.Prelude.{◌≡◌};
ghost use Rattle.cp_model.specs.Strand.{variables_of_prefix};
ghost use Rattle.cp_model.specs.Same.{has_variable};

use cp_scope::Variable;
use cp_strand::Role;
use cp_term::VarId;

/// The first `height` events of a role.
#[derive(Clone, Copy)]
pub(crate) struct Prefix<'a> {
    pub(crate) role: &'a Role,
    pub(crate) height: usize,
}

/// Whether the variable occurs in the prefix.
pub(crate) fn occurs(prefix: Prefix<'_>, variable: Variable) -> bool
    ensures { result ≡ has_variable (variables_of_prefix prefix.entry.role.now prefix.entry.height) variable }
{
    let id = VarId::numbered(variable.number);
    prefix.role.occurs_before(id, variable.sort, prefix.height)
}
