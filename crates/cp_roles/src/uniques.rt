// The unique values of roles, and where they originate.
ghost use Rattle.std.specs.Prelude.{◌≡◌, map, OnOk};
ghost use Rattle.cp_model.specs.Same.{origin_in};
ghost use Rattle.cp_sexpr.specs.View.{view};
ghost use Rattle.cp_language.specs.Roles.{each_faults, role_unique_faults};
ghost use Rattle.cp_scope.specs.FirstFault.{first_onto};

use cp_base::Code;
use cp_scope::{FirstFault, Variables, atom_faults, place_of, term_of};
use cp_sexpr::Form;
use cp_strand::Event;
use cp_term::Term;
use std::alloc::{AllocError, Global};

/// The context of a role's items: its variables and its trace; and the allocator.
#[derive(Clone, Copy)]
pub(crate) struct Scope<'a> {
    pub(crate) alloc: Global,
    pub(crate) variables: &'a Variables,
    pub(crate) trace: &'a [Event],
}

/// The index among the events at which a term originates, if it does.
fn origin(events: &[Event], value: &Term) -> Option<usize>
    ensures { result ≡ origin_in events.now value.now }
{
    cp_strand::origin(events, value)
}

/// Notes the faults of the unique values of a role with this trace. A value that has no other fault must originate in the
/// trace.
pub(crate) fn role_uniques_faults(
    scope: Scope<'_>,
    items: &[Form],
    first: &mut FirstFault,
) -> Result<(), AllocError>
    ensures { OnOk result (first.new ≡ first_onto first.old
        (each_faults (role_unique_faults scope.entry.variables.now scope.entry.trace.now) (map view items.now))) }
{
    for item in items {
        let value = term_of(scope.alloc, scope.variables, item)?;
        let mut inside = FirstFault::new();
        atom_faults(scope.variables, item, &mut inside);
        inside.note_unless_faulty(
            origin(scope.trace, &value).is_some(),
            place_of(item),
            Code::RoleUniqNoOrigin,
        );
        first.merge(inside);
    }
    Ok(())
}
