// Equality of roles.
ghost use Rattle.std.specs.Prelude.{◌≡◌, ◌↔◌, IsTrue};

use crate::protocol::{Event, Role};
use crate::same::{Same, are_same};
use cp_model::Declaration;

impl Same for Declaration {
    fn is_same(&self, other: &Declaration) -> bool {
        self.identifier.as_str() == other.identifier.as_str() && self.sort == other.sort
    }
}

impl Same for Event {
    fn is_same(&self, other: &Event) -> bool {
        match (self, other) {
            (Event::Send(x), Event::Send(y)) => x.same(y),
            (Event::Receive(x), Event::Receive(y)) => x.same(y),
            _ => false,
        }
    }
}

/// Whether the declarations are the same.
fn are_same_declarations(a: &[Declaration], b: &[Declaration]) -> bool
    ensures { IsTrue result ↔ (a.now ≡ b.now) }
{
    are_same(a, b)
}

/// Whether the events are the same.
fn are_same_events(a: &[Event], b: &[Event]) -> bool
    ensures { IsTrue result ↔ (a.now ≡ b.now) }
{
    are_same(a, b)
}

/// Whether the assumptions of two roles are the same.
fn have_same_assumptions(a: &Role, b: &Role) -> bool
    ensures { IsTrue result ↔ (a.now.non_originating ≡ b.now.non_originating)
        × (a.now.penetrator_non_originating ≡ b.now.penetrator_non_originating)
        × (a.now.uniquely_originating ≡ b.now.uniquely_originating) }
{
    are_same(a.non_originating(), b.non_originating())
        && are_same(
            a.penetrator_non_originating(),
            b.penetrator_non_originating(),
        )
        && are_same(a.uniquely_originating(), b.uniquely_originating())
}

/// Whether two roles are the same: their names, variables, events and assumptions are.
pub fn is_same_role(a: &Role, b: &Role) -> bool
    ensures { IsTrue result ↔ (a.now ≡ b.now) }
{
    a.name().as_str() == b.name().as_str()
        && are_same_declarations(a.variables(), b.variables())
        && are_same_events(a.trace(), b.trace())
        && have_same_assumptions(a, b)
}
