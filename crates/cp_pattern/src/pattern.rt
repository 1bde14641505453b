// Patterns that may guard tests.
ghost use Rattle.std.specs.Prelude.{◌≡◌, ◌↔◌, IsTrue};
ghost use Rattle.cp_lists.specs.Lists.{IsIn};
ghost use Rattle.cp_model.specs.Strand.{variables_of_trace};
ghost use Rattle.cp_model.specs.Term.{KeyTerm, variables_of_key};
ghost use Rattle.cp_model.specs.Tree.{Pattern as Plain};
ghost use Rattle.cp_term.specs.Keys.{key_as_term};
ghost use Rattle.cp_pattern.specs.Within.{has_some, MayGuard};

use crate::within::{all_within, is_local};
use cp_model::Variable;
use cp_skel::Event;
use cp_term::{Pattern, Shape, Sort, Term};

/// Whether a variable of the key is one of these.
pub(crate) fn holds_local(locals: &[Variable], key: &Term) -> bool
    ensures { (k : KeyTerm) → key.now ≡ key_as_term k → result ≡ has_some locals.now (variables_of_key k) }
{
    match key.shape() {
        Shape::Variable(id, sort) => is_local(locals, id, sort),
        Shape::Inverse(id) => is_local(locals, id, Sort::Akey),
        Shape::Ltk(a, b) => is_local(locals, a, Sort::Name) || is_local(locals, b, Sort::Name),
        Shape::Pubk(_, _, name) => is_local(locals, name, Sort::Name),
        Shape::Tag(_) | Shape::Pair(..) | Shape::Encryption(..) => false,
    }
}

/// Whether the pattern may guard tests: its key holds no local, and its other variables occur in these events.
fn may_guard(events: &[Event], pattern: &Pattern) -> bool
    ensures { IsTrue result ↔ MayGuard (variables_of_trace events.now) pattern.now }
{
    let locals = pattern.locals();
    let term = pattern.term();
    let Shape::Encryption(_, key) = term.shape() else {
        unreachable!();
    };
    if holds_local(locals, key) {
        return false;
    }
    all_within(events, locals, term)
}

/// Whether each of the patterns may guard tests: its key holds no local, and its other variables occur in these events.
pub(crate) fn all_may_guard(events: &[Event], patterns: &[Pattern]) -> bool
    ensures { IsTrue result ↔ ((p : Plain) → IsIn p patterns.now → MayGuard (variables_of_trace events.now) p) }
{
    for pattern in patterns {
        if !may_guard(events, pattern) {
            return false;
        }
    }
    true
}
