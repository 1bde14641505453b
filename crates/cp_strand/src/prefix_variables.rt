// Variables that occur in terms and in the prefixes of roles.
ghost use Rattle.std.specs.Prelude.{◌≡◌, ◌&&◌, ◌==◌, IfOk};
ghost use Rattle.cp_model.specs.Term.{variables_of, variables_of_atom};
ghost use Rattle.cp_model.specs.Strand.{variables_of_trace, variables_of_prefix, prefix_of};
ghost use Rattle.cp_model.specs.Same.{same_sort, has_variable, has_variables};
ghost use Rattle.cp_model.specs.PrefixVariables.{is_added};
ghost use Rattle.cp_strand.specs.FirstEvents.{first_event, first_events, is_reached};

use crate::atom::Atom;
use crate::protocol::{Event, Role};
use cp_model::Declaration;
use cp_term::{Shape, Sort, Term, VarId};
use std::alloc::{AllocError, Global};

/// The first `height` events of a role.
pub fn prefix_of(role: &Role, height: usize) -> &[Event]
    ensures { result.now ≡ prefix_of role.now height }
{
    let events = role.trace();
    if events.len() < height {
        return events;
    }
    let (prefix, _) = events.split_at(height);
    prefix
}

/// Whether one variable is the other.
fn is_variable(id: VarId, sort: Sort, other: VarId, other_sort: Sort) -> bool
    ensures { result ≡ (same_sort sort other_sort && (id == other)) }
{
    sort == other_sort && id == other
}

/// Whether the variable occurs in the term.
fn occurs_in(term: &Term, id: VarId, sort: Sort) -> bool
    ensures { result ≡ has_variable (variables_of term.now) (record { sort = sort; number = id }) }
{
    let mut rest = term;
    'rest: loop {
        if !rest.may_have(id) {
            return false;
        }
        match rest.shape() {
            Shape::Tag(_) => return false,
            Shape::Variable(other, other_sort) => return is_variable(other, other_sort, id, sort),
            Shape::Inverse(other) => return is_variable(other, Sort::Akey, id, sort),
            Shape::Ltk(a, b) => return is_variable(a, Sort::Name, id, sort)
                || is_variable(b, Sort::Name, id, sort),
            Shape::Pubk(_, _, name) => return is_variable(name, Sort::Name, id, sort),
            Shape::Pair(left, right) => {
                if occurs_in(left, id, sort) {
                    return true;
                }
                rest = right;
            }
            Shape::Encryption(body, key) => {
                if occurs_in(key, id, sort) {
                    return true;
                }
                rest = body;
            }
        }
    }
}

/// Whether the variable of this sort occurs in the events.
pub fn occurs(events: &[Event], id: VarId, sort: Sort) -> bool
    ensures { result ≡ has_variable (variables_of_trace events.now) (record { sort = sort; number = id }) }
{
    for event in events {
        if occurs_in(event.payload(), id, sort) {
            return true;
        }
    }
    false
}

/// The index of the first event in which the variable of this sort occurs, if it occurs in one.
fn first_event(events: &[Event], id: VarId, sort: Sort) -> Option<usize>
    ensures { result ≡ first_event events.now (record { sort = sort; number = id }) }
{
    events
        .iter()
        .position(|event| occurs_in(event.payload(), id, sort))
}

/// For each declared variable the index of the first event in which it occurs, if it occurs in one.
pub(crate) fn first_events(
    alloc: Global,
    variables: &[Declaration],
    events: &[Event],
) -> Result<Vec<Option<usize>>, AllocError>
    ensures { IfOk result (λ v. v.items ≡ first_events variables.now events.now) }
{
    variables
        .iter()
        .enumerate()
        .map(|(number, declaration)| {
            first_event(events, VarId::numbered(number), declaration.sort)
        })
        .collect(alloc)
}

/// Whether an event with this index, if there is one, is among the first `height` events.
pub(crate) fn is_reached(index: Option<usize>, height: usize) -> bool
    ensures { result ≡ is_reached index height }
{
    match index {
        Some(index) => index < height,
        None => false,
    }
}

/// Whether the variable of this sort occurs in the first `height` events of a role and not in the first `before`.
pub fn is_added(role: &Role, before: usize, height: usize, id: VarId, sort: Sort) -> bool
    ensures { result ≡ is_added (variables_of_prefix role.now before) (variables_of_prefix role.now height)
        (record { sort = sort; number = id }) }
{
    let occurs = role.occurs_before(id, sort, height);
    if before == 0 {
        return occurs;
    }
    occurs && !role.occurs_before(id, sort, before)
}

/// Whether all variables of an atom occur in the first `height` events of a role.
pub(crate) fn all_occur_before(role: &Role, atom: &Atom, height: usize) -> bool
    ensures { result ≡ has_variables (variables_of_prefix role.now height) (variables_of_atom atom.now) }
{
    match atom.as_term().shape() {
        Shape::Variable(id, sort) => role.occurs_before(id, sort, height),
        Shape::Inverse(id) => role.occurs_before(id, Sort::Akey, height),
        Shape::Ltk(a, b) => {
            role.occurs_before(a, Sort::Name, height) && role.occurs_before(b, Sort::Name, height)
        }
        Shape::Pubk(_, _, name) => role.occurs_before(name, Sort::Name, height),
        Shape::Tag(_) | Shape::Pair(..) | Shape::Encryption(..) => unreachable!(),
    }
}
