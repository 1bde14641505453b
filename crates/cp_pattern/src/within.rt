// Tests whether the variables of terms are among given ones.
ghost use Rattle.std.specs.Prelude.{◌≡◌, ◌||◌};
ghost use Rattle.cp_model.specs.Same.{has_variable};
ghost use Rattle.cp_model.specs.Strand.{variables_of_trace};
ghost use Rattle.cp_model.specs.Term.{variables_of};
ghost use Rattle.cp_pattern.specs.Within.{has_all_but};

use cp_model::{Variable, has_variable};
use cp_skel::{Event, occurs};
use cp_term::{Shape, Sort, Term, VarId};

/// Whether the variable of this sort is one of these.
pub(crate) fn is_local(locals: &[Variable], id: VarId, sort: Sort) -> bool
    ensures { result ≡ has_variable locals.now (record { sort = sort; number = id }) }
{
    let variable = Variable {
        sort,
        number: id.number(),
    };
    has_variable(locals, variable)
}

/// Whether the variable of this sort is one of these, or occurs in the events.
fn is_within(events: &[Event], locals: &[Variable], id: VarId, sort: Sort) -> bool
    ensures { result ≡ (has_variable locals.now (record { sort = sort; number = id }) || has_variable (variables_of_trace events.now) (record { sort = sort; number = id })) }
{
    is_local(locals, id, sort) || occurs(events, id, sort)
}

/// Whether each variable of the term is one of these, or occurs in the events.
pub fn all_within(events: &[Event], locals: &[Variable], term: &Term) -> bool
    ensures { result ≡ has_all_but locals.now (variables_of_trace events.now) (variables_of term.now) }
{
    let mut rest = term;
    loop {
        match rest.shape() {
            Shape::Tag(_) => return true,
            Shape::Variable(id, sort) => return is_within(events, locals, id, sort),
            Shape::Inverse(id) => return is_within(events, locals, id, Sort::Akey),
            Shape::Ltk(a, b) => return is_within(events, locals, a, Sort::Name)
                && is_within(events, locals, b, Sort::Name),
            Shape::Pubk(_, _, name) => return is_within(events, locals, name, Sort::Name),
            Shape::Pair(left, right) => {
                if !all_within(events, locals, left) {
                    return false;
                }
                rest = right;
            }
            Shape::Encryption(body, key) => {
                if !all_within(events, locals, key) {
                    return false;
                }
                rest = body;
            }
        }
    }
}
