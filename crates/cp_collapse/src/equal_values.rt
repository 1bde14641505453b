// Unifies the values of two instances of one role.
ghost use Rattle.std.specs.Prelude.{IfOk, MatchOption};
ghost use Rattle.cp_model.specs.Extensions.{IsClosedPrefix};
ghost use Rattle.cp_collapse.specs.FirstPartitions.{IsExactFor};
ghost use Rattle.cp_collapse.specs.Partials.{AreSolved, AlsoEqual, IsOfNoAssignment};

use crate::variable_terms::{never_agree, term_of_variable};
use cp_skel::{Instance, occurs, prefix_of};
use cp_term::VarId;
use cp_unify::{Subst, unify};
use std::alloc::{AllocError, Global};
use std::rc::Rc;

/// Most general bindings that imply the given ones and make the values of two instances of one role equal, for each variable that
/// occurs in both prefixes, that is, in the shorter one. `None` if no assignment that meets the given bindings makes them equal.
pub(crate) fn unify_instances(
    alloc: Global,
    a: &Instance,
    b: &Instance,
    given: &Rc<Subst>,
) -> Result<Option<Rc<Subst>>, AllocError>
    requires declared { IsClosedPrefix a.now.role a.now.height }
    requires solved { AreSolved given.now.value }
    ensures { IfOk result (λ found. MatchOption found
        (IsOfNoAssignment (AlsoEqual given.now.value a.now b.now))
        (λ r. IsExactFor (AlsoEqual given.now.value a.now b.now) r.value)) }
{
    let events = prefix_of(a.role(), a.height().min(b.height()));
    let first_values = a.values();
    let second_values = b.values();
    let mut bindings = given.clone()?;
    for (number, declaration) in a.role().variables().iter().enumerate() {
        let id = VarId::numbered(number);
        if !occurs(events, id, declaration.sort) {
            continue;
        }
        if never_agree(first_values, second_values, id, declaration.sort) {
            return Ok(None);
        }
        let first = term_of_variable(alloc, first_values, id, declaration.sort)?;
        let second = term_of_variable(alloc, second_values, id, declaration.sort)?;
        match unify(alloc, &first, &second, &bindings)? {
            Some(next) => bindings = Rc::new(alloc, next)?,
            None => return Ok(None),
        }
    }
    Ok(Some(bindings))
}
