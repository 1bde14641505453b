// The terms of instances.
ghost use Rattle.std.specs.Prelude.{◌≡◌, IfOk};
ghost use Rattle.std.specs.Option.{option_map};
ghost use Rattle.cp_model.specs.Strand.{variables_of_prefix};
ghost use Rattle.cp_model.specs.PrefixVariables.{is_added};
ghost use Rattle.cp_strand.specs.Valued.{term_or, valued};

use crate::prefix_variables::is_added;
use crate::protocol::Role;
use crate::strand::Instance;
use cp_model::item_at;
use cp_term::{Sort, Term, VarId, var};
use std::alloc::{AllocError, Global};
use std::rc::Rc;

/// A copy of a term, or the variable itself if there is none.
fn term_or_variable(
    alloc: Global,
    term: Option<&Term>,
    id: VarId,
    sort: Sort,
) -> Result<Term, AllocError>
    ensures { IfOk result (λ t. t ≡ term_or (record { sort = sort; number = id }) (option_map (λ u. u.now) term.entry)) }
{
    match term {
        Some(term) => term.copy(),
        None => var(alloc, id, sort),
    }
}

/// The terms of a role's variables: those that occur in the prefix and not in the earlier one take the values in order;
/// the others keep their old terms.
fn terms_of(
    alloc: Global,
    role: &Role,
    before: usize,
    height: usize,
    old: &[Term],
    values: &[Term],
) -> Result<Vec<Term>, AllocError>
    ensures { IfOk result (λ v. v.items ≡ valued
        (is_added (variables_of_prefix role.now before) (variables_of_prefix role.now height))
        old.now 0 role.now.variables values.now) }
{
    let mut terms = Vec::with_capacity(alloc, role.variables().len())?;
    let mut next = 0;
    for (number, declaration) in role.variables().iter().enumerate() {
        let id = VarId::numbered(number);
        if !is_added(role, before, height, id, declaration.sort) {
            terms.push(term_or_variable(alloc, item_at(old, number), id, declaration.sort)?)?;
            continue;
        }
        terms.push(term_or_variable(alloc, item_at(values, next), id, declaration.sort)?)?;
        next += 1;
    }
    Ok(terms)
}

/// An instance of a role at a height. The variables of its prefix that do not occur in the earlier one become the
/// values, in the order of their declarations; the others keep their old terms.
pub fn instance_of(
    alloc: Global,
    role: &Rc<Role>,
    before: usize,
    height: usize,
    old: &[Term],
    values: &[Term],
) -> Result<Instance, AllocError>
    ensures role { IfOk result (λ i. i.role ≡ role.now.value) }
    ensures height { IfOk result (λ i. i.height ≡ height) }
    ensures terms { IfOk result (λ i. i.values ≡ valued
        (is_added (variables_of_prefix role.now.value before) (variables_of_prefix role.now.value height))
        old.now 0 role.now.value.variables values.now) }
{
    let values = terms_of(alloc, role, before, height, old, values)?;
    role.clone().map(|role| Instance::new(role, height, values))
}
