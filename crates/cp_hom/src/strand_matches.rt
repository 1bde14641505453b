// Maps strands to parts of others.
ghost use Rattle.std.specs.Prelude.{◌≡◌, IfOk};
ghost use Rattle.cp_model.specs.Strand.{variables_of_prefix};
ghost use Rattle.cp_model.specs.Term.{apply_to};
ghost use Rattle.cp_model.specs.Values.{substitution_by};
ghost use Rattle.cp_term.specs.Variables.{variable_of_sort};
ghost use Rattle.cp_hom.specs.PartialMaps.{partial_view, FindsMaps};
ghost use Rattle.cp_hom.specs.Counterparts.{MakesValues, MakesPart};

use crate::known::value_at;
use crate::partials::{Partial, match_terms};
use cp_skel::{Role, Strand, StrandShape, is_same_role, value_of_variable};
use cp_term::{Sort, Term, VarId};
use std::alloc::{AllocError, Global};

/// Maps what a role's variable is under the values `from` to what it is under `to`.
fn match_variable(
    alloc: Global,
    id: VarId,
    sort: Sort,
    from: &[Term],
    to: &[Term],
    given: Partial,
) -> Result<Option<Partial>, AllocError>
    ensures { IfOk result (FindsMaps
        (λ f. apply_to f.terms (apply_to (substitution_by from.now) (variable_of_sort sort id)) ≡ apply_to (substitution_by to.now) (variable_of_sort sort id))
        (partial_view given)) }
{
    if let (Some(first), Some(second)) = (value_at(from, id, sort), value_at(to, id, sort)) {
        return match_terms(alloc, first, second, given);
    }
    let first = value_of_variable(alloc, from, id, sort)?;
    let second = value_of_variable(alloc, to, id, sort)?;
    match_terms(alloc, &first, &second, given)
}

/// Maps what the variables of a role's prefix are under the values `from` to what they are under `to`. Then the messages of the
/// prefix agree too, and need not be made.
fn match_values(
    alloc: Global,
    role: &Role,
    height: usize,
    from: &[Term],
    to: &[Term],
    given: Partial,
) -> Result<Option<Partial>, AllocError>
    ensures { IfOk result (FindsMaps
        (λ f. MakesValues 0 (variables_of_prefix role.now height) f.terms (substitution_by from.now) (substitution_by to.now))
        (partial_view given)) }
{
    role.is_sound();
    let mut found = given;
    for (number, declaration) in role.variables().iter().enumerate() {
        let id = VarId::numbered(number);
        if !role.occurs_before(id, declaration.sort, height) {
            continue;
        }
        match match_variable(alloc, id, declaration.sort, from, to, found)? {
            Some(next) => found = next,
            None => return Ok(None),
        }
    }
    Ok(Some(found))
}

/// Makes a strand a part of another.
pub(crate) fn match_strands(
    alloc: Global,
    from: &Strand,
    to: &Strand,
    given: Partial,
) -> Result<Option<Partial>, AllocError>
    ensures { IfOk result (FindsMaps (λ f. MakesPart f.terms from.now to.now) (partial_view given)) }
{
    match (from.shape(), to.shape()) {
        (StrandShape::Instance(first), StrandShape::Instance(second)) => {
            let role: &Role = first.role();
            let height = first.height();
            if height > second.height() || !is_same_role(role, second.role()) {
                return Ok(None);
            }
            match_values(alloc, role, height, first.values(), second.values(), given)
        }
        (StrandShape::Listener(first), StrandShape::Listener(second)) => {
            match_terms(alloc, first, second, given)
        }
        _ => Ok(None),
    }
}
