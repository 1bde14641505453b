// The variables of a term that a skeleton does not use.
ghost use Rattle.std.specs.Prelude.{◌≡◌, [], ◌∷◌, IfOk, OnOk};
ghost use Rattle.cp_model.specs.SortNumbers.{sort_number};
ghost use Rattle.cp_model.specs.Strand.{variables_of_trace};
ghost use Rattle.cp_model.specs.Term.{variables_of};
ghost use Rattle.cp_model.specs.declared.sort.Sort.TheVariants.{Name as name_sort};
ghost use Rattle.cp_escape.specs.UsedVariables.{variable_before, PutsNew};
ghost use Rattle.cp_escape.specs.WidenedPattern.{AreNewVariables};

use cp_model::{Variable, has_variable};
use cp_skel::{Event, Skeleton, occurs, used_terms};
use cp_term::{Locals, Shape, Sort, Term, VarId};
use std::alloc::{AllocError, Global};

/// The place of a sort among all sorts.
fn place_of(sort: Sort) -> usize
    ensures { result ≡ sort_number sort }
{
    match sort {
        Sort::Text => 0,
        Sort::Datum => 1,
        Sort::Name => 2,
        Sort::Skey => 3,
        Sort::Akey => 4,
    }
}

/// Whether the first variable has a smaller number, or the same number and an earlier sort.
fn stands_before(first: Variable, second: Variable) -> bool
    ensures { result ≡ variable_before first second }
{
    first.number < second.number
        || (first.number == second.number && place_of(first.sort) < place_of(second.sort))
}

/// Puts the variable in its place among new ones, unless it is there or occurs in `uses`.
fn put_new(uses: &[Event], id: VarId, sort: Sort, new: &mut Vec<Variable>) -> Result<(), AllocError>
    ensures { OnOk result (PutsNew (variables_of_trace uses.now) (record { sort = sort; number = id } ∷ []) new.old.items new.new.items) }
{
    let variable = Variable {
        sort,
        number: id.number(),
    };
    if has_variable(new, variable) || occurs(uses, id, sort) {
        return Ok(());
    }
    let place = new.partition_point(|other| stands_before(*other, variable));
    new.insert(place, variable)?;
    Ok(())
}

/// Puts two names in their places among new ones, unless they occur in `uses`.
fn put_names(uses: &[Event], a: VarId, b: VarId, new: &mut Vec<Variable>) -> Result<(), AllocError>
    ensures { OnOk result (PutsNew (variables_of_trace uses.now) (record { sort = name_sort; number = a } ∷ record { sort = name_sort; number = b } ∷ []) new.old.items new.new.items) }
{
    put_new(uses, a, Sort::Name, new)?;
    put_new(uses, b, Sort::Name, new)
}

/// Puts each variable of the term in its place among new ones, unless it occurs in `uses`. Right parts and plaintexts are walked
/// by a loop, since a term may be long.
fn put_all_new(uses: &[Event], term: &Term, new: &mut Vec<Variable>) -> Result<(), AllocError>
    ensures { OnOk result (PutsNew (variables_of_trace uses.now) (variables_of term.now) new.old.items new.new.items) }
{
    let mut rest = term;
    loop {
        match rest.shape() {
            Shape::Tag(_) => return Ok(()),
            Shape::Variable(id, sort) => return put_new(uses, id, sort, new),
            Shape::Inverse(id) => return put_new(uses, id, Sort::Akey, new),
            Shape::Ltk(a, b) => return put_names(uses, a, b, new),
            Shape::Pubk(_, _, name) => return put_new(uses, name, Sort::Name, new),
            Shape::Pair(left, right) => {
                put_all_new(uses, left, new)?;
                rest = right;
            }
            Shape::Encryption(body, key) => {
                put_all_new(uses, key, new)?;
                rest = body;
            }
        }
    }
}

/// The variables of the term that the skeleton does not use, in ascending order of their numbers; those with one number in the
/// order of their sorts.
pub(crate) fn new_variables(alloc: Global, k: &Skeleton, term: &Term) -> Result<Locals, AllocError>
    ensures { IfOk result (AreNewVariables k.now term.now) }
{
    let uses = used_terms(alloc, k)?;
    let mut new = Vec::new(alloc);
    put_all_new(&uses, term, &mut new)?;
    Ok(Locals::of(new))
}
