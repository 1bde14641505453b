// The unique values of problems, and the parts of the skeletons that problems state.
ghost use Rattle.std.specs.Prelude.{◌≡◌, [], map, IfOk, OnOk};
ghost use Rattle.cp_model.specs.Problem.{numbers_from, variable_terms};
ghost use Rattle.cp_sexpr.specs.View.{view};
ghost use Rattle.cp_model.specs.Given.{atoms_onto, uniques_onto};
ghost use Rattle.cp_language.specs.Problems.{unique_faults, own_uniques, own_assumptions, own_skeleton};
ghost use Rattle.cp_language.specs.Roles.{atoms_in, forms_under, is_unique_item};
ghost use Rattle.cp_scope.specs.FirstFault.{first_onto};
ghost use Rattle.cp_load.specs.UncheckedProblems.{skeleton_unchecked};
ghost use Rattle.cp_scope.specs.Kinds.{is_of_kind};

use crate::pairs::pairs_of;
use crate::unchecked_problems::UncheckedSkeleton;
use crate::unique_origins::{add_own_uniques, originates};
use cp_base::Code;
use cp_scope::{
    FirstFault, Kind, Variable, Variables, atom_faults, atom_of, atoms_of, place_of, variable_term,
};
use cp_sexpr::Form;
use cp_skel::{
    Assumptions, Atom, Declaration, FromProblem, Order, Strand, UniqueAt, add_atoms, add_given,
};
use cp_term::{Term, VarTable};
use std::alloc::{AllocError, Global};

/// Notes the faults of one of a problem's unique values: it has to originate on one of these strands.
pub(crate) fn unique_faults(
    alloc: Global,
    strands: &[Strand],
    variables: &Variables,
    form: &Form,
    first: &mut FirstFault,
) -> Result<(), AllocError>
    ensures { OnOk result (first.new ≡ first_onto first.old (unique_faults strands.now variables.now (view form.now))) }
{
    let value = atom_of(alloc, variables, form)?;
    let holds = originates(strands, &value);
    let mut inside = FirstFault::new();
    atom_faults(variables, form, &mut inside);
    inside.note_unless_faulty(holds, place_of(form), Code::UniqNowhere);
    first.merge(inside);
    Ok(())
}

/// The atoms of the assumptions of this kind among these items, each once.
fn own_atoms(
    alloc: Global,
    declared: &Variables,
    kind: Kind,
    body: &[Form],
) -> Result<Vec<Atom>, AllocError>
    ensures { IfOk result (λ v. v.items ≡ atoms_onto [] (atoms_in declared.now (forms_under (is_of_kind kind) (map view body.now)))) }
{
    let atoms = atoms_of(alloc, declared, kind, body)?;
    let mut once = Vec::new(alloc);
    add_atoms(&mut once, &atoms).map(|_| once)
}

/// The unique values that these items state, with their origins on the strands, each once.
fn own_uniques(
    alloc: Global,
    declared: &Variables,
    strands: &[Strand],
    body: &[Form],
) -> Result<Vec<UniqueAt>, AllocError>
    ensures { IfOk result (λ v. v.items ≡ uniques_onto [] (own_uniques strands.now
        (atoms_in declared.now (forms_under is_unique_item (map view body.now))))) }
{
    let values = atoms_of(alloc, declared, Kind::Unique, body)?;
    let mut uniques = Vec::new(alloc);
    add_own_uniques(strands, &values, &mut uniques).map(|_| uniques)
}

/// The assumptions that these items of a problem state.
fn own_assumptions(
    alloc: Global,
    declared: &Variables,
    strands: &[Strand],
    body: &[Form],
) -> Result<Assumptions, AllocError>
    ensures { IfOk result (λ a. a ≡ own_assumptions declared.now strands.now (map view body.now)) }
{
    Assumptions::of(
        own_atoms(alloc, declared, Kind::Non, body),
        own_atoms(alloc, declared, Kind::PenetratorNon, body),
        own_uniques(alloc, declared, strands, body),
    )
}

/// The numbers of these strands.
fn numbers_of(alloc: Global, strands: &[Strand]) -> Result<Vec<usize>, AllocError>
    ensures { IfOk result (λ v. v.items ≡ numbers_from 0 strands.now) }
{
    let mut numbers = Vec::new(alloc);
    for number in 0..strands.len() {
        numbers.push(number)?;
    }
    Ok(numbers)
}

/// The variables as terms.
fn variable_terms(alloc: Global, variables: &[Declaration]) -> Result<Vec<Term>, AllocError>
    ensures { IfOk result (λ v. v.items ≡ variable_terms 0 variables.now) }
{
    let mut terms = Vec::new(alloc);
    for (number, declaration) in variables.iter().enumerate() {
        let sort = declaration.sort;
        let term = variable_term(alloc, Variable { sort, number })?;
        terms.push(term)?;
    }
    Ok(terms)
}

/// A table of these variables.
pub fn table_of(alloc: Global, variables: &[Declaration]) -> Result<VarTable, AllocError>
    ensures { IfOk result (λ t. t ≡ variables.now) }
{
    let mut table = VarTable::new(alloc);
    for declaration in variables {
        table.fresh(declaration.identifier.as_str(), declaration.sort)?;
    }
    Ok(table)
}

/// The parts of the skeleton of a problem with these strands and declared variables, and with `all` as its variables.
/// It maps to itself.
pub(crate) fn own_skeleton(
    alloc: Global,
    declared: &Variables,
    strands: Vec<Strand>,
    body: &[Form],
    all: &[Declaration],
) -> Result<UncheckedSkeleton, AllocError>
    ensures skeleton { IfOk result (λ k. skeleton_unchecked k ≡ own_skeleton declared.now strands.items (map view body.now) all.now) }
    ensures variables { IfOk result (λ k. k.variables ≡ all.now) }
{
    let own = own_assumptions(alloc, declared, &strands, body)?;
    let mut assumptions = own.copy(alloc)?;
    add_given(alloc, &strands, &mut assumptions)?;
    let pairs = pairs_of(alloc, body)?;
    Ok(UncheckedSkeleton {
        variables: table_of(alloc, all)?,
        order: Order::of(Vec::from_slice(alloc, &pairs)?),
        assumptions,
        from_problem: FromProblem::new(
            numbers_of(alloc, &strands)?,
            variable_terms(alloc, all)?,
            own,
            pairs,
        ),
        strands,
    })
}
