// The uses of a skeleton's variables.
ghost use Rattle.std.specs.Prelude.{◌≡◌, ◌++◌, IfOk, OnOk};
ghost use Rattle.cp_model.specs.Problem.{variables_of_atoms, variables_of_skeleton, variables_of_terms, variables_of_uniques};
ghost use Rattle.cp_model.specs.Strand.{variables_of_trace};
ghost use Rattle.cp_model.specs.Term.{variables_of};

use crate::assumptions::UniqueAt;
use crate::skeleton::Skeleton;
use cp_strand::{Atom, Event};
use cp_term::Term;
use std::alloc::{AllocError, Global};

/// Appends a transmission of the term.
fn add_term(term: &Term, events: &mut Vec<Event>) -> Result<(), AllocError>
    ensures { OnOk result (variables_of_trace events.new.items ≡ variables_of_trace events.old.items ++ variables_of term.now) }
{
    let term = term.copy()?;
    events.push(Event::Send(term)).map_err(AllocError::from)
}

/// Appends transmissions of the terms.
fn add_terms(terms: &[Term], events: &mut Vec<Event>) -> Result<(), AllocError>
    ensures { OnOk result (variables_of_trace events.new.items ≡ variables_of_trace events.old.items ++ variables_of_terms terms.now) }
{
    for term in terms {
        add_term(term, events)?;
    }
    Ok(())
}

/// Appends transmissions of the atoms.
fn add_atoms(atoms: &[Atom], events: &mut Vec<Event>) -> Result<(), AllocError>
    ensures { OnOk result (variables_of_trace events.new.items ≡ variables_of_trace events.old.items ++ variables_of_atoms atoms.now) }
{
    for atom in atoms {
        add_term(atom.as_term(), events)?;
    }
    Ok(())
}

/// Appends transmissions of the unique values.
fn add_uniques(uniques: &[UniqueAt], events: &mut Vec<Event>) -> Result<(), AllocError>
    ensures { OnOk result (variables_of_trace events.new.items ≡ variables_of_trace events.old.items ++ variables_of_uniques uniques.now) }
{
    for unique in uniques {
        add_term(unique.value().as_term(), events)?;
    }
    Ok(())
}

/// Transmissions of all terms in which the skeleton uses variables: its messages, the values of its assumptions, and the values
/// of its problem's variables.
pub fn used_terms(alloc: Global, k: &Skeleton) -> Result<Vec<Event>, AllocError>
    ensures { IfOk result (λ es. variables_of_trace es.items ≡ variables_of_skeleton k.now ++ variables_of_terms k.now.from_problem.values) }
{
    let mut events = Vec::new(alloc);
    let occurrences = k.events(alloc)?;
    for occurrence in &occurrences {
        add_term(occurrence.event().payload(), &mut events)?;
    }
    let assumptions = k.assumptions();
    add_atoms(assumptions.non_originating(), &mut events)?;
    add_atoms(assumptions.penetrator_non_originating(), &mut events)?;
    add_uniques(assumptions.uniquely_originating(), &mut events)?;
    add_terms(k.from_problem().values(), &mut events)?;
    Ok(events)
}
