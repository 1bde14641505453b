// The values of assumptions.
ghost use Rattle.std.specs.Prelude.{◌≡◌, ◌++◌, map, IfOk, OnOk};
ghost use Rattle.cp_model.specs.Term.{atom_term};
ghost use Rattle.cp_derive.specs.Assumed.{assumed_values};

use cp_skel::{Assumptions, Atom, UniqueAt};
use cp_term::Term;
use std::alloc::{AllocError, Global};

/// Appends atoms as terms.
fn add_atoms(atoms: &[Atom], terms: &mut Vec<Term>) -> Result<(), AllocError>
    ensures { OnOk result (terms.new.items ≡ terms.old.items ++ map atom_term atoms.now) }
{
    for atom in atoms {
        let term = atom.as_term().copy()?;
        terms.push(term)?;
    }
    Ok(())
}

/// Appends unique values as terms.
fn add_uniques(uniques: &[UniqueAt], terms: &mut Vec<Term>) -> Result<(), AllocError>
    ensures { OnOk result (terms.new.items ≡ terms.old.items ++ map (λ u. atom_term u.value) uniques.now) }
{
    for unique in uniques {
        let term = unique.value().as_term().copy()?;
        terms.push(term)?;
    }
    Ok(())
}

/// How many values the assumptions have, or `usize::MAX` if there are more.
fn count_of(assumptions: &Assumptions) -> usize {
    let atoms = assumptions
        .non_originating()
        .len()
        .saturating_add(assumptions.penetrator_non_originating().len());
    atoms.saturating_add(assumptions.uniquely_originating().len())
}

/// The values of the assumptions: the atoms that the penetrator cannot make.
pub(crate) fn assumed_values(
    alloc: Global,
    assumptions: &Assumptions,
) -> Result<Vec<Term>, AllocError>
    ensures { IfOk result (λ ts. ts.items ≡ assumed_values assumptions.now) }
{
    let mut values = Vec::with_capacity(alloc, count_of(assumptions))?;
    add_atoms(assumptions.non_originating(), &mut values)?;
    add_atoms(assumptions.penetrator_non_originating(), &mut values)?;
    add_uniques(assumptions.uniquely_originating(), &mut values).map(|_| values)
}
