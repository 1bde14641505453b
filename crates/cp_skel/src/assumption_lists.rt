// Lists of assumptions in which each stands once.
ghost use Rattle.std.specs.Prelude.{◌≡◌, [], ◌∷◌, OnOk, OnErr};
ghost use Rattle.cp_model.specs.Given.{atoms_onto, uniques_onto};

use crate::assumptions::UniqueAt;
use crate::gathered::{add_missing, add_once};
use cp_strand::Atom;
use std::alloc::AllocError;

/// Appends an atom, unless it is already in the list. On an error the list is unchanged.
pub fn add_atom(atoms: &mut Vec<Atom>, atom: Atom) -> Result<(), AllocError>
    ensures added { OnOk result (atoms.new.items ≡ atoms_onto atoms.old.items (atom ∷ [])) }
    ensures unchanged { OnErr result (atoms.new.items ≡ atoms.old.items) }
{
    add_once(atoms, atom)
}

/// Appends copies of these atoms, except those already in the list. On an error some may have been added.
pub fn add_atoms(atoms: &mut Vec<Atom>, more: &[Atom]) -> Result<(), AllocError>
    ensures { OnOk result (atoms.new.items ≡ atoms_onto atoms.old.items more.now) }
{
    add_missing(more, &[], atoms)
}

/// Appends a unique value with its origin, unless it is already in the list. On an error the list is unchanged.
pub fn add_unique(uniques: &mut Vec<UniqueAt>, unique: UniqueAt) -> Result<(), AllocError>
    ensures added { OnOk result (uniques.new.items ≡ uniques_onto uniques.old.items (unique ∷ [])) }
    ensures unchanged { OnErr result (uniques.new.items ≡ uniques.old.items) }
{
    add_once(uniques, unique)
}
