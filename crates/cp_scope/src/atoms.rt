// Atoms of assumptions.
ghost use Rattle.std.specs.Prelude.{◌≡◌, ◌++◌, map, IfOk, OnOk};
ghost use Rattle.cp_model.specs.Term.{text_variable};
ghost use Rattle.cp_sexpr.specs.View.{view};
ghost use Rattle.cp_language.specs.Terms.{term_of, as_atom, atom_faults};
ghost use Rattle.cp_language.specs.Roles.{headed, each_faults, atoms_in, forms_under, item_or_none};
ghost use Rattle.cp_scope.specs.FirstFault.{first_onto};
ghost use Rattle.cp_scope.specs.Kinds.{is_of_kind};

use crate::faults::atom_faults;
use crate::terms::term_of;
use crate::{FirstFault, ItemHead, Variables, headed, item_head, items_behind};
use cp_sexpr::Form;
use cp_strand::Atom;
use cp_term::{Sort, VarId, var};
use std::alloc::{AllocError, Global};

/// The three kinds of assumptions.
#[derive(Clone, Copy)]
pub enum Kind {
    Non,
    PenetratorNon,
    Unique,
}

/// Placeholder for an ill-formed atom.
pub fn no_atom(alloc: Global) -> Result<Atom, AllocError>
    ensures { IfOk result (λ a. a ≡ text_variable 0) }
{
    let text = var(alloc, VarId::numbered(0), Sort::Text)?;
    match Atom::new(text) {
        Some(atom) => Ok(atom),
        None => unreachable!(),
    }
}

/// The atom that a form stands for. What stands for a form with faults has no meaning.
pub fn atom_of(alloc: Global, variables: &Variables, form: &Form) -> Result<Atom, AllocError>
    ensures { IfOk result (λ a. a ≡ as_atom (term_of variables.now (view form.now))) }
{
    match Atom::new(term_of(alloc, variables, form)?) {
        Some(atom) => Ok(atom),
        None => no_atom(alloc),
    }
}

/// Notes the faults of the items of an assumption.
pub fn atoms_faults(variables: &Variables, items: &[Form], first: &mut FirstFault)
    ensures { first.new ≡ first_onto first.old (each_faults (atom_faults variables.now) (map view items.now)) }
{
    for item in items {
        atom_faults(variables, item, first);
    }
}

/// Whether a list states assumptions of this kind.
fn is_of_kind(kind: Kind, form: &Form) -> bool
    ensures { result ≡ is_of_kind kind (item_or_none (headed (view form.now))) }
{
    let Some(list) = headed(form) else {
        return false;
    };
    matches!(
        (kind, item_head(list.head)),
        (Kind::Non, ItemHead::Non)
            | (Kind::PenetratorNon, ItemHead::PenetratorNon)
            | (Kind::Unique, ItemHead::Unique)
    )
}

/// Appends the atoms that the items of a list stand for.
fn add_atoms(
    alloc: Global,
    variables: &Variables,
    items: &[Form],
    atoms: &mut Vec<Atom>,
) -> Result<(), AllocError>
    ensures { OnOk result (atoms.new.items ≡ atoms.old.items ++ atoms_in variables.now (map view items.now)) }
{
    for item in items {
        let atom = atom_of(alloc, variables, item)?;
        atoms.push(atom)?;
    }
    Ok(())
}

/// The atoms of the assumptions of this kind among these items.
pub fn atoms_of(
    alloc: Global,
    variables: &Variables,
    kind: Kind,
    items: &[Form],
) -> Result<Vec<Atom>, AllocError>
    ensures { IfOk result (λ v. v.items ≡ atoms_in variables.now (forms_under (is_of_kind kind) (map view items.now))) }
{
    let mut atoms = Vec::new(alloc);
    for item in items {
        if is_of_kind(kind, item) {
            add_atoms(alloc, variables, items_behind(item), &mut atoms)?;
        }
    }
    Ok(atoms)
}
