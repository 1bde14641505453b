// The atoms that receptions carry.
ghost use Rattle.std.specs.Prelude.{◌≡◌, [], IfOk, OnOk};
ghost use Rattle.cp_model.specs.Given.{atoms_onto};
ghost use Rattle.cp_term.specs.Spines.{HasTail};
ghost use Rattle.cp_normal.specs.ReceivedAtomLists.{carried_atoms, received_atoms, heard_of, heard_among};

use cp_skel::{Atom, Event, LocatedEvent, Node, add_atom};
use cp_term::{Shape, Term};
use std::alloc::{AllocError, Global};

/// Appends a term without parts, if it is an atom and not listed yet.
fn add_leaf(leaf: &Term, atoms: &mut Vec<Atom>) -> Result<(), AllocError>
    requires { ¬ HasTail leaf.now }
    ensures { OnOk result (atoms.new.items ≡ atoms_onto atoms.old.items (carried_atoms leaf.now)) }
{
    match Atom::new(leaf.copy()?) {
        Some(atom) => add_atom(atoms, atom),
        None => Ok(()),
    }
}

/// Appends the atoms that the term carries, in preorder, except those listed already. A loop walks the right spine, which may be
/// long.
fn add_carried(term: &Term, atoms: &mut Vec<Atom>) -> Result<(), AllocError>
    ensures { OnOk result (atoms.new.items ≡ atoms_onto atoms.old.items (carried_atoms term.now)) }
{
    let mut rest = term;
    'rest: loop {
        match rest.shape() {
            Shape::Pair(left, right) => {
                add_carried(left, atoms)?;
                rest = right;
            }
            Shape::Encryption(body, _) => rest = body,
            _ => return add_leaf(rest, atoms),
        }
    }
}

/// Appends the atoms that the event carries if it is a reception, except those listed already.
fn add_received(event: &Event, atoms: &mut Vec<Atom>) -> Result<(), AllocError>
    ensures { OnOk result (atoms.new.items ≡ atoms_onto atoms.old.items (received_atoms event.now)) }
{
    match event {
        Event::Send(_) => Ok(()),
        Event::Receive(message) => add_carried(message, atoms),
    }
}

/// Appends the atoms that the event carries if it is a reception before the node on the node's strand, except those listed
/// already.
fn add_heard(
    occurrence: &LocatedEvent<'_>,
    node: Node,
    atoms: &mut Vec<Atom>,
) -> Result<(), AllocError>
    ensures { OnOk result (atoms.new.items ≡ atoms_onto atoms.old.items (heard_of node occurrence.now)) }
{
    let at = occurrence.node();
    if at.strand == node.strand && at.index < node.index {
        return add_received(occurrence.event(), atoms);
    }
    Ok(())
}

/// The atoms carried by the receptions before the node on its strand, among these events: each once, in the order of the
/// receptions, then of the positions.
pub(crate) fn atoms_received(
    alloc: Global,
    occurrences: &[LocatedEvent<'_>],
    node: Node,
) -> Result<Vec<Atom>, AllocError>
    ensures { IfOk result (λ atoms. atoms.items ≡ atoms_onto [] (heard_among node occurrences.now)) }
{
    let mut atoms = Vec::new(alloc);
    for occurrence in occurrences {
        add_heard(occurrence, node, &mut atoms)?;
    }
    Ok(atoms)
}
