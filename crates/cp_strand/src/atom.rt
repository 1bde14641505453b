// Atoms: terms of the atom sorts.
ghost use Rattle.std.specs.Prelude.{◌≡◌, ◌↔◌, IfOk, IfSome, IfNone, IsTrue};
ghost use Rattle.cp_lists.specs.Lists.{IsIn};
ghost use Rattle.cp_model.specs.Term.{AtomTerm, atom_term};
ghost use Rattle.cp_strand.specs.Atoms.{is_atom};

use crate::same::{Same, has};
use cp_term::{Shape, Term};
use std::alloc::AllocError;
use std::marker::Model;

/// A term of an atom sort.
#[derive(Drop)]
pub struct Atom {
    term: Term,
}

impl Model for Atom {
    ghost use Rattle.std.specs.Prelude.{◌≡◌};
    ghost use Rattle.cp_model.specs.Term.{AtomTerm as Plain, atom_term};

    ghost Value = { Plain };

    ghost use Rattle.cp_strand.specs.Atoms.{atom_of};

    ghost view = { λ a. atom_of a.term };

    ghost invariant = { λ a. a.term ≡ atom_term (atom_of a.term) };
}

/// Whether a term is an atom.
fn is_atom(term: &Term) -> bool
    ensures { result ≡ is_atom term.now }
{
    !matches!(
        term.shape(),
        Shape::Tag(_) | Shape::Pair(..) | Shape::Encryption(..)
    )
}

impl Atom {
    /// The atom that a term is, if it is one.
    pub fn new(term: Term) -> Option<Atom>
        ensures some { IfSome result (λ a. term ≡ atom_term a) }
        ensures none { IfNone result ((a : AtomTerm) → term ≡ atom_term a → ⊥) }
    {
        if is_atom(&term) {
            Some(Atom { term })
        } else {
            None
        }
    }

    /// The atom as a term.
    pub fn as_term(&self) -> &Term
        ensures { result.now ≡ atom_term self.now }
    {
        &self.term
    }

    /// Whether the atoms are the same.
    pub fn same(&self, other: &Atom) -> bool
        ensures { IsTrue result ↔ (self.now ≡ other.now) }
    {
        self.as_term().same(other.as_term())
    }

    /// Another handle to the same atom.
    pub fn copy(&self) -> Result<Atom, AllocError>
        ensures { IfOk result (λ a. a ≡ self.now) }
    {
        let term = self.term.copy()?;
        Ok(Atom { term })
    }
}

impl Same for Atom {
    fn is_same(&self, other: &Atom) -> bool {
        self.same(other)
    }
}

impl Clone for Atom {
    ghost is_clone = { λ a b. b ≡ a };

    fn clone(&self) -> Result<Atom, AllocError> {
        self.copy()
    }
}

/// Whether the atom is one of these.
pub fn has_atom(atoms: &[Atom], atom: &Atom) -> bool
    ensures { IsTrue result ↔ IsIn atom.now atoms.now }
{
    has(atoms, atom)
}
