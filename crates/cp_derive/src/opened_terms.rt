// Opens what was sent, until nothing more opens.
ghost use Rattle.std.specs.Prelude.{◌≡◌, ◌<◌, true, false, List, [], ◌++◌, slice_index_or, vec_len, IfOk, OnOk};
ghost use Rattle.cp_model.specs.Term.{AtomTerm, KeyTerm, Term as Plain, atom_term, enc_term};
ghost use Rattle.cp_term.specs.Keys.{key_as_term};
ghost use Rattle.cp_derive.specs.Buildable.{Builds};
ghost use Rattle.cp_derive.specs.declared.opened_terms.Locked.{Locked as LockedData};
ghost use Rattle.cp_derive.specs.OpenedTerms.{weight, TakesApart, Advances, AreLocked, IsOpened};

use crate::built_terms::{builds, is_among, is_at_hand};
use crate::form::{Form, form_of};
use cp_term::{Term, invert};
use std::alloc::{AllocError, Global};

/// A held encryption that is not open yet: its plaintext, and the inverse of its key, which would open it.
#[derive(Drop)]
pub(crate) struct Locked {
    body: Term,
    inverse: Term,
}

/// The secret atoms and the encryptions that are held, and those of the encryptions that are not open yet.
#[derive(Drop)]
pub(crate) struct Opening {
    held: Vec<Term>,
    locked: Vec<Locked>,
}

/// Holds an atom, unless it is at hand already.
fn hold(secrets: &[Term], atom: &Term, opening: &mut Opening) -> Result<(), AllocError>
    requires { (a : AtomTerm) × (atom.now ≡ atom_term a) }
    ensures { OnOk result (TakesApart secrets.now atom.now opening.old opening.new) }
{
    if !is_at_hand(secrets, &opening.held, atom) {
        let atom = atom.copy()?;
        opening.held.push(atom)?;
    }
    Ok(())
}

/// Holds an encryption with this plaintext and key, and locks it, unless it is held already.
fn lock(
    alloc: Global,
    encryption: &Term,
    body: &Term,
    key: &Term,
    opening: &mut Opening,
) -> Result<(), AllocError>
    requires { (k : KeyTerm) × (key.now ≡ key_as_term k) × (encryption.now ≡ enc_term body.now k) }
    ensures { OnOk result ((secrets : List Plain) → TakesApart secrets encryption.now opening.old opening.new) }
{
    if !is_among(&opening.held, encryption) {
        let body = body.copy()?;
        let inverse = invert(alloc, key)?;
        let encryption = encryption.copy()?;
        opening.held.push(encryption)?;
        opening.locked.push(Locked { body, inverse })?;
    }
    Ok(())
}

/// Takes a term apart, down to terms that can be made, are held, or are locked.
fn take_apart(
    alloc: Global,
    secrets: &[Term],
    term: &Term,
    opening: &mut Opening,
) -> Result<(), AllocError>
    ensures { OnOk result (TakesApart secrets.now term.now opening.old opening.new) }
{
    let mut rest = term;
    loop {
        match form_of(rest) {
            Form::Tag => return Ok(()),
            Form::Atom => return hold(secrets, rest, opening),
            Form::Pair(left, right) => {
                take_apart(alloc, secrets, left, opening)?;
                rest = right;
            }
            Form::Encryption(body, key) => return lock(alloc, rest, body, key, opening),
        }
    }
}

/// Opens the encryption that is locked at this place.
fn unlock_at(
    alloc: Global,
    secrets: &[Term],
    place: usize,
    opening: &mut Opening,
) -> Result<(), AllocError>
    requires within { place < vec_len opening.old.locked }
    requires key { (d : LockedData) → Builds secrets.now opening.old.held.items (slice_index_or opening.old.locked.items place d).inverse }
    ensures advances { OnOk result (Advances secrets.now opening.old opening.new) }
    ensures falls { OnOk result (weight opening.new < weight opening.old) }
{
    let Locked { body, .. } = opening.locked.swap_remove(place);
    take_apart(alloc, secrets, &body, opening)
}

/// Goes once through the locked encryptions and opens those whose keys can be built. Returns whether any was opened.
fn unlock(alloc: Global, secrets: &[Term], opening: &mut Opening) -> Result<bool, AllocError>
    ensures advances { OnOk result (Advances secrets.now opening.old opening.new) }
    ensures falls { IfOk result (λ some. some ≡ true → weight opening.new < weight opening.old) }
    ensures done { IfOk result (λ some. some ≡ false → AreLocked secrets.now opening.new) }
{
    let mut some = false;
    let mut place = 0;
    while place < opening.locked.len() {
        let entry = &opening.locked[place];
        if builds(secrets, &opening.held, &entry.inverse) {
            unlock_at(alloc, secrets, place, opening)?;
            some = true;
        } else {
            place += 1;
        }
    }
    Ok(some)
}

/// Adds more sent terms, and opens until nothing more opens.
pub(crate) fn open_more(
    alloc: Global,
    secrets: &[Term],
    more: &[Term],
    opening: &mut Opening,
) -> Result<(), AllocError>
    ensures { OnOk result ((sent : List Plain) → IsOpened sent secrets.now opening.old → IsOpened (sent ++ more.now) secrets.now opening.new) }
{
    for term in more {
        take_apart(alloc, secrets, term, opening)?;
    }
    while unlock(alloc, secrets, opening)? {}
    Ok(())
}

impl Opening {
    /// What is held when nothing was sent.
    #[tactic(auto, using(crate::proofs::OpenedPieces::nothing_opened))]
    pub(crate) fn new(alloc: Global) -> Opening
        ensures { (secrets : List Plain) → IsOpened [] secrets result }
    {
        Opening {
            held: Vec::new(alloc),
            locked: Vec::new(alloc),
        }
    }

    /// The held terms, from which everything derivable can be built.
    pub(crate) fn held(&self) -> &[Term]
        ensures { result.now ≡ self.now.held.items }
    {
        &self.held
    }
}
