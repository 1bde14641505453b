// What can be built from held terms.
ghost use Rattle.std.specs.Prelude.{◌↔◌, IsTrue};
ghost use Rattle.cp_lists.specs.Lists.{IsIn};
ghost use Rattle.cp_derive.specs.Buildable.{Builds, IsAtHand};

use crate::form::{Form, form_of};
use cp_term::Term;

/// Whether the term is among these.
pub(crate) fn is_among(terms: &[Term], term: &Term) -> bool
    ensures { IsTrue result ↔ IsIn term.now terms.now }
{
    for other in terms {
        if other.same(term) {
            return true;
        }
    }
    false
}

/// Whether the term is held or is not secret.
pub(crate) fn is_at_hand(secrets: &[Term], held: &[Term], term: &Term) -> bool
    ensures { IsTrue result ↔ IsAtHand secrets.now held.now term.now }
{
    !is_among(secrets, term) || is_among(held, term)
}

/// Whether the term can be built from the held terms.
pub(crate) fn builds(secrets: &[Term], held: &[Term], term: &Term) -> bool
    ensures { IsTrue result ↔ Builds secrets.now held.now term.now }
{
    let mut rest = term;
    loop {
        match form_of(rest) {
            Form::Tag => return true,
            Form::Atom => return is_at_hand(secrets, held, rest),
            Form::Pair(left, right) => {
                if !builds(secrets, held, left) {
                    return false;
                }
                rest = right;
            }
            Form::Encryption(body, key) => {
                if is_among(held, rest) {
                    return true;
                }
                if !is_at_hand(secrets, held, key) {
                    return false;
                }
                rest = body;
            }
        }
    }
}
