// The parts of pairs and encryptions.
ghost use Rattle.std.specs.Prelude.{◌≡◌, MatchOption};
ghost use Rattle.cp_term.specs.Parts.{HasParts};
ghost use Rattle.cp_term.specs.Spines.{tail_of, HasTail};

use crate::term::{Node, Term};

/// The parts of a term, if it has any.
#[derive(Clone, Copy)]
pub enum Parts<'a> {
    /// A tag, or a term of an atom sort.
    Leaf,
    Pair(&'a Term, &'a Term),
    /// The plaintext and the key of an encryption.
    Encryption(&'a Term, &'a Term),
}

impl Term {
    /// The parts of the term, if it has any.
    #[inline(always)]
    pub fn parts(&self) -> Parts<'_>
        ensures { HasParts result self.now }
    {
        match self.node() {
            Node::Pair(left, right) => Parts::Pair(left, right),
            Node::Encryption(body, key) => Parts::Encryption(body, key),
            _ => Parts::Leaf,
        }
    }

    /// The right part of a pair, or the plaintext of an encryption.
    #[inline(always)]
    pub(crate) fn tail(&self) -> Option<&Term>
        ensures { MatchOption result (HasTail self.now → ⊥) (λ t. HasTail self.now × (tail_of self.now ≡ t.now)) }
    {
        match self.node() {
            Node::Pair(_, right) => Some(right),
            Node::Encryption(body, _) => Some(body),
            _ => None,
        }
    }
}
