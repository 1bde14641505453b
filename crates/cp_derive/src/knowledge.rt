// What the penetrator knows and can derive.
ghost use Rattle.std.specs.Prelude.{◌≡◌, ◌↔◌, ◌++◌, List, IsTrue, IfOk};
ghost use Rattle.cp_model.specs.Term.{Term as Plain};
ghost use Rattle.cp_derive.specs.Given.{IsDerivable};

use crate::built_terms::builds;
use crate::opened_terms::{Opening, open_more};
use cp_term::Term;
use std::alloc::{AllocError, Global};
use std::marker::Model;

/// The penetrator's knowledge: the terms that were sent, and the secret atoms, which he cannot make. Contracts see both lists.
pub struct Known {
    sent: Vec<Term>,
    secrets: Vec<Term>,
    /// The sent terms after opening.
    opening: Opening,
}

// A holder drops it by one call, which leaves less to prove of the holder.
impl Drop for Known {
    fn drop(self) {
        let Known {
            sent,
            secrets,
            opening,
        } = self;
    }
}

impl Model for Known {
    ghost use Rattle.cp_derive.specs.Given.{Given, coded_given};
    ghost use Rattle.cp_derive.specs.OpenedTerms.{IsOpened};

    ghost Value = { Given };

    ghost coded = { coded_given };

    ghost view = { λ k. record { sent = k.sent.items; secrets = k.secrets.items } };

    ghost invariant = { λ k. IsOpened k.sent.items k.secrets.items k.opening };
}

impl Known {
    /// The knowledge from these sent terms, when these atoms are secret. Secrets that are not atoms have no effect.
    pub fn new(alloc: Global, sent: Vec<Term>, secrets: Vec<Term>) -> Result<Known, AllocError>
        ensures { IfOk result (λ k. k ≡ record { sent = sent.items; secrets = secrets.items }) }
    {
        let mut opening = Opening::new(alloc);
        open_more(alloc, &secrets, &sent, &mut opening)?;
        Ok(Known {
            sent,
            secrets,
            opening,
        })
    }

    /// The knowledge when these terms were sent too.
    pub(crate) fn extended(self, alloc: Global, mut more: Vec<Term>) -> Result<Known, AllocError>
        ensures { IfOk result (λ k. k ≡ record { sent = self.sent ++ more.items; secrets = self.secrets }) }
    {
        if more.is_empty() {
            return Ok(self);
        }
        let Known {
            mut sent,
            secrets,
            mut opening,
        } = self;
        open_more(alloc, &secrets, &more, &mut opening)?;
        sent.append(&mut more)?;
        Ok(Known {
            sent,
            secrets,
            opening,
        })
    }

    /// The knowledge when only these terms were sent and the same atoms are secret.
    pub(crate) fn restarted(self, alloc: Global, sent: Vec<Term>) -> Result<Known, AllocError>
        ensures { IfOk result (λ k. k ≡ record { sent = sent.items; secrets = self.secrets }) }
    {
        let Known {
            sent: _,
            secrets,
            opening: _,
        } = self;
        Known::new(alloc, sent, secrets)
    }

    /// Whether the term can be made from atoms that are not secret, whatever was sent.
    pub(crate) fn makes(&self, t: &Term) -> bool
        ensures { IsTrue result → (sent : List Plain) → IsDerivable (record { sent = sent; secrets = self.now.secrets }) t.now }
    {
        builds(&self.secrets, &[], t)
    }
}

/// Whether the term is derivable.
pub fn buildable(known: &Known, t: &Term) -> bool
    ensures exact { IsTrue result ↔ IsDerivable known.now t.now }
{
    builds(&known.secrets, known.opening.held(), t)
}
