// A table of terms, and their numbers in it.
ghost use Rattle.std.specs.Prelude.{◌≡◌, ◌<◌, ◌++◌, ◌↔◌, ◌⊎◌, ℕ, [], ◌∷◌, length, slice_get, position, Some, IfSome, IsSome, IfOk, OnOk, OnErr};
ghost use Rattle.std.specs.List.{position_or_len};
ghost use Rattle.cp_model.specs.Term.{Term as Plain};
ghost use Rattle.cp_model.specs.Same.{same_term};

use crate::term::Term;
use cp_intern::{Id, Interner, ids_tell_keys_apart};
use std::alloc::{AllocError, Global};
use std::marker::Model;

/// Terms, each once, in the order in which they were first put in. The number of a term is its place among them.
#[derive(Drop)]
pub struct TermTable {
    terms: Interner<Term>,
}

impl Model for TermTable {
    ghost use Rattle.std.specs.Prelude.{List};
    ghost use Rattle.std.specs.Coded.{coded_list};
    ghost use Rattle.cp_model.specs.Term.{Term as Plain};
    ghost use Rattle.cp_term.specs.Code.{coded_term};

    ghost Value = { List Plain };

    ghost coded = { coded_list coded_term };

    ghost view = { λ t. t.terms };
}

impl TermTable {
    /// A table without terms. It takes no memory until a term is put in.
    pub fn new(alloc: Global) -> TermTable
        ensures { result ≡ [] }
    {
        TermTable {
            terms: Interner::new(alloc),
        }
    }

    /// How many terms there are.
    pub fn len(&self) -> usize
        ensures { result ≡ length self.now }
    {
        self.terms.len()
    }

    /// The number of this term. It is put behind the others if it is none of them; so the others keep their numbers. On
    /// an error the table is unchanged.
    pub fn intern(&mut self, t: &Term) -> Result<Id, AllocError>
        ensures id { IfOk result (λ id. id ≡ position_or_len (same_term t.now) self.old) }
        ensures there { IfOk result (λ id. slice_get self.new id ≡ Some t.now) }
        ensures kept { OnOk result ((self.new ≡ self.old) ⊎ (self.new ≡ self.old ++ t.now ∷ [])) }
        ensures unchanged { OnErr result (self.new ≡ self.old) }
    {
        let t = t.copy()?;
        self.terms.put(t)
    }

    /// The number of this term, if it is one of them.
    pub fn find(&self, t: &Term) -> Option<Id>
        ensures number { result ≡ position (same_term t.now) self.now }
        ensures there { IfSome result (λ id. slice_get self.now id ≡ Some t.now) }
        ensures absent { (i : ℕ) → slice_get self.now i ≡ Some t.now → IsSome result }
    {
        self.terms.find(t)
    }

    /// The term with this number.
    pub fn term(&self, id: Id) -> &Term
        requires { id < length self.now }
        ensures { slice_get self.now id ≡ Some result.now }
    {
        self.terms.get(id)
    }

    /// Each term stands once: the numbers of two terms are equal exactly where the terms are.
    pub fn ids_tell_terms_apart(&self)
        ensures { (i j : ℕ) (t u : Plain) → slice_get self.now i ≡ Some t → slice_get self.now j ≡ Some u
            → (i ≡ j) ↔ (t ≡ u) }
    {
        self.terms.are_distinct();
        ids_tell_keys_apart::<Term>();
    }
}
