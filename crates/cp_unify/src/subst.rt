// Substitutions.
ghost use Rattle.std.specs.Prelude.{◌≡◌, [], ◌∷◌, IfOk, OnOk, IsTrue};
ghost use Rattle.cp_unify.specs.Bindings.{BindNoneBelow};
ghost use Rattle.cp_unify.specs.Places.{IsRestAfter};
ghost use Rattle.cp_unify.specs.Solved.{IsSolved};

use crate::binding::Binding;
use crate::places::{count_at, places_with, worthy_places};
use std::alloc::{AllocError, Global};
use std::marker::Model;
use std::mem;

/// A substitution: bindings of variables. If a variable has several, the first counts.
pub struct Subst {
    bindings: Vec<Binding>,
    /// Set if the bindings are known to be solved, so that unifying beside them need not solve them again.
    is_solved: bool,
    /// Where the bindings of each number begin; empty if they are few or if numbers are great.
    places: Vec<usize>,
    /// No variable with a lower number is bound.
    least: usize,
}

// A value drops by one call of its own, wherever it is held.
impl Drop for Subst {
    fn drop(self) {
        let Subst {
            bindings,
            is_solved,
            places,
            least: _,
        } = self;
    }
}

impl Model for Subst {
    ghost use Rattle.std.specs.Prelude.{List};
    ghost use Rattle.cp_unify.specs.Bindings.{Binding as Plain};

    ghost Value = { List Plain };

    ghost use Rattle.std.specs.Coded.{coded_list};
    ghost use Rattle.cp_term.specs.Code.{coded_binding};

    ghost coded = { coded_list coded_binding };

    ghost view = { λ s. s.bindings.items };

    ghost use Rattle.std.specs.Prelude.{◌≡◌, true};
    ghost use Rattle.cp_unify.specs.Bindings.{BindNoneBelow};
    ghost use Rattle.cp_unify.specs.Places.{ArePlacesIfAny};
    ghost use Rattle.cp_unify.specs.Solved.{IsSolved};

    ghost invariant = { λ s. (s.is_solved ≡ true → IsSolved s.bindings.items)
        × ArePlacesIfAny s.places.items s.bindings.items × BindNoneBelow s.least s.bindings.items };
}

/// A number such that no variable with a lower one is bound.
fn least_bound(bindings: &[Binding]) -> usize
    ensures { BindNoneBelow result bindings.now }
{
    let mut least = usize::MAX;
    for binding in bindings {
        least = least.min(binding.variable().number);
    }
    least
}

impl Subst {
    /// The substitution that changes nothing.
    pub fn new(alloc: Global) -> Subst
        ensures { result ≡ [] }
    {
        Subst {
            bindings: Vec::new(alloc),
            is_solved: true,
            places: Vec::new(alloc),
            least: usize::MAX,
        }
    }

    /// The substitution of one binding.
    pub(crate) fn of(alloc: Global, binding: Binding) -> Result<Subst, AllocError>
        ensures { IfOk result (λ s. s ≡ binding ∷ []) }
    {
        let least = binding.variable().number;
        let mut bindings = Vec::new(alloc);
        bindings.push(binding)?;
        Ok(Subst {
            bindings,
            is_solved: false,
            places: Vec::new(alloc),
            least,
        })
    }

    /// The bindings.
    pub fn bindings(&self) -> &[Binding]
        ensures { result.now ≡ self.now }
    {
        self.bindings.as_slice()
    }

    /// A number such that no variable with a lower one is bound.
    pub(crate) fn least_bound(&self) -> usize
        ensures { BindNoneBelow result self.now }
    {
        self.least
    }

    /// The bindings from the first with this number on, or from an earlier one on; none if none can have this number.
    pub(crate) fn from_number(&self, number: usize) -> &[Binding]
        ensures { IsRestAfter number result.now self.now }
    {
        let bindings = self.bindings.as_slice();
        if number < self.least {
            return &bindings[bindings.len()..];
        }
        if self.places.is_empty() {
            return bindings;
        }
        let start = bindings
            .len()
            .saturating_sub(count_at(&self.places, number));
        &bindings[start..]
    }

    /// Puts a binding before the others. It counts in place of an earlier one of the same variable.
    pub(crate) fn put(&mut self, binding: Binding) -> Result<(), AllocError>
        ensures { OnOk result (self.new ≡ binding ∷ self.old) }
    {
        let number = binding.variable().number;
        let alloc = *self.bindings.allocator();
        self.bindings.insert(0, binding)?;
        self.is_solved = false;
        self.least = self.least.min(number);
        let places = mem::replace(&mut self.places, Vec::new(alloc));
        self.places = places_with(alloc, places, &self.bindings, number)?;
        Ok(())
    }

    /// The substitution with another binding before the others. It counts in place of an earlier one of the same
    /// variable.
    pub fn with(self, binding: Binding) -> Result<Subst, AllocError>
        ensures { IfOk result (λ s. s ≡ binding ∷ self) }
    {
        let mut longer = self;
        longer.put(binding).map(|_| longer)
    }

    /// The same substitution.
    pub fn copy(&self, alloc: Global) -> Result<Subst, AllocError>
        ensures { IfOk result (λ s. s ≡ self.now) }
    {
        if self.bindings.is_empty() {
            return Ok(Subst::new(alloc));
        }
        let bindings = Vec::from_clones(alloc, self.bindings())?;
        let places = Vec::from_slice(alloc, &self.places)?;
        Ok(Subst {
            bindings,
            is_solved: self.is_solved,
            places,
            least: self.least,
        })
    }

    /// The substitution of these bindings.
    pub(crate) fn made(alloc: Global, bindings: Vec<Binding>) -> Result<Subst, AllocError>
        ensures { IfOk result (λ s. s ≡ bindings.items) }
    {
        let places = worthy_places(alloc, &bindings)?;
        let least = least_bound(&bindings);
        Ok(Subst {
            bindings,
            is_solved: false,
            places,
            least,
        })
    }

    /// Whether the bindings are known to be solved.
    pub(crate) fn is_solved(&self) -> bool
        ensures { IsTrue result → IsSolved self.now }
    {
        self.is_solved
    }

    /// The same substitution, marked as solved. It must be solved.
    pub(crate) fn into_solved(self) -> Subst
        requires { IsSolved self }
        ensures { result ≡ self }
    {
        let Subst {
            bindings,
            is_solved: _,
            places,
            least,
        } = self;
        Subst {
            bindings,
            is_solved: true,
            places,
            least,
        }
    }
}
