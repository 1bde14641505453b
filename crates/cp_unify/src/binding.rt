// Bindings of variables to terms.
ghost use Rattle.std.specs.Prelude.{◌≡◌, ◌↔◌, true, IsTrue, IfOk};
ghost use Rattle.cp_model.specs.Term.{variable_term};
ghost use Rattle.cp_term.specs.Sorts.{is_of_sort};
ghost use Rattle.cp_term.specs.Variables.{variable_of_sort};
ghost use Rattle.cp_unify.specs.Bindings.{HasItsSort, IsBetween};

use cp_model::Variable;
use cp_term::{Shape, Sort, Term, VarId, var};
use std::alloc::{AllocError, Global};
use std::marker::Model;

/// A variable and the term that it is bound to, which has the variable's sort.
#[derive(Drop)]
pub struct Binding {
    variable: Variable,
    term: Term,
}

impl Model for Binding {
    ghost use Rattle.cp_unify.specs.Bindings.{Binding as Plain};

    ghost Value = { Plain };

    ghost use Rattle.cp_term.specs.Code.{coded_binding};

    ghost coded = { coded_binding };

    ghost use Rattle.cp_unify.specs.Bindings.{HasItsSort};

    ghost view = { λ b. record { variable = b.variable; term = b.term } };

    ghost invariant = { λ b. HasItsSort (record { variable = b.variable; term = b.term }) };
}

impl Binding {
    /// The binding of this variable to the term, which must have the variable's sort.
    pub fn new(variable: Variable, term: Term) -> Binding
        requires { is_of_sort variable.sort term ≡ true }
        ensures { result ≡ record { variable = variable; term = term } }
    {
        Binding { variable, term }
    }

    /// The binding of the variable of this sort and number to the term, which must have the sort.
    pub(crate) fn of(sort: Sort, variable: VarId, term: Term) -> Binding
        requires { is_of_sort sort term ≡ true }
        ensures { result ≡ record { variable = record { sort = sort; number = variable }; term = term } }
    {
        Binding {
            variable: Variable {
                sort,
                number: variable.number(),
            },
            term,
        }
    }

    /// The variable.
    pub fn variable(&self) -> Variable
        ensures { result ≡ self.now.variable }
    {
        self.variable
    }

    /// The term. It has the variable's sort.
    pub fn term(&self) -> &Term
        ensures term { result.now ≡ self.now.term }
        ensures sort { HasItsSort self.now }
    {
        &self.term
    }

    /// Whether this variable of this sort is the one that is bound.
    pub(crate) fn binds(&self, sort: Sort, variable: VarId) -> bool
        ensures { IsTrue result ↔ (variable_of_sort sort variable ≡ variable_term self.now.variable) }
    {
        self.variable.sort == sort && self.variable.number == variable.number()
    }

    /// Whether the term is the variable that is bound.
    fn is_of(&self, term: &Term) -> bool
        ensures { IsTrue result ↔ (term.now ≡ variable_term self.now.variable) }
    {
        match term.shape() {
            Shape::Variable(variable, sort) => self.binds(sort, variable),
            _ => false,
        }
    }

    /// Whether one of two terms is the variable that is bound, and the other what it is bound to.
    pub(crate) fn is_between(&self, a: &Term, b: &Term) -> bool
        ensures { IsTrue result → IsBetween self.now a.now b.now }
    {
        if self.is_of(a) {
            self.term.same(b)
        } else {
            self.is_of(b) && self.term.same(a)
        }
    }

    /// The variable as a term.
    pub(crate) fn left(&self, alloc: Global) -> Result<Term, AllocError>
        ensures { IfOk result (λ t. t ≡ variable_term self.now.variable) }
    {
        let variable = VarId::numbered(self.variable.number);
        var(alloc, variable, self.variable.sort)
    }
}

impl Clone for Binding {
    ghost is_clone = { λ a b. b ≡ a };

    fn clone(&self) -> Result<Binding, AllocError> {
        let term = self.term.copy()?;
        Ok(Binding {
            variable: self.variable,
            term,
        })
    }
}
