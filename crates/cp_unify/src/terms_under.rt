// Terms under substitutions. Unchanged parts are shared.
ghost use Rattle.std.specs.Prelude.{◌≡◌, MatchOption, IfOk, IsTrue};
ghost use Rattle.std.specs.Option.{option_map};
ghost use Rattle.cp_model.specs.Term.{Assignment, after, apply_to, value_of};
ghost use Rattle.cp_term.specs.Variables.{variable_of_sort};
ghost use Rattle.cp_unify.specs.Bindings.{as_substitution};
ghost use Rattle.cp_unify.specs.Matched.{bound_term};

use crate::binding::Binding;
use crate::subst::Subst;
use cp_term::{Sort, Term, Valuation, VarId, keeps, substituted};
use std::alloc::{AllocError, Global};

/// The term to which these bindings bind a variable of this sort, by the first binding of it.
fn first_bound<'a>(bindings: &'a [Binding], sort: Sort, variable: VarId) -> Option<&'a Term>
    ensures applied { MatchOption result
        (apply_to (as_substitution bindings.now) (variable_of_sort sort variable) ≡ variable_of_sort sort variable)
        (λ t. apply_to (as_substitution bindings.now) (variable_of_sort sort variable) ≡ t.now) }
    ensures exact { option_map (λ t. t.now) result
        ≡ bound_term bindings.now (variable_of_sort sort variable) }
{
    for binding in bindings {
        if binding.binds(sort, variable) {
            return Some(binding.term());
        }
    }
    None
}

impl Subst {
    /// The term to which a variable of this sort is bound.
    pub(crate) fn bound(&self, sort: Sort, variable: VarId) -> Option<&Term>
        ensures applied { MatchOption result
            (apply_to (as_substitution self.now) (variable_of_sort sort variable) ≡ variable_of_sort sort variable)
            (λ t. apply_to (as_substitution self.now) (variable_of_sort sort variable) ≡ t.now) }
        ensures exact { option_map (λ t. t.now) result
            ≡ bound_term self.now (variable_of_sort sort variable) }
    {
        first_bound(self.from_number(variable.number()), sort, variable)
    }
}

impl Valuation for Subst {
    ghost substitution = { as_substitution };

    fn term_for(&self, sort: Sort, variable: VarId) -> Option<&Term> {
        self.bound(sort, variable)
    }

    fn least(&self) -> usize {
        self.least_bound()
    }
}

/// Fast test: true only if the substitution leaves the term as it is.
pub fn leaves(s: &Subst, term: &Term) -> bool
    ensures { IsTrue result → apply_to (as_substitution s.now) term.now ≡ term.now }
{
    keeps(s, term)
}

/// The term under a substitution. Unchanged parts are shared.
pub fn apply(alloc: Global, s: &Subst, term: &Term) -> Result<Term, AllocError>
    ensures plain { IfOk result (λ t. t ≡ apply_to (as_substitution s.now) term.now) }
    ensures value { IfOk result (λ t. (g : Assignment) → value_of g t ≡ value_of (after g (as_substitution s.now)) term.now) }
{
    if keeps(s, term) {
        return term.copy();
    }
    substituted(alloc, s, term)
}
