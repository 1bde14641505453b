// The terms that the list of an instance, or any other, gives to variables.
ghost use Rattle.std.specs.Prelude.{◌≡◌, MatchOption, IfOk};
ghost use Rattle.cp_model.specs.Homomorphism.{substitution_by};
ghost use Rattle.cp_model.specs.Term.{apply_to};
ghost use Rattle.cp_term.specs.Variables.{variable_of_sort};

use cp_model::item_at;
use cp_term::{Sort, Term, Valuation, VarId, is_of_sort, var};
use std::alloc::{AllocError, Global};

/// The term that replaces a variable of this sort, if any.
pub(crate) fn value_of<'a>(values: &'a [Term], sort: Sort, variable: VarId) -> Option<&'a Term>
    ensures { MatchOption result
        (apply_to (substitution_by values.now) (variable_of_sort sort variable) ≡ variable_of_sort sort variable)
        (λ t. apply_to (substitution_by values.now) (variable_of_sort sort variable) ≡ t.now) }
{
    let term = item_at(values, variable.number())?;
    if is_of_sort(term, sort) {
        Some(term)
    } else {
        None
    }
}

/// A role's variable under the terms of an instance: the term with its number, if that is of its sort, otherwise the
/// variable itself.
pub fn value_of_variable(
    alloc: Global,
    values: &[Term],
    id: VarId,
    sort: Sort,
) -> Result<Term, AllocError>
    ensures { IfOk result (λ t. t ≡ apply_to (substitution_by values.now) (variable_of_sort sort id)) }
{
    match value_of(values, sort, id) {
        Some(value) => value.copy(),
        None => var(alloc, id, sort),
    }
}

/// A list of terms as a substitution: variable number i is replaced by the term number i, if that is of its sort.
#[derive(Clone, Copy)]
pub(crate) struct ByNumber<'a> {
    pub(crate) terms: &'a [Term],
}

impl Valuation for ByNumber<'_> {
    ghost substitution = { λ v. substitution_by v.terms.now };

    fn term_for(&self, sort: Sort, variable: VarId) -> Option<&Term> {
        value_of(self.terms, sort, variable)
    }

    fn least(&self) -> usize {
        0
    }
}
