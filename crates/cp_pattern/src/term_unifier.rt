// Most general unifiers of two terms.
ghost use Rattle.std.specs.Prelude.{◌++◌, IfOk, IfSome, IfNone};
ghost use Rattle.cp_model.specs.Term.{variables_of};
ghost use Rattle.cp_unify.specs.Bindings.{as_substitution, variables_of_bindings};
ghost use Rattle.cp_unify.specs.Unifiers.{AreVariablesAmong};
ghost use Rattle.cp_pattern.specs.Unifiers.{UnifiesMostGenerally, NeverEqual};

use cp_term::Term;
use cp_unify::{Subst, unify};
use std::alloc::{AllocError, Global};

/// The most general unifier of two terms, which maps later variables to earlier ones; `None` exactly if no values make the terms
/// equal.
pub fn unifier(alloc: Global, a: &Term, b: &Term) -> Result<Option<Subst>, AllocError>
    ensures some { IfOk result (λ answer. IfSome answer (λ s. UnifiesMostGenerally a.now b.now (as_substitution s))) }
    ensures within { IfOk result (λ answer. IfSome answer (λ s. AreVariablesAmong (variables_of_bindings s) (variables_of a.now ++ variables_of b.now))) }
    ensures none { IfOk result (λ answer. IfNone answer (NeverEqual a.now b.now)) }
{
    let nothing = Subst::new(alloc);
    unify(alloc, a, b, &nothing)
}
