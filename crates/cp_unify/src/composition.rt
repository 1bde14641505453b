// Composition of substitutions.
ghost use Rattle.std.specs.Prelude.{◌≡◌, [], ◌∷◌, ◌++◌, IfOk, OnOk};
ghost use Rattle.cp_model.specs.Term.{Term as Plain, Assignment, after, value_of, apply_to};
ghost use Rattle.cp_unify.specs.Bindings.{as_substitution, variables_of_bindings};
ghost use Rattle.cp_unify.specs.Joined.{joined_bindings};
ghost use Rattle.cp_unify.specs.Unifiers.{AreVariablesAmong};

use crate::binding::Binding;
use crate::subst::Subst;
use crate::terms_under::apply;
use std::alloc::{AllocError, Global};

/// The bindings of the first, with their terms under the second, followed by those of the second.
fn join_all(alloc: Global, first: &Subst, second: &Subst) -> Result<Subst, AllocError>
    ensures { IfOk result (λ s. s ≡ joined_bindings first.now second.now) }
{
    let room = first
        .bindings()
        .len()
        .saturating_add(second.bindings().len());
    let mut bindings = Vec::with_capacity(alloc, room)?;
    for binding in first.bindings() {
        let term = apply(alloc, second, binding.term())?;
        bindings.push(Binding::new(binding.variable(), term))?;
    }
    bindings.extend_with_clones(second.bindings())?;
    Subst::made(alloc, bindings)
}

/// The bindings of the first, with their terms under the second, followed by those of the second. If one of them has none, the
/// other is copied.
fn join(alloc: Global, first: &Subst, second: &Subst) -> Result<Subst, AllocError>
    ensures { IfOk result (λ s. s ≡ joined_bindings first.now second.now) }
{
    if second.bindings().is_empty() {
        return first.copy(alloc);
    }
    if first.bindings().is_empty() {
        return second.copy(alloc);
    }
    join_all(alloc, first, second)
}

/// Adds a binding behind the others, whose terms are put under it.
pub(crate) fn join_one(alloc: Global, s: &mut Subst, binding: Binding) -> Result<(), AllocError>
    ensures { OnOk result (s.new ≡ joined_bindings s.old (binding ∷ [])) }
{
    if s.bindings().is_empty() {
        return s.put(binding);
    }
    let one = Subst::of(alloc, binding)?;
    *s = join_all(alloc, s, &one)?;
    Ok(())
}

/// The substitution that does what the first does, then what the second does.
pub fn compose(alloc: Global, first: &Subst, second: &Subst) -> Result<Subst, AllocError>
    ensures plain { IfOk result (λ s. (t : Plain)
        → apply_to (as_substitution s) t ≡ apply_to (as_substitution second.now) (apply_to (as_substitution first.now) t)) }
    ensures value { IfOk result (λ s. (g : Assignment) (t : Plain)
        → value_of (after g (as_substitution s)) t
        ≡ value_of (after (after g (as_substitution second.now)) (as_substitution first.now)) t) }
    ensures no_new { IfOk result (λ s. AreVariablesAmong (variables_of_bindings s)
        (variables_of_bindings first.now ++ variables_of_bindings second.now)) }
{
    join(alloc, first, second)
}
