// Skeletons with one strand made longer, or with one strand more. New variables take the places of the role's.
ghost use Rattle.std.specs.Prelude.{◌≡◌, ◌++◌, ◌≤◌, ℕ, suc, length, IfOk, OnOk};
ghost use Rattle.cp_model.specs.Strand.{IsHeight};
ghost use Rattle.cp_model.specs.Extensions.{AddsStrand};
ghost use Rattle.cp_skel.specs.Tables.{DiffersInTable};
ghost use Rattle.cp_model.specs.PrefixVariables.{added_variables, prefix_variables};
ghost use Rattle.cp_theory.specs.Fresh.{fresh_terms};
ghost use Rattle.cp_cohort.specs.CoveringChildren.{declarations_among, HasGrown};
ghost use Rattle.cp_cohort.specs.Children.{Declares, IsThere, IsGrown, AddsRoleStrand};

use crate::guarded_test::GuardedTest;
use cp_skel::{Declaration, Instance, Role, Skeleton, is_added};
use cp_term::{Term, VarId, var};
use std::alloc::{AllocError, Global};
use std::rc::Rc;

/// Declares a new variable for one of a role's, and appends it to `values`.
fn declare_one(
    alloc: Global,
    declaration: &Declaration,
    k: &mut Skeleton,
    values: &mut Vec<Term>,
) -> Result<(), AllocError>
    ensures { OnOk result (Declares declaration.now k.old k.new values.old.items values.new.items) }
{
    let variable = k.declare(declaration.identifier.as_str(), declaration.sort)?;
    let term = var(alloc, variable, declaration.sort)?;
    values.push(term).map_err(AllocError::from)
}

/// Declares a new variable for each variable of the role that occurs in its prefix of length `height` but not in that of length
/// `before`. Returns the new variables in the order in which the role declares theirs.
fn declare_added(
    alloc: Global,
    role: &Role,
    before: usize,
    height: usize,
    k: &mut Skeleton,
) -> Result<Vec<Term>, AllocError>
    ensures values { IfOk result (λ v. v.items ≡ fresh_terms (length k.old.variables) (added_variables role.now before height)) }
    ensures declared { OnOk result (k.new.variables ≡ k.old.variables ++ declarations_among role.now (added_variables role.now before height)) }
    ensures rest { OnOk result (DiffersInTable k.old k.new) }
{
    let mut values = Vec::new(alloc);
    for (number, declaration) in role.variables().iter().enumerate() {
        let id = VarId::numbered(number);
        if !is_added(role, before, height, id, declaration.sort) {
            continue;
        }
        declare_one(alloc, declaration, k, &mut values)?;
    }
    Ok(values)
}

/// Extends the instance on this strand to this height, unless it is that high already.
fn grow(
    alloc: Global,
    strand: usize,
    instance: &Instance,
    height: usize,
    k: &mut Skeleton,
) -> Result<(), AllocError>
    requires there { IsThere k.old strand instance.now }
    requires reached { height ≤ length instance.now.role.trace }
    ensures { OnOk result ((j : ℕ) → height ≡ suc j
        → HasGrown strand instance.now.role instance.now.height j k.old k.new) }
{
    let before = instance.height();
    if height <= before {
        return Ok(());
    }
    let values = declare_added(alloc, instance.role(), before, height, k)?;
    k.extend(alloc, strand, height, &values)
}

/// Adds a strand of the role, of this height, with new variables.
fn add_instance(
    alloc: Global,
    role: &Rc<Role>,
    height: usize,
    k: &mut Skeleton,
) -> Result<(), AllocError>
    requires height { IsHeight role.now.value height }
    ensures adds { OnOk result (AddsStrand role.now.value height (fresh_terms (length k.old.variables) (prefix_variables role.now.value height)) k.old k.new) }
    ensures variables { OnOk result (k.new.variables ≡ k.old.variables ++ declarations_among role.now.value (prefix_variables role.now.value height)) }
{
    let values = declare_added(alloc, role, 0, height, k)?;
    let _ = k.add_strand(alloc, role, height, &values)?;
    Ok(())
}

/// The skeleton after the instance on this strand is extended to this height, unless it is that high already.
fn grown_to(
    alloc: Global,
    strand: usize,
    instance: &Instance,
    height: usize,
    mut k: Skeleton,
) -> Result<Skeleton, AllocError>
    requires there { IsThere k strand instance.now }
    requires reached { height ≤ length instance.now.role.trace }
    ensures { IfOk result (λ l. (j : ℕ) → height ≡ suc j
        → HasGrown strand instance.now.role instance.now.height j k l) }
{
    grow(alloc, strand, instance, height, &mut k).map(|_| k)
}

/// The test's skeleton with the instance on this strand at least this high.
pub(crate) fn with_events(
    alloc: Global,
    guarded_test: &GuardedTest,
    strand: usize,
    instance: &Instance,
    height: usize,
) -> Result<Skeleton, AllocError>
    requires there { IsThere guarded_test.now.skeleton strand instance.now }
    requires reached { height ≤ length instance.now.role.trace }
    ensures { IfOk result (λ k. (j : ℕ) → height ≡ suc j → IsGrown guarded_test.now strand instance.now.role instance.now.height j k) }
{
    let copied = guarded_test.skeleton.copy(alloc)?;
    grown_to(alloc, strand, instance, height, copied)
}

/// A skeleton with one more strand of the role, of this height.
fn with_instance(
    alloc: Global,
    role: &Rc<Role>,
    height: usize,
    mut k: Skeleton,
) -> Result<Skeleton, AllocError>
    requires height { IsHeight role.now.value height }
    ensures { IfOk result (λ l. AddsStrand role.now.value height (fresh_terms (length k.variables) (prefix_variables role.now.value height)) k l
        × (l.variables ≡ k.variables ++ declarations_among role.now.value (prefix_variables role.now.value height))) }
{
    add_instance(alloc, role, height, &mut k)?;
    Ok(k)
}

/// The test's skeleton with one more strand of the role, of this height.
pub(crate) fn with_strand(
    alloc: Global,
    guarded_test: &GuardedTest,
    role: &Rc<Role>,
    height: usize,
) -> Result<Skeleton, AllocError>
    requires height { IsHeight role.now.value height }
    ensures { IfOk result (λ k. (j : ℕ) → height ≡ suc j → AddsRoleStrand guarded_test.now role.now.value j k) }
{
    let copied = guarded_test.skeleton.copy(alloc)?;
    with_instance(alloc, role, height, copied)
}
