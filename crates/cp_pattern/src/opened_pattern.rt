// Opens patterns: replaces their locals by new variables.
ghost use Rattle.std.specs.Prelude.{◌≡◌, ◌++◌, [], ◌∷◌, length, take, IfOk, OnOk, OnErr};
ghost use Rattle.cp_lists.specs.Lists.{item_at};
ghost use Rattle.cp_skel.specs.Tables.{DiffersInTable};
ghost use Rattle.cp_unify.specs.Bindings.{as_substitution};
ghost use Rattle.cp_pattern.specs.Opened.{opened_pattern, identifier_or_x, declared_after, declared_as, new_bindings, HasDeclared};

use cp_model::Variable;
use cp_skel::Skeleton;
use cp_term::{Pattern, Term, Text, VarId, VarTable, var};
use cp_unify::{Binding, Subst, apply};
use std::alloc::{AllocError, Global};

/// The identifier for a variable that replaces another: that of the other one, if its number is below `count` and it is declared
/// in the table, otherwise `x`.
fn root_for(variables: &VarTable, count: usize, number: usize) -> &str
    ensures { result.now ≡ identifier_or_x (item_at (take count variables.now) number) }
{
    if number >= count {
        return "x";
    }
    if number >= variables.len() {
        return "x";
    }
    variables.root(VarId::numbered(number))
}

/// Declares a variable to replace a local, of its sort.
fn declare_for(
    alloc: Global,
    local: Variable,
    count: usize,
    k: &mut Skeleton,
) -> Result<VarId, AllocError>
    ensures later { IfOk result (λ v. v ≡ length k.old.variables) }
    ensures declared { OnOk result (k.new.variables ≡ k.old.variables
        ++ declared_after (take count k.old.variables) local ∷ []) }
    ensures kept { DiffersInTable k.old k.new }
    ensures unchanged { OnErr result (k.new.variables ≡ k.old.variables) }
{
    let root = Text::new(alloc, root_for(k.variables(), count, local.number))?;
    k.declare(root.as_str(), local.sort)
}

/// Declares a variable to replace each local of the pattern, in order, and returns the bindings to them.
fn declare_locals(
    alloc: Global,
    pattern: &Pattern,
    k: &mut Skeleton,
) -> Result<Vec<Binding>, AllocError>
    ensures bindings { IfOk result (λ bs. bs.items ≡ new_bindings (length k.old.variables) pattern.now.locals) }
    ensures declared { OnOk result (k.new.variables
        ≡ k.old.variables ++ declared_as k.old.variables pattern.now.locals) }
    ensures grown { HasDeclared k.old.variables pattern.now.locals k.new.variables }
    ensures kept { DiffersInTable k.old k.new }
{
    let count = k.variables().len();
    let mut bindings = Vec::new(alloc);
    for local in pattern.locals() {
        let variable = declare_for(alloc, *local, count, k)?;
        let image = var(alloc, variable, local.sort)?;
        bindings.push(Binding::new(*local, image))?;
    }
    Ok(bindings)
}

/// The bindings, followed by those of the substitution.
fn put_before(bindings: Vec<Binding>, from: Subst) -> Result<Subst, AllocError>
    ensures { IfOk result (λ s. s ≡ bindings.items ++ from) }
{
    let mut bindings = bindings;
    let mut all = from;
    while let Some(binding) = bindings.pop() {
        all = all.with(binding)?;
    }
    Ok(all)
}

/// The term of the pattern with its locals replaced by new variables and the substitution applied to its other variables. The new
/// variables are declared in the skeleton, in the order of the locals. Each has the sort of its local and the identifier that is
/// declared under its local's number, if there is one, otherwise `x`. On an error the skeleton may have gained some of the new
/// variables; otherwise it stays the same.
pub fn open_pattern(
    alloc: Global,
    pattern: &Pattern,
    from: &Subst,
    k: &mut Skeleton,
) -> Result<Term, AllocError>
    ensures term { IfOk result (λ t. t ≡ opened_pattern pattern.now (as_substitution from.now) (length k.old.variables)) }
    ensures declared { OnOk result (k.new.variables
        ≡ k.old.variables ++ declared_as k.old.variables pattern.now.locals) }
    ensures grown { HasDeclared k.old.variables pattern.now.locals k.new.variables }
    ensures rest { DiffersInTable k.old k.new }
{
    let bindings = declare_locals(alloc, pattern, k)?;
    let from = from.copy(alloc)?;
    let all = put_before(bindings, from)?;
    apply(alloc, &all, pattern.term())
}
