// The strands that a label form states.
ghost use Rattle.std.specs.Prelude.{◌≡◌, [], map, option_map, IfOk};
ghost use Rattle.cp_model.specs.Term.{tag_term};
ghost use Rattle.cp_model.specs.Skeleton.{listener};
ghost use Rattle.cp_sexpr.specs.View.{view};
ghost use Rattle.cp_language.specs.Problems.{number_of};
ghost use Rattle.cp_roles.specs.Named.{shared_roles_view};
ghost use Rattle.cp_report.specs.Heads.{items_with, strand_heads};
ghost use Rattle.cp_report.specs.Skeletons.{instance_with, instance_of_entries, strand_of};
ghost use Rattle.cp_spelled.specs.Views.{scope_view};

use crate::heads::is_strand;
use cp_roles::role_named;
use cp_scope::{item_at, items_behind, symbol_or_empty};
use cp_sexpr::Form;
use cp_skel::{Instance, Role, Strand};
use cp_spelled::{Scope, has_head, term_or_tag, values_mapped};
use cp_term::tag;
use std::alloc::{AllocError, Global};
use std::rc::Rc;

/// The number that a form is, or 0 if it is none.
pub fn number_of(form: &Form) -> usize
    ensures { result ≡ number_of (view form.now) }
{
    match form {
        Form::Number(_, number) => *number,
        _ => 0,
    }
}

/// The numbers that forms are; 0 for a form that is none.
pub fn numbers_of(alloc: Global, items: &[Form]) -> Result<Vec<usize>, AllocError>
    ensures { IfOk result (λ v. v.items ≡ map number_of (map view items.now)) }
{
    items.iter().map(|item| number_of(item)).collect(alloc)
}

/// Placeholder for a strand that does not fit.
fn no_strand(alloc: Global) -> Result<Strand, AllocError>
    ensures { IfOk result (λ s. s ≡ listener (tag_term [])) }
{
    Strand::listener(alloc, tag(alloc, "")?)
}

/// The instance of a role at this height with these maplets; a placeholder if the role is not known.
fn instance_with(
    alloc: Global,
    scope: Scope<'_>,
    role: Option<&Rc<Role>>,
    height: usize,
    maplets: &[Form],
) -> Result<Strand, AllocError>
    ensures { IfOk result (λ s. s ≡ instance_with (scope_view scope.entry) (option_map (λ r. r.now.value) role.entry) height (map view maplets.now)) }
{
    let Some(role) = role else {
        return no_strand(alloc);
    };
    let values = values_mapped(alloc, scope, maplets, role.variables())?;
    let role = role.clone()?;
    Strand::instance(alloc, Instance::new(role, height, values))
}

/// The instance with these items after its head.
fn instance_of(
    alloc: Global,
    roles: &[Rc<Role>],
    scope: Scope<'_>,
    items: &[Form],
) -> Result<Strand, AllocError>
    ensures { IfOk result (λ s. s ≡ instance_of_entries (shared_roles_view roles.now) (scope_view scope.entry) (map view items.now)) }
{
    let [name, height, maplets @ ..] = items else {
        return no_strand(alloc);
    };
    let role = role_named(roles, symbol_or_empty(name));
    instance_with(alloc, scope, role, number_of(height), maplets)
}

/// The strand that a form states.
fn strand_of(
    alloc: Global,
    roles: &[Rc<Role>],
    scope: Scope<'_>,
    form: &Form,
) -> Result<Strand, AllocError>
    ensures { IfOk result (λ s. s ≡ strand_of (shared_roles_view roles.now) (scope_view scope.entry) (view form.now)) }
{
    let items = items_behind(form);
    if has_head(form, b"defstrand") {
        return instance_of(alloc, roles, scope, items);
    }
    let message = term_or_tag(alloc, scope, item_at(items, 0))?;
    Strand::listener(alloc, message)
}

/// The strands that the items of a label form state, in order. What stands for a strand that does not fit has no
/// meaning.
pub fn strands_of(
    alloc: Global,
    roles: &[Rc<Role>],
    scope: Scope<'_>,
    items: &[Form],
) -> Result<Vec<Strand>, AllocError>
    ensures { IfOk result (λ v. v.items ≡ map (strand_of (shared_roles_view roles.now) (scope_view scope.entry)) (items_with strand_heads (map view items.now))) }
{
    let mut strands = Vec::new(alloc);
    for item in items {
        if !is_strand(item) {
            continue;
        }
        let strand = strand_of(alloc, roles, scope, item)?;
        strands.push(strand)?;
    }
    Ok(strands)
}
