// The strands of problems.
ghost use Rattle.std.specs.Prelude.{◌≡◌, [], length, map, IfOk};
ghost use Rattle.cp_model.specs.Skeleton.{listener};
ghost use Rattle.cp_model.specs.Term.{tag_term};
ghost use Rattle.cp_sexpr.specs.View.{view};
ghost use Rattle.cp_language.specs.Problems.{number_of, instance_by, name_in_front, role_named, listened_term, strand_by, strands_from};
ghost use Rattle.cp_language.specs.Roles.{headed, item_or_none, items_behind};
ghost use Rattle.cp_roles.specs.Named.{shared_roles_view};
ghost use Rattle.cp_roles.specs.MadeStrands.{instance_made, IsMade, IsMadeIf, AreMade};

use crate::event_variables::Prefix;
use crate::faults::number_of;
use crate::instances::instantiated;
use crate::role_named;
use cp_scope::{ItemHead, Variables, headed, item_head, no_term, symbol_or_empty, term_of};
use cp_sexpr::Form;
use cp_strand::{Declaration, Instance, Role, Strand};
use std::alloc::{AllocError, Global};
use std::rc::Rc;

/// The instance of a role. The form `height` states its height. Variables that are made for it are appended to `all`.
fn instance_of_role(
    alloc: Global,
    role: &Rc<Role>,
    declared: &Variables,
    height: &Form,
    maplets: &[Form],
    all: &mut Vec<Declaration>,
) -> Result<Strand, AllocError>
    ensures { IfOk result (λ s. IsMade (instance_made role.now.value declared.now (length all.old.items) (number_of (view height.now)) (map view maplets.now))
        s all.old.items all.new.items) }
{
    let height = number_of(height);
    let values = instantiated(
        alloc,
        Prefix { role, height },
        role.variables(),
        declared,
        maplets,
        all,
    )?;
    let role = role.clone()?;
    Strand::with_events(alloc, Instance::new(role, height, values))
}

/// Placeholder for an ill-formed strand.
fn no_strand(alloc: Global) -> Result<Strand, AllocError>
    ensures { IfOk result (λ s. s ≡ listener (tag_term [])) }
{
    Strand::listener(alloc, no_term(alloc)?)
}

/// The listener with these items after its head.
fn listener(alloc: Global, variables: &Variables, items: &[Form]) -> Result<Strand, AllocError>
    ensures { IfOk result (λ s. s ≡ listener (listened_term variables.now (map view items.now))) }
{
    match items {
        [message, ..] => Strand::listener(alloc, term_of(alloc, variables, message)?),
        [] => no_strand(alloc),
    }
}

/// The instance with these items after its head. Variables that are made for it are appended to `all`.
fn instance(
    alloc: Global,
    roles: &[Rc<Role>],
    declared: &Variables,
    items: &[Form],
    all: &mut Vec<Declaration>,
) -> Result<Strand, AllocError>
    ensures { IfOk result (λ s. IsMade (instance_by (role_named (shared_roles_view roles.now) (name_in_front (map view items.now))) declared.now (length all.old.items) (map view items.now))
        s all.old.items all.new.items) }
{
    let [name, height, maplets @ ..] = items else {
        return no_strand(alloc);
    };
    match role_named(roles, symbol_or_empty(name)) {
        Some(role) => instance_of_role(alloc, role, declared, height, maplets, all),
        None => no_strand(alloc),
    }
}

/// The strand that an item makes, if it makes one. Variables that are made for it are appended to `all`.
fn strand(
    alloc: Global,
    roles: &[Rc<Role>],
    declared: &Variables,
    item: &Form,
    all: &mut Vec<Declaration>,
) -> Result<Option<Strand>, AllocError>
    ensures { IfOk result (λ s. IsMadeIf (strand_by (shared_roles_view roles.now) declared.now (length all.old.items)
        (item_or_none (headed (view item.now))) (items_behind (headed (view item.now))))
        s all.old.items all.new.items) }
{
    let Some(list) = headed(item) else {
        return Ok(None);
    };
    match item_head(list.head) {
        ItemHead::Strand => instance(alloc, roles, declared, list.items, all).map(Some),
        ItemHead::Listener => listener(alloc, declared, list.items).map(Some),
        _ => Ok(None),
    }
}

/// The strands that these items make. Variables that are made for them are appended to `all`.
pub fn strands(
    alloc: Global,
    roles: &[Rc<Role>],
    declared: &Variables,
    items: &[Form],
    all: &mut Vec<Declaration>,
) -> Result<Vec<Strand>, AllocError>
    ensures { IfOk result (λ v. AreMade (strands_from (shared_roles_view roles.now) declared.now (length all.old.items) (map view items.now))
        v.items all.old.items all.new.items) }
{
    let mut strands = Vec::new(alloc);
    for item in items {
        let Some(strand) = strand(alloc, roles, declared, item, all)? else {
            continue;
        };
        strands.push(strand)?;
    }
    Ok(strands)
}
