// Roles.
ghost use Rattle.std.specs.Prelude.{◌≡◌, [], map, option_map, IfOk, OnOk};
ghost use Rattle.cp_sexpr.specs.View.{view};
ghost use Rattle.cp_base.specs.declared.place.Code.TheVariants.{DuplicateRole};
ghost use Rattle.cp_language.specs.Words.{is_one_of};
ghost use Rattle.cp_language.specs.Faults.{fault};
ghost use Rattle.cp_language.specs.Roles.{each_faults, item_faults, role_item_faults, name_faults_at, role_faults, role_of, protocol_item_faults, roles_faults, roles_in, headed};
ghost use Rattle.cp_language.specs.Problems.{role_named};
ghost use Rattle.cp_scope.specs.FirstFault.{first_onto};
ghost use Rattle.cp_roles.specs.Named.{role_names, shared_roles_view, with_role};

use crate::events::{events_of, trace_faults};
use crate::uniques::{Scope, role_uniques_faults};
use cp_base::{Code, Text};
use cp_scope::{
    FirstFault, HeadedList, ItemHead, Kind, atoms_faults, atoms_of, headed, is_word, item_head,
    items_behind, name_of, place_of, variables_of,
};
use cp_sexpr::Form;
use cp_strand::{Declaration, Event, Protocol, Role};
use std::alloc::{AllocError, Global};
use std::rc::Rc;

/// Notes the faults of an item of a role with these variables and this trace.
fn role_item_faults(scope: Scope<'_>, form: &Form, first: &mut FirstFault) -> Result<(), AllocError>
    ensures { OnOk result (first.new ≡ first_onto first.old
        (item_faults (role_item_faults scope.entry.variables.now scope.entry.trace.now) (view form.now))) }
{
    let Some(list) = headed(form) else {
        first.note(place_of(form), Code::BadShape);
        return Ok(());
    };
    match item_head(list.head) {
        ItemHead::Non | ItemHead::PenetratorNon => atoms_faults(scope.variables, list.items, first),
        ItemHead::Unique => return role_uniques_faults(scope, list.items, first),
        ItemHead::Comment => {}
        ItemHead::OutOfProfile => first.note(place_of(form), Code::OutOfProfile),
        _ => first.note(place_of(form), Code::UnknownForm),
    }
    Ok(())
}

/// Notes the faults of the items of a role with these variables and this trace.
fn role_items_faults(
    scope: Scope<'_>,
    items: &[Form],
    first: &mut FirstFault,
) -> Result<(), AllocError>
    ensures { OnOk result (first.new ≡ first_onto first.old
        (each_faults (item_faults (role_item_faults scope.entry.variables.now scope.entry.trace.now)) (map view items.now))) }
{
    for item in items {
        role_item_faults(scope, item, first)?;
    }
    Ok(())
}

/// Whether one of the roles has this name.
fn is_role_name(roles: &[Rc<Role>], name: &[u8]) -> bool
    ensures { result ≡ is_one_of name.now (role_names roles.now) }
{
    for role in roles {
        if is_word(name, role.name().as_str().as_bytes()) {
            return true;
        }
    }
    false
}

/// The first role with this name.
pub fn role_named<'a>(roles: &'a [Rc<Role>], name: &[u8]) -> Option<&'a Rc<Role>>
    ensures { option_map (λ r. r.now.value) result ≡ role_named (shared_roles_view roles.now) name.now }
{
    for role in roles {
        if is_word(role.name().as_str().as_bytes(), name) {
            return Some(role);
        }
    }
    None
}

/// Notes the faults of the name of a role. `before` are the roles before it.
fn role_name_faults(before: &[Rc<Role>], form: &Form, first: &mut FirstFault)
    ensures { first.new ≡ first_onto first.old (name_faults_at (role_names before.now) (λ p. fault p DuplicateRole) (view form.now)) }
{
    let Form::Symbol(place, name) = form else {
        first.note(place_of(form), Code::BadShape);
        return;
    };
    if is_role_name(before, name.as_bytes()) {
        first.note(*place, Code::DuplicateRole);
    }
}

/// Placeholder for an ill-formed role.
fn no_role(alloc: Global) -> Result<Role, AllocError>
    ensures { IfOk result (λ r. r ≡ role_of []) }
{
    let trace = Vec::new(alloc);
    Ok(Role::new(
        Text::new(alloc, "")?,
        Vec::new(alloc),
        trace,
        Vec::new(alloc),
        Vec::new(alloc),
        Vec::new(alloc),
    ))
}

/// The role that a list states. `before` are the roles before it. Notes its faults; what stands for a role with faults
/// has no meaning.
fn role_of(
    alloc: Global,
    before: &[Rc<Role>],
    list: HeadedList<'_>,
    first: &mut FirstFault,
) -> Result<Role, AllocError>
    ensures faults { OnOk result (first.new ≡ first_onto first.old (role_faults (role_names before.now) list.entry.place (map view list.entry.items.now))) }
    ensures role { IfOk result (λ r. r ≡ role_of (map view list.entry.items.now)) }
{
    let [name, variables, trace, items @ ..] = list.items else {
        first.note(list.place, Code::BadShape);
        return no_role(alloc);
    };
    role_name_faults(before, name, first);
    let variables = variables_of(alloc, variables, first)?;
    trace_faults(&variables, trace, first);
    let trace = events_of(alloc, &variables, trace)?;
    let scope = Scope {
        alloc,
        variables: &variables,
        trace: &trace,
    };
    role_items_faults(scope, items, first)?;
    let non_originating = atoms_of(alloc, &variables, Kind::Non, items)?;
    let penetrator_non_originating = atoms_of(alloc, &variables, Kind::PenetratorNon, items)?;
    let uniquely_originating = atoms_of(alloc, &variables, Kind::Unique, items)?;
    let role = Role::new(
        name_of(alloc, name)?,
        variables.into_declarations(),
        trace,
        non_originating,
        penetrator_non_originating,
        uniquely_originating,
    );
    Role::indexed(alloc, role)
}

/// Notes the faults of an item of a protocol, and appends the role that it defines, if any.
fn protocol_item(
    alloc: Global,
    roles: &mut Vec<Rc<Role>>,
    form: &Form,
    first: &mut FirstFault,
) -> Result<(), AllocError>
    ensures faults { OnOk result (first.new ≡ first_onto first.old (item_faults (protocol_item_faults (role_names roles.old.items)) (view form.now))) }
    ensures roles { OnOk result (shared_roles_view roles.new.items ≡ with_role (shared_roles_view roles.old.items) (headed (view form.now))) }
{
    let Some(list) = headed(form) else {
        first.note(place_of(form), Code::BadShape);
        return Ok(());
    };
    match item_head(list.head) {
        ItemHead::Role => {
            let role = role_of(alloc, roles, list, first)?;
            let role = Rc::new(alloc, role)?;
            roles.push(role)?;
        }
        ItemHead::Comment => {}
        ItemHead::OutOfProfile => first.note(place_of(form), Code::OutOfProfile),
        _ => first.note(place_of(form), Code::UnknownForm),
    }
    Ok(())
}

/// The roles that these items of a protocol define. Notes their faults.
pub(crate) fn roles_of(
    alloc: Global,
    items: &[Form],
    first: &mut FirstFault,
) -> Result<Vec<Rc<Role>>, AllocError>
    ensures faults { OnOk result (first.new ≡ first_onto first.old (roles_faults [] (map view items.now))) }
    ensures roles { IfOk result (λ v. shared_roles_view v.items ≡ roles_in (map view items.now)) }
{
    let mut roles = Vec::new(alloc);
    for item in items {
        protocol_item(alloc, &mut roles, item, first)?;
    }
    Ok(roles)
}
