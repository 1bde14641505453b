// The faults of the strands of problems.
ghost use Rattle.std.specs.Prelude.{◌≡◌, ◌&&◌, nat_lt, nat_le, length, [], map, option_map};
ghost use Rattle.cp_sexpr.specs.View.{view};
ghost use Rattle.cp_language.specs.Words.{is_one_of};
ghost use Rattle.cp_language.specs.Problems.{role_named, role_name_faults, height_faults, role_variable_faults, mapped_faults, maplet_items_faults, maplet_faults, second_term_faults, maplets_faults, maplets_faults_of, instance_faults, listener_faults, number_of};
ghost use Rattle.cp_scope.specs.FirstFault.{first_onto};
ghost use Rattle.cp_roles.specs.Named.{shared_roles_view};
ghost use Rattle.cp_roles.specs.Mapped.{mapped_names};

use crate::event_variables::{Prefix, occurs};
use crate::role_named;
use cp_base::{Code, Place};
use cp_scope::{
    FirstFault, Variable, Variables, exceeds, first_items, is_word, item_at, lacks, list_items,
    place_of, sort_faults, symbol_or_empty, term_faults, variable_named,
};
use cp_sexpr::Form;
use cp_strand::Role;
use std::rc::Rc;

/// Notes the faults of the name of a role.
fn role_name_faults(roles: &[Rc<Role>], form: &Form, first: &mut FirstFault)
    ensures { first.new ≡ first_onto first.old (role_name_faults (shared_roles_view roles.now) (view form.now)) }
{
    let Form::Symbol(place, name) = form else {
        first.note(place_of(form), Code::BadShape);
        return;
    };
    let role = role_named(roles, name.as_bytes());
    first.note_unless(role.is_some(), *place, Code::UnknownRole);
}

/// Whether the role has a prefix of this height.
fn is_height(role: &Role, height: usize) -> bool
    ensures { result ≡ (nat_lt 0 height && nat_le height (length role.now.trace)) }
{
    0 < height && height <= role.trace().len()
}

/// Notes the faults of the height of an instance of a role, if the role is known.
fn height_faults(role: Option<&Rc<Role>>, form: &Form, first: &mut FirstFault)
    ensures { first.new ≡ first_onto first.old (height_faults (option_map (λ r. r.now.value) role.entry) (view form.now)) }
{
    let Form::Number(place, height) = form else {
        first.note(place_of(form), Code::BadShape);
        return;
    };
    if let Some(role) = role {
        first.note_unless(is_height(role, *height), *place, Code::BadHeight);
    }
}

/// Notes the faults of the variable on the left of a maplet to this term. The variable stands at this place.
fn role_variable_faults(
    role: &Role,
    height: usize,
    variables: &Variables,
    place: Place,
    term: Option<&Form>,
    variable: Option<Variable>,
    first: &mut FirstFault,
)
    ensures { first.new ≡ first_onto first.old (role_variable_faults role.now height variables.now place
        (option_map (λ f. view f.now) term.entry) variable) }
{
    let Some(variable) = variable else {
        first.note(place, Code::UnknownVar);
        return;
    };
    first.note_unless(
        occurs(Prefix { role, height }, variable),
        place,
        Code::NotInPrefix,
    );
    if let Some(term) = term {
        sort_faults(variables, variable.sort, term, first);
    }
}

/// Whether one of these maplets maps this identifier.
fn is_mapped(maplets: &[Form], identifier: &[u8]) -> bool
    ensures { result ≡ is_one_of identifier.now (mapped_names (map view maplets.now)) }
{
    for maplet in maplets {
        if let Some(form) = list_items(maplet).first() {
            if is_word(identifier, symbol_or_empty(form)) {
                return true;
            }
        }
    }
    false
}

/// Notes the faults of the left side of a maplet to this term. `before` are the maplets before it.
fn mapped_faults(
    role: &Role,
    height: usize,
    variables: &Variables,
    before: &[Form],
    form: &Form,
    term: Option<&Form>,
    first: &mut FirstFault,
)
    ensures { first.new ≡ first_onto first.old (mapped_faults role.now height variables.now (mapped_names (map view before.now))
        (view form.now) (option_map (λ f. view f.now) term.entry)) }
{
    let Form::Symbol(place, identifier) = form else {
        first.note(place_of(form), Code::BadShape);
        return;
    };
    if is_mapped(before, identifier.as_bytes()) {
        first.note(*place, Code::DuplicateVar);
    }
    let variable = variable_named(role.variables(), identifier.as_bytes());
    role_variable_faults(role, height, variables, *place, term, variable, first);
}

/// Notes the faults of the term on the right of a maplet, if there is one.
fn second_term_faults(variables: &Variables, term: Option<&Form>, first: &mut FirstFault)
    ensures { first.new ≡ first_onto first.old (second_term_faults variables.now (option_map (λ f. view f.now) term.entry)) }
{
    if let Some(term) = term {
        term_faults(variables, term, first);
    }
}

/// Notes the faults of a maplet with these items. `before` are the maplets before it.
fn maplet_items_faults(
    role: &Role,
    height: usize,
    variables: &Variables,
    before: &[Form],
    place: Place,
    items: &[Form],
    first: &mut FirstFault,
)
    ensures { first.new ≡ first_onto first.old (maplet_items_faults role.now height variables.now (mapped_names (map view before.now))
        place (map view items.now)) }
{
    let Some((form, rest)) = items.split_first() else {
        first.note(place, Code::BadShape);
        return;
    };
    let term = item_at(rest, 0);
    lacks(1, place, rest, first);
    mapped_faults(role, height, variables, before, form, term, first);
    second_term_faults(variables, term, first);
    exceeds(1, rest, first);
}

/// Notes the faults of a maplet. `before` are the maplets before it.
fn maplet_faults(
    role: &Role,
    height: usize,
    variables: &Variables,
    before: &[Form],
    form: &Form,
    first: &mut FirstFault,
)
    ensures { first.new ≡ first_onto first.old (maplet_faults role.now height variables.now (mapped_names (map view before.now)) (view form.now)) }
{
    match form {
        Form::List(place, items) => maplet_items_faults(
            role, height, variables, before, *place, items, first,
        ),
        _ => first.note(place_of(form), Code::BadShape),
    }
}

/// Notes the faults of the maplets of an instance.
fn maplets_faults(
    role: &Role,
    height: usize,
    variables: &Variables,
    maplets: &[Form],
    first: &mut FirstFault,
)
    ensures { first.new ≡ first_onto first.old (maplets_faults role.now height variables.now [] (map view maplets.now)) }
{
    for (number, maplet) in maplets.iter().enumerate() {
        maplet_faults(
            role,
            height,
            variables,
            first_items(maplets, number),
            maplet,
            first,
        );
    }
}

/// The number that a form is, or 0 if it is none.
pub(crate) fn number_of(form: &Form) -> usize
    ensures { result ≡ number_of (view form.now) }
{
    match form {
        Form::Number(_, number) => *number,
        _ => 0,
    }
}

/// Notes the faults of the maplets of an instance, if its role is known. The form `height` states its height.
fn maplets_faults_of(
    role: Option<&Rc<Role>>,
    height: &Form,
    variables: &Variables,
    maplets: &[Form],
    first: &mut FirstFault,
)
    ensures { first.new ≡ first_onto first.old (maplets_faults_of (option_map (λ r. r.now.value) role.entry) (view height.now) variables.now (map view maplets.now)) }
{
    if let Some(role) = role {
        maplets_faults(role, number_of(height), variables, maplets, first);
    }
}

/// Notes the faults of an instance with these items after its head.
pub fn instance_faults(
    roles: &[Rc<Role>],
    variables: &Variables,
    place: Place,
    items: &[Form],
    first: &mut FirstFault,
)
    ensures { first.new ≡ first_onto first.old (instance_faults (shared_roles_view roles.now) variables.now place (map view items.now)) }
{
    let [name, height, maplets @ ..] = items else {
        first.note(place, Code::BadShape);
        return;
    };
    let role = role_named(roles, symbol_or_empty(name));
    role_name_faults(roles, name, first);
    height_faults(role, height, first);
    maplets_faults_of(role, height, variables, maplets, first);
}

/// Notes the faults of a listener with these items after its head.
pub fn listener_faults(variables: &Variables, place: Place, items: &[Form], first: &mut FirstFault)
    ensures { first.new ≡ first_onto first.old (listener_faults variables.now place (map view items.now)) }
{
    let Some((term, rest)) = items.split_first() else {
        first.note(place, Code::BadShape);
        return;
    };
    term_faults(variables, term, first);
    exceeds(0, rest, first);
}
