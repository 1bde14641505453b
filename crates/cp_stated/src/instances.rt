// The strands of a label form: where they do not fit.
ghost use Rattle.std.specs.Prelude.{◌≡◌, ◌&&◌, ◌∷◌, [], nat_lt, nat_le, length, map, option_map, IfOk, OnOk};
ghost use Rattle.cp_model.specs.Strand.{variables_of_trace};
ghost use Rattle.cp_sexpr.specs.View.{view};
ghost use Rattle.cp_language.specs.Problems.{role_named, is_known};
ghost use Rattle.cp_roles.specs.Named.{shared_roles_view};
ghost use Rattle.cp_report.specs.Misfits.{each_misfits, entries_misfits, symbol_misfits};
ghost use Rattle.cp_report.specs.Heads.{items_with, strand_heads};
ghost use Rattle.cp_report.specs.Spelled.{term_misfits};
ghost use Rattle.cp_report.specs.Skeletons.{height_misfits, declared_in_prefix, prefix_misfits, instance_misfits, strand_misfits};
ghost use Rattle.cp_spelled.specs.FirstMisfit.{first_onto};
ghost use Rattle.cp_spelled.specs.Views.{scope_view};

use crate::heads::is_strand;
use crate::stated_strands::number_of;
use cp_base::Place;
use cp_roles::role_named;
use cp_scope::{items_behind, place_of, symbol_or_empty};
use cp_sexpr::Form;
use cp_skel::{Declaration, Event, Role, occurs, prefix_of};
use cp_spelled::{
    FirstMisfit, Scope, Variables, any_number_misfits, has_head, mapping_misfits, no_more,
    term_misfits,
};
use cp_term::VarId;
use std::alloc::{AllocError, Global};
use std::rc::Rc;

/// The form must be the name of one of these roles.
fn role_name_misfits(roles: &[Rc<Role>], form: &Form, first: &mut FirstMisfit)
    ensures { first.new ≡ first_onto first.old (symbol_misfits (λ t. is_known (role_named (shared_roles_view roles.now) t)) (view form.now)) }
{
    match form {
        Form::Symbol(place, name) => {
            first.note_unless(role_named(roles, name.as_bytes()).is_some(), *place);
        }
        _ => first.note(place_of(form)),
    }
}

/// Whether the role has a prefix of this height.
fn is_height(role: &Role, height: usize) -> bool
    ensures { result ≡ (nat_lt 0 height && nat_le height (length role.now.trace)) }
{
    0 < height && height <= role.trace().len()
}

/// The form must be a height of the role, if the role is known.
fn height_misfits(role: Option<&Rc<Role>>, form: &Form, first: &mut FirstMisfit)
    ensures { first.new ≡ first_onto first.old (height_misfits (option_map (λ r. r.now.value) role.entry) (view form.now)) }
{
    let Some(role) = role else {
        any_number_misfits(form, first);
        return;
    };
    match form {
        Form::Number(place, height) => first.note_unless(is_height(role, *height), *place),
        _ => first.note(place_of(form)),
    }
}

/// The variables of a role that occur in these events.
fn declared_in_prefix(
    alloc: Global,
    prefix: &[Event],
    variables: &[Declaration],
) -> Result<Variables, AllocError>
    ensures { IfOk result (λ v. v
        ≡ declared_in_prefix (variables_of_trace prefix.now) 0 variables.now) }
{
    let mut declared = Variables::new(alloc);
    for (number, declaration) in variables.iter().enumerate() {
        if !occurs(prefix, VarId::numbered(number), declaration.sort) {
            continue;
        }
        let identifier = declaration.identifier.copy()?;
        let sort = declaration.sort;
        declared.push(alloc, Declaration { identifier, sort })?;
    }
    Ok(declared)
}

/// The maplets must map the variables of a prefix of the role, if the role is known.
fn prefix_misfits(
    alloc: Global,
    scope: Scope<'_>,
    role: Option<&Rc<Role>>,
    height: usize,
    place: Place,
    maplets: &[Form],
    first: &mut FirstMisfit,
) -> Result<(), AllocError>
    ensures { OnOk result (first.new ≡ first_onto first.old (prefix_misfits (scope_view scope.entry) (option_map (λ r. r.now.value) role.entry) height place (map view maplets.now))) }
{
    let Some(role) = role else {
        return Ok(());
    };
    let wanted = declared_in_prefix(alloc, prefix_of(role, height), role.variables())?;
    mapping_misfits(alloc, scope, &wanted, place, maplets, first)
}

/// The head of an instance must be followed by a role, a height of it, and maplets for its prefix.
fn instance_misfits(
    alloc: Global,
    roles: &[Rc<Role>],
    scope: Scope<'_>,
    place: Place,
    items: &[Form],
    first: &mut FirstMisfit,
) -> Result<(), AllocError>
    ensures { OnOk result (first.new ≡ first_onto first.old (instance_misfits (shared_roles_view roles.now) (scope_view scope.entry) place (map view items.now))) }
{
    let [name, height, maplets @ ..] = items else {
        first.note(place);
        return Ok(());
    };
    let role = role_named(roles, symbol_or_empty(name));
    let number = number_of(height);
    let mut inside = FirstMisfit::new();
    role_name_misfits(roles, name, &mut inside);
    height_misfits(role, height, &mut inside);
    if inside.is_none() {
        prefix_misfits(alloc, scope, role, number, place, maplets, &mut inside)?;
    }
    first.merge(inside);
    Ok(())
}

/// The items of the list at this place must be one term.
pub fn one_term_misfits(scope: Scope<'_>, place: Place, items: &[Form], first: &mut FirstMisfit)
    ensures { first.new ≡ first_onto first.old (entries_misfits (term_misfits (scope_view scope.entry) ∷ []) place (map view items.now)) }
{
    let Some((term, rest)) = items.split_first() else {
        first.note(place);
        return;
    };
    term_misfits(scope, term, first);
    no_more(rest, first);
}

/// A form with the head of a strand must be one.
fn strand_misfits(
    alloc: Global,
    roles: &[Rc<Role>],
    scope: Scope<'_>,
    form: &Form,
    first: &mut FirstMisfit,
) -> Result<(), AllocError>
    ensures { OnOk result (first.new ≡ first_onto first.old (strand_misfits (shared_roles_view roles.now) (scope_view scope.entry) (view form.now))) }
{
    let place = place_of(form);
    let items = items_behind(form);
    if has_head(form, b"defstrand") {
        return instance_misfits(alloc, roles, scope, place, items, first);
    }
    one_term_misfits(scope, place, items, first);
    Ok(())
}

/// Notes where the strands among the items of a label form do not fit. Each must be an instance of one of these roles
/// or a listener.
pub fn strands_misfits(
    alloc: Global,
    roles: &[Rc<Role>],
    scope: Scope<'_>,
    items: &[Form],
    first: &mut FirstMisfit,
) -> Result<(), AllocError>
    ensures { OnOk result (first.new ≡ first_onto first.old (each_misfits (strand_misfits (shared_roles_view roles.now) (scope_view scope.entry)) (items_with strand_heads (map view items.now)))) }
{
    for item in items {
        if !is_strand(item) {
            continue;
        }
        strand_misfits(alloc, roles, scope, item, first)?;
    }
    Ok(())
}
