// The unique values that a label form assumes, with their recorded origins.
ghost use Rattle.std.specs.Prelude.{◌≡◌, ◌++◌, ◌∷◌, [], map, option_map, Some, IfOk, OnOk};
ghost use Rattle.cp_lists.specs.Lists.{item_at};
ghost use Rattle.cp_model.specs.Term.{apply_to};
ghost use Rattle.cp_model.specs.Strand.{event_map};
ghost use Rattle.cp_model.specs.Homomorphism.{substitution_by};
ghost use Rattle.cp_model.specs.Skeleton.{skeleton_trace};
ghost use Rattle.cp_model.specs.Given.{has_unique};
ghost use Rattle.cp_sexpr.specs.View.{view};
ghost use Rattle.cp_language.specs.Terms.{as_atom};
ghost use Rattle.cp_language.specs.Roles.{list_items};
ghost use Rattle.cp_language.specs.Problems.{second_form};
ghost use Rattle.cp_strand.specs.View.{instance_view};
ghost use Rattle.cp_report.specs.Misfits.{lacking, entries_misfits, list_misfits};
ghost use Rattle.cp_report.specs.Heads.{optional_misfits, entries_or_none};
ghost use Rattle.cp_report.specs.Spelled.{atom_misfits};
ghost use Rattle.cp_report.specs.Skeletons.{scope_of, term_or_tag, node_misfits, carries_value, may_be_origin, unique_of, second_place, unique_misfits, uniques_misfits, has_uniques, uniques_under};
ghost use Rattle.cp_spelled.specs.FirstMisfit.{first_onto};
ghost use Rattle.cp_spelled.specs.Views.{scope_view};
ghost use Rattle.cp_stated.specs.AssumptionEntries.{may_be_origin_on, uniques_item_misfits};

use crate::heads::{item_with, place_or};
use crate::nodes::{node_or_first, one_node_misfits};
use cp_base::Place;
use cp_load::carries_under;
use cp_scope::{item_at, items_behind, list_items, no_atom, place_of};
use cp_sexpr::Form;
use cp_skel::{Atom, Event, Instance, Node, Strand, StrandShape, UniqueAt, prefix_of};
use cp_spelled::{FirstMisfit, Scope, atom_in, atom_misfits, entries_under, lacking};
use cp_term::Term;
use std::alloc::{AllocError, Global};

/// Whether a unique value with its origin is one of these.
pub(crate) fn has_unique(uniques: &[UniqueAt], unique: &UniqueAt) -> bool
    ensures { result ≡ has_unique uniques.now unique.now }
{
    cp_skel::has_unique(uniques, unique)
}

/// Whether all of `wanted` are among the others.
fn has_uniques(uniques: &[UniqueAt], wanted: &[UniqueAt]) -> bool
    ensures { result ≡ has_uniques uniques.now wanted.now }
{
    for unique in wanted {
        if !has_unique(uniques, unique) {
            return false;
        }
    }
    true
}

/// The event at an index, from 0.
fn event_at(events: &[Event], index: usize) -> Option<&Event>
    ensures { option_map (λ e. e.now) result ≡ item_at events.now index }
{
    events.get(index)
}

/// Whether a role's event, under the terms of an instance, is a transmission that carries a value.
fn is_sent_by(values: &[Term], event: &Event, value: &Atom) -> bool
    ensures { result ≡ carries_value value.now (Some (event_map (apply_to (substitution_by values.now)) event.now)) }
{
    match event {
        Event::Send(message) => carries_under(values, message, value.as_term()),
        Event::Receive(_) => false,
    }
}

/// Whether the event at an index of an instance is a transmission that carries a value.
fn is_sent_on(instance: &Instance, value: &Atom, index: usize) -> bool
    ensures { result ≡ carries_value value.now (item_at (skeleton_trace (instance_view instance.now)) index) }
{
    match event_at(prefix_of(instance.role(), instance.height()), index) {
        Some(event) => is_sent_by(instance.values(), event, value),
        None => false,
    }
}

/// Whether a strand is an instance with a transmission at this index that carries a value.
fn may_be_origin_on(strand: &Strand, value: &Atom, index: usize) -> bool
    ensures { result ≡ may_be_origin_on strand.now value.now index }
{
    match strand.shape() {
        StrandShape::Instance(instance) => is_sent_on(instance, value, index),
        StrandShape::Listener(_) => false,
    }
}

/// Whether a node is a transmission of an instance that carries a value.
fn may_be_origin(strands: &[Strand], value: &Atom, node: Node) -> bool
    ensures { result ≡ may_be_origin strands.now value.now node }
{
    match strands.get(node.strand) {
        Some(strand) => may_be_origin_on(strand, value, node.index),
        None => false,
    }
}

/// The value that a form states, if there is a form.
fn atom_if_there(alloc: Global, scope: Scope<'_>, form: Option<&Form>) -> Result<Atom, AllocError>
    ensures { IfOk result (λ a. a ≡ as_atom (term_or_tag (scope_view scope.entry) (option_map (λ f. view f.now) form.entry))) }
{
    match form {
        Some(form) => atom_in(alloc, scope, form),
        None => no_atom(alloc),
    }
}

/// The value with its recorded origin that a form states.
fn unique_of(alloc: Global, scope: Scope<'_>, form: &Form) -> Result<UniqueAt, AllocError>
    ensures { IfOk result (λ u. u ≡ unique_of (scope_view scope.entry) (view form.now)) }
{
    let items = list_items(form);
    let origin = node_or_first(item_at(items, 1));
    atom_if_there(alloc, scope, item_at(items, 0)).map(|value| UniqueAt::new(value, origin))
}

/// The place of the second entry of a list; of a form without one its own place.
fn second_place(form: &Form) -> Place
    ensures { result ≡ second_place (view form.now) (second_form (list_items (view form.now))) }
{
    match item_at(list_items(form), 1) {
        Some(second) => place_of(second),
        None => place_of(form),
    }
}

/// The items of the list at this place must be a value and a node.
fn value_and_node_misfits(
    scope: Scope<'_>,
    strands: &[Strand],
    place: Place,
    items: &[Form],
    first: &mut FirstMisfit,
)
    ensures { first.new ≡ first_onto first.old (entries_misfits (atom_misfits (scope_view scope.entry) ∷ node_misfits strands.now ∷ []) place (map view items.now)) }
{
    let Some((value, rest)) = items.split_first() else {
        first.note(place);
        return;
    };
    atom_misfits(scope, value, first);
    one_node_misfits(strands, place, rest, first);
}

/// The form must be a list of a value and a node.
fn entry_misfits(scope: Scope<'_>, strands: &[Strand], form: &Form, first: &mut FirstMisfit)
    ensures { first.new ≡ first_onto first.old (list_misfits (entries_misfits (atom_misfits (scope_view scope.entry) ∷ node_misfits strands.now ∷ [])) (view form.now)) }
{
    let Form::List(place, items) = form else {
        first.note(place_of(form));
        return;
    };
    value_and_node_misfits(scope, strands, *place, items.as_slice(), first);
}

/// The form must be this value with its recorded origin, and none of those before it.
fn unique_misfits(
    scope: Scope<'_>,
    strands: &[Strand],
    before: &[UniqueAt],
    unique: &UniqueAt,
    form: &Form,
    first: &mut FirstMisfit,
)
    requires { unique.now ≡ unique_of (scope_view scope) (view form.now) }
    ensures { first.new ≡ first_onto first.old (unique_misfits (scope_view scope.entry) strands.now before.now (view form.now)) }
{
    let mut inside = FirstMisfit::new();
    entry_misfits(scope, strands, form, &mut inside);
    let originates = may_be_origin(strands, unique.value(), unique.origin());
    inside.note_unless_misfit(originates, second_place(form));
    inside.note_unless_misfit(!has_unique(before, unique), place_of(form));
    first.merge(inside);
}

/// The forms must be values with their recorded origins, none of them twice. Returns them.
fn uniques_misfits(
    alloc: Global,
    scope: Scope<'_>,
    strands: &[Strand],
    items: &[Form],
    first: &mut FirstMisfit,
) -> Result<Vec<UniqueAt>, AllocError>
    ensures misfits { OnOk result (first.new ≡ first_onto first.old (uniques_misfits (scope_view scope.entry) strands.now [] (map view items.now))) }
    ensures uniques { IfOk result (λ v. v.items ≡ map (unique_of (scope_view scope.entry)) (map view items.now)) }
{
    let mut uniques = Vec::new(alloc);
    for item in items {
        let unique = unique_of(alloc, scope, item)?;
        unique_misfits(scope, strands, &uniques, &unique, item, first);
        uniques.push(unique)?;
    }
    Ok(uniques)
}

/// The entries of the unique values, if there are any, must be values with their recorded origins, at least one, and
/// none of them twice. Returns them.
fn optional_uniques_misfits(
    alloc: Global,
    scope: Scope<'_>,
    strands: &[Strand],
    item: Option<&Form>,
    first: &mut FirstMisfit,
) -> Result<Vec<UniqueAt>, AllocError>
    ensures misfits { OnOk result (first.new ≡ first_onto first.old (optional_misfits (λ p fs. lacking 1 p fs ++ uniques_misfits (scope_view scope.entry) strands.now [] fs)
        (option_map (λ f. view f.now) item.entry))) }
    ensures uniques { IfOk result (λ v. v.items ≡ map (unique_of (scope_view scope.entry)) (entries_or_none (option_map (λ f. view f.now) item.entry))) }
{
    let Some(item) = item else {
        return Ok(Vec::new(alloc));
    };
    let entries = items_behind(item);
    lacking(1, place_of(item), entries, first);
    uniques_misfits(alloc, scope, strands, entries, first)
}

/// Notes where the unique values among the items of a label form at this place do not fit. `given` are those that the
/// roles of its strands give.
pub(crate) fn all_uniques_misfits(
    alloc: Global,
    scope: Scope<'_>,
    strands: &[Strand],
    place: Place,
    given: &[UniqueAt],
    items: &[Form],
    first: &mut FirstMisfit,
) -> Result<(), AllocError>
    requires { scope_view scope ≡ scope_of (map view items.now) }
    ensures { OnOk result (first.new ≡ first_onto first.old (uniques_item_misfits place strands.now given.now (map view items.now))) }
{
    let item = item_with(items, b"uniq-orig");
    let mut inside = FirstMisfit::new();
    let uniques = optional_uniques_misfits(alloc, scope, strands, item, &mut inside)?;
    inside.note_unless_misfit(has_uniques(&uniques, given), place_or(place, item));
    first.merge(inside);
    Ok(())
}

/// The unique values with their recorded origins that the items of a label form state.
pub(crate) fn uniques_under(
    alloc: Global,
    scope: Scope<'_>,
    items: &[Form],
) -> Result<Vec<UniqueAt>, AllocError>
    requires { scope_view scope ≡ scope_of (map view items.now) }
    ensures { IfOk result (λ v. v.items ≡ uniques_under (map view items.now)) }
{
    let entries = entries_under(items, b"uniq-orig");
    entries
        .iter()
        .map(|item| unique_of(alloc, scope, item))
        .try_collect(alloc)
}
