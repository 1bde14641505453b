// The faults of the items of problems.
ghost use Rattle.std.specs.Prelude.{◌≡◌, ◌++◌, ◌||◌, [], not, map, OnOk};
ghost use Rattle.cp_sexpr.specs.View.{view};
ghost use Rattle.cp_language.specs.Terms.{atom_faults};
ghost use Rattle.cp_language.specs.Roles.{headed, item_or_none, items_behind, item_faults, each_faults};
ghost use Rattle.cp_language.specs.Problems.{misplaced_unless, instance_faults, listener_faults, unique_faults, pairs_faults, pairs_in, pairs_if, is_precedes_item, stage_after, problem_item_faults, body_faults};
ghost use Rattle.cp_scope.specs.FirstFault.{first_onto};
ghost use Rattle.cp_roles.specs.Named.{shared_roles_view};
ghost use Rattle.cp_load.specs.Stages.{stage_view, no_stage};
ghost use Rattle.cp_load.specs.Acyclic.{IsAcyclicUpTo, pairs_of_item};

use crate::acyclic::stated_without_cycle;
use crate::items::{is_assumption_or_order, is_strand_item};
use crate::orders::pairs_faults;
use crate::pairs::add_pairs;
use crate::values::unique_faults;
use cp_base::{Code, Place};
use cp_roles::{instance_faults, listener_faults};
use cp_scope::{FirstFault, ItemHead, Variables, atoms_faults, headed, item_head, place_of};
use cp_sexpr::Form;
use cp_skel::{OrderPair, Role, Strand};
use std::alloc::{AllocError, Global};
use std::rc::Rc;

/// The context of a problem's items: the roles of its protocol, its declared variables and its strands; and the
/// allocator.
#[derive(Clone, Copy)]
pub(crate) struct Scope<'a> {
    pub(crate) alloc: Global,
    pub(crate) roles: &'a [Rc<Role>],
    pub(crate) variables: &'a Variables,
    pub(crate) strands: &'a [Strand],
}

/// What stood before an item: whether a strand, and whether an assumption or an order.
#[derive(Clone, Copy)]
pub(crate) struct Stage {
    pub(crate) after_strand: bool,
    pub(crate) after_item: bool,
}

impl Stage {
    /// The stage after this item.
    fn after(self, item: &Form) -> Stage
        ensures { stage_view result ≡ stage_after (stage_view self) (item_or_none (headed (view item.now))) }
    {
        Stage {
            after_strand: self.after_strand || is_strand_item(item),
            after_item: self.after_item || is_assumption_or_order(item),
        }
    }
}

/// An item of a problem without its head: what stood before it, its place, and its own items.
#[derive(Clone, Copy)]
struct Item<'a> {
    stage: Stage,
    place: Place,
    items: &'a [Form],
}

/// Notes the faults of an instance. No assumption and no order may stand before it.
fn instance_item_faults(scope: Scope<'_>, item: Item<'_>, first: &mut FirstFault)
    ensures { first.new ≡ first_onto first.old (misplaced_unless (not item.entry.stage.after_item) item.entry.place
        (instance_faults (shared_roles_view scope.entry.roles.now) scope.entry.variables.now item.entry.place (map view item.entry.items.now))) }
{
    if item.stage.after_item {
        first.note(item.place, Code::UnknownForm);
    } else {
        instance_faults(scope.roles, scope.variables, item.place, item.items, first);
    }
}

/// Notes the faults of a listener. No assumption and no order may stand before it.
fn listener_item_faults(scope: Scope<'_>, item: Item<'_>, first: &mut FirstFault)
    ensures { first.new ≡ first_onto first.old (misplaced_unless (not item.entry.stage.after_item) item.entry.place
        (listener_faults scope.entry.variables.now item.entry.place (map view item.entry.items.now))) }
{
    if item.stage.after_item {
        first.note(item.place, Code::UnknownForm);
    } else {
        listener_faults(scope.variables, item.place, item.items, first);
    }
}

/// Notes the faults of an assumption. A strand must stand before it.
fn atoms_item_faults(scope: Scope<'_>, item: Item<'_>, first: &mut FirstFault)
    ensures { first.new ≡ first_onto first.old (misplaced_unless item.entry.stage.after_strand item.entry.place
        (each_faults (atom_faults scope.entry.variables.now) (map view item.entry.items.now))) }
{
    if item.stage.after_strand {
        atoms_faults(scope.variables, item.items, first);
    } else {
        first.note(item.place, Code::UnknownForm);
    }
}

/// Notes the faults of the unique values of a problem.
fn values_faults(scope: Scope<'_>, items: &[Form], first: &mut FirstFault) -> Result<(), AllocError>
    ensures { OnOk result (first.new ≡ first_onto first.old
        (each_faults (unique_faults scope.entry.strands.now scope.entry.variables.now) (map view items.now))) }
{
    for item in items {
        unique_faults(scope.alloc, scope.strands, scope.variables, item, first)?;
    }
    Ok(())
}

/// Notes the faults of an item that states unique values. A strand must stand before it.
fn uniques_item_faults(
    scope: Scope<'_>,
    item: Item<'_>,
    first: &mut FirstFault,
) -> Result<(), AllocError>
    ensures { OnOk result (first.new ≡ first_onto first.old (misplaced_unless item.entry.stage.after_strand item.entry.place
        (each_faults (unique_faults scope.entry.strands.now scope.entry.variables.now) (map view item.entry.items.now)))) }
{
    if item.stage.after_strand {
        return values_faults(scope, item.items, first);
    }
    first.note(item.place, Code::UnknownForm);
    Ok(())
}

/// Notes the faults of an order, before which a strand must stand, and appends its pairs to `before`. The first
/// `acyclic_count` of all these pairs must have no cycle.
fn order_item_faults(
    scope: Scope<'_>,
    before: &mut Vec<OrderPair>,
    acyclic_count: usize,
    item: Item<'_>,
    first: &mut FirstFault,
) -> Result<(), AllocError>
    requires { IsAcyclicUpTo acyclic_count (before.old.items ++ pairs_in (map view item.items.now)) }
    ensures faults { OnOk result (first.new ≡ first_onto first.old (misplaced_unless item.entry.stage.after_strand item.entry.place
        (pairs_faults scope.entry.strands.now before.old.items (map view item.entry.items.now)))) }
    ensures pairs { OnOk result (before.new.items ≡ before.old.items ++ pairs_in (map view item.entry.items.now)) }
{
    if item.stage.after_strand {
        return pairs_faults(
            scope.alloc,
            scope.strands,
            before,
            acyclic_count,
            item.items,
            first,
        );
    }
    first.note(item.place, Code::UnknownForm);
    add_pairs(item.items, before)
}

/// Notes the faults of an item of a problem, and appends the pairs that it states to `before`. The first
/// `acyclic_count` of all these pairs must have no cycle.
fn item_faults(
    scope: Scope<'_>,
    before: &mut Vec<OrderPair>,
    acyclic_count: usize,
    stage: Stage,
    form: &Form,
    first: &mut FirstFault,
) -> Result<(), AllocError>
    requires { IsAcyclicUpTo acyclic_count (before.old.items ++ pairs_of_item (view form.now)) }
    ensures faults { OnOk result (first.new ≡ first_onto first.old (item_faults (problem_item_faults (shared_roles_view scope.entry.roles.now)
        scope.entry.variables.now scope.entry.strands.now before.old.items (stage_view stage)) (view form.now))) }
    ensures pairs { OnOk result (before.new.items
        ≡ before.old.items ++ pairs_if (is_precedes_item (item_or_none (headed (view form.now)))) (items_behind (headed (view form.now)))) }
{
    let place = place_of(form);
    let Some(list) = headed(form) else {
        first.note(place, Code::BadShape);
        return Ok(());
    };
    let item = Item {
        stage,
        place,
        items: list.items,
    };
    match item_head(list.head) {
        ItemHead::Strand => instance_item_faults(scope, item, first),
        ItemHead::Listener => listener_item_faults(scope, item, first),
        ItemHead::Non | ItemHead::PenetratorNon => atoms_item_faults(scope, item, first),
        ItemHead::Unique => return uniques_item_faults(scope, item, first),
        ItemHead::Precedes => return order_item_faults(scope, before, acyclic_count, item, first),
        ItemHead::Comment => {}
        ItemHead::OutOfProfile => first.note(place, Code::OutOfProfile),
        ItemHead::Role | ItemHead::Unknown => first.note(place, Code::UnknownForm),
    }
    Ok(())
}

/// Notes the faults of the items of a problem.
pub(crate) fn body_faults(
    scope: Scope<'_>,
    items: &[Form],
    first: &mut FirstFault,
) -> Result<(), AllocError>
    ensures { OnOk result (first.new ≡ first_onto first.old (body_faults (shared_roles_view scope.entry.roles.now) scope.entry.variables.now
        scope.entry.strands.now [] no_stage (map view items.now))) }
{
    let acyclic_count = stated_without_cycle(scope.alloc, items)?;
    let mut before = Vec::new(scope.alloc);
    let mut stage = Stage {
        after_strand: false,
        after_item: false,
    };
    for item in items {
        item_faults(scope, &mut before, acyclic_count, stage, item, first)?;
        stage = stage.after(item);
    }
    Ok(())
}
