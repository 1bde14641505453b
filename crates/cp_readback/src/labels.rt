// Label forms: where one does not fit.
ghost use Rattle.std.specs.Prelude.{◌≡◌, ◌==◌, ◌&&◌, ◌++◌, [], if◌then◌else◌, length, map, option_map, IfOk, OnOk};
ghost use Rattle.cp_sexpr.specs.View.{view};
ghost use Rattle.cp_load.specs.UncheckedProblems.{unchecked_view};
ghost use Rattle.cp_report.specs.Skeletons.{scope_of, strands_misfits, around_strands_misfits};
ghost use Rattle.cp_report.specs.Misfits.{number_misfits, first_or};
ghost use Rattle.cp_report.specs.Heads.{up_to_strands, lines_of_label, order_misfits};
ghost use Rattle.cp_report.specs.Labels.{about_strands_misfits, items_misfits, label_misfits};
ghost use Rattle.cp_spelled.specs.FirstMisfit.{first_onto};
ghost use Rattle.cp_spelled.specs.Views.{scope_view};
ghost use Rattle.cp_readback.specs.Families.{labels_of};
ghost use Rattle.cp_items.specs.Parts.{is_fitting};
ghost use Rattle.cp_readback.specs.Items.{IsSetting};

use crate::items::{
    children_item_misfits, has_children, missing_if, no_parent_misfits, operation_item_misfits,
    variables_item,
};
use crate::marks::mark_misfits;
use crate::order::{are_in_order, order_misfits, place_of_lack};
use crate::parents::{Family, parent_item_misfits};
use crate::strand_items::{about_strands_misfits, escape_item_misfits};
use cp_base::Place;
use cp_items::{items_of_label, mark_item, up_to_strands};
use cp_load::UncheckedProblem;
use cp_scope::{items_behind, place_of};
use cp_sexpr::Form;
use cp_skel::Strand;
use cp_spelled::{FirstMisfit, Locals, Scope, Variables};
use cp_stated::{around_strands_misfits, strands_misfits, strands_of};
use std::alloc::{AllocError, Global};

/// The context of label forms: the problem, its variables under their names in a report, the family of the tree if it
/// is whole, and the allocator.
#[derive(Clone, Copy)]
pub(crate) struct Setting<'a> {
    pub(crate) alloc: Global,
    pub(crate) problem: &'a UncheckedProblem,
    pub(crate) names: &'a Variables,
    pub(crate) tree: Option<&'a Family<'a>>,
}

/// A label form without its number: the number that the label must have, the place of the form, and its items.
#[derive(Clone, Copy)]
struct Labelled<'a> {
    number: usize,
    place: Place,
    items: &'a [Form],
}

/// The strands must fit. The result says whether they do.
fn strands_item_misfits(
    setting: Setting<'_>,
    scope: Scope<'_>,
    items: &[Form],
    first: &mut FirstMisfit,
) -> Result<bool, AllocError>
    requires { scope_view scope ≡ scope_of (map view items.now) }
    ensures fit { IfOk result (λ b. b ≡ is_fitting (strands_misfits (unchecked_view setting.entry.problem.now) (map view items.now))) }
    ensures misfits { OnOk result (first.new ≡ first_onto first.old (strands_misfits (unchecked_view setting.entry.problem.now) (map view items.now))) }
{
    let mut inside = FirstMisfit::new();
    let roles = setting.problem.protocol.roles();
    strands_misfits(setting.alloc, roles, scope, items, &mut inside)?;
    let fit = inside.is_none();
    first.merge(inside);
    Ok(fit)
}

/// If asked, notes where the items after the strands, and all that refer to the strands, do not fit.
fn behind_strands_if(
    is_asked: bool,
    setting: Setting<'_>,
    scope: Scope<'_>,
    label: Labelled<'_>,
    first: &mut FirstMisfit,
) -> Result<(), AllocError>
    requires setting { IsSetting setting }
    requires scope { scope_view scope ≡ scope_of (map view label.items.now) }
    ensures { OnOk result (first.new ≡ first_onto first.old (if is_asked
        then around_strands_misfits (unchecked_view setting.entry.problem.now) (first_or label.entry.place (order_misfits lines_of_label (map view label.entry.items.now))) (map view label.entry.items.now)
        ++ about_strands_misfits (unchecked_view setting.entry.problem.now) (map view label.entry.items.now)
        else [])) }
{
    if !is_asked {
        return Ok(());
    }
    let Setting {
        alloc,
        problem,
        names,
        ..
    } = setting;
    let Labelled { place, items, .. } = label;
    let strands = strands_of(alloc, problem.protocol.roles(), scope, items)?;
    let lack = place_of_lack(place, items);
    around_strands_misfits(alloc, problem, names, scope, &strands, lack, items, first)?;
    about_strands_misfits(scope, &strands, items, first);
    Ok(())
}

/// How many strands the problem has.
fn strand_count(problem: &UncheckedProblem) -> usize
    ensures { result ≡ length (unchecked_view problem.now).skeleton.strands }
{
    let strands: &[Strand] = &problem.skeleton.strands;
    strands.len()
}

/// Whether the items up to the strands are in order, and the strands, as the caller says, fit.
fn are_known(items: &[Form], strands_fit: bool) -> bool
    ensures { result ≡ (is_fitting (order_misfits lines_of_label (up_to_strands (map view items.now))) && strands_fit) }
{
    are_in_order(up_to_strands(items)) && strands_fit
}

/// Notes where the items of a label form do not fit.
fn items_misfits(
    setting: Setting<'_>,
    label: Labelled<'_>,
    first: &mut FirstMisfit,
) -> Result<(), AllocError>
    requires { IsSetting setting }
    ensures { OnOk result (first.new ≡ first_onto first.old (items_misfits (unchecked_view setting.entry.problem.now)
        (option_map (λ f. labels_of f.now) setting.entry.tree) label.entry.number label.entry.place (map view label.entry.items.now))) }
{
    let Labelled {
        number,
        place,
        items,
    } = label;
    order_misfits(items, first);
    missing_if(are_in_order(items), place, items, first);
    no_parent_misfits(items, first);
    parent_item_misfits(setting.tree, number, items, first);
    operation_item_misfits(strand_count(setting.problem), items, first);
    let variables = variables_item(setting.alloc, items, first)?;
    let locals = Locals::new(setting.alloc);
    let scope = Scope {
        variables: &variables,
        in_pattern: false,
        locals: &locals,
    };
    let fit = strands_item_misfits(setting, scope, items, first)?;
    let is_asked = are_known(items, fit);
    behind_strands_if(is_asked, setting, scope, label, first)?;
    escape_item_misfits(setting.alloc, &variables, items, first)?;
    children_item_misfits(setting.alloc, setting.tree, number, items, first)?;
    mark_misfits(setting.tree, has_children(items), mark_item(items), first);
    Ok(())
}

/// The form must be the number of the label.
fn number_misfits(number: usize, form: &Form, first: &mut FirstMisfit)
    ensures { first.new ≡ first_onto first.old (number_misfits (λ n. n == number) (view form.now)) }
{
    match form {
        Form::Number(place, stated) => first.note_unless(*stated == number, *place),
        _ => first.note(place_of(form)),
    }
}

/// Notes where the form of a label with this number does not fit.
pub(crate) fn label_misfits(
    setting: Setting<'_>,
    number: usize,
    form: &Form,
    first: &mut FirstMisfit,
) -> Result<(), AllocError>
    requires { IsSetting setting }
    ensures { OnOk result (first.new ≡ first_onto first.old (label_misfits (unchecked_view setting.entry.problem.now)
        (option_map (λ f. labels_of f.now) setting.entry.tree) number (view form.now))) }
{
    let place = place_of(form);
    let Some((stated, _)) = items_behind(form).split_first() else {
        first.note(place);
        return Ok(());
    };
    number_misfits(number, stated, first);
    let label = Labelled {
        number,
        place,
        items: items_of_label(form),
    };
    items_misfits(setting, label, first)
}
