// Trees: where the forms after a problem fit none, and the tree that they are.
ghost use Rattle.std.specs.Prelude.{◌≡◌, [], map, option_map, Some, IfOk, OnOk, IfSome};
ghost use Rattle.cp_sexpr.specs.View.{view};
ghost use Rattle.cp_base.specs.declared.place.Place.{Place as Where};
ghost use Rattle.cp_load.specs.UncheckedProblems.{unchecked_view};
ghost use Rattle.cp_report.specs.ReadBack.{places_of, labels_misfits, if_whole, tree_misfits, tree_of};
ghost use Rattle.cp_spelled.specs.FirstMisfit.{first_onto};
ghost use Rattle.cp_readback.specs.Families.{labels_of, IsFamily};
ghost use Rattle.cp_readback.specs.Items.{IsSetting};
ghost use Rattle.cp_readback.specs.Counts.{ending_form_misfits};

use crate::labels::{Setting, label_misfits};
use crate::leading_labels::split_at_labels;
use crate::parents::{Family, family_of};
use crate::stated_labels::labels_stated;
use crate::status::{Counts, counts_of, outcome_in, status_misfits};
use cp_base::Place;
use cp_load::UncheckedProblem;
use cp_scope::place_of;
use cp_sexpr::Form;
use cp_skel::{Labels, Tree};
use cp_spelled::FirstMisfit;
use cp_stated::problem_variables;
use std::alloc::{AllocError, Global};

/// None of these forms may stand here.
pub fn none_may_stand(forms: &[Form], first: &mut FirstMisfit)
    ensures { first.new ≡ first_onto first.old (places_of (map view forms.now)) }
{
    for form in forms {
        first.note(place_of(form));
    }
}

/// Notes where the label forms of a tree do not fit.
fn labels_misfits(
    setting: Setting<'_>,
    labels: &[Form],
    first: &mut FirstMisfit,
) -> Result<(), AllocError>
    requires { IsSetting setting }
    ensures { OnOk result (first.new ≡ first_onto first.old (labels_misfits (unchecked_view setting.entry.problem.now)
        (option_map (λ f. labels_of f.now) setting.entry.tree) 0 (map view labels.now))) }
{
    for (number, label) in labels.iter().enumerate() {
        label_misfits(setting, number, label, first)?;
    }
    Ok(())
}

/// One status form must follow labels with these counts, before the next form of the input; a missing one is a misfit
/// at `next`. `next` is the place of that next form; after the last form of the input it is the place of the first
/// form.
fn ending_misfits(counts: Counts, next: Place, behind: &[Form], first: &mut FirstMisfit)
    ensures { first.new ≡ first_onto first.old (ending_form_misfits counts next (map view behind.now)) }
{
    let Some((status, others)) = behind.split_first() else {
        first.note(next);
        return;
    };
    status_misfits(counts, status, first);
    none_may_stand(others, first);
}

/// The family of these label forms, if what follows them makes the tree whole.
fn family_if_whole<'a>(
    alloc: Global,
    labels: &'a [Form],
    behind: &[Form],
) -> Result<Option<Family<'a>>, AllocError>
    ensures labels { IfOk result (λ o. option_map labels_of o ≡ if_whole (map view labels.now) (map view behind.now)) }
    ensures stated { IfOk result (λ o. IfSome o IsFamily) }
{
    match behind {
        [] => Ok(None),
        [_, ..] => family_of(alloc, labels).map(Some),
    }
}

/// Notes where the forms after a problem, before the next form of the input, are no tree for it. `next` is the place of
/// that form; after the last form of the input it is the place of the first form.
fn tree_misfits(
    alloc: Global,
    problem: &UncheckedProblem,
    next: Place,
    behind: &[Form],
    first: &mut FirstMisfit,
) -> Result<(), AllocError>
    ensures { OnOk result (first.new ≡ first_onto first.old (tree_misfits (Some (unchecked_view problem.now)) next (map view behind.now))) }
{
    let (labels, ending) = split_at_labels(behind);
    let family = family_if_whole(alloc, labels, ending)?;
    let names = problem_variables(alloc, problem)?;
    let setting = Setting {
        alloc,
        problem,
        names: &names,
        tree: family.as_ref(),
    };
    labels_misfits(setting, labels, first)?;
    ending_misfits(counts_of(labels), next, ending, first);
    Ok(())
}

/// Notes where the forms after a form of the input, before the next one, are not what must follow it: a tree for the
/// problem that it states, or nothing if it states none. `next` is the place of the next form of the input; after the
/// last it is the place of the first form.
pub fn behind_misfits(
    alloc: Global,
    problem: Option<&UncheckedProblem>,
    next: Place,
    behind: &[Form],
    first: &mut FirstMisfit,
) -> Result<(), AllocError>
    ensures { OnOk result (first.new ≡ first_onto first.old (tree_misfits (option_map (λ d. unchecked_view d.now) problem.entry) next (map view behind.now))) }
{
    match problem {
        Some(problem) => tree_misfits(alloc, problem, next, behind, first),
        None => {
            none_may_stand(behind, first);
            Ok(())
        }
    }
}

/// The tree that the forms after a problem are. They must fit.
pub(crate) fn tree_of(
    alloc: Global,
    problem: &UncheckedProblem,
    behind: &[Form],
) -> Result<Tree, AllocError>
    requires fits { (next : Where) × (tree_misfits (Some (unchecked_view problem.now)) next (map view behind.now) ≡ []) }
    ensures { IfOk result (λ t. t ≡ tree_of (unchecked_view problem.now) (map view behind.now)) }
{
    let (labels, ending) = split_at_labels(behind);
    let names = problem_variables(alloc, problem)?;
    let outcome = outcome_in(ending);
    labels_stated(alloc, problem, &names, labels).map(|stated| Tree {
        labels: Labels::of(stated),
        outcome,
    })
}
