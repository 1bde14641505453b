// From forms to the report that they are.
ghost use Rattle.std.specs.Prelude.{◌≡◌, [], map, option_map, None, Ok, Err, IfOk, IfErr, OnOk};
ghost use Rattle.std.specs.List.{filter_map};
ghost use Rattle.cp_base.specs.declared.place.Place.{Place as Where};
ghost use Rattle.cp_sexpr.specs.View.{view, views};
ghost use Rattle.cp_language.specs.Input.{faults_from, form_of, stated_protocol, entries_from};
ghost use Rattle.cp_language.specs.StatedInput.{protocols_in};
ghost use Rattle.cp_scope.specs.FirstFault as fault;
ghost use Rattle.cp_load.specs.UncheckedProblems.{unchecked_view, unchecked_entry_view};
ghost use Rattle.cp_report.specs.ReadBack.{IsReadBack, sections_of, next_place, first_place, trees_misfits, misfits};
ghost use Rattle.cp_spelled.specs.FirstMisfit.{first_onto, merged};
ghost use Rattle.cp_readback.specs.Sections.{section_view};
ghost use Rattle.cp_readback.specs.Reports.{report_view, forms_in, all_unchecked_view, problem_at, trees_by, AreFollowedByTrees};
ghost use Rattle.cp_sexpr.specs.declared.error.OrMemory.TheVariants.{Refused as NotReport};

use crate::error::ReadBackError;
use crate::sections::{Section, Sections, sections_of};
use crate::trees::tree_of;
use crate::{behind_misfits, none_may_stand};
use cp_base::Place;
use cp_load::{Entry, UncheckedEntry, UncheckedProblem, all_finished, top_form};
use cp_scope::{FirstFault, NameSet, place_of};
use cp_sexpr::Form;
use cp_skel::Tree;
use cp_spelled::FirstMisfit;
use std::alloc::{AllocError, Global};

/// A report: the forms of its input in order, each with what it states, and a tree for each problem, in their order.
#[derive(Drop)]
pub struct Report<'a> {
    pub entries: Vec<Entry<'a>>,
    pub trees: Vec<Tree>,
}

/// The forms of the input, with the forms after each and with what each states, and the first place, if any, at which
/// the forms are no report.
#[derive(Drop)]
struct Judged<'a> {
    sections: Vec<Section<'a>>,
    unchecked_entries: Vec<UncheckedEntry<'a>>,
    misfit: Option<Place>,
}

/// The place of the next form of the input; if there is none, that of the first form.
fn next_place(first: Place, following: &[Section<'_>]) -> Place
    ensures { result ≡ next_place first (map section_view following.now) }
{
    match following {
        [] => first,
        [section, ..] => place_of(section.form),
    }
}

/// The place of the first form; if there is none, that of the first byte of a text.
fn first_place(forms: &[Form]) -> Place
    ensures { result ≡ first_place (map view forms.now) }
{
    match forms {
        [] => Place { line: 1, col: 1 },
        [form, ..] => place_of(form),
    }
}

/// The forms of the input, each with what it states. Notes the first of their faults, and the first misfit of the forms
/// after them; `start` is the place of the first form of all. What a form with faults states has no meaning.
fn stated_in<'a>(
    alloc: Global,
    start: Place,
    sections: &[Section<'a>],
    faults: &mut FirstFault,
    first: &mut FirstMisfit,
) -> Result<Vec<UncheckedEntry<'a>>, AllocError>
    ensures faults { OnOk result (faults.new ≡ fault.first_onto faults.old (faults_from [] (forms_in (map section_view sections.now)))) }
    ensures misfits { OnOk result (first.new ≡ first_onto first.old (trees_misfits start [] (map section_view sections.now))) }
    ensures entries { IfOk result (λ us. map unchecked_entry_view us.items ≡ entries_from [] (forms_in (map section_view sections.now))) }
{
    let mut protocols = Vec::new(alloc);
    let mut names = NameSet::new(alloc);
    let mut unchecked_entries = Vec::new(alloc);
    for (place, section) in sections.iter().enumerate() {
        let unchecked = top_form(alloc, &mut protocols, &mut names, section.form, faults)?;
        let (_, following) = sections.split_at(place + 1);
        let next = next_place(start, following);
        behind_misfits(alloc, unchecked.problem(), next, section.behind, first)?;
        unchecked_entries.push(unchecked)?;
    }
    Ok(unchecked_entries)
}

/// Notes the place of the first fault, if there is one, as a misfit.
fn note_fault(faults: FirstFault, first: &mut FirstMisfit)
    ensures { first.new ≡ merged first.old (option_map (λ r. r.place) faults) }
{
    if let Some(fault) = faults.found() {
        first.note(fault.place);
    }
}

/// Splits forms by those of the input, with what these state, and the first place at which they are no report.
fn judge(alloc: Global, forms: &[Form]) -> Result<Judged<'_>, AllocError>
    ensures sections { IfOk result (λ j. map section_view j.sections.items ≡ (sections_of (map view forms.now)).sections) }
    ensures entries { IfOk result (λ j. map unchecked_entry_view j.unchecked_entries.items ≡ entries_from [] (forms_in (sections_of (map view forms.now)).sections)) }
    ensures misfit { IfOk result (λ j. j.misfit ≡ first_onto None (misfits (views forms.now))) }
{
    let Sections { front, sections } = sections_of(alloc, forms)?;
    let mut faults = FirstFault::new();
    let mut first = FirstMisfit::new();
    none_may_stand(front, &mut first);
    let start = first_place(forms);
    let unchecked_entries = stated_in(alloc, start, &sections, &mut faults, &mut first)?;
    note_fault(faults, &mut first);
    let misfit = first.found();
    Ok(Judged {
        sections,
        unchecked_entries,
        misfit,
    })
}

/// The unchecked problem of the entry at this place in the list, if there is one.
fn unchecked_at<'a>(
    unchecked_entries: &'a [UncheckedEntry<'_>],
    place: usize,
) -> Option<&'a UncheckedProblem>
    ensures { option_map (λ d. unchecked_view d.now) result ≡ problem_at (all_unchecked_view unchecked_entries.now) place }
{
    match unchecked_entries.get(place) {
        Some(unchecked) => unchecked.problem(),
        None => None,
    }
}

/// The trees after the forms that state the unchecked problems of these entries.
fn trees_of(
    alloc: Global,
    sections: &[Section<'_>],
    unchecked_entries: &[UncheckedEntry<'_>],
) -> Result<Vec<Tree>, AllocError>
    requires trees { AreFollowedByTrees (all_unchecked_view unchecked_entries.now) (map section_view sections.now) }
    ensures { IfOk result (λ ts. ts.items ≡ trees_by (all_unchecked_view unchecked_entries.now) (map section_view sections.now)) }
{
    let mut trees = Vec::new(alloc);
    for (place, section) in sections.iter().enumerate() {
        let Some(problem) = unchecked_at(unchecked_entries, place) else {
            continue;
        };
        let tree = tree_of(alloc, problem, section.behind)?;
        trees.push(tree)?;
    }
    Ok(trees)
}

/// Reads back the report that forms are: the forms of its input, each with what it states, and a tree for each problem.
///
/// Forms that are no report are refused: the error is `ReadBackError::Refused`, which the clause calls `NotReport`, with the first
/// place, by line and then by column, at which they fit none. The other error is `ReadBackError::Memory`.
pub fn read_back(alloc: Global, forms: &[Form]) -> Result<Report<'_>, ReadBackError>
    ensures read { IfOk result (λ r. IsReadBack (views forms.now) (Ok (report_view r))) }
    ensures protocols { IfOk result (λ r. filter_map stated_protocol (report_view r).entries ≡ protocols_in (map form_of (report_view r).entries)) }
    ensures refused { IfErr result (λ e. (p : Where) → e ≡ NotReport p → IsReadBack (views forms.now) (Err p)) }
{
    let Judged {
        sections,
        unchecked_entries,
        misfit,
    } = judge(alloc, forms)?;
    if let Some(place) = misfit {
        return Err(ReadBackError::Refused(place));
    }
    let trees = trees_of(alloc, &sections, &unchecked_entries)?;
    let entries = all_finished(alloc, unchecked_entries)?;
    Ok(Report { entries, trees })
}
