// The map from the problem that a label form states.
ghost use Rattle.std.specs.Prelude.{◌≡◌, ◌∷◌, [], nat_lt, codes, length, map, IfOk, OnOk};
ghost use Rattle.cp_sexpr.specs.View.{view};
ghost use Rattle.cp_report.specs.Misfits.{list_misfits};
ghost use Rattle.cp_report.specs.Heads.{item_with, optional_misfits};
ghost use Rattle.cp_report.specs.Skeletons.{strand_number_misfits, strands_mapped};
ghost use Rattle.cp_spelled.specs.FirstMisfit.{first_onto};
ghost use Rattle.cp_spelled.specs.Views.{scope_view};
ghost use Rattle.cp_stated.specs.ProblemMap.{strands_of_problem_misfits, map_misfits_to, values_by};

use crate::heads::item_with;
use crate::stated_strands::numbers_of;
use cp_base::Place;
use cp_scope::{items_behind, list_items, place_of};
use cp_sexpr::Form;
use cp_skel::Strand;
use cp_spelled::{FirstMisfit, Scope, Variables, mapping_misfits, values_mapped};
use cp_term::Term;
use std::alloc::{AllocError, Global};

/// Whether there is a strand with this number.
fn has_strand(strands: &[Strand], number: usize) -> bool
    ensures { result ≡ nat_lt number (length strands.now) }
{
    number < strands.len()
}

/// The form must be the number of one of these strands.
pub fn strand_number_misfits(strands: &[Strand], form: &Form, first: &mut FirstMisfit)
    ensures { first.new ≡ first_onto first.old (strand_number_misfits strands.now (view form.now)) }
{
    match form {
        Form::Number(place, number) => first.note_unless(has_strand(strands, *number), *place),
        _ => first.note(place_of(form)),
    }
}

/// The items of the list at this place must be numbers of strands, one for each of the problem's.
fn strand_numbers_misfits(
    problem: &[Strand],
    strands: &[Strand],
    place: Place,
    items: &[Form],
    first: &mut FirstMisfit,
)
    ensures { first.new ≡ first_onto first.old (strands_of_problem_misfits problem.now strands.now place (map view items.now)) }
{
    for (number, item) in items.iter().enumerate() {
        if !has_strand(problem, number) {
            first.note(place_of(item));
            return;
        }
        strand_number_misfits(strands, item, first);
    }
    first.note_unless(!has_strand(problem, items.len()), place);
}

/// The form must be a list of numbers of strands, one for each of the problem's.
fn strands_mapped_misfits(
    problem: &[Strand],
    strands: &[Strand],
    form: &Form,
    first: &mut FirstMisfit,
)
    ensures { first.new ≡ first_onto first.old (list_misfits (strands_of_problem_misfits problem.now strands.now) (view form.now)) }
{
    let Form::List(place, items) = form else {
        first.note(place_of(form));
        return;
    };
    strand_numbers_misfits(problem, strands, *place, items.as_slice(), first);
}

/// The ends of a map: the problem's strands, its variables under their names in a report, and the strands of the label,
/// with the scope in which terms are read.
#[derive(Clone, Copy)]
pub(crate) struct Ends<'a> {
    pub(crate) problem: &'a [Strand],
    pub(crate) names: &'a Variables,
    pub(crate) strands: &'a [Strand],
    pub(crate) scope: Scope<'a>,
}

/// Notes where the map among these items of a label form, if there is one, does not fit. Its head must be followed by a
/// strand for each of the problem's, and a maplet for each of its variables.
pub(crate) fn map_misfits(
    alloc: Global,
    ends: Ends<'_>,
    items: &[Form],
    first: &mut FirstMisfit,
) -> Result<(), AllocError>
    ensures { OnOk result (first.new ≡ first_onto first.old (optional_misfits (map_misfits_to ends.entry.problem.now ends.entry.names.now
        (scope_view ends.entry.scope) ends.entry.strands.now) (item_with (codes "map" ∷ []) (map view items.now)))) }
{
    let Some(item) = item_with(items, b"map") else {
        return Ok(());
    };
    let place = place_of(item);
    let Some((numbers, maplets)) = items_behind(item).split_first() else {
        first.note(place);
        return Ok(());
    };
    strands_mapped_misfits(ends.problem, ends.strands, numbers, first);
    mapping_misfits(alloc, ends.scope, ends.names, place, maplets, first)
}

/// The strands that the entries of a map state.
pub(crate) fn strands_mapped(alloc: Global, entries: &[Form]) -> Result<Vec<usize>, AllocError>
    ensures { IfOk result (λ v. v.items ≡ strands_mapped (map view entries.now)) }
{
    match entries {
        [] => Ok(Vec::new(alloc)),
        [strands, ..] => numbers_of(alloc, list_items(strands)),
    }
}

/// The terms that the entries of a map give to the problem's variables, which have these names in a report.
pub(crate) fn values_of_map(
    alloc: Global,
    names: &Variables,
    scope: Scope<'_>,
    entries: &[Form],
) -> Result<Vec<Term>, AllocError>
    ensures { IfOk result (λ v. v.items ≡ values_by names.now (scope_view scope.entry) (map view entries.now)) }
{
    match entries.split_first() {
        Some((_, maplets)) => values_mapped(alloc, scope, maplets, names.as_slice()),
        None => Ok(Vec::new(alloc)),
    }
}
