// The values that a label form assumes: those that originate nowhere, and those that the penetrator does not originate.
ghost use Rattle.std.specs.Prelude.{◌≡◌, ◌++◌, [], map, option_map, IfOk, OnOk};
ghost use Rattle.cp_model.specs.Given.{has_atom};
ghost use Rattle.cp_sexpr.specs.View.{view};
ghost use Rattle.cp_report.specs.Misfits.{lacking};
ghost use Rattle.cp_report.specs.Heads.{optional_misfits, entries_or_none};
ghost use Rattle.cp_report.specs.Spelled.{atom_in};
ghost use Rattle.cp_report.specs.Skeletons.{scope_of, has_atoms, atoms_misfits, values_misfits, atoms_under};
ghost use Rattle.cp_spelled.specs.FirstMisfit.{first_onto};
ghost use Rattle.cp_spelled.specs.Views.{scope_view};
ghost use Rattle.cp_stated.specs.AssumptionEntries.{atom_entry_misfits};

use crate::heads::{item_with, place_or};
use cp_base::Place;
use cp_scope::{items_behind, place_of};
use cp_sexpr::Form;
use cp_skel::Atom;
use cp_spelled::{FirstMisfit, Scope, atom_in, atom_misfits, entries_under, lacking};
use std::alloc::{AllocError, Global};

/// Whether a value is one of these.
pub(crate) fn has_atom(values: &[Atom], value: &Atom) -> bool
    ensures { result ≡ has_atom values.now value.now }
{
    cp_skel::has_atom(values, value)
}

/// Whether all of `wanted` are among the others.
fn has_atoms(values: &[Atom], wanted: &[Atom]) -> bool
    ensures { result ≡ has_atoms values.now wanted.now }
{
    for value in wanted {
        if !has_atom(values, value) {
            return false;
        }
    }
    true
}

/// The form must be this value, and none of those before it.
fn atom_entry_misfits(
    scope: Scope<'_>,
    before: &[Atom],
    value: &Atom,
    form: &Form,
    first: &mut FirstMisfit,
)
    requires { value.now ≡ atom_in (scope_view scope) (view form.now) }
    ensures { first.new ≡ first_onto first.old (atom_entry_misfits (scope_view scope.entry) before.now (view form.now)) }
{
    let mut inside = FirstMisfit::new();
    atom_misfits(scope, form, &mut inside);
    inside.note_unless_misfit(!has_atom(before, value), place_of(form));
    first.merge(inside);
}

/// The forms must be values, none of them twice. Returns them.
fn atoms_misfits(
    alloc: Global,
    scope: Scope<'_>,
    items: &[Form],
    first: &mut FirstMisfit,
) -> Result<Vec<Atom>, AllocError>
    ensures misfits { OnOk result (first.new ≡ first_onto first.old (atoms_misfits (scope_view scope.entry) [] (map view items.now))) }
    ensures atoms { IfOk result (λ v. v.items ≡ map (atom_in (scope_view scope.entry)) (map view items.now)) }
{
    let mut values = Vec::new(alloc);
    for item in items {
        let value = atom_in(alloc, scope, item)?;
        atom_entry_misfits(scope, &values, &value, item, first);
        values.push(value)?;
    }
    Ok(values)
}

/// The entries of an assumption, if there is one, must be values, at least one, and none of them twice. Returns them.
fn optional_atoms_misfits(
    alloc: Global,
    scope: Scope<'_>,
    item: Option<&Form>,
    first: &mut FirstMisfit,
) -> Result<Vec<Atom>, AllocError>
    ensures misfits { OnOk result (first.new ≡ first_onto first.old (optional_misfits (λ p fs. lacking 1 p fs ++ atoms_misfits (scope_view scope.entry) [] fs)
        (option_map (λ f. view f.now) item.entry))) }
    ensures atoms { IfOk result (λ v. v.items ≡ map (atom_in (scope_view scope.entry)) (entries_or_none (option_map (λ f. view f.now) item.entry))) }
{
    let Some(item) = item else {
        return Ok(Vec::new(alloc));
    };
    let entries = items_behind(item);
    lacking(1, place_of(item), entries, first);
    atoms_misfits(alloc, scope, entries, first)
}

/// Notes where the assumption with this head among the items of a label form at this place does not fit. `given` are
/// the values that the roles of its strands give.
pub(crate) fn values_misfits(
    alloc: Global,
    scope: Scope<'_>,
    place: Place,
    word: &[u8],
    given: &[Atom],
    items: &[Form],
    first: &mut FirstMisfit,
) -> Result<(), AllocError>
    requires { scope_view scope ≡ scope_of (map view items.now) }
    ensures { OnOk result (first.new ≡ first_onto first.old (values_misfits place word.now given.now (map view items.now))) }
{
    let item = item_with(items, word);
    let mut inside = FirstMisfit::new();
    let values = optional_atoms_misfits(alloc, scope, item, &mut inside)?;
    inside.note_unless_misfit(has_atoms(&values, given), place_or(place, item));
    first.merge(inside);
    Ok(())
}

/// The values that the assumption with this head states.
pub(crate) fn atoms_under(
    alloc: Global,
    scope: Scope<'_>,
    word: &[u8],
    items: &[Form],
) -> Result<Vec<Atom>, AllocError>
    requires { scope_view scope ≡ scope_of (map view items.now) }
    ensures { IfOk result (λ v. v.items ≡ atoms_under word.now (map view items.now)) }
{
    let entries = entries_under(items, word);
    entries
        .iter()
        .map(|item| atom_in(alloc, scope, item))
        .try_collect(alloc)
}
