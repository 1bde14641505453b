// The skeleton that a label form states.
ghost use Rattle.std.specs.Prelude.{◌≡◌, [], map, IfOk};
ghost use Rattle.cp_base.specs.declared.place.Place.{Place};
ghost use Rattle.cp_sexpr.specs.View.{view};
ghost use Rattle.cp_load.specs.UncheckedProblems.{unchecked_view};
ghost use Rattle.cp_report.specs.Skeletons.{declarations_of_label, scope_of, assumptions_stated, problem_variables, strands_of_label, from_problem_by, strands_misfits, around_strands_misfits, skeleton_stated};
ghost use Rattle.cp_spelled.specs.Views.{scope_view};
ghost use Rattle.cp_stated.specs.ProblemMap.{from_problem_to};

use crate::images::{images_among, pairs_in_order};
use crate::order::pairs_under;
use crate::problem_map::{strands_mapped, values_of_map};
use crate::uniques::uniques_under;
use crate::values::atoms_under;
use cp_load::{UncheckedProblem, table_of};
use cp_sexpr::Form;
use cp_skel::{Assumptions, FromProblem, Order, OrderPair, Skeleton, Strand};
use cp_spelled::{Scope, Variables, entries_under};
use cp_term::Term;
use std::alloc::{AllocError, Global};

/// The assumptions that the items of a label form state.
fn assumptions_under(
    alloc: Global,
    scope: Scope<'_>,
    items: &[Form],
) -> Result<Assumptions, AllocError>
    requires { scope_view scope ≡ scope_of (map view items.now) }
    ensures { IfOk result (λ a. a ≡ assumptions_stated (map view items.now)) }
{
    Assumptions::of(
        atoms_under(alloc, scope, b"non-orig", items),
        atoms_under(alloc, scope, b"pen-non-orig", items),
        uniques_under(alloc, scope, items),
    )
}

/// The map from a problem to these strands, pairs and assumptions that sends its strands to these numbers and its
/// variables to these values. `own` is the map from the problem to its own skeleton.
fn from_problem_by(
    alloc: Global,
    own: &FromProblem,
    strands: &[Strand],
    pairs: &[OrderPair],
    assumptions: &Assumptions,
    to_strands: Vec<usize>,
    values: Vec<Term>,
) -> Result<FromProblem, AllocError>
    ensures { IfOk result (λ f. f ≡ from_problem_to own.now strands.now pairs.now assumptions.now to_strands.items values.items) }
{
    let images = images_among(alloc, &to_strands, &values, own.assumptions(), assumptions)?;
    pairs_in_order(alloc, &to_strands, &values, own.pairs(), strands, pairs).map(
        |ordered| FromProblem::new(to_strands, values, images, ordered),
    )
}

/// The skeleton that the items of a label form state. They must fit. The names are those of the problem's variables in
/// a report; the scope has the label's variables; the strands are those that the items state.
pub fn skeleton_stated(
    alloc: Global,
    problem: &UncheckedProblem,
    names: &Variables,
    scope: Scope<'_>,
    strands: Vec<Strand>,
    items: &[Form],
) -> Result<Skeleton, AllocError>
    requires names { names.now ≡ problem_variables (unchecked_view problem.now) }
    requires scope { scope_view scope ≡ scope_of (map view items.now) }
    requires strands { strands.items ≡ strands_of_label (unchecked_view problem.now) (map view items.now) }
    requires strands_fit { strands_misfits (unchecked_view problem.now) (map view items.now) ≡ [] }
    requires others_fit { (place : Place) × (around_strands_misfits (unchecked_view problem.now) place (map view items.now) ≡ []) }
    ensures skeleton { IfOk result (λ k. k ≡ skeleton_stated (unchecked_view problem.now) (map view items.now)) }
    ensures variables { IfOk result (λ k. k.variables ≡ declarations_of_label (map view items.now)) }
{
    let entries = entries_under(items, b"map");
    let to_strands = strands_mapped(alloc, entries)?;
    let values = values_of_map(alloc, names, scope, entries)?;
    let pairs = pairs_under(alloc, items)?;
    let assumptions = assumptions_under(alloc, scope, items)?;
    let own = &problem.skeleton.from_problem;
    let from_problem = from_problem_by(
        alloc,
        own,
        &strands,
        &pairs,
        &assumptions,
        to_strands,
        values,
    )?;
    problem.protocol.is_sound();
    let variables = table_of(alloc, scope.variables.as_slice())?;
    Ok(Skeleton::new(
        variables,
        strands,
        Order::of(pairs),
        assumptions,
        from_problem,
    ))
}
