// The items of a label form after its strands that state its skeleton: where they do not fit.
ghost use Rattle.std.specs.Prelude.{◌≡◌, map, IfOk, OnOk};
ghost use Rattle.cp_model.specs.Given.{with_given};
ghost use Rattle.cp_sexpr.specs.View.{view};
ghost use Rattle.cp_load.specs.UncheckedProblems.{unchecked_view};
ghost use Rattle.cp_report.specs.Skeletons.{scope_of, problem_variables, strands_of_label, around_strands_misfits};
ghost use Rattle.cp_spelled.specs.FirstMisfit.{first_onto};
ghost use Rattle.cp_spelled.specs.Views.{scope_view};
ghost use Rattle.cp_stated.specs.AssumptionEntries.{no_assumptions};

use crate::order::order_misfits;
use crate::problem_map::{Ends, map_misfits};
use crate::uniques::all_uniques_misfits;
use crate::values::values_misfits;
use cp_base::Place;
use cp_load::UncheckedProblem;
use cp_sexpr::Form;
use cp_skel::{Assumptions, Strand, add_given};
use cp_spelled::{FirstMisfit, Scope, Variables};
use std::alloc::{AllocError, Global};

/// What the roles of these strands give, each once.
fn given_by(alloc: Global, strands: &[Strand]) -> Result<Assumptions, AllocError>
    ensures { IfOk result (λ a. a ≡ with_given strands.now no_assumptions) }
{
    let mut given = Assumptions::new(Vec::new(alloc), Vec::new(alloc), Vec::new(alloc));
    add_given(alloc, strands, &mut given).map(|_| given)
}

/// Notes where the order, the assumptions and the map among the items of a label form do not fit. The form stands at
/// this place. The names are those of the problem's variables in a report; the scope has the label's variables; the
/// strands are those that the items state.
pub fn around_strands_misfits(
    alloc: Global,
    problem: &UncheckedProblem,
    names: &Variables,
    scope: Scope<'_>,
    strands: &[Strand],
    place: Place,
    items: &[Form],
    first: &mut FirstMisfit,
) -> Result<(), AllocError>
    requires names { names.now ≡ problem_variables (unchecked_view problem.now) }
    requires scope { scope_view scope ≡ scope_of (map view items.now) }
    requires strands { strands.now ≡ strands_of_label (unchecked_view problem.now) (map view items.now) }
    ensures { OnOk result (first.new ≡ first_onto first.old (around_strands_misfits (unchecked_view problem.now) place (map view items.now))) }
{
    let ends = Ends {
        problem: &problem.skeleton.strands,
        names,
        strands,
        scope,
    };
    let given = given_by(alloc, strands)?;
    let non = given.non_originating();
    let penetrator_non = given.penetrator_non_originating();
    let uniques = given.uniquely_originating();
    order_misfits(alloc, strands, items, first)?;
    values_misfits(alloc, scope, place, b"non-orig", non, items, first)?;
    values_misfits(
        alloc,
        scope,
        place,
        b"pen-non-orig",
        penetrator_non,
        items,
        first,
    )?;
    all_uniques_misfits(alloc, scope, strands, place, uniques, items, first)?;
    map_misfits(alloc, ends, items, first)
}
