// Unrealised nodes, tests and escape sets of labels: where they do not fit, and what they are.
ghost use Rattle.std.specs.Prelude.{◌≡◌, [], map, option_map, Some, IfOk, OnOk};
ghost use Rattle.cp_sexpr.specs.View.{view};
ghost use Rattle.cp_language.specs.Problems.{option_node};
ghost use Rattle.cp_report.specs.Misfits.{each_misfits};
ghost use Rattle.cp_report.specs.Spelled.{pattern_misfits};
ghost use Rattle.cp_report.specs.Skeletons.{node_misfits, node_or_first};
ghost use Rattle.cp_report.specs.Labels.{unrealised_misfits, test_misfits, test_of};
ghost use Rattle.cp_spelled.specs.FirstMisfit.{first_onto};
ghost use Rattle.cp_spelled.specs.Views.{scope_view};
ghost use Rattle.cp_items.specs.Parts.{escape_item_misfits};

use cp_base::Place;
use cp_scope::{item_at, items_behind};
use cp_sexpr::Form;
use cp_skel::{Node, Strand, Test};
use cp_spelled::{FirstMisfit, Scope, Variables, lacking, pattern_misfits, term_or_tag};
use cp_stated::{node_misfits, node_or_first, one_term_misfits};
use std::alloc::{AllocError, Global};

/// Each of these forms must be a node that exists.
fn nodes_misfits(strands: &[Strand], items: &[Form], first: &mut FirstMisfit)
    ensures { first.new ≡ first_onto first.old (each_misfits (node_misfits strands.now) (map view items.now)) }
{
    for item in items {
        node_misfits(strands, item, first);
    }
}

/// The items of the list at this place must be nodes that exist, at least one.
pub fn unrealised_misfits(strands: &[Strand], place: Place, items: &[Form], first: &mut FirstMisfit)
    ensures { first.new ≡ first_onto first.old (unrealised_misfits strands.now place (map view items.now)) }
{
    lacking(1, place, items, first);
    nodes_misfits(strands, items, first);
}

/// The nodes that forms state; the first node for a form that states none.
pub fn nodes_of(alloc: Global, items: &[Form]) -> Result<Vec<Node>, AllocError>
    ensures { IfOk result (λ v. v.items ≡ map (λ f. node_or_first (option_node (Some f))) (map view items.now)) }
{
    items
        .iter()
        .map(|item| node_or_first(Some(item)))
        .collect(alloc)
}

/// The items of the list at this place must be a node that exists and a term.
pub fn test_misfits(
    scope: Scope<'_>,
    strands: &[Strand],
    place: Place,
    items: &[Form],
    first: &mut FirstMisfit,
)
    ensures { first.new ≡ first_onto first.old (test_misfits (scope_view scope.entry) strands.now place (map view items.now)) }
{
    let Some((node, rest)) = items.split_first() else {
        first.note(place);
        return;
    };
    node_misfits(strands, node, first);
    one_term_misfits(scope, place, rest, first);
}

/// The test that an item states, if there is an item.
pub fn test_of(
    alloc: Global,
    scope: Scope<'_>,
    item: Option<&Form>,
) -> Result<Option<Test>, AllocError>
    ensures { IfOk result (λ t. t ≡ test_of (scope_view scope.entry) (option_map (λ f. view f.now) item.entry)) }
{
    let Some(item) = item else {
        return Ok(None);
    };
    let entries = items_behind(item);
    let node = node_or_first(item_at(entries, 0));
    term_or_tag(alloc, scope, item_at(entries, 1)).map(|critical| Some(Test { node, critical }))
}

/// Each of these forms must be a pattern.
fn patterns_misfits(
    alloc: Global,
    variables: &Variables,
    items: &[Form],
    first: &mut FirstMisfit,
) -> Result<(), AllocError>
    ensures { OnOk result (first.new ≡ first_onto first.old (each_misfits (pattern_misfits variables.now) (map view items.now))) }
{
    for item in items {
        pattern_misfits(alloc, variables, item, first)?;
    }
    Ok(())
}

/// The items of the list at this place must be patterns, at least one, and the label must have a test.
pub fn escape_misfits(
    alloc: Global,
    has_test: bool,
    variables: &Variables,
    place: Place,
    items: &[Form],
    first: &mut FirstMisfit,
) -> Result<(), AllocError>
    ensures { OnOk result (first.new ≡ first_onto first.old (escape_item_misfits has_test variables.now place (map view items.now))) }
{
    first.note_unless(has_test, place);
    lacking(1, place, items, first);
    patterns_misfits(alloc, variables, items, first)
}
