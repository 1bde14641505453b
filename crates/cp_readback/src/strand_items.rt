// Items of label forms that refer to the strands, and the patterns: where they do not fit.
ghost use Rattle.std.specs.Prelude.{◌≡◌, [], ◌∷◌, codes, drop, map, OnOk};
ghost use Rattle.cp_sexpr.specs.View.{view};
ghost use Rattle.cp_report.specs.Heads.{item_with, entries_under, optional_misfits};
ghost use Rattle.cp_report.specs.Skeletons.{declarations_of_label, scope_of};
ghost use Rattle.cp_report.specs.Labels.{word_of_label, operation_place_misfits, unrealised_misfits, test_misfits};
ghost use Rattle.cp_spelled.specs.FirstMisfit.{first_onto};
ghost use Rattle.cp_spelled.specs.Views.{scope_view};
ghost use Rattle.cp_readback.specs.Parts.{about_these_misfits, escape_of_items_misfits};

use crate::items::{has_item, word_of_label};
use cp_items::{escape_misfits, operation_place_misfits, test_misfits, unrealised_misfits};
use cp_scope::{items_behind, later_items, place_of};
use cp_sexpr::Form;
use cp_skel::Strand;
use cp_spelled::{FirstMisfit, Scope, Variables, entries_under};
use cp_stated::item_with;
use std::alloc::{AllocError, Global};

/// The strand and the event that the operation names must exist.
fn operation_at_misfits(strands: &[Strand], items: &[Form], first: &mut FirstMisfit)
    ensures { first.new ≡ first_onto first.old (operation_place_misfits strands.now (word_of_label (map view items.now)) (drop 1 (entries_under (codes "by") (map view items.now)))) }
{
    let behind = later_items(entries_under(items, b"by"), 1);
    operation_place_misfits(strands, word_of_label(items), behind, first);
}

/// Notes where the unrealised nodes, if any, do not fit.
fn unrealised_item_misfits(strands: &[Strand], items: &[Form], first: &mut FirstMisfit)
    ensures { first.new ≡ first_onto first.old (optional_misfits (unrealised_misfits strands.now) (item_with (codes "unrealised" ∷ []) (map view items.now))) }
{
    let Some(item) = item_with(items, b"unrealised") else {
        return;
    };
    unrealised_misfits(strands, place_of(item), items_behind(item), first);
}

/// Notes where the test, if there is one, does not fit.
fn test_item_misfits(scope: Scope<'_>, strands: &[Strand], items: &[Form], first: &mut FirstMisfit)
    requires { scope_view scope ≡ scope_of (map view items.now) }
    ensures { first.new ≡ first_onto first.old (optional_misfits (test_misfits (scope_of (map view items.now)) strands.now) (item_with (codes "test" ∷ []) (map view items.now))) }
{
    let Some(item) = item_with(items, b"test") else {
        return;
    };
    test_misfits(scope, strands, place_of(item), items_behind(item), first);
}

/// Notes where the operation, the unrealised nodes and the test do not fit these strands.
pub(crate) fn about_strands_misfits(
    scope: Scope<'_>,
    strands: &[Strand],
    items: &[Form],
    first: &mut FirstMisfit,
)
    requires { scope_view scope ≡ scope_of (map view items.now) }
    ensures { first.new ≡ first_onto first.old (about_these_misfits strands.now (map view items.now)) }
{
    operation_at_misfits(strands, items, first);
    unrealised_item_misfits(strands, items, first);
    test_item_misfits(scope, strands, items, first);
}

/// Notes where the escape set, if there is one, does not fit in a label form that declares these variables.
pub(crate) fn escape_item_misfits(
    alloc: Global,
    variables: &Variables,
    items: &[Form],
    first: &mut FirstMisfit,
) -> Result<(), AllocError>
    requires { variables.now ≡ declarations_of_label (map view items.now) }
    ensures { OnOk result (first.new ≡ first_onto first.old (escape_of_items_misfits (map view items.now))) }
{
    let Some(item) = item_with(items, b"escape") else {
        return Ok(());
    };
    let has_test = has_item(items, b"test");
    escape_misfits(
        alloc,
        has_test,
        variables,
        place_of(item),
        items_behind(item),
        first,
    )
}
