// The order of the items of a label form.
ghost use Rattle.std.specs.Prelude.{◌≡◌, map};
ghost use Rattle.cp_sexpr.specs.View.{view};
ghost use Rattle.cp_report.specs.Misfits.{first_or};
ghost use Rattle.cp_report.specs.Heads.{lines_of_label, lines_from, lines_behind, order_misfits};
ghost use Rattle.cp_spelled.specs.FirstMisfit.{first_onto};
ghost use Rattle.cp_readback.specs.Lines.{line_view};
ghost use Rattle.cp_items.specs.Parts.{is_fitting};

use cp_base::Place;
use cp_items::{MARK_HEADS, has_one_of};
use cp_scope::place_of;
use cp_sexpr::Form;
use cp_spelled::FirstMisfit;

/// One kind of item: its heads, and whether it may be repeated.
#[derive(Clone, Copy)]
struct Line {
    heads: &'static [&'static str],
    repeats: bool,
}

/// The items of a label form, in their order.
const LINES: &[Line] = &[
    Line {
        heads: &["parent"],
        repeats: false,
    },
    Line {
        heads: &["by"],
        repeats: false,
    },
    Line {
        heads: &["vars"],
        repeats: false,
    },
    Line {
        heads: &["defstrand", "deflistener"],
        repeats: true,
    },
    Line {
        heads: &["precedes"],
        repeats: false,
    },
    Line {
        heads: &["non-orig"],
        repeats: false,
    },
    Line {
        heads: &["pen-non-orig"],
        repeats: false,
    },
    Line {
        heads: &["uniq-orig"],
        repeats: false,
    },
    Line {
        heads: &["map"],
        repeats: false,
    },
    Line {
        heads: &["unrealised"],
        repeats: false,
    },
    Line {
        heads: &["test"],
        repeats: false,
    },
    Line {
        heads: &["escape"],
        repeats: false,
    },
    Line {
        heads: &["children"],
        repeats: false,
    },
    Line {
        heads: MARK_HEADS,
        repeats: false,
    },
];

/// The lines from that of this form on; none if it is an item of no line.
fn lines_from<'a>(form: &Form, lines: &'a [Line]) -> &'a [Line]
    ensures { map line_view result.now ≡ lines_from (view form.now) (map line_view lines.now) }
{
    for (place, line) in lines.iter().enumerate() {
        if has_one_of(form, line.heads) {
            let (_, own) = lines.split_at(place);
            return own;
        }
    }
    &[]
}

/// The lines that may follow, where `own` are those from the item's own line on: after a misplaced item all of them.
fn lines_behind<'a>(lines: &'a [Line], own: &'a [Line]) -> &'a [Line]
    ensures { map line_view result.now ≡ lines_behind (map line_view lines.now) (map line_view own.now) }
{
    match own.split_first() {
        None => lines,
        Some((line, _)) if line.repeats => own,
        Some((_, behind)) => behind,
    }
}

/// The items of a label form must be of these kinds and in this order.
pub(crate) fn order_misfits(items: &[Form], first: &mut FirstMisfit)
    ensures { first.new ≡ first_onto first.old (order_misfits lines_of_label (map view items.now)) }
{
    let mut lines = LINES;
    for item in items {
        let own = lines_from(item, lines);
        first.note_unless(!own.is_empty(), place_of(item));
        lines = lines_behind(lines, own);
    }
}

/// Whether the items are of these kinds and in this order.
pub(crate) fn are_in_order(items: &[Form]) -> bool
    ensures { result ≡ is_fitting (order_misfits lines_of_label (map view items.now)) }
{
    let mut inside = FirstMisfit::new();
    order_misfits(items, &mut inside);
    inside.is_none()
}

/// The place at which a label form lacks something that a misplaced item may be: the first such item, or if there is
/// none the form, which stands at this place.
pub(crate) fn place_of_lack(place: Place, items: &[Form]) -> Place
    ensures { result ≡ first_or place (order_misfits lines_of_label (map view items.now)) }
{
    let mut lines = LINES;
    for item in items {
        let own = lines_from(item, lines);
        if own.is_empty() {
            return place_of(item);
        }
        lines = lines_behind(lines, own);
    }
    place
}
