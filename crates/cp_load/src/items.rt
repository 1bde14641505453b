// The items of problems: which of them state strands, and which stand after all strands.
ghost use Rattle.std.specs.Prelude.{◌≡◌, map};
ghost use Rattle.cp_sexpr.specs.View.{view};
ghost use Rattle.cp_language.specs.Problems.{has_strand, is_strand_item, is_assumption_or_order, before_items};
ghost use Rattle.cp_language.specs.Roles.{headed, item_or_none};

use cp_scope::{ItemHead, first_items, headed, item_head};
use cp_sexpr::Form;

/// Whether an item has the head of a strand.
pub(crate) fn is_strand_item(form: &Form) -> bool
    ensures { result ≡ is_strand_item (item_or_none (headed (view form.now))) }
{
    match headed(form) {
        Some(list) => matches!(item_head(list.head), ItemHead::Strand | ItemHead::Listener),
        None => false,
    }
}

/// Whether one of these items has the head of a strand.
pub(crate) fn has_strand(items: &[Form]) -> bool
    ensures { result ≡ has_strand (map view items.now) }
{
    for item in items {
        if is_strand_item(item) {
            return true;
        }
    }
    false
}

/// Whether an item is an assumption or orders nodes.
pub(crate) fn is_assumption_or_order(form: &Form) -> bool
    ensures { result ≡ is_assumption_or_order (item_or_none (headed (view form.now))) }
{
    match headed(form) {
        Some(list) => matches!(
            item_head(list.head),
            ItemHead::Non | ItemHead::PenetratorNon | ItemHead::Unique | ItemHead::Precedes
        ),
        None => false,
    }
}

/// The items of a problem before the first assumption or order.
pub(crate) fn before_items(body: &[Form]) -> &[Form]
    ensures { map view result.now ≡ before_items (map view body.now) }
{
    for (number, item) in body.iter().enumerate() {
        if is_assumption_or_order(item) {
            return first_items(body, number);
        }
    }
    body
}
