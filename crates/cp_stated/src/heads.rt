// The items of a label form by their heads.
ghost use Rattle.std.specs.Prelude.{◌≡◌, ◌∷◌, [], map, option_map};
ghost use Rattle.cp_sexpr.specs.View.{view};
ghost use Rattle.cp_report.specs.Heads.{has_head, item_with, place_or, strand_heads};

use cp_base::Place;
use cp_scope::place_of;
use cp_sexpr::Form;
use cp_spelled::has_head;

/// Whether a form has the head of an instance or of a listener.
pub(crate) fn is_strand(form: &Form) -> bool
    ensures { result ≡ has_head strand_heads (view form.now) }
{
    if has_head(form, b"defstrand") {
        return true;
    }
    has_head(form, b"deflistener")
}

/// The first of the items with this head.
pub fn item_with<'a>(items: &'a [Form], word: &[u8]) -> Option<&'a Form>
    ensures { option_map (λ f. view f.now) result ≡ item_with (word.now ∷ []) (map view items.now) }
{
    for item in items {
        if has_head(item, word) {
            return Some(item);
        }
    }
    None
}

/// The place of an item, or this place if there is none.
pub(crate) fn place_or(place: Place, item: Option<&Form>) -> Place
    ensures { result ≡ place_or place (option_map (λ f. view f.now) item.entry) }
{
    match item {
        Some(item) => place_of(item),
        None => place,
    }
}
