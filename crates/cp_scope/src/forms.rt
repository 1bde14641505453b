// Forms, one level deep.
ghost use Rattle.std.specs.Prelude.{◌≡◌, map, option_map, take, drop};
ghost use Rattle.cp_lists.specs.Lists.{item_at};
ghost use Rattle.cp_sexpr.specs.View.{view};
ghost use Rattle.cp_language.specs.Faults.{place_of};
ghost use Rattle.cp_language.specs.Roles.{headed, items_behind, list_items, text_of_symbol, last_form, front_of};
ghost use Rattle.cp_scope.specs.Forms.{headed_view, symbol_in};

use cp_base::Place;
use cp_sexpr::Form;

/// A list with a head: its place, the head, which is a symbol, and the items after it.
#[derive(Clone, Copy)]
pub struct HeadedList<'a> {
    pub place: Place,
    pub head: &'a [u8],
    pub items: &'a [Form],
}

/// The place of a form.
pub fn place_of(form: &Form) -> Place
    ensures { result ≡ place_of (view form.now) }
{
    match form {
        Form::Symbol(place, _) => *place,
        Form::String(place, _) => *place,
        Form::Number(place, _) => *place,
        Form::List(place, _) => *place,
    }
}

/// The text of a symbol.
pub fn symbol(form: &Form) -> Option<&[u8]>
    ensures { option_map (λ t. t.now) result ≡ symbol_in (view form.now) }
{
    match form {
        Form::Symbol(_, text) => Some(text.as_bytes()),
        _ => None,
    }
}

/// The text of a symbol; empty for any other form.
pub fn symbol_or_empty(form: &Form) -> &[u8]
    ensures { result.now ≡ text_of_symbol (view form.now) }
{
    match form {
        Form::Symbol(_, text) => text.as_bytes(),
        _ => &[],
    }
}

/// The items of a list; any other form has none.
pub fn list_items(form: &Form) -> &[Form]
    ensures { map view result.now ≡ list_items (view form.now) }
{
    match form {
        Form::List(_, items) => items.as_slice(),
        _ => &[],
    }
}

/// The form as a list with a head, if it is one.
pub fn headed(form: &Form) -> Option<HeadedList<'_>>
    ensures { option_map headed_view result ≡ headed (view form.now) }
{
    let Form::List(place, items) = form else {
        return None;
    };
    let (first, items) = items.as_slice().split_first()?;
    let head = symbol(first)?;
    Some(HeadedList {
        place: *place,
        head,
        items,
    })
}

/// The items after the head of a list with a head; any other form has none.
pub fn items_behind(form: &Form) -> &[Form]
    ensures { map view result.now ≡ items_behind (headed (view form.now)) }
{
    match headed(form) {
        Some(list) => list.items,
        None => &[],
    }
}

/// The item at a place, from 0.
pub fn item_at(items: &[Form], place: usize) -> Option<&Form>
    ensures { option_map (λ f. view f.now) result ≡ item_at (map view items.now) place }
{
    items.get(place)
}

/// The last item.
pub fn last_item(items: &[Form]) -> Option<&Form>
    ensures { option_map (λ f. view f.now) result ≡ last_form (map view items.now) }
{
    match items.split_last() {
        Some((last, _)) => Some(last),
        None => None,
    }
}

/// The items before the last.
pub fn front_items(items: &[Form]) -> &[Form]
    ensures { map view result.now ≡ front_of (map view items.now) }
{
    match items.split_last() {
        Some((_, front)) => front,
        None => items,
    }
}

/// The first `count` items.
pub fn first_items(items: &[Form], count: usize) -> &[Form]
    ensures { map view result.now ≡ take count (map view items.now) }
{
    if items.len() < count {
        return items;
    }
    let (front, _) = items.split_at(count);
    front
}

/// The items after the first `count`.
pub fn later_items(items: &[Form], count: usize) -> &[Form]
    ensures { map view result.now ≡ drop count (map view items.now) }
{
    if items.len() < count {
        return &[];
    }
    let (_, behind) = items.split_at(count);
    behind
}
