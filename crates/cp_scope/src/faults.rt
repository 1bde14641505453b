// The faults of terms.
ghost use Rattle.std.specs.Prelude.{◌≡◌, map, take, None};
ghost use Rattle.cp_sexpr.specs.View.{view};
ghost use Rattle.cp_language.specs.Words.{term_head};
ghost use Rattle.cp_language.specs.Roles.{headed};
ghost use Rattle.cp_language.specs.Terms.{lacks, exceeds, last_key_faults, term_faults, atom_faults, sort_faults};
ghost use Rattle.cp_lists.specs.Lists.{item_at};
ghost use Rattle.cp_scope.specs.FirstFault.{first_onto};
ghost use Rattle.cp_scope.specs.OwnFaults.{sort_faults_if, argument_faults, key_name_faults, two_name_faults, own_faults, judged_name, judged, is_purpose};

use crate::sorts::{has_atom_sort, has_key_sort, has_sort};
use crate::{
    FirstFault, HeadedList, TermHead, Variables, first_items, headed, item_at, last_item,
    later_items, place_of, term_head,
};
use cp_base::{Code, Place};
use cp_sexpr::Form;
use cp_term::Sort;

/// Notes a fault at this place, that of a list, if the list has fewer than `count` items.
pub fn lacks(count: usize, place: Place, items: &[Form], first: &mut FirstFault)
    ensures { first.new ≡ first_onto first.old (lacks count place (map view items.now)) }
{
    first.note_unless(count <= items.len(), place, Code::BadShape);
}

/// Notes a fault at the first item after the first `count`, if there is one.
pub fn exceeds(count: usize, items: &[Form], first: &mut FirstFault)
    ensures { first.new ≡ first_onto first.old (exceeds count (map view items.now)) }
{
    if let Some(item) = item_at(items, count) {
        first.note(place_of(item), Code::BadShape);
    }
}

/// The term must have this sort.
pub fn sort_faults(variables: &Variables, sort: Sort, form: &Form, first: &mut FirstFault)
    ensures { first.new ≡ first_onto first.old (sort_faults variables.now sort (view form.now)) }
{
    first.note_unless(
        has_sort(variables, sort, form),
        place_of(form),
        Code::IllSorted,
    );
}

/// The item at a place, if there is one, must have this sort.
fn item_sort_faults(
    variables: &Variables,
    sort: Sort,
    items: &[Form],
    place: usize,
    first: &mut FirstFault,
)
    ensures { first.new ≡ first_onto first.old (sort_faults_if variables.now sort (item_at (map view items.now) place)) }
{
    if let Some(item) = item_at(items, place) {
        sort_faults(variables, sort, item, first);
    }
}

/// The last item, if there is one, must be a key.
fn last_key_faults(variables: &Variables, items: &[Form], first: &mut FirstFault)
    ensures { first.new ≡ first_onto first.old (last_key_faults variables.now (map view items.now)) }
{
    if let Some(item) = last_item(items) {
        first.note_unless(has_key_sort(variables, item), place_of(item), Code::KeySort);
    }
}

/// Notes the faults of an operation of one argument, which must have this sort. Returns the argument.
fn argument_faults<'a>(
    variables: &Variables,
    sort: Sort,
    place: Place,
    items: &'a [Form],
    first: &mut FirstFault,
) -> &'a [Form]
    ensures argument { map view result.now ≡ take 1 (map view items.now) }
    ensures faults { first.new ≡ first_onto first.old (argument_faults variables.now sort place (map view items.now)) }
{
    lacks(1, place, items, first);
    item_sort_faults(variables, sort, items, 0, first);
    exceeds(1, items, first);
    first_items(items, 1)
}

/// Whether the first item is a string, the purpose of a key.
pub(crate) fn is_purpose(items: &[Form]) -> bool
    ensures { result ≡ is_purpose (map view items.now) }
{
    matches!(items.first(), Some(Form::String(..)))
}

/// Notes the faults of a name's key. Returns the name, which follows the purpose if there is one.
fn name_faults<'a>(
    variables: &Variables,
    place: Place,
    items: &'a [Form],
    first: &mut FirstFault,
) -> &'a [Form]
    ensures argument { map view result.now ≡ judged_name (map view items.now) }
    ensures faults { first.new ≡ first_onto first.old (key_name_faults variables.now place (map view items.now)) }
{
    let items = if is_purpose(items) {
        later_items(items, 1)
    } else {
        items
    };
    argument_faults(variables, Sort::Name, place, items, first)
}

/// Notes the faults of a long-term key of two names. Returns the names.
fn two_name_faults<'a>(
    variables: &Variables,
    list: HeadedList<'a>,
    first: &mut FirstFault,
) -> &'a [Form]
    ensures arguments { map view result.now ≡ take 2 (map view list.entry.items.now) }
    ensures faults { first.new ≡ first_onto first.old (two_name_faults variables.now list.entry.place (map view list.entry.items.now)) }
{
    let items = list.items;
    lacks(2, list.place, items, first);
    item_sort_faults(variables, Sort::Name, items, 0, first);
    item_sort_faults(variables, Sort::Name, items, 1, first);
    exceeds(2, items, first);
    first_items(items, 2)
}

/// Notes the faults of a list in a term, except those inside its items. Returns the items whose own faults count.
fn own_faults<'a>(variables: &Variables, list: HeadedList<'a>, first: &mut FirstFault) -> &'a [Form]
    ensures judged { map view result.now ≡ judged (term_head list.entry.head.now) (map view list.entry.items.now) }
    ensures faults { first.new ≡ first_onto first.old
        (own_faults variables.now list.entry.place (term_head list.entry.head.now) (map view list.entry.items.now)) }
{
    let place = list.place;
    let items = list.items;
    match term_head(list.head) {
        TermHead::Cat => {
            lacks(1, place, items, first);
            items
        }
        TermHead::Enc => {
            lacks(2, place, items, first);
            last_key_faults(variables, items, first);
            items
        }
        TermHead::Ltk => two_name_faults(variables, list, first),
        TermHead::Pubk | TermHead::Privk => name_faults(variables, place, items, first),
        TermHead::Invk => argument_faults(variables, Sort::Akey, place, items, first),
        TermHead::OutOfProfile => {
            first.note(place, Code::OutOfProfile);
            &[]
        }
        TermHead::Unknown => {
            first.note(place, Code::UnknownForm);
            &[]
        }
    }
}

/// Notes the faults of a term that is no list with a head.
fn leaf_faults(variables: &Variables, form: &Form, first: &mut FirstFault)
    ensures { headed (view form.now) ≡ None
        → first.new ≡ first_onto first.old (term_faults variables.now (view form.now)) }
{
    match form {
        Form::Symbol(place, identifier) => {
            if variables.named(identifier.as_bytes()).is_none() {
                first.note(*place, Code::UnknownVar);
            }
        }
        Form::String(..) => {}
        Form::Number(place, _) | Form::List(place, _) => first.note(*place, Code::BadShape),
    }
}

/// Notes the faults of a term over these variables.
pub fn term_faults(variables: &Variables, form: &Form, first: &mut FirstFault)
    ensures { first.new ≡ first_onto first.old (term_faults variables.now (view form.now)) }
{
    let Some(list) = headed(form) else {
        leaf_faults(variables, form, first);
        return;
    };
    for item in own_faults(variables, list, first) {
        term_faults(variables, item, first);
    }
}

/// Notes the faults of an item of an assumption, which must be a term of an atom sort.
pub fn atom_faults(variables: &Variables, form: &Form, first: &mut FirstFault)
    ensures { first.new ≡ first_onto first.old (atom_faults variables.now (view form.now)) }
{
    first.note_unless(
        has_atom_sort(variables, form),
        place_of(form),
        Code::NotAtom,
    );
    term_faults(variables, form, first);
}
