// What is known about a choice for an item before it is tried.
ghost use Rattle.std.specs.Prelude.{◌≡◌, IsTrue, IfSome, MatchOption};
ghost use Rattle.cp_model.specs.Term.{apply_to};
ghost use Rattle.cp_model.specs.Values.{substitution_by};
ghost use Rattle.cp_term.specs.Variables.{variable_of_sort};
ghost use Rattle.cp_strand.specs.View.{instance_view};
ghost use Rattle.cp_hom.specs.PartialMaps.{partial_view, IsKnown, IsOfNoExtension};
ghost use Rattle.cp_hom.specs.Counterparts.{MakesPart, item_count, TakesItem};
ghost use Rattle.cp_hom.specs.Pairings.{TakesPair};
ghost use Rattle.cp_hom.specs.Choices.{ArePassed, IsNextChoice};
ghost use Rattle.cp_hom.specs.OpenMaps.{NeverEmbeds};

use crate::items::{Item, Kind, count};
use crate::pairings::{Pairing, paired};
use crate::partials::{Partial, image_of};
use cp_model::item_at;
use cp_skel::{Instance, Role, Skeleton, Strand, StrandShape};
use cp_term::{Sort, Term, VarId, is_of_sort};
use cp_unify::known_match;

/// A choice for an item, and whether it surely holds.
#[derive(Clone, Copy, Debug, PartialEq, Eq)]
pub(crate) struct Choice {
    pub(crate) number: usize,
    pub(crate) is_sure: bool,
}

/// Whether a strand maps to this image; `None` while the strand is not placed.
fn known_number(strand: usize, image: usize, given: &Partial) -> Option<bool>
    ensures { IsKnown (λ f. f.strands strand ≡ image) given.now result }
{
    match image_of(&given.placements, strand) {
        Some(other) => Some(other == image),
        None => None,
    }
}

/// Whether a term maps to another; `None` if that is not known.
fn known_term(from: &Term, to: &Term, given: &Partial) -> Option<bool>
    ensures { IsKnown (λ f. apply_to f.terms from.now ≡ to.now) given.now result }
{
    known_match(from, to, &given.values)
}

/// Fast test: true only if no map that follows the partial one makes the one term the other.
fn is_apart(from: &Term, to: &Term, given: &Partial) -> bool
    ensures { IsTrue result → IsOfNoExtension (λ f. apply_to f.terms from.now ≡ to.now) (partial_view given.now) }
{
    matches!(known_match(from, to, &given.values), Some(false))
}

/// The value with a variable's number, if it has the variable's sort.
pub(crate) fn value_at(values: &[Term], id: VarId, sort: Sort) -> Option<&Term>
    ensures { IfSome result (λ t. apply_to (substitution_by values.now) (variable_of_sort sort id) ≡ t.now) }
{
    match item_at(values, id.number()) {
        Some(term) if is_of_sort(term, sort) => Some(term),
        _ => None,
    }
}

/// Fast test: true only if no map that follows the partial one makes what a variable is under the values `from` what it is under
/// `to`.
fn is_value_apart(id: VarId, sort: Sort, from: &[Term], to: &[Term], given: &Partial) -> bool
    ensures { IsTrue result → IsOfNoExtension
        (λ f. apply_to f.terms (apply_to (substitution_by from.now) (variable_of_sort sort id)) ≡ apply_to (substitution_by to.now) (variable_of_sort sort id))
        (partial_view given.now) }
{
    match (value_at(from, id, sort), value_at(to, id, sort)) {
        (Some(first), Some(second)) => is_apart(first, second, given),
        _ => false,
    }
}

/// Fast test: true only if no map that follows the partial one makes an instance a part of another, because a variable of its
/// prefix has a value that becomes another than the other's.
fn are_values_apart(from: &Instance, to: &Instance, given: &Partial) -> bool
    ensures { IsTrue result → IsOfNoExtension (λ f. MakesPart f.terms (instance_view from.now) (instance_view to.now)) (partial_view given.now) }
{
    let role: &Role = from.role();
    let height = from.height();
    let values = from.values();
    let others = to.values();
    for (number, declaration) in role.variables().iter().enumerate() {
        let id = VarId::numbered(number);
        let sort = declaration.sort;
        if !role.occurs_before(id, sort, height) {
            continue;
        }
        if is_value_apart(id, sort, values, others, given) {
            return true;
        }
    }
    false
}

/// Fast test: true only if no map that follows the partial one makes a strand a part of another, because exactly one of them is a
/// listener, the other is shorter or of a role with another name, or their values do not agree.
fn is_no_part(from: &Strand, to: &Strand, given: &Partial) -> bool
    ensures { IsTrue result → IsOfNoExtension (λ f. MakesPart f.terms from.now to.now) (partial_view given.now) }
{
    match (from.shape(), to.shape()) {
        (StrandShape::Instance(first), StrandShape::Instance(second)) => {
            first.height() > second.height()
                || first.role().name().as_str() != second.role().name().as_str()
                || are_values_apart(first, second, given)
        }
        (StrandShape::Listener(first), StrandShape::Listener(second)) => {
            is_apart(first, second, given)
        }
        _ => true,
    }
}

/// Fast test: true only if a strand is placed and does not map to this image.
fn is_elsewhere(strand: usize, image: usize, given: &Partial) -> bool
    ensures { IsTrue result → IsOfNoExtension (λ f. f.strands strand ≡ image) (partial_view given.now) }
{
    matches!(known_number(strand, image, given), Some(false))
}

/// Whether a map takes two items to each other; `None` if that is not known. Of strands only a negative result is found here.
fn known_pair(pair: Pairing<'_>, given: &Partial) -> Option<bool>
    ensures { IsKnown (TakesPair pair.entry) given.now result }
{
    match pair {
        Pairing::Strands(strand, image, from, to) => {
            if is_elsewhere(strand, image, given) {
                return Some(false);
            }
            if is_no_part(from, to, given) {
                Some(false)
            } else {
                None
            }
        }
        Pairing::Terms(from, to) => known_term(from, to, given),
        Pairing::Origins(strand, image, from, to) => {
            if known_number(strand, image, given)? {
                known_term(from, to, given)
            } else {
                Some(false)
            }
        }
    }
}

/// Whether an item of the first skeleton maps to the item with this number of the second; `None` if that is not known.
pub(crate) fn known_place(
    a: &Skeleton,
    b: &Skeleton,
    item: Item,
    image: usize,
    given: &Partial,
) -> Option<bool>
    ensures { IsKnown (TakesItem a.now b.now item image) given.now result }
{
    match paired(a, b, item, image) {
        Some(pair) => known_pair(pair, given),
        None => Some(false),
    }
}

/// The first choice for an item, from `from` on, that is not known to fail for every map.
pub(crate) fn next_choice(
    a: &Skeleton,
    b: &Skeleton,
    item: Item,
    from: usize,
    given: &Partial,
) -> Option<Choice>
    ensures { MatchOption result
        (ArePassed a.now b.now item (partial_view given.now) from (item_count item.kind b.now))
        (IsNextChoice a.now b.now item (partial_view given.now) from) }
{
    for number in from..count(item.kind, b) {
        match known_place(a, b, item, number, given) {
            Some(true) => {
                let is_sure = true;
                return Some(Choice { number, is_sure });
            }
            Some(false) => continue,
            None => {
                let is_sure = false;
                return Some(Choice { number, is_sure });
            }
        }
    }
    None
}

/// Fast test: true only if no embedding follows the partial map, because each choice for some strand is known to fail.
pub(crate) fn has_no_choice(a: &Skeleton, b: &Skeleton, given: &Partial) -> bool
    ensures { IsTrue result → NeverEmbeds a.now b.now (partial_view given.now) }
{
    let kind = Kind::Strands;
    for index in 0..count(kind, a) {
        if next_choice(a, b, Item { kind, index }, 0, given).is_none() {
            return true;
        }
    }
    false
}
