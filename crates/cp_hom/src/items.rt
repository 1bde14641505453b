// The parts of a skeleton that an embedding maps to parts of another.
ghost use Rattle.std.specs.Prelude.{◌≡◌, IfOk};
ghost use Rattle.cp_hom.specs.Grown.{UnlessOut};
ghost use Rattle.cp_hom.specs.Counterparts.{item_count, AreItemsOf, AddsItems, AddsAll};

use crate::sharing_strands::shares_all;
use cp_base::Growing;
use cp_fingerprint::{Places, places_of};
use cp_skel::Skeleton;
use std::alloc::{AllocError, Global};

/// The kind of an item: strands, or one of the three lists of assumptions.
#[derive(Clone, Copy, Debug, PartialEq, Eq)]
pub(crate) enum Kind {
    Strands,
    NonOriginating,
    PenetratorNonOriginating,
    Uniques,
}

/// A strand or an assumption of a skeleton, by its kind and number.
#[derive(Clone, Copy, Debug, PartialEq, Eq)]
pub(crate) struct Item {
    pub(crate) kind: Kind,
    pub(crate) index: usize,
}

/// The number of items of a kind that a skeleton has.
pub(crate) fn count(kind: Kind, k: &Skeleton) -> usize
    ensures { result ≡ item_count kind k.now }
{
    match kind {
        Kind::Strands => k.strands().len(),
        Kind::NonOriginating => k.assumptions().non_originating().len(),
        Kind::PenetratorNonOriginating => k.assumptions().penetrator_non_originating().len(),
        Kind::Uniques => k.assumptions().uniquely_originating().len(),
    }
}

/// Appends the items of a kind.
fn add_items(kind: Kind, k: &Skeleton, items: &mut Growing<Item>)
    ensures { UnlessOut (AddsAll kind k.now) items.old items.new }
{
    for index in 0..count(kind, k) {
        items.push(Item { kind, index });
    }
}

/// Appends the unique values whose origins are on a strand.
fn add_uniques_on(strand: usize, k: &Skeleton, items: &mut Growing<Item>)
    ensures { UnlessOut (AddsItems k.now) items.old items.new }
{
    let uniques = k.assumptions().uniquely_originating();
    for index in 0..uniques.len() {
        if uniques[index].origin().strand != strand {
            continue;
        }
        let kind = Kind::Uniques;
        items.push(Item { kind, index });
    }
}

/// Appends the strands all of whose values are the problem's or stand on other strands too, each followed by the unique values
/// with origins on it. Such strands have few possible images; those with values of their own have many.
fn add_sharing_strands(places: &Places, k: &Skeleton, items: &mut Growing<Item>)
    ensures { UnlessOut (AddsItems k.now) items.old items.new }
{
    for index in 0..count(Kind::Strands, k) {
        if !shares_all(places, index) {
            continue;
        }
        let kind = Kind::Strands;
        items.push(Item { kind, index });
        add_uniques_on(index, k, items);
    }
}

/// Appends the strands, each followed by the unique values with origins on it, which show early where the strand cannot go.
fn add_strands(k: &Skeleton, items: &mut Growing<Item>)
    ensures { UnlessOut (AddsAll Kind.Strands k.now) items.old items.new }
{
    for index in 0..count(Kind::Strands, k) {
        let kind = Kind::Strands;
        items.push(Item { kind, index });
        add_uniques_on(index, k, items);
    }
}

/// All items of a skeleton: strands first, starting with those that share all their values.
pub(crate) fn items(alloc: Global, k: &Skeleton) -> Result<Vec<Item>, AllocError>
    ensures { IfOk result (λ v. AreItemsOf k.now v.items) }
{
    let places = places_of(alloc, k)?;
    let mut items = Growing::from_items(Vec::new(alloc));
    add_sharing_strands(&places, k, &mut items);
    add_strands(k, &mut items);
    add_items(Kind::NonOriginating, k, &mut items);
    add_items(Kind::PenetratorNonOriginating, k, &mut items);
    add_items(Kind::Uniques, k, &mut items);
    items.finish()
}
