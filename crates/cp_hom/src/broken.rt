// Order pairs that a partial map breaks.
ghost use Rattle.std.specs.Prelude.{◌≡◌, IsTrue, IfOk, IfSome};
ghost use Rattle.cp_model.specs.Homomorphism.{SkeletonMap, mapped};
ghost use Rattle.cp_hom.specs.PartialMaps.{Places};
ghost use Rattle.cp_hom.specs.Counterparts.{IsKeptBy, KeepsPairs};

use crate::items::{Item, Kind};
use crate::kept_order::leads_to_another;
use crate::partials::{Placement, image_of};
use cp_skel::{Node, OrderPair, Skeleton};
use std::alloc::{AllocError, Global};

/// The image of a node, if its strand is placed.
fn image_of_node(placements: &[Placement], node: Node) -> Option<Node>
    ensures { IfSome result (λ x. (f : SkeletonMap) → Places f.strands placements.now → x ≡ mapped f node) }
{
    let strand = image_of(placements, node.strand)?;
    Some(Node {
        strand,
        index: node.index,
    })
}

/// Fast test: true only if no map with these placements keeps the pair. It looks only at pairs whose strands are both placed.
fn is_broken(
    alloc: Global,
    pair: &OrderPair,
    others: &[OrderPair],
    placements: &[Placement],
) -> Result<bool, AllocError>
    ensures { IfOk result (λ broken. IsTrue broken → (f : SkeletonMap) → Places f.strands placements.now → IsKeptBy others.now f pair.now → ⊥) }
{
    let Some(x) = image_of_node(placements, pair.earlier) else {
        return Ok(false);
    };
    let Some(y) = image_of_node(placements, pair.later) else {
        return Ok(false);
    };
    leads_to_another(alloc, others, x, y).map(|leads| !leads)
}

/// Fast test: true only if no map with these placements keeps the pairs. It looks only at pairs that have a node on this strand
/// and whose strands are both placed.
fn breaks_pairs(
    alloc: Global,
    pairs: &[OrderPair],
    others: &[OrderPair],
    strand: usize,
    placements: &[Placement],
) -> Result<bool, AllocError>
    ensures { IfOk result (λ breaks. IsTrue breaks → (f : SkeletonMap) → Places f.strands placements.now → KeepsPairs pairs.now others.now f → ⊥) }
{
    for pair in pairs {
        if pair.earlier.strand != strand && pair.later.strand != strand {
            continue;
        }
        if is_broken(alloc, pair, others, placements)? {
            return Ok(true);
        }
    }
    Ok(false)
}

/// Fast test: true only if no map with these placements keeps the order. It looks only at the pairs of the item's strand, if the
/// item is a strand.
pub(crate) fn breaks_order(
    alloc: Global,
    a: &Skeleton,
    b: &Skeleton,
    item: Item,
    placements: &[Placement],
) -> Result<bool, AllocError>
    ensures { IfOk result (λ breaks. IsTrue breaks → (f : SkeletonMap) → Places f.strands placements.now → KeepsPairs a.now.pairs b.now.pairs f → ⊥) }
{
    if item.kind != Kind::Strands {
        return Ok(false);
    }
    breaks_pairs(
        alloc,
        a.order().pairs(),
        b.order().pairs(),
        item.index,
        placements,
    )
}
