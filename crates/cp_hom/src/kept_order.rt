// Tests whether maps keep role strands apart and keep the order.
ghost use Rattle.std.specs.Prelude.{◌≡◌, ◌≢◌, ◌↔◌, IsTrue, IfOk};
ghost use Rattle.cp_model.specs.Order.{IsAtOrAfter, ReachesAlong};
ghost use Rattle.cp_hom.specs.Maps.{map_view};
ghost use Rattle.cp_hom.specs.Counterparts.{IsRoleStrand, HoldsImage, IsTaken, IsBlocked, MeetsEarlier, KeepsApart, KeepsPairs};

use crate::items::{Item, Kind};
use crate::partials::Placement;
use crate::strand_map::Map;
use cp_model::item_at;
use cp_skel::{Node, OrderPair, Predecessors, Strand, StrandShape};
use std::alloc::{AllocError, Global};

/// Whether a strand is an instance of a role.
fn is_role_strand(strands: &[Strand], strand: usize) -> bool
    ensures { IsTrue result ↔ IsRoleStrand strands.now strand }
{
    match item_at(strands, strand) {
        Some(strand) => matches!(strand.shape(), StrandShape::Instance(_)),
        None => false,
    }
}

/// Whether a placement maps another role strand to this image.
fn holds_image(strands: &[Strand], strand: usize, image: usize, placement: Placement) -> bool
    ensures { IsTrue result ↔ HoldsImage strands.now strand image placement }
{
    placement.image == image
        && placement.strand != strand
        && is_role_strand(strands, placement.strand)
}

/// Whether another role strand is placed at this image.
fn is_taken(strands: &[Strand], strand: usize, image: usize, placements: &[Placement]) -> bool
    ensures { IsTrue result ↔ IsTaken strands.now strand image placements.now }
{
    for placement in placements {
        if holds_image(strands, strand, image, *placement) {
            return true;
        }
    }
    false
}

/// Whether an item is a role strand and another role strand is placed at this image.
pub(crate) fn is_blocked(
    strands: &[Strand],
    item: Item,
    image: usize,
    placements: &[Placement],
) -> bool
    ensures { IsTrue result ↔ IsBlocked strands.now item image placements.now }
{
    item.kind == Kind::Strands
        && is_role_strand(strands, item.index)
        && is_taken(strands, item.index, image, placements)
}

/// Whether two strands are both instances of roles and map to one strand.
fn meet(strands: &[Strand], mapping: &Map, strand: usize, other: usize) -> bool
    ensures { IsTrue result ↔ (IsRoleStrand strands.now strand
        × IsRoleStrand strands.now other
        × ((map_view mapping.now).strands other ≡ (map_view mapping.now).strands strand)) }
{
    mapping.strand(other) == mapping.strand(strand)
        && is_role_strand(strands, strand)
        && is_role_strand(strands, other)
}

/// Whether a strand is an instance of a role and maps to the image of an earlier instance.
fn meets_earlier(strands: &[Strand], mapping: &Map, strand: usize) -> bool
    ensures { IsTrue result ↔ MeetsEarlier strands.now (map_view mapping.now).strands strand }
{
    for other in 0..strand {
        if meet(strands, mapping, strand, other) {
            return true;
        }
    }
    false
}

/// Whether distinct role strands map to distinct strands.
pub(crate) fn keeps_apart(strands: &[Strand], mapping: &Map) -> bool
    ensures { IsTrue result ↔ KeepsApart strands.now (map_view mapping.now).strands }
{
    for strand in 0..strands.len() {
        if meets_earlier(strands, mapping, strand) {
            return false;
        }
    }
    true
}

/// Whether a node reaches another over this pair: it is at or before the pair's earlier node, and the pair's later node is at or
/// before the other.
fn leads_over(pair: &OrderPair, x: Node, y: Node) -> bool
    ensures { IsTrue result ↔ (IsAtOrAfter x pair.now.earlier × IsAtOrAfter pair.now.later y) }
{
    x.strand == pair.earlier.strand
        && x.index <= pair.earlier.index
        && pair.later.strand == y.strand
        && pair.later.index <= y.index
}

/// Fast test: true only if a node reaches another along strands and these pairs. It looks at each pair alone.
fn leads_over_one(pairs: &[OrderPair], x: Node, y: Node) -> bool
    ensures { IsTrue result → ReachesAlong pairs.now x y }
{
    for pair in pairs {
        if leads_over(pair, x, y) {
            return true;
        }
    }
    false
}

/// Whether a node reaches a different one along strands and these pairs.
pub(crate) fn leads_to_another(
    alloc: Global,
    pairs: &[OrderPair],
    x: Node,
    y: Node,
) -> Result<bool, AllocError>
    ensures { IfOk result (λ leads. IsTrue leads
        ↔ (ReachesAlong pairs.now x y × (x ≢ y))) }
{
    if x == y {
        return Ok(false);
    }
    // Most pairs map to pairs; then the predecessors of a node need not be gathered.
    if leads_over_one(pairs, x, y) {
        return Ok(true);
    }
    Predecessors::new(alloc, pairs, y).map(|leading| leading.has(x))
}

/// Whether the map keeps the pairs: in each image the earlier node reaches the later one, a different one, along the other
/// pairs.
pub(crate) fn keeps_pairs(
    alloc: Global,
    pairs: &[OrderPair],
    others: &[OrderPair],
    mapping: &Map,
) -> Result<bool, AllocError>
    ensures { IfOk result (λ kept. IsTrue kept
        ↔ KeepsPairs pairs.now others.now (map_view mapping.now)) }
{
    for pair in pairs {
        let x = mapping.node(pair.earlier);
        let y = mapping.node(pair.later);
        if !leads_to_another(alloc, others, x, y)? {
            return Ok(false);
        }
    }
    Ok(true)
}
