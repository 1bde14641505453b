// Two items side by side: one of a skeleton, and one of another.
ghost use Rattle.cp_hom.specs.Counterparts.{GoesToStrand, BecomesAtom, BecomesUnique, TakesItem};
ghost use Rattle.cp_hom.specs.Pairings.{IsPairing};

use crate::items::{Item, Kind};
use cp_model::item_at;
use cp_skel::{Atom, Skeleton, Strand, UniqueAt};
use cp_term::Term;

/// What a map must do to take an item of a skeleton to an item of another.
#[derive(Clone, Copy)]
pub(crate) enum Pairing<'a> {
    /// Send the strand with the first number to the second number, and make it a part of the strand there.
    Strands(usize, usize, &'a Strand, &'a Strand),
    /// Make the first term the second.
    Terms(&'a Term, &'a Term),
    /// Send the strand with the first number to the second number, and make the first term the second.
    Origins(usize, usize, &'a Term, &'a Term),
}

/// A strand and one of others.
fn strand_pairing<'a>(
    strands: &'a [Strand],
    others: &'a [Strand],
    strand: usize,
    image: usize,
) -> Option<Pairing<'a>>
    ensures { IsPairing (GoesToStrand strands.now others.now strand image) result }
{
    let Some(from) = item_at(strands, strand) else {
        return None;
    };
    let Some(to) = item_at(others, image) else {
        return None;
    };
    Some(Pairing::Strands(strand, image, from, to))
}

/// An atom and one of others.
fn atom_pairing<'a>(
    atoms: &'a [Atom],
    others: &'a [Atom],
    index: usize,
    image: usize,
) -> Option<Pairing<'a>>
    ensures { IsPairing (BecomesAtom atoms.now others.now index image) result }
{
    let Some(from) = item_at(atoms, index) else {
        return None;
    };
    let Some(to) = item_at(others, image) else {
        return None;
    };
    Some(Pairing::Terms(from.as_term(), to.as_term()))
}

/// A unique value with its origin, and one of others.
fn unique_pairing<'a>(
    uniques: &'a [UniqueAt],
    others: &'a [UniqueAt],
    index: usize,
    image: usize,
) -> Option<Pairing<'a>>
    ensures { IsPairing (BecomesUnique uniques.now others.now index image) result }
{
    let Some(from) = item_at(uniques, index) else {
        return None;
    };
    let Some(to) = item_at(others, image) else {
        return None;
    };
    let first = from.origin();
    let second = to.origin();
    if first.index != second.index {
        return None;
    }
    Some(Pairing::Origins(
        first.strand,
        second.strand,
        from.value().as_term(),
        to.value().as_term(),
    ))
}

/// An item of the first skeleton, and the item with this number of the second; `None` if no map takes the one to the other.
pub(crate) fn paired<'a>(
    a: &'a Skeleton,
    b: &'a Skeleton,
    item: Item,
    image: usize,
) -> Option<Pairing<'a>>
    ensures { IsPairing (TakesItem a.now b.now item image) result }
{
    let index = item.index;
    let assumed = a.assumptions();
    let others = b.assumptions();
    match item.kind {
        Kind::Strands => strand_pairing(a.strands(), b.strands(), index, image),
        Kind::NonOriginating => {
            let atoms = assumed.non_originating();
            atom_pairing(atoms, others.non_originating(), index, image)
        }
        Kind::PenetratorNonOriginating => {
            let atoms = assumed.penetrator_non_originating();
            atom_pairing(atoms, others.penetrator_non_originating(), index, image)
        }
        Kind::Uniques => {
            let uniques = assumed.uniquely_originating();
            unique_pairing(uniques, others.uniquely_originating(), index, image)
        }
    }
}
