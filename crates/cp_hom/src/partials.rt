// Partial maps.
ghost use Rattle.std.specs.Prelude.{◌≡◌, ◌==◌, ℕ, if◌then◌else◌, IfOk, OnOk};
ghost use Rattle.cp_model.specs.Homomorphism.{strand_in, number_or};
ghost use Rattle.cp_model.specs.Term.{apply_to};
ghost use Rattle.cp_hom.specs.Maps.{map_view};
ghost use Rattle.cp_hom.specs.PartialMaps.{partial_view, nothing, image_in, map_of, FindsMaps};

use crate::strand_map::Map;
use cp_term::Term;
use cp_unify::{Subst, matching_beside};
use std::alloc::{AllocError, Global};

/// A strand and its image.
#[derive(Clone, Copy, Debug, PartialEq, Eq)]
pub(crate) struct Placement {
    pub(crate) strand: usize,
    pub(crate) image: usize,
}

/// What is known so far of the map that is sought.
#[derive(Drop)]
pub(crate) struct Partial {
    pub(crate) placements: Vec<Placement>,
    pub(crate) values: Subst,
}

/// The image of a strand, if it is placed.
pub(crate) fn image_of(placements: &[Placement], strand: usize) -> Option<usize>
    ensures { result ≡ image_in placements.now strand }
{
    for placement in placements {
        if placement.strand == strand {
            return Some(placement.image);
        }
    }
    None
}

/// Maps one more strand to its image.
fn put(strands: &mut Vec<usize>, placement: Placement) -> Result<(), AllocError>
    ensures { OnOk result ((s : ℕ) → strand_in strands.new.items s
        ≡ (if placement.strand == s then placement.image else strand_in strands.old.items s)) }
{
    for number in strands.len()..placement.strand {
        strands.push(number)?;
    }
    if placement.strand < strands.len() {
        strands[placement.strand] = placement.image;
    } else {
        strands.push(placement.image)?;
    }
    Ok(())
}

/// The list of images in which each placed strand maps to its image and every other strand to itself.
fn images(alloc: Global, placements: &[Placement]) -> Result<Vec<usize>, AllocError>
    ensures { IfOk result (λ v. (s : ℕ) → strand_in v.items s ≡ number_or s (image_in placements.now s)) }
{
    let mut strands = Vec::new(alloc);
    for index in (0..placements.len()).rev() {
        put(&mut strands, placements[index])?;
    }
    Ok(strands)
}

/// Maps a strand to an image, unless it is placed elsewhere.
pub(crate) fn match_numbers(
    strand: usize,
    image: usize,
    given: Partial,
) -> Result<Option<Partial>, AllocError>
    ensures { IfOk result (FindsMaps (λ f. f.strands strand ≡ image) (partial_view given)) }
{
    match image_of(&given.placements, strand) {
        Some(other) => {
            if other == image {
                Ok(Some(given))
            } else {
                Ok(None)
            }
        }
        None => {
            let mut placements = given.placements;
            placements.push(Placement { strand, image })?;
            Ok(Some(Partial {
                placements,
                values: given.values,
            }))
        }
    }
}

/// Maps a term to another, if the values of its variables allow it.
pub(crate) fn match_terms(
    alloc: Global,
    from: &Term,
    to: &Term,
    given: Partial,
) -> Result<Option<Partial>, AllocError>
    ensures { IfOk result (FindsMaps (λ f. apply_to f.terms from.now ≡ to.now) (partial_view given)) }
{
    match matching_beside(alloc, from, to, given.values)? {
        Some(values) => Ok(Some(Partial {
            placements: given.placements,
            values,
        })),
        None => Ok(None),
    }
}

impl Partial {
    /// The empty partial map.
    pub(crate) fn new(alloc: Global) -> Partial
        ensures { partial_view result ≡ nothing }
    {
        Partial {
            placements: Vec::new(alloc),
            values: Subst::new(alloc),
        }
    }

    /// A copy of the partial map.
    pub(crate) fn copy(&self, alloc: Global) -> Result<Partial, AllocError>
        ensures { IfOk result (λ p. partial_view p ≡ partial_view self.now) }
    {
        let placements = Vec::from_slice(alloc, &self.placements)?;
        self.values
            .copy(alloc)
            .map(|values| Partial { placements, values })
    }

    /// The total map: what the partial map does not determine stays as it is.
    pub(crate) fn into_map(self, alloc: Global) -> Result<Map, AllocError>
        ensures { IfOk result (λ m. map_view m ≡ map_of (partial_view self)) }
    {
        let strands = images(alloc, &self.placements)?;
        Ok(Map {
            strands,
            values: self.values,
        })
    }
}
