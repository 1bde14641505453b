// Reads a partition off the places of merged strands.
ghost use Rattle.std.specs.Prelude.{◌≡◌, IfOk};
ghost use Rattle.cp_fingerprint.specs.FirstPlaces.{firsts};

use cp_fingerprint::first_of;
use std::alloc::{AllocError, Global};

/// The partition that merges the strands with equal places: for each strand, the first strand with its place.
pub(crate) fn partition_of(alloc: Global, places: &[usize]) -> Result<Vec<usize>, AllocError>
    ensures { IfOk result (λ p. p.items ≡ firsts places.now) }
{
    places
        .iter()
        .map(|place| first_of(places, *place))
        .collect(alloc)
}
