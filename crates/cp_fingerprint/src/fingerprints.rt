// Fingerprints tell skeletons apart that cannot embed in each other by their role strands alone.
ghost use Rattle.std.specs.Prelude.{◌≡◌, ◌↔◌, List, IsTrue, IfOk};
ghost use Rattle.cp_model.specs.Strand.{Protocol};
ghost use Rattle.cp_model.specs.Skeleton as model;
ghost use Rattle.cp_model.specs.Homomorphism.{Embeds};
ghost use Rattle.cp_fingerprint.specs.Fingerprints.{fingerprint_of, HaveNoMore};
ghost use Rattle.cp_fingerprint.specs.Isomorphic.{IsIsomorphic};
ghost use Rattle.cp_fingerprint.specs.RolePlaces.{PlaceHeight, HasDistinctNames, IsPlaceList, by_places, HaveNoMorePlaces};

use crate::heights::{compare, find_in_turn, heights_of};
use crate::sorted_heights::Fingerprint;
use cp_skel::Skeleton;
use std::alloc::{AllocError, Global};

/// The fingerprint of a skeleton.
pub fn fingerprint(alloc: Global, k: &Skeleton) -> Result<Fingerprint, AllocError>
    ensures exact { IfOk result (λ f. f ≡ fingerprint_of k.now) }
{
    k.is_sound();
    let mut entries = heights_of(alloc, k.strands())?;
    entries.sort_unstable_by(compare);
    Ok(Fingerprint { entries })
}

/// Fast test: whether, for each role and each height from 1, `a` has no more strands of that role and that height or more than
/// `b`. If not, no skeleton with the first fingerprint embeds in one with the second. It goes once through both lists.
pub fn may_embed(a: &Fingerprint, b: &Fingerprint) -> bool
    ensures exact { IsTrue result ↔ HaveNoMore a.now b.now }
{
    find_in_turn(&a.entries, &b.entries)
}

/// A skeleton that embeds in another has, of each role and each height, no more strands of that height or more; isomorphic
/// skeletons have one fingerprint. Over a protocol whose roles have distinct names the places of the roles may stand for their
/// names: so turned and sorted, a fingerprint is the sorted list of the places of the roles and the heights of the role strands,
/// and such lists compare as fingerprints do.
pub fn fingerprints_are_kept()
    ensures embeds { (a b : model.Skeleton) → Embeds a b → HaveNoMore (fingerprint_of a) (fingerprint_of b) }
    ensures isomorphic { (a b : model.Skeleton) → IsIsomorphic a b → fingerprint_of a ≡ fingerprint_of b }
    ensures places { (protocol : Protocol) (k : model.Skeleton) (xs : List PlaceHeight) → HasDistinctNames protocol → model.IsSkeleton protocol k
        → (IsPlaceList protocol k xs ↔ (xs ≡ by_places protocol (fingerprint_of k))) }
    ensures places_tell { (protocol : Protocol) (a b : model.Skeleton) (xs ys : List PlaceHeight) → HasDistinctNames protocol → IsPlaceList protocol a xs → IsPlaceList protocol b ys
        → (HaveNoMore (fingerprint_of a) (fingerprint_of b) ↔ HaveNoMorePlaces xs ys) }
{}
