// Embeddings of skeletons.
ghost use Rattle.std.specs.Prelude.{◌↔◌, IsTrue, IfOk, IfSome, IfNone};
ghost use Rattle.cp_model.specs.Homomorphism.{SkeletonMap, IsEmbedding};
ghost use Rattle.cp_fingerprint.specs.Isomorphic.{IsIsomorphic};
ghost use Rattle.cp_hom.specs.Maps.{map_view};

use crate::first_choices::embed_at_once;
use crate::from_problem::start;
use crate::items::items;
use crate::known::has_no_choice;
use crate::search::search;
use crate::strand_map::Map;
use cp_skel::Skeleton;
use std::alloc::{AllocError, Global};

/// An embedding of `a` in `b` over the problem; `None` exactly if there is none. Strands are first tried where an embedding of `b`
/// in `a` with these images leads back.
fn embed_along(
    alloc: Global,
    a: &Skeleton,
    b: &Skeleton,
    images: &[usize],
) -> Result<Option<Map>, AllocError>
    ensures some { IfOk result (λ found. IfSome found (λ f. IsEmbedding a.now b.now (map_view f))) }
    ensures none { IfOk result (λ found. IfNone found ((f : SkeletonMap) → IsEmbedding a.now b.now f → ⊥)) }
{
    let Some(given) = start(alloc, a, b)? else {
        return Ok(None);
    };
    a.is_sound();
    b.is_sound();
    if let Some(found) = embed_at_once(alloc, a, b, images, &given)? {
        return Ok(Some(found));
    }
    if has_no_choice(a, b, &given) {
        return Ok(None);
    }
    let items = items(alloc, a)?;
    search(alloc, a, b, &items, given)
}

/// An embedding of `a` in `b` over the problem; `None` exactly if there is none.
pub fn embed(alloc: Global, a: &Skeleton, b: &Skeleton) -> Result<Option<Map>, AllocError>
    ensures some { IfOk result (λ found. IfSome found (λ f. IsEmbedding a.now b.now (map_view f))) }
    ensures none { IfOk result (λ found. IfNone found ((f : SkeletonMap) → IsEmbedding a.now b.now f → ⊥)) }
{
    embed_along(alloc, a, b, &[])
}

/// Whether each of two skeletons embeds in the other.
pub fn isomorphic(alloc: Global, a: &Skeleton, b: &Skeleton) -> Result<bool, AllocError>
    ensures exact { IfOk result (λ same. IsTrue same ↔ IsIsomorphic a.now b.now) }
{
    let Some(found) = embed(alloc, a, b)? else {
        return Ok(false);
    };
    embed_along(alloc, b, a, &found.strands).map(|back| back.is_some())
}
