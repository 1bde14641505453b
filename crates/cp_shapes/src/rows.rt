// For each candidate, the candidates of which it is an instance.
ghost use Rattle.std.specs.Prelude.{◌≡◌, ◌↔◌, ◌<◌, length, map, IsTrue, IfOk};
ghost use Rattle.cp_fingerprint.specs.Signatures.{signature_of};
ghost use Rattle.cp_shapes.specs.Shapes.{IsInstanceWithin};
ghost use Rattle.cp_shapes.specs.Rows.{IsRowOf, AreEmbeddingRowsOf, rows_view};

use cp_fingerprint::Signature;
use cp_hom::embed;
use cp_skel::Skeleton;
use std::alloc::{AllocError, Global};

/// The signatures of the candidates.
fn signatures(alloc: Global, candidates: &[&Skeleton]) -> Result<Vec<Signature>, AllocError>
    ensures { IfOk result (λ signatures. signatures.items ≡ map (λ k. signature_of k.now) candidates.now) }
{
    candidates
        .iter()
        .map(|candidate| Signature::of(alloc, candidate))
        .try_collect(alloc)
}

/// Whether a candidate is an instance of another: `shape` embeds in `instance`, and either `instance` does not embed in `shape`
/// or `shape` comes first.
fn is_instance(
    alloc: Global,
    candidates: &[&Skeleton],
    instance: usize,
    shape: usize,
) -> Result<bool, AllocError>
    requires instance_within { instance < length candidates.now }
    requires shape_within { shape < length candidates.now }
    ensures { IfOk result (λ flag. IsTrue flag ↔ IsInstanceWithin (map (λ k. k.now) candidates.now) instance shape) }
{
    if shape == instance {
        return Ok(false);
    }
    if embed(alloc, candidates[shape], candidates[instance])?.is_none() {
        return Ok(false);
    }
    if shape < instance {
        return Ok(true);
    }
    let back = embed(alloc, candidates[instance], candidates[shape])?;
    Ok(back.is_none())
}

/// The candidates of which this one is an instance, in order.
fn row_of(
    alloc: Global,
    candidates: &[&Skeleton],
    signatures: &[Signature],
    instance: usize,
) -> Result<Vec<usize>, AllocError>
    requires signatures { signatures.now ≡ map (λ k. signature_of k.now) candidates.now }
    requires within { instance < length candidates.now }
    ensures { IfOk result (λ row. IsRowOf (map (λ k. k.now) candidates.now) instance row.items) }
{
    let own = &signatures[instance];
    let mut row = Vec::new(alloc);
    for shape in 0..candidates.len() {
        if !signatures[shape].may_embed(own) {
            continue;
        }
        if !is_instance(alloc, candidates, instance, shape)? {
            continue;
        }
        row.push(shape)?;
    }
    Ok(row)
}

/// For each candidate, the candidates of which it is an instance, in order.
pub(crate) fn rows(alloc: Global, candidates: &[&Skeleton]) -> Result<Vec<Vec<usize>>, AllocError>
    ensures { IfOk result (λ rows. AreEmbeddingRowsOf (map (λ k. k.now) candidates.now) (rows_view rows.items)) }
{
    let signatures = signatures(alloc, candidates)?;
    let mut rows = Vec::new(alloc);
    for instance in 0..candidates.len() {
        rows.push(row_of(alloc, candidates, &signatures, instance)?)?;
    }
    Ok(rows)
}
