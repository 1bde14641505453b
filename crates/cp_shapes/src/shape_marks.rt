// Tells shapes from instances.
ghost use Rattle.std.specs.Prelude.{◌≡◌, ℕ, List, map, IfOk};
ghost use Rattle.cp_lists.specs.Lists.{item_at};
ghost use Rattle.cp_model.specs.Skeleton as model;
ghost use Rattle.cp_shapes.specs.Shapes.{FindsLeast, IsInstanceOfShape, AreShapeMarksOf};
ghost use Rattle.cp_shapes.specs.Rows.{IsRowOf, AreEmbeddingRowsOf, is_empty_row, rows_view};

use crate::rows::rows;
use cp_skel::Skeleton;
use std::alloc::{AllocError, Global};

/// Whether a candidate is an instance of no other.
fn is_shape(rows: &[Vec<usize>], candidate: usize) -> bool
    ensures { result ≡ is_empty_row (item_at (rows_view rows.now) candidate) }
{
    match rows.get(candidate) {
        Some(row) => row.is_empty(),
        None => false,
    }
}

/// The first shape of which the candidate with this row is an instance.
fn first_shape(rows: &[Vec<usize>], row: &[usize]) -> Option<usize>
    ensures { (ks : List model.Skeleton) (m : ℕ) → AreEmbeddingRowsOf ks (rows_view rows.now) → IsRowOf ks m row.now → FindsLeast (IsInstanceOfShape ks m) result }
{
    for candidate in row {
        if is_shape(rows, *candidate) {
            return Some(*candidate);
        }
    }
    None
}

/// For each candidate the index of the first shape of which it is an instance; `None` exactly if it is a shape itself. A
/// candidate is an instance of another that embeds in it, unless it embeds in that one too and comes first.
pub fn shapes(alloc: Global, candidates: &[&Skeleton]) -> Result<Vec<Option<usize>>, AllocError>
    ensures exact { IfOk result (λ marks. AreShapeMarksOf (map (λ k. k.now) candidates.now) marks.items) }
{
    let rows = rows(alloc, candidates)?;
    let mut marks = Vec::new(alloc);
    for row in &rows {
        marks.push(first_shape(&rows, row))?;
    }
    Ok(marks)
}
