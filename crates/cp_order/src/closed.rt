// Closed pairs, and what reaches each node along them, for look-ups.
ghost use Rattle.std.specs.Prelude.{◌≡◌, ◌≤◌, ◌↔◌, ◌∷◌, length, map, IsTrue, IfOk};
ghost use Rattle.std.specs.List.{filter};
ghost use Rattle.cp_lists.specs.Lists.{IsIn};
ghost use Rattle.cp_model.specs.declared.node.OrderPair.{OrderPair};
ghost use Rattle.cp_model.specs.Order.{ReachesAlong};
ghost use Rattle.cp_model.specs.OrderTests.{any_pair};
ghost use Rattle.cp_order.specs.Closed.{IsTransitive, IsClosureOf};
ghost use Rattle.cp_order.specs.PredecessorNodes.{tops_of};
ghost use Rattle.cp_order.specs.Rows.{AreTopsAlongOne, AreRows, AreRowsOn, AreRowsOf, rows_by, is_in_rows, ends_at, ends_on};

use crate::closure::{closed_pairs, with_pair};
use crate::predecessors::is_at_or_before;
use crate::tops::is_below;
use cp_model::{Node, OrderPair};
use std::alloc::{AllocError, Global};
use std::collections::HashMap;
use std::marker::Model;
use std::rc::Rc;

/// Closed pairs, and for each node of the strands on which they end what reaches it along one of them.
#[derive(Drop)]
pub(crate) struct ClosedPairs {
    pairs: Vec<OrderPair>,
    /// For each strand on which a pair ends, and each of its indices up to the last such end: the greatest index on
    /// each strand from which a pair leads there. Indices between two ends share a row; past the last end the last row
    /// holds.
    rows: HashMap<usize, Vec<Rc<HashMap<usize, usize>>>>,
}

impl Model for ClosedPairs {
    ghost use Rattle.std.specs.Prelude.{List};
    ghost use Rattle.cp_model.specs.declared.node.OrderPair.{OrderPair as Plain};

    ghost Value = { List Plain };

    ghost use Rattle.std.specs.Prelude.{map};
    ghost use Rattle.cp_order.specs.Closed.{IsTransitive};
    ghost use Rattle.cp_order.specs.PredecessorNodes.{tops_of};
    ghost use Rattle.cp_order.specs.Rows.{AreRowsOf, rows_by};

    ghost view = { λ c. c.pairs.items };

    ghost invariant = { λ c. IsTransitive c.pairs.items × AreRowsOf c.pairs.items (rows_by c.rows (λ v. map (λ r. tops_of r.value) v.items)) };
}

/// What reaches a node along one of the pairs: for each strand the greatest index of such a node.
fn row_to(
    alloc: Global,
    pairs: &[OrderPair],
    node: Node,
) -> Result<HashMap<usize, usize>, AllocError>
    ensures { IfOk result (λ row. AreTopsAlongOne pairs.now node (tops_of row)) }
{
    let mut row = HashMap::new(alloc);
    for pair in pairs {
        if !is_at_or_before(pair.later, node) || is_below(&row, pair.earlier) {
            continue;
        }
        row.insert(pair.earlier.strand, pair.earlier.index)?;
    }
    Ok(row)
}

/// Whether one of the pairs ends at a node.
fn some_ends_at(pairs: &[OrderPair], node: Node) -> bool
    ensures { result ≡ any_pair (ends_at node) pairs.now }
{
    for pair in pairs {
        if pair.later.strand == node.strand && pair.later.index == node.index {
            return true;
        }
    }
    false
}

/// The row for the first index of a strand that has none. If no pair ends there, it is the one before.
fn next_row(
    alloc: Global,
    pairs: &[OrderPair],
    strand: usize,
    rows: &[Rc<HashMap<usize, usize>>],
) -> Result<Rc<HashMap<usize, usize>>, AllocError>
    requires { AreRows pairs.now strand (map (λ r. tops_of r.value) rows.now) }
    ensures { IfOk result (λ row. AreTopsAlongOne pairs.now (record { strand = strand; index = length rows.now }) (tops_of row.value)) }
{
    let node = Node {
        strand,
        index: rows.len(),
    };
    if let Some(row) = rows.last() {
        if !some_ends_at(pairs, node) {
            return row.clone();
        }
    }
    let row = row_to(alloc, pairs, node)?;
    Rc::new(alloc, row).map_err(AllocError::from)
}

/// The greatest index of a strand at which one of the pairs ends, or 0.
fn last_end(pairs: &[OrderPair], strand: usize) -> usize
    ensures { (p : OrderPair) → IsIn p pairs.now → p.later.strand ≡ strand → p.later.index ≤ result }
{
    let mut last = 0;
    for pair in pairs {
        if pair.later.strand != strand || pair.later.index <= last {
            continue;
        }
        last = pair.later.index;
    }
    last
}

/// The rows of a strand, up to the last index at which a pair ends.
fn rows_on(
    alloc: Global,
    pairs: &[OrderPair],
    strand: usize,
) -> Result<Vec<Rc<HashMap<usize, usize>>>, AllocError>
    ensures { IfOk result (λ v. AreRowsOn pairs.now strand (map (λ r. tops_of r.value) v.items)) }
{
    let last = last_end(pairs, strand);
    let mut rows = Vec::new(alloc);
    while rows.len() <= last {
        let row = next_row(alloc, pairs, strand, &rows)?;
        rows.push(row)?;
    }
    Ok(rows)
}

/// The pairs that end on a strand.
fn ends_on(alloc: Global, pairs: &[OrderPair], strand: usize) -> Result<Vec<OrderPair>, AllocError>
    ensures { IfOk result (λ v. v.items ≡ filter (ends_on strand) pairs.now) }
{
    pairs
        .iter()
        .copied()
        .filter(|pair| pair.later.strand == strand)
        .collect(alloc)
}

/// The rows of each strand on which a pair ends.
fn rows_of(
    alloc: Global,
    pairs: &[OrderPair],
) -> Result<HashMap<usize, Vec<Rc<HashMap<usize, usize>>>>, AllocError>
    ensures { IfOk result (λ m. AreRowsOf pairs.now (rows_by m (λ v. map (λ r. tops_of r.value) v.items))) }
{
    let mut rows = HashMap::new(alloc);
    for pair in pairs {
        let strand = pair.later.strand;
        if rows.contains_key(&strand) {
            continue;
        }
        let ends = ends_on(alloc, pairs, strand)?;
        let on_strand = rows_on(alloc, &ends, strand)?;
        rows.insert(strand, on_strand)?;
    }
    Ok(rows)
}

/// Whether a node is in the row for an index, or in the last row if the index has none.
fn is_in_rows(rows: &[Rc<HashMap<usize, usize>>], index: usize, node: Node) -> bool
    ensures { result ≡ is_in_rows (map (λ r. tops_of r.value) rows.now) index node }
{
    match rows.get(index) {
        Some(row) => is_below(row, node),
        None => match rows.last() {
            Some(row) => is_below(row, node),
            None => false,
        },
    }
}

impl ClosedPairs {
    /// Keeps these pairs, which must be closed.
    fn new(alloc: Global, pairs: Vec<OrderPair>) -> Result<Rc<ClosedPairs>, AllocError>
        requires { IsTransitive pairs.items }
        ensures { IfOk result (λ c. c.value ≡ pairs.items) }
    {
        let rows = rows_of(alloc, &pairs)?;
        let closed = ClosedPairs { pairs, rows };
        Rc::new(alloc, closed).map_err(AllocError::from)
    }

    /// Closed pairs with the same order as these.
    pub(crate) fn of(alloc: Global, pairs: &[OrderPair]) -> Result<Rc<ClosedPairs>, AllocError>
        ensures { IfOk result (λ c. IsClosureOf pairs.now c.value) }
    {
        let closed = closed_pairs(alloc, pairs)?;
        ClosedPairs::new(alloc, closed)
    }

    /// Closed pairs with the same order as these and one more.
    pub(crate) fn with_pair(
        &self,
        alloc: Global,
        pair: OrderPair,
    ) -> Result<Rc<ClosedPairs>, AllocError>
        ensures { IfOk result (λ c. IsClosureOf (pair ∷ self.now) c.value) }
    {
        let closed = with_pair(alloc, &self.pairs, pair)?;
        ClosedPairs::new(alloc, closed)
    }

    /// The pairs.
    pub(crate) fn pairs(&self) -> &[OrderPair]
        ensures { result.now ≡ self.now }
    {
        &self.pairs
    }

    /// Whether x reaches y along strands and the pairs.
    pub(crate) fn reaches(&self, x: Node, y: Node) -> bool
        ensures { IsTrue result ↔ ReachesAlong self.now x y }
    {
        if is_at_or_before(x, y) {
            return true;
        }
        match self.rows.get(&y.strand) {
            Some(rows) => is_in_rows(rows, y.index, x),
            None => false,
        }
    }
}
