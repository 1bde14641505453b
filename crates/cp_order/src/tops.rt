// The greatest indices of nodes on strands.
ghost use Rattle.std.specs.Prelude.{◌≡◌, ◌==◌, ◌<◌, ℕ, None, Some, if◌then◌else◌, OnOk};
ghost use Rattle.cp_model.specs.declared.node.Node.{Node};
ghost use Rattle.cp_order.specs.PredecessorNodes.{tops_of, tops_at, tops_in, is_within, is_under_tops};

use cp_model::Node;
use smallvec::SmallVec;
use std::alloc::{AllocError, Global};
use std::collections::HashMap;

/// Whether an index is at the top of its strand or before it.
pub(crate) fn is_within(top: Option<usize>, index: usize) -> bool
    ensures { result ≡ is_within top index }
{
    match top {
        Some(top) => index <= top,
        None => false,
    }
}

/// Whether a node is at the top of its strand or before it.
pub(crate) fn is_below(tops: &HashMap<usize, usize>, node: Node) -> bool
    ensures { result ≡ is_under_tops (tops_of tops.now) node }
{
    is_within(tops.get(&node.strand).copied(), node.index)
}

/// The tops of strands below this number are kept in a list.
const LISTED: usize = 64;

/// For each strand the greatest known index, if any: for low strands in a list, at the strand's place, for high ones in
/// a map, since unchecked pairs can state any number.
#[derive(Drop)]
pub(crate) struct Tops {
    low: SmallVec<Option<usize>, 8>,
    high: HashMap<usize, usize>,
}

/// The top of a strand, in a list of tops by strand.
fn top_at(tops: &[Option<usize>], strand: usize) -> Option<usize>
    ensures { result ≡ tops_at tops.now strand }
{
    match tops.get(strand) {
        Some(top) => *top,
        None => None,
    }
}

/// Sets the top of a node's strand to the node, in a list of tops by strand.
fn put_at(tops: &mut SmallVec<Option<usize>, 8>, node: Node) -> Result<(), AllocError>
    ensures { OnOk result ((s : ℕ) → tops_at tops.new.items s ≡ (if s == node.strand then Some node.index else tops_at tops.old.items s)) }
{
    while tops.len() <= node.strand {
        tops.push(None)?;
    }
    tops.as_mut_slice()[node.strand] = Some(node.index);
    Ok(())
}

impl Tops {
    /// No strand has a top.
    pub(crate) fn new(alloc: Global) -> Tops
        ensures { (s : ℕ) → tops_in result s ≡ None }
    {
        Tops {
            low: SmallVec::from_buf(alloc, [None; 8]),
            high: HashMap::new(alloc),
        }
    }

    /// The top of a strand, if it has one.
    pub(crate) fn top(&self, strand: usize) -> Option<usize>
        ensures { result ≡ tops_in self.now strand }
    {
        if strand < LISTED {
            return top_at(self.low.as_slice(), strand);
        }
        self.high.get(&strand).copied()
    }

    /// Sets the top of a node's strand to the node.
    pub(crate) fn put(&mut self, node: Node) -> Result<(), AllocError>
        ensures { OnOk result ((s : ℕ) → tops_in self.new s ≡ (if s == node.strand then Some node.index else tops_in self.old s)) }
    {
        if node.strand < LISTED {
            return put_at(&mut self.low, node);
        }
        self.high.insert(node.strand, node.index)?;
        Ok(())
    }
}
