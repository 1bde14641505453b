// The pairs of a skeleton once a strand is gone.
ghost use Rattle.std.specs.Prelude.{◌≡◌, ◌++◌, map, IfOk, OnOk};
ghost use Rattle.cp_skel.specs.Deletion.{pair_renumbered, IsPairOn, LeavesOut};
ghost use Rattle.cp_skel.specs.Bridges.{is_through, bridge, bridges_from, bridges, IsWithoutStrand};

use crate::new_numbers::{left_without, node_renumbered};
use crate::skeleton::OrderPair;
use std::alloc::{AllocError, Global};

/// Whether the first pair leads to the strand, and the second from there on to a strand other than the one on which the
/// first begins.
fn is_through(gone: usize, into: OrderPair, out: OrderPair) -> bool
    ensures { result ≡ is_through gone into out }
{
    into.later.strand == gone
        && out.earlier.strand == gone
        && into.later.index <= out.earlier.index
        && into.earlier.strand != out.later.strand
}

/// The pair from the node at which the first begins to the node at which the second ends.
fn bridge(gone: usize, into: OrderPair, out: OrderPair) -> OrderPair
    ensures { result ≡ bridge gone into out }
{
    OrderPair {
        earlier: node_renumbered(gone, into.earlier),
        later: node_renumbered(gone, out.later),
    }
}

/// Appends the pairs through the strand that begin with this one.
fn add_bridges_from(
    gone: usize,
    into: OrderPair,
    pairs: &[OrderPair],
    found: &mut Vec<OrderPair>,
) -> Result<(), AllocError>
    ensures { OnOk result (found.new.items
        ≡ found.old.items ++ bridges_from gone into pairs.now) }
{
    for out in pairs {
        if !is_through(gone, into, *out) {
            continue;
        }
        found.push(bridge(gone, into, *out))?;
    }
    Ok(())
}

/// Appends the pairs through the strand.
fn add_bridges(
    gone: usize,
    pairs: &[OrderPair],
    found: &mut Vec<OrderPair>,
) -> Result<(), AllocError>
    ensures { OnOk result (found.new.items
        ≡ found.old.items ++ bridges gone pairs.now pairs.now) }
{
    for into in pairs {
        add_bridges_from(gone, *into, pairs, found)?;
    }
    Ok(())
}

/// Pairs that order the nodes of the other strands as before: those without a node on the strand, and one for each two
/// that lead through it.
pub(crate) fn pairs_without(
    alloc: Global,
    gone: usize,
    pairs: &[OrderPair],
) -> Result<Vec<OrderPair>, AllocError>
    ensures { IfOk result (λ v. IsWithoutStrand gone pairs.now v.items) }
{
    let mut found = left_without(alloc, gone, pairs)?;
    add_bridges(gone, pairs, &mut found)?;
    Ok(found)
}
