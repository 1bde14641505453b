// Ranks of the nodes at which pairs begin and end: a topological sort of these nodes along the pairs and the strands.
// Nothing is promised of the ranks: their users check what they need.
ghost use Rattle.std.specs.Prelude.{◌≡◌, length, IfOk, IfSome};

use cp_skel::{Node, OrderPair};
use std::alloc::{AllocError, Global};

/// A node at which the pair with a number begins or ends.
#[derive(Clone, Copy)]
struct End {
    node: Node,
    pair: usize,
    is_later: bool,
}

/// An edge between two nodes. The number of a node is the place of its first end.
#[derive(Clone, Copy)]
struct Edge {
    from: usize,
    to: usize,
}

/// The ends of the pairs, strand by strand, by their indices.
fn ends_of(alloc: Global, pairs: &[OrderPair]) -> Result<Vec<End>, AllocError> {
    let mut ends: Vec<End> = pairs
        .iter()
        .enumerate()
        .flat_map(|(pair, nodes)| {
            let earlier = End {
                node: nodes.earlier,
                pair,
                is_later: false,
            };
            let later = End {
                node: nodes.later,
                pair,
                is_later: true,
            };
            [earlier, later]
        })
        .collect(alloc)?;
    ends.sort_by_key(|end| (end.node.strand, end.node.index))?;
    Ok(ends)
}

/// Sets the number of a node in the edge of a pair that begins or ends there.
fn set_end(edges: &mut [Edge], end: End, number: usize) {
    if let Some(edge) = edges.get_mut(end.pair) {
        if end.is_later {
            edge.to = number;
        } else {
            edge.from = number;
        }
    }
}

/// The edges of so many pairs with these ends, pair by pair, then those along the strands.
fn edges_of(alloc: Global, count: usize, ends: &[End]) -> Result<Vec<Edge>, AllocError> {
    let mut edges = vec![in alloc; Edge { from: 0, to: 0 }; count]?;
    let Some(first) = ends.first() else {
        return Ok(edges);
    };
    let mut node = first.node;
    let mut number = 0;
    for (place, end) in ends.iter().enumerate() {
        if end.node != node {
            if end.node.strand == node.strand {
                edges.push(Edge {
                    from: number,
                    to: place,
                })?;
            }
            node = end.node;
            number = place;
        }
        set_end(&mut edges, *end, number);
    }
    Ok(edges)
}

/// The edges that lead from a node, among edges in the order of the nodes from which they lead.
fn edges_from(edges: &[Edge], number: usize) -> &[Edge] {
    let start = edges.partition_point(|edge| edge.from < number);
    let end = edges.partition_point(|edge| edge.from <= number);
    edges.get(start..end).unwrap_or(&[])
}

/// For each of so many nodes, how many edges lead to it.
fn counts_to(alloc: Global, count: usize, edges: &[Edge]) -> Result<Vec<usize>, AllocError> {
    let mut counts: Vec<usize> = vec![in alloc; 0; count]?;
    for edge in edges {
        if let Some(count) = counts.get_mut(edge.to) {
            *count = count.saturating_add(1);
        }
    }
    Ok(counts)
}

/// Counts one edge less to each node to which these lead; those with none left become ready.
fn release(
    edges: &[Edge],
    waiting: &mut [usize],
    ready: &mut Vec<usize>,
) -> Result<(), AllocError> {
    for edge in edges {
        if let Some(count) = waiting.get_mut(edge.to) {
            *count = count.saturating_sub(1);
            if *count == 0 {
                ready.push(edge.to)?;
            }
        }
    }
    Ok(())
}

/// The ranks of so many nodes, which rise along the edges between them; `None` if there is a cycle.
fn ranks_in(
    alloc: Global,
    count: usize,
    mut edges: Vec<Edge>,
) -> Result<Option<Vec<usize>>, AllocError> {
    edges.sort_by_key(|edge| edge.from)?;
    let mut waiting = counts_to(alloc, count, &edges)?;
    let mut ready: Vec<usize> = waiting
        .iter()
        .enumerate()
        .filter(|(_, count)| **count == 0)
        .map(|(number, _)| number)
        .collect(alloc)?;
    let mut ranks = vec![in alloc; 0; count]?;
    for rank in 0..count {
        let Some(number) = ready.pop() else {
            return Ok(None);
        };
        if let Some(entry) = ranks.get_mut(number) {
            *entry = rank;
        }
        release(edges_from(&edges, number), &mut waiting, &mut ready)?;
    }
    Ok(Some(ranks))
}

/// The rank of the node with the number at this place.
fn rank_at(numbers: &[usize], ranks: &[usize], place: usize) -> usize {
    match numbers.get(place) {
        Some(number) => ranks.get(*number).copied().unwrap_or(0),
        None => 0,
    }
}

/// For each pair the rank of its earlier node; `None` if there is a cycle. The contract promises only that each pair
/// has a rank.
pub(crate) fn ranks_of(alloc: Global, pairs: &[OrderPair]) -> Result<Option<Vec<usize>>, AllocError>
    ensures { IfOk result (λ o. IfSome o (λ ranks. length ranks.items ≡ length pairs.now)) }
{
    let ends = ends_of(alloc, pairs)?;
    let edges = edges_of(alloc, pairs.len(), &ends)?;
    let numbers: Vec<usize> = edges.iter().map(|edge| edge.from).collect(alloc)?;
    let Some(ranks) = ranks_in(alloc, ends.len(), edges)? else {
        return Ok(None);
    };
    (0..pairs.len())
        .map(|place| rank_at(&numbers, &ranks, place))
        .collect(alloc)
        .map(Some)
}
