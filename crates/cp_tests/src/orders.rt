// Orders of the nodes of three strands, worked out by hand.
use cp_model::{Node, OrderPair};
use cp_order::Order;
use std::alloc::{AllocError, Global};
use std::test::Fail;

fn node(strand: usize, index: usize) -> Node {
    Node { strand, index }
}

fn pair(earlier: Node, later: Node) -> OrderPair {
    OrderPair { earlier, later }
}

/// The four pairs.
fn pairs() -> [OrderPair; 4] {
    [
        pair(node(2, 1), node(1, 2)),
        pair(node(1, 1), node(0, 1)),
        pair(node(0, 2), node(2, 0)),
        pair(node(0, 0), node(1, 0)),
    ]
}

// A node, its predecessors by the four pairs, and some nodes that are none.
const ROWS: &[((usize, usize), &[(usize, usize)], &[(usize, usize)])] = &[
    (
        (1, 2),
        &[(1, 0), (1, 1), (1, 2), (2, 0), (2, 1), (0, 0), (0, 2)],
        &[(1, 3), (2, 2), (0, 3), (3, 0)],
    ),
    ((1, 1), &[(1, 0), (1, 1), (0, 0)], &[(1, 2), (0, 1), (2, 0)]),
];

/// Whether all of these nodes reach the node, or none does, as wanted.
fn lead(order: &Order, nodes: &[(usize, usize)], to: Node, wanted: bool) -> bool {
    for &(strand, index) in nodes {
        if order.reaches(node(strand, index), to) != wanted {
            return false;
        }
    }
    true
}

/// Whether the order answers as worked out for the four pairs.
fn is_as_worked_out(order: &Order) -> bool {
    for &((strand, index), before, others) in ROWS {
        let to = node(strand, index);
        if !lead(order, before, to, true) || !lead(order, others, to, false) {
            return false;
        }
    }
    true
}

/// Whether the order could be made and answers as worked out.
fn is_right(order: Result<Order, AllocError>) -> bool {
    match order {
        Ok(order) => is_as_worked_out(&order),
        Err(_) => false,
    }
}

/// The order by the four pairs.
fn given(alloc: Global) -> Result<Order, AllocError> {
    Ok(Order::of(pairs().to_vec(alloc)?))
}

/// The order after it is closed.
fn closed(alloc: Global, mut order: Order) -> Result<Order, AllocError> {
    order.close(alloc)?;
    Ok(order)
}

/// An order without pairs, closed.
fn empty(alloc: Global) -> Result<Order, AllocError> {
    closed(alloc, Order::of(Vec::new(alloc)))
}

/// The order by the four pairs, closed after they were given.
fn closed_after(alloc: Global) -> Result<Order, AllocError> {
    closed(alloc, given(alloc)?)
}

/// The closed order with the four pairs in place of none.
fn replaced(alloc: Global) -> Result<Order, AllocError> {
    empty(alloc)?.with_pairs(alloc, pairs().to_vec(alloc)?)
}

/// The closed order to which the four pairs were added, one after the other.
fn grown(alloc: Global) -> Result<Order, AllocError> {
    let mut order = empty(alloc)?;
    for pair in pairs() {
        order.add(alloc, pair)?;
    }
    Ok(order)
}

#[test]
fn orders(rt: HostRuntime) {
    assert!(rt; is_right(given(rt.alloc())) && is_right(closed_after(rt.alloc())));
    assert!(rt; is_right(replaced(rt.alloc())) && is_right(grown(rt.alloc())));
}

/// A closed order of 41 strands, with two pairs from each to the next.
fn doubled(alloc: Global) -> Result<Order, AllocError> {
    let mut order = empty(alloc)?;
    for strand in 0..40 {
        let next = pair(node(strand, 1), node(strand + 1, 0));
        order.add(alloc, next)?;
        order.add(alloc, next)?;
    }
    order.copy(alloc)
}

// To try each of the ways through so many strands would never end.
#[test]
fn many_ways_through_a_closed_order(rt: HostRuntime) -> Result<(), Fail> {
    let order = doubled(rt.alloc())?;
    assert!(rt; order.pairs().len() == 80);
    assert!(rt; order.reaches(node(0, 0), node(40, 0)) && !order.reaches(node(0, 0), node(50, 0)));
    Ok(())
}
