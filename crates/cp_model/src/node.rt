// Nodes, and pairs of them.

/// A node: the number of a strand, and the index of an event on it, both from 0.
#[derive(Clone, Copy, Debug, Default, PartialEq, Eq)]
pub struct Node {
    pub strand: usize,
    pub index: usize,
}

/// A pair of the order: the earlier node comes before the later one. In a skeleton these are a transmission and a reception of
/// different strands.
#[derive(Clone, Copy, Debug, PartialEq, Eq)]
pub struct OrderPair {
    pub earlier: Node,
    pub later: Node,
}
