// Derivation trees: their labels, how these were made, their tests and marks; how a search ended, and its limits.
use crate::lists::{Nodes, Numbers};
use crate::node::Node;

/// The limits of a search: at most `steps` labels are expanded, and only labels with at most `strands` strands,
/// listeners included.
#[derive(Clone, Copy, Debug, PartialEq, Eq)]
pub struct Limits {
    pub steps: u32,
    pub strands: u32,
}

/// How a label was made. Strands and nodes are those of the label's own skeleton.
#[derive(Drop)]
pub enum Operation {
    /// The problem itself, in normal form.
    Problem,
    /// Strands of the problem were identified: for each strand, the lowest with which it is identified.
    Collapsed(Numbers),
    /// The transmission at this node now carries the critical term.
    Contracted(Node),
    /// The transmission at this node was put before the test's node.
    Displaced(Node),
    /// A strand of a role was added; it has this number.
    AddedStrand(usize),
    /// A listener was added; it has this number.
    AddedListener(usize),
    /// A realised label was generalised.
    Generalised,
}

/// An authentication test: a reception, and the component of its message that cannot be derived (Doghmi, Guttman and
/// Thayer, TACAS 2007).
#[derive(Drop)]
pub struct Test<T: Drop> {
    pub node: Node,
    pub critical: T,
}

/// What a leaf is.
#[derive(Clone, Copy, Debug, PartialEq, Eq)]
pub enum Mark {
    Shape,
    Dead,
    /// Isomorphic to this earlier label.
    Seen(usize),
    /// The shape with this number embeds in it.
    InstanceOf(usize),
    LimitSteps,
    LimitStrands,
}

/// How the search for a problem ended.
#[derive(Clone, Copy, Debug, PartialEq, Eq)]
pub enum Outcome {
    Complete,
    LimitSteps,
    LimitStrands,
}

/// One label of a tree: a skeleton, how it was made and from which label, its unrealised nodes, and what a search found
/// about it (CPSA Primer, "The Search"). Labels are numbered from 0 by their places. `S` is its skeleton, `T` a term, and
/// `P` the patterns of the escape set of its test.
pub struct Label<S: Drop, T: Drop, P: Drop> {
    pub parent: Option<usize>,
    pub operation: Operation,
    pub skeleton: S,
    pub unrealised: Nodes,
    pub test: Option<Test<T>>,
    pub escape: P,
    pub children: Numbers,
    pub mark: Option<Mark>,
}

// A value drops by one call of its own, wherever it is held.
impl<S: Drop, T: Drop, P: Drop> Drop for Label<S, T, P> {
    fn drop(self) {
        let Label {
            parent,
            operation,
            skeleton,
            unrealised,
            test,
            escape,
            children,
            mark,
        } = self;
    }
}

/// The derivation tree of a problem: its labels, and how the search ended.
#[derive(Drop)]
pub struct Tree<L: Drop> {
    pub labels: L,
    pub outcome: Outcome,
}
