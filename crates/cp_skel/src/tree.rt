// Derivation trees as values.
use crate::skeleton::Skeleton;
use cp_model::Sequence;
use cp_term::{Patterns, Term};

/// An authentication test of a skeleton.
pub type Test = cp_model::Test<Term>;

/// One label of a tree. Labels are numbered from 0 by their places.
pub type Label = cp_model::Label<Skeleton, Term, Patterns>;

/// Labels, in order.
pub type Labels = Sequence<Label>;

/// The derivation tree of a problem.
pub type Tree = cp_model::Tree<Labels>;
