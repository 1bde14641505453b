//! Derivation trees: which trees a search makes, the rules by which it resolves labels, and the laws that such trees are true of
//! their problem, lawful, ordered and within their limits.
#![tactic(auto)]

mod examples;
mod expansion_law;
mod generalisation_law;
mod laws;
mod limits;
mod marks;
mod rules;

pub use examples::heard_encryption_has_a_tree;
pub use expansion_law::expansions_are_sound;
pub use generalisation_law::generalised_labels_are_sound;
pub use laws::{
    search_trees_are_lawful, search_trees_are_ordered, search_trees_are_true,
    search_trees_declare_their_variables, searches_keep_within_limits,
};
pub use limits::limits_are_exact;
pub use marks::marks_have_causes;
pub use rules::Rule;
