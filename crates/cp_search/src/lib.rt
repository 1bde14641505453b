//! The search for the shapes of a problem: `search` builds its derivation tree. Every call that returns `AllocError` fails only
//! when memory runs out.
#![tactic(auto)]

mod candidates;
mod children;
mod copy_index;
mod expanded;
mod expanded_box;
mod general_labels;
mod isomorphism;
mod label_search;
mod labels;
mod made;
mod new_labels;
mod reachability;
mod resolved;
mod resolved_tree;
mod roots;
mod trees;
mod waiting;

pub use trees::search;
