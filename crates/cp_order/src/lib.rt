//! The order of a skeleton's nodes, given by pairs of nodes in addition to the order of each strand: which node
//! reaches which.
//!
//! Every call that returns `AllocError` fails only if memory runs out.
#![tactic(auto)]

mod closed;
mod closure;
mod order;
mod paths;
mod predecessors;
mod reaching;
mod tops;

pub use order::Order;
pub use predecessors::{Predecessors, SortedPairs};
pub use reaching::reaches;
