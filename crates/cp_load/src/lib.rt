//! The loader: it turns forms into protocols and problems, or finds the first fault of the forms.
//!
//! Every call that returns `AllocError` fails only if memory runs out. The calls that take a `FirstFault` note faults
//! in it: it keeps the first.
#![tactic(auto)]

mod acyclic;
mod bodies;
mod error;
mod input;
mod items;
mod loader;
mod nodes;
mod orders;
mod pairs;
mod problems;
mod ranks;
mod unchecked_problems;
mod unique_origins;
mod values;

pub use acyclic::have_no_cycle;
pub use error::LoadError;
pub use input::{Entry, Input, Problem};
pub use loader::{load, top_form};
pub use nodes::{Direction, node_direction, node_of};
pub use orders::{closes_cycle, pair_of_nodes};
pub use pairs::{
    add_pair, add_pairs, is_on_one_strand, is_reception, is_transmission, node_if_there, pair_of,
};
pub use unchecked_problems::{UncheckedEntry, UncheckedProblem, UncheckedSkeleton, all_finished};
pub use unique_origins::carries_under;
pub use values::table_of;
