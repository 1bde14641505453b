//! The items of a label form that state its skeleton, read back: where they do not fit, and the skeleton that they
//! state.
//!
//! Every call that returns `AllocError` fails only if memory runs out. A call that takes a `FirstMisfit` notes in it
//! the first place at which forms do not meet what its comment asks of them.
#![tactic(auto)]

mod heads;
mod images;
mod instances;
mod laws;
mod names;
mod nodes;
mod order;
mod problem_map;
mod skeleton_items;
mod skeletons;
mod stated_strands;
mod uniques;
mod values;

pub use heads::item_with;
pub use instances::{one_term_misfits, strands_misfits};
pub use laws::fitting_items_state_sound_skeletons;
pub use names::problem_variables;
pub use nodes::{is_there, node_misfits, node_or_first, two_numbers_misfits};
pub use problem_map::strand_number_misfits;
pub use skeleton_items::around_strands_misfits;
pub use skeletons::skeleton_stated;
pub use stated_strands::{number_of, numbers_of, strands_of};
