//! Single items of a label in a report read back: items by their heads, numbers, operations, nodes, tests and escape
//! sets; where they do not fit, and what they are.
//!
//! Every call that returns `AllocError` fails only if memory runs out. A call that takes a `FirstMisfit` notes in it
//! the first place at which forms do not meet what its comment asks of them.
#![tactic(auto)]

mod heads;
mod label_tests;
mod numbers;
mod operations;
mod places;

pub use cp_report::OperationWord;
pub use cp_stated::numbers_of;
pub use heads::{
    MARK_HEADS, has_one_of, is_of_tree, items_of_label, mark_item, name_in_front, up_to_strands,
};
pub use label_tests::{escape_misfits, nodes_of, test_misfits, test_of, unrealised_misfits};
pub use numbers::{number_in_front, number_stated, stated_number};
pub use operations::{is_operation, makes_root, operation_by, operation_misfits, word_in_front};
pub use places::operation_place_misfits;
