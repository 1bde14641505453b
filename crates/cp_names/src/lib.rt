//! The variables that occur in a label, and the names that a report gives to variables.
//!
//! Every call that returns `AllocError` fails only if memory runs out.
#![tactic(auto)]

mod flags;
mod labels;
mod locals;
mod names;
mod occurrences;

pub use flags::is_flagged;
pub use labels::{LabelVariables, variables_of_label};
pub use locals::locals_of;
pub use names::problem_names;
