//! Reads reports back: gives the report that forms are, or the first place at which they are no report; of the forms after a
//! problem, the tree that they are. Laws say what follows of forms that are one: everything that a label form states fits, and the
//! report can be stated again, if no label leaves out what its problem states itself.
//!
//! Every call that returns `AllocError` fails only if memory runs out. A call that takes a `FirstMisfit` notes in it
//! the first place at which forms do not meet what its comment asks of them.
#![tactic(auto)]

mod accepted;
mod error;
mod items;
mod labels;
mod leading_labels;
mod marks;
mod order;
mod parents;
mod report;
mod restated;
mod sections;
mod small;
mod stated_labels;
mod status;
mod strand_items;
mod trees;

pub use accepted::accepted_reports_fit;
pub use error::ReadBackError;
pub use leading_labels::count_in_front;
pub use report::{Report, read_back};
pub use restated::accepted_reports_can_be_restated;
pub use small::accepted_reports_need_not_fit;
pub use trees::{behind_misfits, none_may_stand};
