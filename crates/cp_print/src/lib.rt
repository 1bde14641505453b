//! The printer: from trees to the text of a report.
//!
//! Every call that returns `AllocError` fails only if memory runs out.
#![tactic(auto)]

mod assumptions;
mod items;
mod labels;
mod order;
mod patterns;
mod report;
mod strands;
mod terms;
mod variable_names;
mod writing;

pub use report::{
    expanded_count, print, print_pieces, print_shape_pieces, print_shapes, shape_count,
};
