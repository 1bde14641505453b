//! Selects the shapes among candidates, and tells of which shape each other candidate is an instance. Every call that returns
//! `AllocError` fails only when memory runs out.
#![tactic(auto)]

mod laws;
mod rows;
mod shape_marks;

pub use laws::{shapes_are_apart, standings_go_through_shapes};
pub use shape_marks::shapes;
