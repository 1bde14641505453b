//! The roots of a problem, from which its search starts: its normal forms, and those of its collapses. Every call that returns
//! `AllocError` fails only when memory runs out.
#![tactic(auto)]

mod gathered_roots;
mod instances;
mod laws;
mod partition;
mod problem_roots;
mod root;

pub use laws::{roots_are_sound, roots_have_declared_variables};
pub use problem_roots::roots;
pub use root::Root;
