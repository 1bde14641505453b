//! Escape sets: the patterns that guard a test, and the patterns that widen them. Every call that returns `AllocError` fails only
//! when memory runs out.
#![tactic(auto)]

mod above;
mod closed_encryptions;
mod escape_set;
mod laws;
mod same_strands;
mod used;
mod widened_pattern;

pub use escape_set::{escape, escape_at};
pub use laws::widening_keeps_guards;
pub use widened_pattern::widen;
