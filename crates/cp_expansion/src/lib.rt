//! The expansion of an unrealised skeleton: its test, the patterns that guard it, and the children of the test. Every call that
//! returns `AllocError` fails only when memory runs out.
#![tactic(auto)]

mod chosen_test;
mod expansion;
mod variable_tables;
mod widening_child;

pub use expansion::{Expansion, expand};
