//! Decides what the penetrator can derive (S. Doghmi, J. Guttman, F. Thayer, Searching for Shapes in Cryptographic Protocols,
//! TACAS 2007, section 4). Every call that returns `AllocError` fails only when memory runs out.
#![tactic(auto)]

mod assumed;
mod at_node;
mod at_test;
mod before;
mod built_terms;
mod component;
mod direct;
mod flags;
mod form;
mod knowledge;
mod known_before;
mod laws;
mod opened_terms;
mod receptions;
mod survey;
mod transmission;
mod walk;

pub use at_node::{AtNode, critical, known, message_at};
pub use at_test::{AtTest, test_at};
pub use component::Critical;
pub use knowledge::{Known, buildable};
pub use laws::{derivable_at_a_node, derivable_where_given};
pub use receptions::{unrealised, unrealised_of};
pub use walk::critical_in;
