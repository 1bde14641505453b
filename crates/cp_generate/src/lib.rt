//! The text of the Needham-Schroeder protocol and of as many problems over it as are wanted, and the law that such a text is
//! well-formed input.
//!
//! Every call that returns `AllocError` fails only if memory runs out.
#![tactic(auto)]

mod generator;
mod laws;

pub use generator::{generate, generate_pieces};
pub use laws::generated_text_is_accepted;
