//! Forms (s-expressions): their reader, and their writer in normal spelling.
//!
//! Every call that returns `AllocError` fails only if memory runs out.
#![tactic(auto)]

mod builder;
mod error;
mod form;
mod laws;
mod piece;
mod reader;
mod writer;

pub use error::{OrMemory, ReadError};
pub use form::Form;
pub use laws::{one_reading, reads_back};
pub use reader::{MAX_LENGTH, read};
pub use writer::{write, write_top};
