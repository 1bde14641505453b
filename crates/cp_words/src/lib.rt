//! The words of the command line: which are a command, and what it asks for.
#![tactic(auto)]

mod accepted;
mod command;
mod error;
mod parser;

pub use command::{Command, CommandName, read_command};
pub use error::WordsError;
