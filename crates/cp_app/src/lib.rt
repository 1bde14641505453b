//! The top call, [`run`]: it executes the command that some words spell, from the bytes of a source to the bytes of a report.
#![tactic(auto)]

mod analysis;
mod answer;
mod bench;
mod generated;
mod input;
mod laws;
mod main_call;
mod output;
mod stopped;

pub use cp_generate::generate;
pub use laws::{answers_are_reports, well_formed_input_is_accepted};
pub use main_call::run;
