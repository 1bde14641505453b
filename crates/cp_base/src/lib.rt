//! The base of all other crates: texts, places in a text, the codes of refusals, statuses, and the outside world as a source of
//! bytes and a sink for bytes, both in memory and over real streams; and lists that are being made and remember that memory ran
//! out. Every call that returns `AllocError` fails only when memory
//! runs out.
#![tactic(auto)]

mod growing;
mod memory;
mod place;
mod real;
mod sink;
mod source;
mod status;
mod text;

pub use growing::Growing;
pub use memory::{MemSink, MemSource};
pub use place::{Code, Place, Refusal};
pub use real::{Counted as StdSink, Counted as StdSource};
pub use sink::Sink;
pub use source::Source;
pub use status::{Failed, Status};
pub use text::{Text, copy_if_any, same_if_any};
