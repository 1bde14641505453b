//! Numbers for keys: equal keys have the same number, and different keys different ones. Contracts see an interner as the
//! list of its keys, each once, and the number of a key as its place in the list.
//!
//! Every call that returns `AllocError` fails only if memory runs out.
#![tactic(auto)]

mod interner;
mod laws;

pub use interner::{Id, Interner};
pub use laws::ids_tell_keys_apart;
