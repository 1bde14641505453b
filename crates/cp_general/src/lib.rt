//! Generalisation: removes from a realised skeleton the strands and the order pairs that it does not need. Every call that
//! returns `AllocError` fails only when memory runs out.
#![tactic(auto)]

mod covering_pairs;
mod deletion;
mod dropped_pair;
mod examples;
mod fit;
mod generalisation;
mod laws;
mod needed;
mod pairs;

pub use examples::second_sender_is_deleted;
pub use generalisation::{generalise, generalised};
pub use laws::generalisations_are_sound;
