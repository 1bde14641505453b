//! Maps between skeletons: embeddings, and isomorphism; and fingerprints, which tell at once that there is none. Every call that
//! returns `AllocError` fails only when memory runs out.
#![tactic(auto)]

mod broken;
mod embeddings;
mod first_choices;
mod from_problem;
mod items;
mod kept_order;
mod known;
mod numbered_items;
mod pairings;
mod partials;
mod placed_items;
mod search;
mod sharing_strands;
mod strand_map;
mod strand_matches;

pub use cp_fingerprint::{Fingerprint, RoleHeight, fingerprint, fingerprints_are_kept, may_embed};
pub use embeddings::{embed, isomorphic};
pub use strand_map::Map;
