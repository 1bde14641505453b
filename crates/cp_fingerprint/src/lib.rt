//! Fingerprints and signatures of skeletons: they tell skeletons that cannot embed in each other apart at once. Every call that
//! returns `AllocError` fails only when memory runs out.
#![tactic(auto)]

mod chain_table;
mod chains;
mod fingerprints;
mod first_places;
mod heard;
mod heights;
mod partition;
mod shares;
mod signature;
mod slots;
mod sorted_heights;
mod sums;
mod values;
mod weights;

pub use chains::{embedding_keeps_chains, heaviest_chains_lead};
pub use fingerprints::{fingerprint, fingerprints_are_kept, may_embed};
pub use first_places::first_of;
pub use heights::RoleHeight;
pub use signature::Signature;
pub use slots::{Places, Slot, key_of, places_of};
pub use sorted_heights::Fingerprint;
