//! Roles, protocols, and strands of skeletons (CPSA Primer, "Strand Spaces") as the program keeps them. Contracts see
//! them as plain data.
//!
//! Every call that returns `AllocError` fails only if memory runs out.
#![tactic(auto)]

mod atom;
mod events;
mod given;
mod instance_terms;
mod prefix_variables;
mod protocol;
mod same;
mod same_role;
mod strand;
mod term_origins;
mod terms_under;
mod values;

pub use atom::{Atom, has_atom};
pub use cp_model::Declaration;
pub use events::{applied, applied_atom};
pub use given::{Given, IndexedUnique, applying};
pub use instance_terms::instance_of;
pub use prefix_variables::{is_added, occurs, prefix_of};
pub use protocol::{Event, Protocol, Role};
pub use same::{Same, are_same, has};
pub use same_role::is_same_role;
pub use strand::{Instance, Strand, StrandShape};
pub use term_origins::origin;
pub use terms_under::carries_under;
pub use values::value_of_variable;
