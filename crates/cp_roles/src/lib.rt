//! Roles, protocols, and the strands of problems: their faults, what their forms stand for, which of them has a name, and the terms
//! of instances.
//!
//! Every call that returns `AllocError` fails only if memory runs out. A call that takes a `FirstFault` notes faults in
//! it: it keeps the first.
#![tactic(auto)]

mod event_variables;
mod events;
mod faults;
mod instances;
mod problem_strands;
mod protocols;
mod roles;
mod uniques;

pub use faults::{instance_faults, listener_faults};
pub use instances::copies_of;
pub use problem_strands::strands;
pub use protocols::{no_protocol, protocol_named, protocol_of};
pub use roles::role_named;
