//! Variables, terms, patterns and maplets of a report read back: the first place at which their forms do not fit, and what they
//! denote; entries of lists, lists by their heads, and the first misfit of any forms.
//!
//! Every public call that returns `AllocError` fails only if memory runs out. A call that takes a `FirstMisfit` notes
//! in it the first place at which forms do not meet what its comment asks of them.
#![tactic(auto)]

mod entries;
mod first_misfit;
mod laws;
mod locals;
mod maplets;
mod misfits;
mod patterns;
mod scope;
mod terms;
mod variables;

pub use cp_report::LocalAt;
pub use cp_scope::Variables;
pub use entries::{
    any_number_misfits, entries_under, has_head, lacking, no_more, one_number_misfits,
};
pub use first_misfit::FirstMisfit;
pub use laws::first_misfit_is_found;
pub use locals::{Locals, is_any, local_by, local_misfits, locals_in, locals_of};
pub use maplets::{mapping_misfits, values_mapped};
pub use misfits::{atom_misfits, term_misfits, value_misfits};
pub use patterns::{pattern_misfits, pattern_of};
pub use scope::Scope;
pub use terms::{atom_in, term_in, term_or_tag};
pub use variables::{declarations_of_label, identifier_of, second, variables_of};
