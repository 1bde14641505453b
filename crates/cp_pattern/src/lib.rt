//! Patterns: which terms they match, which positions lie inside them, which substitutions make a term match, and whether they
//! guard a test at a node of a skeleton. Every call that returns `AllocError` fails only when memory runs out.
#![tactic(auto)]

mod candidates;
mod component;
mod guard;
mod laws;
mod opened_pattern;
mod outside;
mod pattern;
mod pattern_matches;
mod sent;
mod term_unifier;
mod test_terms;
mod within;

pub use candidates::{may_carry, positions_for};
pub use guard::is_guarded;
pub use laws::{
    matching_stays, most_general_unifiers_are_determined, others_are_never_equal, unifiers_match,
};
pub use opened_pattern::open_pattern;
pub use outside::{first_outside, is_inside};
pub use pattern_matches::matches;
pub use term_unifier::unifier;
pub use test_terms::is_test;
pub use within::all_within;
