//! The cohort of an authentication test: all its children, in order. For the method see S. Doghmi, J. Guttman, F. Thayer,
//! Searching for Shapes in Cryptographic Protocols, TACAS 2007, and M. Liskov, P. Rowe, F. Thayer, Completeness of CPSA, 2011;
//! which children there are, and their order, is told at [`cohort_at`]. A release of the critical term is solved once
//! two conditions hold: the position of the release is outside the patterns, and each earlier event of its strand carries the
//! term inside them alone. The children cover the test: they leave out no standing.
//!
//! Every call that returns `AllocError` fails only when memory runs out.
#![tactic(auto)]

mod added;
mod attempts;
mod branches;
mod child;
mod children;
mod cohorts;
mod conditions;
mod contracted;
mod displaced;
mod encryptions;
mod examples;
mod grown_skeletons;
mod guarded_test;
mod listeners;
mod once;
mod release;
mod releases;
mod sent;
mod solutions;
mod transmissions;
mod trials;
mod widening;

pub use child::Child;
pub use children::{CohortUntil, cohort, cohort_at, cohort_until};
pub use cohorts::{children_are_sound, cohorts_cover, operations_are_true};
pub use encryptions::encryptions_above;
pub use examples::heard_encryption_has_one_child;
pub use once::add_term;
pub use release::{PartialSolution, Release};
pub use sent::is_sent_before;
pub use solutions::solve;
pub use trials::settling_is_trying;
pub use widening::{GivesPatterns, Widening};
