//! Skeletons under substitutions, and collapses of skeletons: the ways to identify strands of one role. Every call that returns
//! `AllocError` fails only when memory runs out.
#![tactic(auto)]

mod block_places;
mod collapse_laws;
mod cycles;
mod equal_values;
mod examples;
mod images;
mod kept_apart;
mod laws;
mod merged_skeletons;
mod merged_strands;
mod partitions;
mod substituted;
mod variable_terms;

pub use collapse_laws::{
    collapses_are_determined, collapses_are_listed, collapses_cover,
    collapses_have_declared_variables, collapses_keep_what_is_stated,
};
pub use cycles::some_is_closed;
pub use examples::two_strands_of_one_role_example;
pub use laws::{agreeing_skeletons_stand_alike, unifiers_are_determined};
pub use merged_skeletons::collapses;
pub use substituted::{are_same_terms, under};
