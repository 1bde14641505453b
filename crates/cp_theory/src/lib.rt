//! The laws on which the search rests, over the definitions alone. Soundness: a skeleton whose receptions are all derivable is
//! realised. Completeness: normalising a skeleton loses none of the bundles in which it stands apart; the answers to an
//! authentication test leave out no execution, and a lawful tree leaves out none either.
#![tactic(auto)]

mod authentication;
mod cohort;
mod descents_and_trials;
mod embeddings;
mod encryption_examples;
mod matching;
mod repeated_text;
mod soundness;
mod standings;
mod steps;
mod trees;

pub use authentication::{authentication_test, opened_text_example};
pub use cohort::{covering_leaves_none_out, none_left_out_factors};
pub use descents_and_trials::{coming_down, trying};
pub use embeddings::embedding_then_standing;
pub use encryption_examples::{heard_encryption_example, opened_encryption_example};
pub use matching::{matching_is_decided, values_bring_inside};
pub use repeated_text::repeated_text_example;
pub use soundness::{derivable_skeleton_example, derivable_skeleton_is_realised};
pub use standings::{
    carried_non_originating_stands_nowhere, heard_where_it_does_not_originate,
    lost_origin_stands_nowhere, origin_pairs_keep_standings, origin_precedes_carrier,
    substitution_keeps_standings, two_origins_stand_nowhere_apart,
};
pub use steps::{
    branches_lose_no_standing, homomorphisms_stay, no_results_where_it_stands_nowhere,
    origin_pairs_lose_no_standing, skeletons_stay_skeletons, steps_compose,
    weaker_loses_no_standing, what_is_stated_stays,
};
pub use trees::{lawful_trees_are_complete, standings_pass_on};
