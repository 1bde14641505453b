//! Normal forms of skeletons: assumptions that contradict a skeleton, narrowing where a unique value originates elsewhere than at
//! its recorded origin, the order pairs that unique values add, and the rewriting by which both skeletons are narrowed and releases
//! are solved. The crate exports skeletons under substitutions and collapses
//! too. Every call that returns `AllocError` fails only when memory runs out.
#![tactic(auto)]

mod beside;
mod carried_values;
mod examples;
mod form;
mod forms_law;
mod laws;
mod misplaced_values;
mod narrowing;
mod normal;
mod normal_forms;
mod origins;
mod own_pairs;
mod pairs;
mod received_atoms;
mod rewriting;
mod unified_branches;
mod variables_laws;

pub use beside::{FormsBeside, forms_beside};
pub use carried_values::carries_non_originating;
pub use cp_collapse::{
    agreeing_skeletons_stand_alike, collapses, collapses_are_determined, collapses_are_listed,
    collapses_cover, collapses_have_declared_variables, collapses_keep_what_is_stated,
    two_strands_of_one_role_example, under, unifiers_are_determined,
};
pub use examples::misplaced_text_example;
pub use form::Form;
pub use forms_law::{forms_come_by_substitutions, normal_forms_have_substitutions};
pub use laws::{contradictory_skeletons_stand_nowhere, normal_forms_keep_what_is_stated};
pub use normal::{is_normal, normal_pairs};
pub use normal_forms::{normalise, normalise_beside};
pub use origins::{has_two_origins, loses_origin};
pub use own_pairs::all_lead;
pub use pairs::added_pairs;
pub use rewriting::{Candidate, Ranking, Rewriting, leaves};
pub use variables_laws::{
    normal_forms_have_declared_variables, substitutions_keep_declared_variables,
};
