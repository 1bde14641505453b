//! The input language: which forms are well formed, what they state, and which fault is reported first; and the report:
//! its forms and its text. Only definitions, plain types that these share with the program, and laws, each the contract of a
//! function that does nothing: the problems of well-formed input are skeletons over their protocols and map to themselves, and
//! the roles of these protocols are well formed.
#![tactic(auto)]

mod laws;
mod sorts;
mod wellformed;
mod words;

pub use laws::{forms_have_one_answer, report_of_all_labels, search_is_complete};
pub use sorts::TermSort;
pub use wellformed::{
    names_of_input_are_their_own, problems_of_input_are_skeletons, roles_declare_their_variables,
    roles_of_input_are_well_formed, well_formed_example,
};
pub use words::{EventHead, ItemHead, SortWord, TermHead, TopHead};
