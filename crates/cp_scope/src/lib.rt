//! Forms one level deep, the words at their heads, and the first of the faults met; names in use, declared variables, and what
//! forms of terms and atoms stand for over them, with the faults of these forms.
//!
//! Every call that returns `AllocError` fails only if memory runs out. A call that takes a `FirstFault` notes faults in
//! it: it keeps the first.
#![tactic(auto)]

mod atoms;
mod declarations;
mod faults;
mod first_fault;
mod forms;
mod name_set;
mod sorts;
mod terms;
mod variables;
mod words;

pub use atoms::{Kind, atom_of, atoms_faults, atoms_of, no_atom};
pub use cp_language::{EventHead, ItemHead, SortWord, TermHead, TermSort, TopHead};
pub use cp_model::Variable;
pub use declarations::{fixed, name_of, sort_named, sort_or_text, variables_of};
pub use faults::{atom_faults, exceeds, lacks, sort_faults, term_faults};
pub use first_fault::FirstFault;
pub use forms::{
    HeadedList, first_items, front_items, headed, item_at, items_behind, last_item, later_items,
    list_items, place_of, symbol, symbol_or_empty,
};
pub use name_set::NameSet;
pub use sorts::{is_same_sort, variable_named};
pub use terms::{applied, no_term, term_of, variable_term};
pub use variables::Variables;
pub use words::{
    event_head, is_out_of_profile, is_word, item_head, sort_word, term_head, top_head,
};
