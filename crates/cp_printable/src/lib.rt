//! What is printed can be read back. Proper forms are those whose symbols and strings the reader can give: what is read is proper,
//! and a text of proper forms, if it can be read, gives these forms. Searches add no strings, and their trees can be stated in
//! reports; the trees that a printed report denotes are true if those that it is printed for are. Only definitions and their laws.
#![tactic(auto)]

mod alike;
mod examples;
mod paired;
mod proper;
mod strings;
mod trees;

pub use alike::{denoted_trees_are_true, same_trees_are_true_alike};
pub use examples::heard_encryption_can_be_stated;
pub use paired::equal_orders_are_not_enough;
pub use proper::{proper_input_is_spelled, proper_texts_say_their_forms, reports_are_proper};
pub use strings::search_trees_have_no_other_strings;
pub use trees::search_trees_can_be_stated;
