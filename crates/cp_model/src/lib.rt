//! The definitions of messages, strands, bundles and skeletons, and their laws; as values, messages, events, runs and bundles,
//! variables, lists of nodes and of numbers, and the operations, tests, marks, outcomes and limits of trees. The definitions
//! take up those of S. Doghmi, J. Guttman, F. Thayer, Searching for Shapes in Cryptographic Protocols, TACAS 2007, and of the
//! CPSA Primer and Specification; `docs/DECISIONS.md` tells which choice is made where these leave one.
//!
//! Every call that returns `AllocError` fails only when memory runs out.
#![tactic(auto)]

mod bundle;
mod key;
mod laws;
mod lists;
mod message;
mod message_parts;
mod node;
mod origin;
mod runs;
mod shared_list;
mod single;
mod sort;
mod step;
mod strand;
mod tree;
mod variable;

pub use bundle::{Bundle, Run};
pub use key::Key;
pub use laws::{
    before_is_leading_to_another, embeddings_compose, embeds_in_itself, homomorphism_then_standing,
    origin_at_or_before, run_makes_a_bundle, value_after_substitution,
};
pub use lists::{Nodes, Numbers, Sequence, item_at};
pub use message::Msg;
pub use node::{Node, OrderPair};
pub use origin::origin_before;
pub use runs::{bundle_of, run_of};
pub use shared_list::SharedList;
pub use single::{
    one_sending_strand_example, one_sending_strand_is_realised,
    one_strand_is_its_own_complete_list, skeleton_keeps_what_it_states, skeleton_maps_from_itself,
};
pub use sort::Sort;
pub use step::Step;
pub use strand::{Event, Strand};
pub use tree::{Label, Limits, Mark, Operation, Outcome, Test, Tree};
pub use variable::{Declaration, Variable, has_variable};
