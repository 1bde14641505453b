//! Skeletons and derivation trees as the program keeps them. Contracts see them as plain data.
//!
//! Every call that returns `AllocError` fails only if memory runs out.
#![tactic(auto)]

mod already_listed;
mod assumption_lists;
mod assumptions;
mod assumptions_left;
mod bridges;
mod changes_laws;
mod copies;
mod deletion;
mod events;
mod extensions;
mod from_problem;
mod gathered;
mod given_assumptions;
mod keys;
mod laws;
mod new_numbers;
mod node_order;
mod origins;
mod preceding;
mod report_order;
mod role_assumptions;
mod skeleton;
mod tree;
mod used;
mod variable_table;
mod variables_laws;

pub use already_listed::is_listed;
pub use assumption_lists::{add_atom, add_atoms, add_unique};
pub use assumptions::{Assumptions, UniqueAt};
pub use changes_laws::{
    changes_keep_homomorphisms, changes_keep_what_is_stated, extensions_fit, order_keeps_skeletons,
};
pub use cp_model::{Limits, Mark, Nodes, Numbers, Operation, Outcome};
pub use cp_order::{Order, Predecessors, SortedPairs};
pub use cp_strand::{
    Atom, Declaration, Event, Instance, Protocol, Role, Strand, StrandShape, applied, applied_atom,
    has_atom, is_added, is_same_role, occurs, origin, prefix_of, value_of_variable,
};
pub use events::{ListedSkeleton, LocatedEvent};
pub use from_problem::FromProblem;
pub use given_assumptions::add_given;
pub use laws::{
    deleting_keeps_skeletons, extending_keeps_skeletons, given_behind_own_is_listed,
    listed_assumptions_are_the_same, listener_keeps_skeletons, skeletons_have_declared_prefixes,
    strand_keeps_skeletons, test_of_variables, variables_of_prefixes,
};
pub use preceding::Preceding;
pub use report_order::listed;
pub use role_assumptions::has_unique;
pub use skeleton::{Node, OrderPair, Skeleton};
pub use tree::{Label, Labels, Test, Tree};
pub use used::used_terms;
pub use variables_laws::changes_keep_declared_variables;
