//! Variables and terms of the basic crypto algebra (CPSA Primer, "Algebra"): handles to shared nodes. Contracts see
//! them as plain terms.
//!
//! Every call that returns `AllocError` fails only if memory runs out.
#![tactic(auto)]

mod keys;
mod laws;
mod makers;
mod number;
mod parts;
mod path;
mod pattern;
mod position;
mod same;
mod shape;
mod substitution;
mod term;
mod term_table;
mod variable;

pub use cp_base::Text;
pub use cp_intern::Id;
pub use cp_model::{Sort, Step};
pub use laws::{carried_at_a_position, positions_are_those_found, test_of_equality};
pub use makers::{enc, invert, ltk, pair, pubk, tag, var};
pub use parts::Parts;
pub use path::Path;
pub use pattern::{Locals, Pattern, Patterns};
pub use position::{TermTest, at, carries, depth, paths_of, paths_where};
pub use shape::{Shape, is_of_sort};
pub use substitution::{Valuation, keeps, name_for, substituted};
pub use term::Term;
pub use term_table::TermTable;
pub use variable::{VarId, VarTable};
