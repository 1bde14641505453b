//! Unification and matching of terms, and substitutions.
//!
//! Every call that returns `AllocError` fails only if memory runs out.
#![tactic(auto)]

mod binding;
mod composition;
mod difference;
mod known;
mod matcher;
mod places;
mod sides;
mod subst;
mod terms_under;
mod unification;

pub use binding::Binding;
pub use composition::compose;
pub use known::known_match;
pub use matcher::{matching, matching_beside};
pub use subst::Subst;
pub use terms_under::{apply, leaves};
pub use unification::unify;
