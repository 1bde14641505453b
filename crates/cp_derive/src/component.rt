// Components of messages.
use cp_term::{Path, Term};

/// A component of a message that is not derivable, and the path to it.
#[derive(Drop)]
pub struct Critical {
    pub path: Path,
    pub term: Term,
}
