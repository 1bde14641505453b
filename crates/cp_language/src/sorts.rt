// The sorts of terms.
use cp_model::Sort;

/// The sort of a term: that of an atom, or that of all messages.
#[derive(Clone, Copy)]
pub enum TermSort {
    Atoms(Sort),
    All,
}
