// The words of operations.

/// What the word after `by` names.
#[derive(Clone, Copy)]
pub enum OperationWord {
    Problem,
    Collapsed,
    Contracted,
    Displaced,
    AddedStrand,
    AddedListener,
    Generalised,
    Unknown,
}
