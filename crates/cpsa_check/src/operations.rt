// Whether two labels were made alike.
use cp_skel::Operation;

/// Whether two operations are the same.
pub(crate) fn is_same_operation(one: &Operation, other: &Operation) -> bool {
    match (one, other) {
        (Operation::Problem, Operation::Problem)
        | (Operation::Generalised, Operation::Generalised) => true,
        (Operation::Contracted(a), Operation::Contracted(b))
        | (Operation::Displaced(a), Operation::Displaced(b)) => a == b,
        (Operation::AddedStrand(a), Operation::AddedStrand(b))
        | (Operation::AddedListener(a), Operation::AddedListener(b)) => a == b,
        (Operation::Collapsed(a), Operation::Collapsed(b)) => a.as_slice() == b.as_slice(),
        _ => false,
    }
}
