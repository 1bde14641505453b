// Locals of patterns.
use cp_base::Place;
use cp_model::Variable;

/// A local of a pattern, with the sort and the number that `(any SORT I)` states, and where it stands.
#[derive(Clone, Copy)]
pub struct LocalAt {
    pub place: Place,
    pub local: Variable,
}
