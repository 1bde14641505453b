// What the rule says of a label.
use cp_skel::Mark;

/// What the rule says of a label.
#[derive(Clone, Copy)]
pub enum Rule {
    /// It is a leaf with this mark.
    Leaf(Mark),
    /// All its receptions are derivable: it is generalised, or is its own generalisation.
    Realised,
    /// It is expanded by its test.
    Tested,
}
