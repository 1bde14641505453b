// Expanded labels.
use cp_skel::{Numbers, Skeleton, Test};
use cp_term::Patterns;

/// An expanded label: its skeleton with all its variables, its test, the patterns that guard it, and its children.
#[derive(Drop)]
pub(crate) struct Expanded {
    pub skeleton: Skeleton,
    pub test: Test,
    pub patterns: Patterns,
    pub children: Numbers,
}
