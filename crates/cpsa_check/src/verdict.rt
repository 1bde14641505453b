// What a report is.
use std::fmt;

/// Whether a report is what the search answers, or where it first is not. All numbers are from 0.
#[derive(Clone, Copy, Debug, PartialEq, Eq)]
pub(crate) enum Verdict {
    /// It is, with this many labels in all trees.
    AsSearched(usize),
    /// The tree of this problem has another outcome or another number of labels, belongs to no problem, or is missing.
    ProblemDiffers(usize),
    /// This label in the tree of this problem differs.
    LabelDiffers { problem: usize, label: usize },
}

impl Verdict {
    /// The status that the program ends with.
    pub(crate) fn number(self) -> u8 {
        match self {
            Verdict::AsSearched(_) => 0,
            Verdict::ProblemDiffers(_) | Verdict::LabelDiffers { .. } => 1,
        }
    }
}

impl fmt::Display for Verdict {
    fn fmt<W: fmt::Write>(&self, f: &mut fmt::Formatter<W>) -> fmt::Result {
        match *self {
            Verdict::AsSearched(labels) => write!(f, "as searched: {labels} labels"),
            Verdict::ProblemDiffers(problem) => write!(f, "problem {problem} differs"),
            Verdict::LabelDiffers { problem, label } => {
                write!(f, "problem {problem} label {label} differs")
            }
        }
    }
}
