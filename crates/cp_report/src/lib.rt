//! A report read back: which forms are a report, what they denote, and at which place others fit none. Only definitions,
//! plain types that these share with the program, and laws. The definitions say which forms fit and what they denote without
//! referring to what is printed.
#![tactic(auto)]

mod locals;
mod operations;

ghost use Rattle.std.specs.Prelude.{◌≡◌, List, Result};
ghost use Rattle.cp_base.specs.declared.place.Place.{Place};
ghost use Rattle.cp_language.specs.Input.{input_of};
ghost use Rattle.cp_language.specs.Report.{report_forms};
ghost use Rattle.cp_model.specs.Tree.{Tree};
ghost use Rattle.cp_report.specs.Example.{own_trees};
ghost use Rattle.cp_report.specs.Laws.{ArePrinted, CanBeStated};
ghost use Rattle.cp_report.specs.ReadBack.{Report, IsReadBack};
ghost use Rattle.cp_report.specs.UpToNames.{IsReport, IsSameReport};
ghost use Rattle.cp_sexpr.specs.Syntax.{Forms, forms_of};
ghost use Rattle.cp_language.specs.Example.{example_input};

pub use locals::LocalAt;
pub use operations::OperationWord;

/// Reading forms back has exactly one answer: the report that they are, or else the first place at which they fit none.
#[tactic(auto, using(crate::proofs::OneAnswer::one_answer, crate::proofs::OneAnswer::some_answer))]
pub fn reading_back_has_one_answer()
    ensures one { (fs : Forms) (a b : Result Report Place) → IsReadBack fs a → IsReadBack fs b → a ≡ b }
    ensures some { (fs : Forms) → (a : Result Report Place) × IsReadBack fs a }
{}

/// What is printed is read back. The forms that are printed for well-formed input and for trees that fit its problems,
/// wherever they stand, are a report. It has the same input and the same trees, except for the names of variables, the
/// places of forms, and the pairs that generate an order (`read_back`). So two inputs with trees for which the same is
/// printed are the same except for these (`one_report`).
pub fn printed_reports_read_back()
    ensures read_back { (input : Forms) (trees : List Tree) (fs : Forms) → CanBeStated input trees → ArePrinted fs input trees → IsReport fs (record { entries = input_of input; trees = trees }) }
    ensures one_report { (input input' : Forms) (trees trees' : List Tree) → CanBeStated input trees → CanBeStated input' trees' → ArePrinted (forms_of (report_forms (input_of input) trees)) input' trees' → IsSameReport (record { entries = input_of input; trees = trees }) (record { entries = input_of input'; trees = trees' }) }
{}

/// An input and its trees meet the premises of the laws above: a well-formed input with a problem, and for it a tree of
/// one label, the problem itself.
#[tactic(auto, using(crate::proofs::OwnTrees::example_stated))]
pub fn stated_trees_example()
    ensures { CanBeStated example_input (own_trees example_input) }
{}
