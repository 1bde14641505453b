// Laws of proper forms. Each is the contract of a function that does nothing.
ghost use Rattle.std.specs.Prelude.{◌≡◌, ℕ, List, [], Some, Ok};
ghost use Rattle.std.specs.List.{AllZip, filter_map};
ghost use Rattle.cp_lists.specs.Lists.{IsIn};
ghost use Rattle.cp_model.specs.Tree.{Label, Tree};
ghost use Rattle.cp_sexpr.specs.Syntax.{Forms, forms_of};
ghost use Rattle.cp_sexpr.specs.Reading.{IsReading};
ghost use Rattle.cp_sexpr.specs.ReadBack.{all_unplaced, top_spellings, ReadsAs};
ghost use Rattle.cp_language.specs.Problems.{Problem};
ghost use Rattle.cp_language.specs.Input.{Entry, form_of, stated, faults_of, input_of};
ghost use Rattle.cp_language.specs.Report.{HasItsVariables, tree_forms, report_forms};
ghost use Rattle.cp_printable.specs.Proper.{IsStringText, IsSymbolText, IsProper, AreProper, AreWithinBounds};
ghost use Rattle.cp_printable.specs.Spelled.{AreSpelledDeclarations, IsSpelledProblem, IsSpelledLabel};

/// A text of proper forms says these forms and no others. What is read is proper and keeps to the reader's bounds
/// (`given`). If the normal spelling of proper forms can be read, the forms keep to the bounds, and exactly these forms
/// are read, up to their places (`only`). If they keep to the bounds, their spelling can be read (`readable`).
#[tactic(auto, using(crate::proofs::ReadTexts::can_be_read))]
pub fn proper_texts_say_their_forms()
    ensures given { (text : List ℕ) (fs : Forms) → IsReading text (Ok fs) → AreProper fs × AreWithinBounds fs }
    ensures only { (fs read : Forms) → AreProper fs → IsReading (top_spellings fs) (Ok read) → AreWithinBounds fs × (all_unplaced read ≡ all_unplaced fs) }
    ensures readable { (fs : Forms) → AreProper fs → AreWithinBounds fs → ReadsAs (top_spellings fs) fs }
{}

/// Input of proper forms has proper strings and identifiers: so have the forms that it gives (`forms`) and, if it has
/// no fault, the roles, the variables and the skeletons of the problems that it states (`problems`).
#[tactic(auto, using(crate::proofs::SpelledInput::form_is_proper, crate::proofs::SpelledInput::problem_is_spelled))]
pub fn proper_input_is_spelled()
    ensures forms { (fs : Forms) (e : Entry) → AreProper fs → IsIn e (input_of fs) → IsProper (form_of e) }
    ensures problems { (fs : Forms) (e : Entry) (p : Problem) → AreProper fs → faults_of fs ≡ [] → IsIn e (input_of fs) → stated e ≡ Some p → IsSpelledProblem IsStringText IsSymbolText p }
{}

/// What is printed is proper if what it is printed for is spelled properly: for a tree whose labels have their
/// variables and proper strings and identifiers (`tree`), and for a report over proper forms whose trees are printed
/// properly (`report`).
#[tactic(auto, using(crate::proofs::ProperTrees::tree_is_proper, crate::proofs::ProperReports::report_is_proper))]
pub fn reports_are_proper()
    ensures tree { (p : Problem) (t : Tree) → AreSpelledDeclarations IsSymbolText p.variables → ((l : Label) → IsIn l t.labels → HasItsVariables p l) → ((l : Label) → IsIn l t.labels → IsSpelledLabel IsStringText IsSymbolText l) → AreProper (forms_of (tree_forms p t)) }
    ensures report { (entries : List Entry) (trees : List Tree) → ((e : Entry) → IsIn e entries → IsProper (form_of e)) → AllZip (λ (p : Problem) (t : Tree). AreProper (forms_of (tree_forms p t))) (filter_map stated entries) trees → AreProper (forms_of (report_forms entries trees)) }
{}
