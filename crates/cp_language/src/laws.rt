// Laws of the language and of the report.
ghost use Rattle.std.specs.Prelude.{◌≡◌, ◌↔◌, List, length, Result, true};
ghost use Rattle.cp_base.specs.declared.place.Refusal.{Refusal};
ghost use Rattle.cp_language.specs.Input.{Entry};
ghost use Rattle.cp_language.specs.StatedInput.{IsInput};
ghost use Rattle.cp_language.specs.Problems.{reaches_within};
ghost use Rattle.cp_language.specs.Report.{report_text};
ghost use Rattle.cp_language.specs.ShapesText.{chosen_text};
ghost use Rattle.cp_model.specs.declared.node.Node.{Node};
ghost use Rattle.cp_model.specs.Order.{ReachesAlong};
ghost use Rattle.cp_model.specs.declared.node.OrderPair.{OrderPair};
ghost use Rattle.cp_model.specs.Tree.{Tree};
ghost use Rattle.cp_sexpr.specs.Syntax.{Forms};

/// Forms have exactly one answer: what they state if they are well formed, otherwise the first of their faults.
#[tactic(auto, using(crate::proofs::OneAnswer::one_answer, crate::proofs::OneAnswer::some_answer))]
pub fn forms_have_one_answer()
    ensures one { (fs : Forms) (a b : Result (List Entry) Refusal) → IsInput fs a → IsInput fs b → a ≡ b }
    ensures some { (fs : Forms) → (a : Result (List Entry) Refusal) × IsInput fs a }
{}

/// A search along as many pairs as there are finds whether one node reaches another: no pair needs to be
/// taken twice.
#[tactic(auto, using(crate::proofs::BoundedSearch::reaches_all))]
pub fn search_is_complete()
    ensures { (pairs : List OrderPair) (x y : Node) → (reaches_within (length pairs) pairs x y ≡ true) ↔ ReachesAlong pairs x y }
{}

/// The report of chosen labels is the whole report if all are chosen.
#[tactic(auto, using(crate::proofs::ChosenLabels::all_text))]
pub fn report_of_all_labels()
    ensures { (entries : List Entry) (trees : List Tree) → chosen_text (λ _. true) entries trees ≡ report_text entries trees }
{}
