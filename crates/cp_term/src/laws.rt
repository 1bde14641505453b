//! Laws of the definitions. Each is the contract of a function that does nothing.
ghost use Rattle.std.specs.Prelude.{◌≡◌, ◌↔◌, Bool, true, List, Some, IsTrue};
ghost use Rattle.cp_lists.specs.Lists.{IsIn};
ghost use Rattle.cp_model.specs.Term.{Term, IsCarriedByTerm};
ghost use Rattle.cp_model.specs.Positions.{term_at, positions_where};
ghost use Rattle.cp_term.specs.Preorder.{AreInPreorder};
ghost use Rattle.cp_model.specs.Same.{same_term};
ghost use Rattle.cp_model.specs.declared.step.Step.{Step};

/// A term carries exactly what stands at some position of it.
#[tactic(auto, using(crate::proofs::PositionLaws::carried_position))]
pub fn carried_at_a_position()
    ensures { (whole part : Term) → IsCarriedByTerm part whole ↔ ((path : List Step) × (term_at whole path ≡ Some part)) }
{}

/// The positions of the terms that pass a test are exactly those at which such a term stands, each once and in
/// preorder.
#[tactic(auto, using(crate::proofs::PositionLaws::positions_found, crate::proofs::PositionLaws::positions_ordered))]
pub fn positions_are_those_found()
    ensures found { (test : Term → Bool) (whole : Term) (path : List Step)
        → IsIn path (positions_where test whole) ↔ ((t : Term) × (term_at whole path ≡ Some t) × (test t ≡ true)) }
    ensures in_preorder { (test : Term → Bool) (whole : Term) → AreInPreorder (positions_where test whole) }
{}

/// The test of equality passes exactly for equal terms.
#[tactic(auto, using(crate::proofs::SameTerms::same_Decides))]
pub fn test_of_equality()
    ensures { (a b : Term) → IsTrue (same_term a b) ↔ (a ≡ b) }
{}
