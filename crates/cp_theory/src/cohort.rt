//! The cohort law: the answers to an authentication test leave out no execution.
ghost use Rattle.std.specs.Prelude.{List, []};
ghost use Rattle.cp_model.specs.Term.{Term};
ghost use Rattle.cp_model.specs.Strand.{Protocol};
ghost use Rattle.cp_model.specs.Bundle.{Bundle, IsBundle};
ghost use Rattle.cp_model.specs.declared.node.Node.{Node};
ghost use Rattle.cp_model.specs.Skeleton.{Skeleton, IsSkeleton};
ghost use Rattle.cp_model.specs.Standing.{Standing, StandsIn, StandsApart};
ghost use Rattle.cp_model.specs.Homomorphism.{FactorsThrough, Covers};
ghost use Rattle.cp_model.specs.Tree.{Pattern};
ghost use Rattle.cp_theory.specs.Critical.{IsTest};
ghost use Rattle.cp_theory.specs.Guards.{Guards};
ghost use Rattle.cp_theory.specs.Covering.{IsCovering};
ghost use Rattle.cp_theory.specs.NoneLeftOut.{IsComplete, IsMapInRange};

/// Skeletons that cover a test, under patterns that guard it, leave out no standing of the tested skeleton: whenever it stands
/// apart in a bundle, one of them does, by a standing through which the tested skeleton's factors. So if there are none, the
/// skeleton stands apart in no bundle.
pub fn covering_leaves_none_out()
    ensures { (protocol : Protocol) (k : Skeleton) (n : Node) (c : Term) (ps : List Pattern) (ks : List Skeleton) → IsSkeleton protocol k → IsTest k n c → Guards ps k n c → IsCovering protocol k n c ps ks → IsComplete protocol k ks }
{}

/// If a list leaves out no standing of a skeleton, each standing of a problem that factors through the skeleton factors through
/// one of the list. If the list is empty, the skeleton stands apart in no bundle.
pub fn none_left_out_factors()
    ensures covers { (protocol : Protocol) (problem k : Skeleton) (ks : List Skeleton) (b : Bundle) (f h : Standing) → IsMapInRange k → IsComplete protocol k ks → IsBundle protocol b → StandsIn k b h → StandsApart k h
        → FactorsThrough problem f k h → Covers ks problem b f }
    ensures nowhere { (protocol : Protocol) (k : Skeleton) → IsComplete protocol k [] → (b : Bundle) (h : Standing) → IsBundle protocol b → StandsIn k b h → StandsApart k h → ⊥ }
{}
