//! Laws of the definitions. Each is the contract of a function that does nothing.
ghost use Rattle.std.specs.Prelude.{List, ◌∷◌, [], ◌++◌};
ghost use Rattle.cp_model.specs.Term.{Term};
ghost use Rattle.cp_model.specs.Tree.{Pattern};
ghost use Rattle.cp_model.specs.declared.node.Node.{Node};
ghost use Rattle.cp_model.specs.Skeleton.{Skeleton};
ghost use Rattle.cp_model.specs.declared.step.Step.{Step};
ghost use Rattle.cp_theory.specs.Guards.{Guards};
ghost use Rattle.cp_escape.specs.WidenedPattern.{WidensBy};

/// If patterns guard a test, they still guard it together with the pattern that a child gives.
pub fn widening_keeps_guards()
    ensures { (ps : List Pattern) (k l : Skeleton) (n : Node) (c : Term) (path : List Step) (p : Pattern)
        → Guards ps k n c → WidensBy k l path p → Guards (ps ++ p ∷ []) k n c }
{}
