//! Laws: matching by ground messages is decided, and an assignment keeps inside what is inside the patterns.
ghost use Rattle.std.specs.Prelude.{List, Bool};
ghost use Rattle.cp_model.specs.Message.{Key, Message};
ghost use Rattle.cp_model.specs.Term.{Term, Assignment, Substitution, after};
ghost use Rattle.cp_model.specs.Tree.{Pattern};
ghost use Rattle.cp_model.specs.declared.step.Step.{Step};
ghost use Rattle.cp_theory.specs.Inside.{IsInside, IsBroughtInside, TellsProtected};

/// Some test tells which encryptions the patterns protect.
pub fn matching_is_decided()
    ensures { (ps : List Pattern) (g : Assignment) → (test : Message → Key → Bool) × TellsProtected ps g test }
{}

/// If a position is inside the patterns, every assignment brings it inside.
pub fn values_bring_inside()
    ensures { (ps : List Pattern) (s : Substitution) (g : Assignment) (t : Term) (path : List Step) → IsInside ps s t path → IsBroughtInside ps (after g s) g t path }
{}
