// The law of expansions. It is the contract of a function that does nothing.
ghost use Rattle.std.specs.Prelude.{List};
ghost use Rattle.cp_lists.specs.Lists.{IsIn};
ghost use Rattle.cp_model.specs.Strand.{Role, Protocol};
ghost use Rattle.cp_model.specs.declared.variable.Declaration.{Declaration};
ghost use Rattle.cp_model.specs.Skeleton.{Skeleton};
ghost use Rattle.cp_model.specs.PointOfView.{IsPointOfView};
ghost use Rattle.cp_model.specs.Declares.{DeclaresItsVariables};
ghost use Rattle.cp_tree.specs.Sound.{ExpandsSoundly};

/// Each expansion of a label of a problem is sound, if the label is sound, not dead and unrealised: the label made of each child
/// is sound, and together the children leave out no standing of the label.
pub fn expansions_are_sound()
    ensures { (protocol : Protocol) (variables : List Declaration) (k : Skeleton) → ((role : Role) → IsIn role protocol.roles → DeclaresItsVariables role) → IsPointOfView variables k → ExpandsSoundly protocol k }
{}
