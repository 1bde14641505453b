// The law of limits. It is the contract of a function that does nothing.
ghost use Rattle.std.specs.Prelude.{◌≡◌, ◌↔◌, List};
ghost use Rattle.cp_model.specs.Strand.{Protocol};
ghost use Rattle.cp_model.specs.declared.variable.Declaration.{Declaration};
ghost use Rattle.cp_model.specs.Tree.{Tree, ReachedSteps, ReachedStrands};
ghost use Rattle.cp_model.specs.declared.tree.Outcome.TheVariants.{LimitSteps as at_step_limit, LimitStrands as at_strand_limit};
ghost use Rattle.cp_model.specs.declared.tree.Limits.{Limits};
ghost use Rattle.cp_roots.specs.declared.root.Root.{Root};
ghost use Rattle.cp_tree.specs.Searched.{IsTreeFrom};

/// The outcome of a tree is the step limit exactly if that was reached, and the strand limit exactly if that was.
pub fn limits_are_exact()
    ensures steps { (protocol : Protocol) (variables : List Declaration) (limits : Limits) (roots : List Root) (tree : Tree) → IsTreeFrom protocol variables limits roots tree → ((tree.outcome ≡ at_step_limit) ↔ ReachedSteps limits tree) }
    ensures strands { (protocol : Protocol) (variables : List Declaration) (limits : Limits) (roots : List Root) (tree : Tree) → IsTreeFrom protocol variables limits roots tree → ((tree.outcome ≡ at_strand_limit) ↔ ReachedStrands limits tree) }
{}
