// An example of a tree that can be stated.
ghost use Rattle.std.specs.Prelude.{◌<◌, ◌^◌, [], ◌∷◌, length};
ghost use Rattle.cp_lists.specs.Lists.{IsIn};
ghost use Rattle.cp_model.specs.Tree.{Label};
ghost use Rattle.cp_roots.specs.Roots.{AreRoots};
ghost use Rattle.cp_tree.specs.Example.{heard_root, heard_tree, one_step_limits};
ghost use Rattle.cp_tree.specs.Searched.{IsTreeOf};
ghost use Rattle.cp_language.specs.Report.{HasItsVariables};
ghost use Rattle.cp_report.specs.FittingTrees.{TreeFits};
ghost use Rattle.cp_printable.specs.Example.{heard_problem};

use cp_tree::heard_encryption_has_a_tree;

/// The problem in which an encryption is heard meets the premises of the law of statable trees, with the tree of two
/// labels that a search makes for it: the problem is its one root, and both labels have their variables, two and four.
/// So the tree can be stated.
#[tactic(auto, using(crate::proofs::ExampleRoots::heard_roots, crate::proofs::ExampleVariables::have_variables, crate::proofs::ExampleVariables::are_few))]
pub fn heard_encryption_can_be_stated()
    ensures roots { AreRoots heard_problem.skeleton (heard_root ∷ []) }
    ensures searched { IsTreeOf heard_problem.protocol heard_problem.skeleton heard_problem.variables one_step_limits heard_tree }
    ensures variables { (l : Label) → IsIn l heard_tree.labels → HasItsVariables heard_problem l }
    ensures few { (l : Label) → IsIn l heard_tree.labels → length l.skeleton.variables < 2 ^ 64 }
    ensures fits { TreeFits heard_problem heard_tree }
{
    heard_encryption_has_a_tree();
}
