// An example of a tree that is the same as a true tree and is not true.
ghost use Rattle.cp_model.specs.Tree.{IsTrueOf};
ghost use Rattle.cp_tree.specs.Example.{heard_tree, one_step_limits};
ghost use Rattle.cp_report.specs.UpToNames.{IsSameTree};
ghost use Rattle.cp_printable.specs.Example.{heard_problem};
ghost use Rattle.cp_printable.specs.PairedTree.{paired_tree};

use cp_tree::heard_encryption_has_a_tree;

/// Equal orders alone do not make a tree true. The tree of the problem in which an encryption is heard is true of that problem. The
/// second tree is the same, except that its first label has a pair from the reception of the listener to the transmission of the
/// same listener. That pair changes no order, but no skeleton may have it, so the second tree is not true of the problem.
#[tactic(auto, using(crate::proofs::ExamplePairs::paired_same, crate::proofs::ExamplePairs::paired_untrue))]
pub fn equal_orders_are_not_enough()
    ensures truth { IsTrueOf heard_problem.protocol heard_problem.skeleton one_step_limits heard_tree }
    ensures same { IsSameTree heard_tree paired_tree }
    ensures untrue { IsTrueOf heard_problem.protocol heard_problem.skeleton one_step_limits paired_tree → ⊥ }
{
    heard_encryption_has_a_tree();
}
