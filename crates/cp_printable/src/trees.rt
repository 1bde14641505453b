// The law that what a search makes can be stated.
ghost use Rattle.std.specs.Prelude.{◌<◌, ◌^◌, length};
ghost use Rattle.cp_lists.specs.Lists.{IsIn};
ghost use Rattle.cp_model.specs.Strand.{Role};
ghost use Rattle.cp_model.specs.PointOfView.{IsPointOfView};
ghost use Rattle.cp_model.specs.Tree.{Label, Tree, IsTrueOf};
ghost use Rattle.cp_model.specs.declared.tree.Limits.{Limits};
ghost use Rattle.cp_model.specs.Declares.{DeclaresItsVariables};
ghost use Rattle.cp_tree.specs.Searched.{IsTreeOf};
ghost use Rattle.cp_language.specs.Problems.{Problem};
ghost use Rattle.cp_language.specs.Report.{HasItsVariables};
ghost use Rattle.cp_report.specs.FittingTrees.{TreeFits};

/// The tree that a search makes for a problem can be stated in a report: each label is a skeleton over the protocol
/// with a map from the problem, each node, strand and label that it names exists, and parents and children agree.
///
/// Premises: the roles declare their variables; the problem maps to itself; the tree is true of it; and each label has
/// its variables, fewer than 2^64 of them.
pub fn search_trees_can_be_stated()
    ensures { (p : Problem) (limits : Limits) (t : Tree) → ((role : Role) → IsIn role p.protocol.roles → DeclaresItsVariables role) → IsPointOfView p.variables p.skeleton
        → IsTrueOf p.protocol p.skeleton limits t → IsTreeOf p.protocol p.skeleton p.variables limits t
        → ((l : Label) → IsIn l t.labels → HasItsVariables p l) → ((l : Label) → IsIn l t.labels → length l.skeleton.variables < 2 ^ 64) → TreeFits p t }
{}
