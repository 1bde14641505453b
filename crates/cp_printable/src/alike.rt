// The laws that what forms denote is true, where it is the same as what is true.
ghost use Rattle.std.specs.Prelude.{◌≡◌, List, []};
ghost use Rattle.cp_lists.specs.Lists.{IsIn};
ghost use Rattle.cp_model.specs.PointOfView.{StatesItself};
ghost use Rattle.cp_model.specs.Skeleton.{Skeleton};
ghost use Rattle.cp_model.specs.Strand.{Protocol};
ghost use Rattle.cp_model.specs.declared.variable.Declaration.{Declaration};
ghost use Rattle.cp_model.specs.Tree.{Tree, IsTrueOf};
ghost use Rattle.cp_model.specs.declared.tree.Limits.{Limits};
ghost use Rattle.cp_sexpr.specs.Syntax.{Forms};
ghost use Rattle.cp_language.specs.Input.{faults_of, input_of};
ghost use Rattle.cp_report.specs.Laws.{ArePrinted, CanBeStated};
ghost use Rattle.cp_report.specs.ReadBack.{misfits, report_of};
ghost use Rattle.cp_report.specs.UpToNames.{IsReport, IsSameTree};
ghost use Rattle.cp_printable.specs.TrueTrees.{HasOrderPairs, AreTrueOf};

/// A tree that is true of a problem, and a tree that is the same except for the names of variables and the pairs that generate an
/// order: the second is true of the problem too, within the same limits. The problem states itself, over variables that are
/// declared. In each label of the second tree, each pair goes from a transmission to a reception of another strand; equal orders
/// alone do not say so.
pub fn same_trees_are_true_alike()
    ensures { (protocol : Protocol) (problem : Skeleton) (variables : List Declaration) (limits : Limits) (t u : Tree) → StatesItself variables problem → HasOrderPairs u
        → IsTrueOf protocol problem limits t → IsSameTree t u → IsTrueOf protocol problem limits u }
{}

/// The forms that are printed for well-formed input and for trees that are true of its problems denote trees that are true of the
/// problems that these forms state, within the same limits (`printed`). So do all forms that are a report of that input and those
/// trees (`denoted`). In each label of the trees that forms without misfits denote, each pair goes from a transmission to a
/// reception of another strand (`pairs`).
pub fn denoted_trees_are_true()
    ensures printed { (input : Forms) (trees : List Tree) (limits : Limits) (fs : Forms) → CanBeStated input trees → ArePrinted fs input trees
        → AreTrueOf limits (input_of input) trees → AreTrueOf limits (report_of fs).entries (report_of fs).trees }
    ensures denoted { (input : Forms) (trees : List Tree) (limits : Limits) (fs : Forms) → faults_of input ≡ [] → IsReport fs (record { entries = input_of input; trees = trees })
        → AreTrueOf limits (input_of input) trees → AreTrueOf limits (report_of fs).entries (report_of fs).trees }
    ensures pairs { (fs : Forms) → misfits fs ≡ [] → (t : Tree) → IsIn t (report_of fs).trees → HasOrderPairs t }
{}
