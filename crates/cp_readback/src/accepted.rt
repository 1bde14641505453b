// The laws of trees that forms without misfits denote.
ghost use Rattle.std.specs.Prelude.{◌≡◌, ◌<◌, ◌^◌, [], length};
ghost use Rattle.cp_lists.specs.Lists.{IsIn};
ghost use Rattle.cp_model.specs.Senders.{ArePaired};
ghost use Rattle.cp_sexpr.specs.Syntax.{Forms};
ghost use Rattle.cp_language.specs.Faults.{items_of};
ghost use Rattle.cp_language.specs.Problems.{Problem};
ghost use Rattle.cp_report.specs.FittingTrees.{TreeFits, problems_in};
ghost use Rattle.cp_report.specs.Laws.{ArePrinted, CanBeStated};
ghost use Rattle.cp_report.specs.ReadBack.{sections_of, input_forms, misfits, report_of};
ghost use Rattle.cp_report.specs.UpToNames.{IsReport};
ghost use Rattle.cp_readback.specs.AcceptedLabels.{TreeIsAccepted, HasWholeLabels};

/// Forms without misfits denote labels in which everything that a label form states fits. Each label is a skeleton over the
/// protocol with a map from the problem. The variables that occur in it are declared, and all nodes, strands and labels that it
/// names exist. Its patterns are patterns, and parents and children agree (`accepted`). The premise is that each problem has
/// fewer than 2^64 variables, so that these have different names in a report.
///
/// Two properties of labels that can be stated do not follow. The variables of a label need not begin with those of its problem,
/// and a label need not have all assumptions and pairs that the problem states itself. If the labels have these properties, and
/// fewer than 2^64 variables each, the trees fit their problems (`fits`), and the report can be stated again (`stated`). The forms
/// that are then printed are a report, the same one except for the names of variables, the places of forms, and the pairs that
/// generate an order (`printed`).
pub fn accepted_reports_fit()
    ensures accepted { (fs : Forms) → misfits fs ≡ [] → ((p : Problem) → IsIn p (problems_in (report_of fs).entries) → length p.variables < 2 ^ 64)
        → ArePaired TreeIsAccepted (problems_in (report_of fs).entries) (report_of fs).trees }
    ensures fits { (fs : Forms) → misfits fs ≡ [] → ArePaired HasWholeLabels (problems_in (report_of fs).entries) (report_of fs).trees
        → ArePaired TreeFits (problems_in (report_of fs).entries) (report_of fs).trees }
    ensures stated { (fs : Forms) → misfits fs ≡ [] → ArePaired HasWholeLabels (problems_in (report_of fs).entries) (report_of fs).trees
        → CanBeStated (input_forms (sections_of (items_of fs)).sections) (report_of fs).trees }
    ensures printed { (fs gs : Forms) → misfits fs ≡ [] → ArePaired HasWholeLabels (problems_in (report_of fs).entries) (report_of fs).trees
        → ArePrinted gs (input_forms (sections_of (items_of fs)).sections) (report_of fs).trees → IsReport gs (report_of fs) }
{}
