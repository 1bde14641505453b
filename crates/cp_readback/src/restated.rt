// The law that forms without misfits are a report of trees that can be stated.
ghost use Rattle.std.specs.Prelude.{◌≡◌, []};
ghost use Rattle.cp_model.specs.Senders.{ArePaired};
ghost use Rattle.cp_sexpr.specs.Syntax.{Forms};
ghost use Rattle.cp_report.specs.FittingTrees.{problems_in};
ghost use Rattle.cp_report.specs.ReadBack.{misfits, report_of};
ghost use Rattle.cp_readback.specs.AcceptedLabels.{HasCompleteLabels, CanBeRestated};

/// Forms without misfits are a report of their input and of trees that can be stated, if each label has all assumptions and pairs
/// that its problem states itself, and each label and its problem together have fewer than 2^64 variables. These trees are the
/// ones that the forms denote, except for the names of variables. It is a converse of the law that printed reports are read back.
pub fn accepted_reports_can_be_restated()
    ensures { (fs : Forms) → misfits fs ≡ [] → ArePaired HasCompleteLabels (problems_in (report_of fs).entries) (report_of fs).trees → CanBeRestated fs }
{}
