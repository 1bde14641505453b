// Examples of forms without misfits whose labels fit, and of others whose labels do not.
ghost use Rattle.std.specs.Prelude.{◌≡◌, []};
ghost use Rattle.cp_model.specs.Senders.{ArePaired};
ghost use Rattle.cp_report.specs.FittingTrees.{TreeFits, problems_in};
ghost use Rattle.cp_report.specs.ReadBack.{misfits, report_of};
ghost use Rattle.cp_readback.specs.AcceptedLabels.{HasWholeLabels, HasCompleteLabels};
ghost use Rattle.cp_readback.specs.SmallReports.{listed_report, renamed_report, unlisted_report};

/// Forms without misfits need not denote labels that fit. In the first report the label has the variable of its problem and the
/// assumption that the problem states itself (`listed`, `whole`). In the second the variable has another identifier, so the tree
/// does not fit (`renamed`, `other_variables`), but the report can be stated again under other names (`complete`). In the third
/// the assumption is left out, so the tree does not fit (`unlisted`, `no_assumption`). None of the three reports has a misfit.
pub fn accepted_reports_need_not_fit()
    ensures listed { misfits listed_report ≡ [] }
    ensures whole { ArePaired HasWholeLabels (problems_in (report_of listed_report).entries) (report_of listed_report).trees }
    ensures renamed { misfits renamed_report ≡ [] }
    ensures complete { ArePaired HasCompleteLabels (problems_in (report_of renamed_report).entries) (report_of renamed_report).trees }
    ensures other_variables { ArePaired TreeFits (problems_in (report_of renamed_report).entries) (report_of renamed_report).trees → ⊥ }
    ensures unlisted { misfits unlisted_report ≡ [] }
    ensures no_assumption { ArePaired TreeFits (problems_in (report_of unlisted_report).entries) (report_of unlisted_report).trees → ⊥ }
{}
