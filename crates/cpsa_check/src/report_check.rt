// From words and a report to the verdict on it.
use crate::comparison::compared;
use crate::report_text::forms_in;
use crate::stopped::Stopped;
use crate::verdict::Verdict;
use cp_readback::read_back;
use cp_search::search;
use cp_sexpr::Form;
use cp_skel::Limits;
use cp_words::{CommandName, read_command};
use std::alloc::Global;
use std::io::Read;

/// The limits that the words give.
fn limits_in(alloc: Global, words: &[String]) -> Result<Limits, Stopped> {
    let command = read_command(alloc, words)?;
    match command.name {
        CommandName::Analyse => Ok(command.limits),
        CommandName::Shapes | CommandName::Gen(_) | CommandName::Bench(_) => Err(Stopped::Usage),
    }
}

/// The verdict on the report with these forms: its trees are compared with those that the search makes of its problems.
fn verdict_on_forms(alloc: Global, limits: Limits, forms: &[Form]) -> Result<Verdict, Stopped> {
    let report = read_back(alloc, forms)?;
    let mut found = Vec::new(alloc);
    for entry in &report.entries {
        let Some(problem) = entry.problem() else {
            continue;
        };
        let tree = search(alloc, &problem.protocol, &problem.skeleton, limits)?;
        found.push(tree)?;
    }
    compared(alloc, &report.trees, &found).map_err(|error| Stopped::from(error))
}

/// The verdict on the report that is read. The words are those with which it is said to have been made.
pub(crate) fn verdict_on<R: Read + Drop>(
    alloc: Global,
    words: &[String],
    input: R,
) -> Result<Verdict, Stopped> {
    let limits = limits_in(alloc, words)?;
    let forms = forms_in(alloc, input)?;
    verdict_on_forms(alloc, limits, &forms)
}
