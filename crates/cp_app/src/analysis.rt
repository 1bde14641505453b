// Searches every problem of an input.
ghost use Rattle.std.specs.Prelude.{◌≡◌, ◌<◌, ◌^◌, length, map, IfOk};
ghost use Rattle.std.specs.List.{filter_map};
ghost use Rattle.cp_load.specs.Inputs.{problem_view, entry_view};
ghost use Rattle.cp_language.specs.Problems.{Problem as PlainProblem};
ghost use Rattle.cp_language.specs.Input.{stated};
ghost use Rattle.cp_lists.specs.Lists.{IsIn};
ghost use Rattle.cp_app.specs.Analysis.{HaveFewVariables, IsAnalysable, IsAnalysisOf};
ghost use Rattle.cp_app.specs.Headline.{HaveTrees, SaysOutcomes};
ghost use Rattle.cp_app.specs.Steps.{is_complete, outcomes_status};

use cp_load::{Entry, Problem};
use cp_printable::search_trees_can_be_stated;
use cp_search::search;
use cp_skel::{Label, Limits, Outcome, Tree};
use std::alloc::{AllocError, Global};

// A label has fewer than 2^64 variables: its table can say how many it has.
fn has_few_variables(label: &Label)
    ensures { length label.now.skeleton.variables < 2 ^ 64 }
{
    let _ = label.skeleton.variables().len();
}

// The same for each of these labels.
fn have_few_variables(labels: &[Label])
    ensures { HaveFewVariables labels.now }
{
    for label in labels {
        has_few_variables(label);
    }
}

// Searches one problem and returns its tree.
fn tree_of(alloc: Global, problem: &Problem, limits: Limits) -> Result<Tree, AllocError>
    requires analysable { IsAnalysable (problem_view problem.now) }
    ensures { IfOk result (λ t. IsAnalysisOf limits (problem_view problem.now) t) }
{
    let tree = search(alloc, &problem.protocol, &problem.skeleton, limits)?;
    have_few_variables(tree.labels.as_slice());
    problem.protocol.is_sound();
    search_trees_can_be_stated();
    Ok(tree)
}

// Searches the problem of each entry that has one, in order, and returns one tree for each.
pub(crate) fn trees_of(
    alloc: Global,
    entries: &[Entry<'_>],
    limits: Limits,
) -> Result<Vec<Tree>, AllocError>
    requires analysable { (p : PlainProblem) → IsIn p (filter_map stated (map entry_view entries.now)) → IsAnalysable p }
    ensures { IfOk result (λ ts. HaveTrees (IsAnalysisOf limits) (map entry_view entries.now) ts.items) }
{
    let mut trees = Vec::new(alloc);
    for entry in entries {
        let Some(problem) = entry.problem() else {
            continue;
        };
        let tree = tree_of(alloc, problem, limits)?;
        trees.push(tree)?;
    }
    Ok(trees)
}

// Whether the outcome is complete.
pub(crate) fn is_complete(outcome: Outcome) -> bool
    ensures { result ≡ is_complete outcome }
{
    match outcome {
        Outcome::Complete => true,
        Outcome::LimitSteps | Outcome::LimitStrands => false,
    }
}

// Whether every outcome is complete.
pub(crate) fn are_complete(trees: &[Tree]) -> bool
    ensures { SaysOutcomes (outcomes_status result) trees.now }
{
    for tree in trees {
        if !is_complete(tree.outcome) {
            return false;
        }
    }
    true
}
