// Branches for an occurrence of the critical term outside the patterns.
ghost use Rattle.std.specs.Prelude.{◌≡◌, [], IfOk, MatchOption};
ghost use Rattle.cp_pattern.specs.Unifiers.{NeverEqual};
ghost use Rattle.cp_cohort.specs.Stages.{choices, pattern_in};
ghost use Rattle.cp_cohort.specs.Candidates.{choice_of, IsBranchByChoice, AreBranchesByChoices};

use crate::attempts::Attempt;
use crate::release::PartialSolution;
use cp_collapse::under;
use cp_normal::Candidate;
use cp_pattern::{open_pattern, unifier};
use cp_term::{Pattern, Term};
use cp_unify::{apply, compose};
use std::alloc::{AllocError, Global};

/// The branch in which an encryption matches a pattern without locals; `None` if they do not unify.
fn closed_branch(
    alloc: Global,
    tried: &PartialSolution,
    encryption: &Term,
    pattern: &Pattern,
) -> Result<Option<PartialSolution>, AllocError>
    requires { pattern.now.locals ≡ [] }
    ensures { IfOk result (λ branch. MatchOption branch
        (NeverEqual encryption.now (pattern_in tried.now pattern.now))
        (IsBranchByChoice tried.now (choice_of encryption.now pattern.now))) }
{
    let term = apply(alloc, &tried.substitution, pattern.term())?;
    match unifier(alloc, encryption, &term)? {
        Some(u) => {
            let skeleton = under(alloc, &tried.skeleton, &u)?;
            let substitution = compose(alloc, &tried.substitution, &u)?;
            Ok(Some(PartialSolution {
                skeleton,
                substitution,
            }))
        }
        None => Ok(None),
    }
}

/// The branch in which an encryption matches a pattern, whose locals become new variables; `None` if they do not unify.
fn branch(
    alloc: Global,
    tried: &PartialSolution,
    encryption: &Term,
    pattern: &Pattern,
) -> Result<Option<PartialSolution>, AllocError>
    ensures { IfOk result (λ branch. MatchOption branch
        (NeverEqual encryption.now (pattern_in tried.now pattern.now))
        (IsBranchByChoice tried.now (choice_of encryption.now pattern.now))) }
{
    if pattern.locals().is_empty() {
        return closed_branch(alloc, tried, encryption, pattern);
    }
    let mut wider = tried.skeleton.copy(alloc)?;
    let term = open_pattern(alloc, pattern, &tried.substitution, &mut wider)?;
    match unifier(alloc, encryption, &term)? {
        Some(u) => {
            let skeleton = under(alloc, &wider, &u)?;
            let substitution = compose(alloc, &tried.substitution, &u)?;
            Ok(Some(PartialSolution {
                skeleton,
                substitution,
            }))
        }
        None => Ok(None),
    }
}

/// The branches in which each of the encryptions matches each of the patterns, in order.
pub(crate) fn branches(
    alloc: Global,
    tried: &PartialSolution,
    encryptions: &[Term],
    patterns: &[Pattern],
) -> Result<Vec<Candidate<Attempt, PartialSolution>>, AllocError>
    ensures { IfOk result (λ made. AreBranchesByChoices tried.now (choices encryptions.now patterns.now) made.items) }
{
    let mut branches = Vec::new(alloc);
    for encryption in encryptions {
        for pattern in patterns {
            let next = match branch(alloc, tried, encryption, pattern)? {
                Some(next) => next,
                None => continue,
            };
            branches.push(Candidate::Open(Attempt {
                tried: next,
                is_normal: false,
            }))?;
        }
    }
    Ok(branches)
}
