// The steps by which a release is solved.
ghost use Rattle.std.specs.Prelude.{◌≡◌, IfOk};
ghost use Rattle.cp_cohort.specs.Candidates.{form_or_result, BecomesNormalForms, SolvesInto};

use crate::branches::branches;
use crate::conditions::{first_outside_before, is_released_inside};
use crate::encryptions::encryptions_above;
use crate::release::{PartialSolution, Release};
use cp_normal::{Candidate, Form, FormsBeside, Rewriting, forms_beside};
use std::alloc::{AllocError, Global};

/// A partial solution for which the conditions are to be tested, and whether it is known to be a normal form.
#[derive(Drop)]
pub struct Attempt {
    pub tried: PartialSolution,
    pub is_normal: bool,
}

/// A normal form of a partial solution, on which the conditions are tested again unless they are known to hold.
fn form_or_result(form: Form, is_settled: bool) -> Candidate<Attempt, PartialSolution>
    ensures { result ≡ form_or_result is_settled form }
{
    let Form {
        skeleton,
        substitution,
    } = form;
    let tried = PartialSolution {
        skeleton,
        substitution,
    };
    if is_settled {
        return Candidate::Done(tried);
    }
    Candidate::Open(Attempt {
        tried,
        is_normal: true,
    })
}

/// The normal forms of a partial solution for which both conditions hold. The conditions speak of strands and substitution alone,
/// so if the normal forms keep these, the conditions hold of them too.
fn normal_forms(
    alloc: Global,
    tried: PartialSolution,
) -> Result<Vec<Candidate<Attempt, PartialSolution>>, AllocError>
    ensures { IfOk result (λ made. BecomesNormalForms tried made.items) }
{
    let PartialSolution {
        skeleton,
        substitution,
    } = tried;
    let found = forms_beside(alloc, skeleton, substitution)?;
    let FormsBeside { forms, are_settled } = found;
    let mut made = Vec::with_capacity(alloc, forms.len())?;
    for form in forms {
        made.push(form_or_result(form, are_settled))?;
    }
    Ok(made)
}

impl<'a> Rewriting for Release<'a> {
    type Item = Attempt;

    type Done = PartialSolution;

    ghost becomes = { SolvesInto };

    /// Nothing if the position of the release is inside the patterns; the branches if an earlier event carries the term outside
    /// them; otherwise the partial solution itself if it is normal, and its normal forms if not.
    fn step(
        &self,
        alloc: Global,
        attempt: Attempt,
    ) -> Result<Vec<Candidate<Attempt, PartialSolution>>, AllocError> {
        let Attempt { tried, is_normal } = attempt;
        if is_released_inside(alloc, self, &tried)? {
            return Ok(Vec::new(alloc));
        }
        match first_outside_before(alloc, self, &tried)? {
            Some((term, path)) => {
                let encryptions = encryptions_above(alloc, &term, &path)?;
                branches(alloc, &tried, &encryptions, self.patterns)
            }
            None => {
                if !is_normal {
                    return normal_forms(alloc, tried);
                }
                Ok(vec![in alloc; Candidate::Done(tried)]?)
            }
        }
    }
}
