// Rewriting, and the results to which an item comes by it.
ghost use Rattle.std.specs.Prelude.{◌≡◌, ◌↔◌, ℕ, List, IsTrue, IfOk};
ghost use Rattle.cp_normal.specs.Leaves.{LeavesOf, EachHasLeaves, Falls, IsRound, IsUnfinished, HasOpen, results_in};
ghost use Rattle.cp_normal.specs.declared.rewriting.Candidate.{Candidate};
ghost use Rattle.cp_normal.specs.declared.rewriting.Candidate.TheVariants as variants;

use std::alloc::{AllocError, Global};
use std::marker::Brand;

/// An item that is still to be rewritten, or a result.
#[derive(Drop)]
pub enum Candidate<I, D> {
    Open(I),
    Done(D),
}

/// A way of rewriting items.
pub trait Rewriting {
    type Item: Drop;

    type Done: Drop;

    /// What may take the place of an item.
    ghost becomes: { Self → Self.Item → List (Candidate Self.Item Self.Done) → Type 0 };

    /// What takes the place of an item, in order.
    fn step(
        &self,
        alloc: Global,
        item: Self::Item,
    ) -> Result<Vec<Candidate<Self::Item, Self::Done>>, AllocError>
        ensures { IfOk result (λ made. becomes self.now item made.items) };
}

/// A number for each item.
pub trait Ranking<I> {
    ghost rank: { I → ℕ };
}

impl<I> Ranking<I> for Brand {
    ghost rank = { λ _. 0 };
}

/// One step for each open candidate. What it becomes takes its place in the list.
fn round<R: Rewriting>(
    alloc: Global,
    rewriting: &R,
    candidates: Vec<Candidate<R::Item, R::Done>>,
) -> Result<Vec<Candidate<R::Item, R::Done>>, AllocError>
    ensures { IfOk result (λ next. IsRound (R.becomes rewriting.now) candidates.items next.items) }
{
    let mut next = Vec::with_capacity(alloc, candidates.len())?;
    for candidate in candidates {
        match candidate {
            Candidate::Open(item) => next.append(&mut rewriting.step(alloc, item)?)?,
            Candidate::Done(result) => next.push(Candidate::Done(result))?,
        }
    }
    Ok(next)
}

fn is_open<I, D>(candidate: &Candidate<I, D>) -> bool
    ensures { IsTrue result ↔ IsUnfinished candidate.now }
{
    matches!(candidate, Candidate::Open(_))
}

/// Whether some candidate is open.
pub(crate) fn some_is_open<I, D>(candidates: &[Candidate<I, D>]) -> bool
    ensures { IsTrue result ↔ HasOpen candidates.now }
{
    for candidate in candidates {
        if is_open(candidate) {
            return true;
        }
    }
    false
}

/// The results among the candidates, in order.
fn results<I: Drop, D: Drop>(
    alloc: Global,
    candidates: Vec<Candidate<I, D>>,
) -> Result<Vec<D>, AllocError>
    ensures { IfOk result (λ results. results.items ≡ results_in candidates.items) }
{
    let mut results = Vec::with_capacity(alloc, candidates.len())?;
    for candidate in candidates {
        if let Candidate::Done(result) = candidate {
            results.push(result)?;
        }
    }
    Ok(results)
}

/// The results to which candidates come, those of the first and then those of the others. The proof of a call picks a number for
/// each item that falls with each step.
pub(crate) fn each_leaves<R: Rewriting, N: Ranking<R::Item>>(
    alloc: Global,
    rewriting: &R,
    mut candidates: Vec<Candidate<R::Item, R::Done>>,
) -> Result<Vec<R::Done>, AllocError>
    requires { Falls (R.becomes rewriting.now) N.rank }
    ensures { IfOk result (λ leaves. EachHasLeaves (R.becomes rewriting.now) candidates.items leaves.items) }
{
    while some_is_open(&candidates) {
        candidates = round(alloc, rewriting, candidates)?;
    }
    results(alloc, candidates)
}

/// The results to which an item comes, branch by branch. The proof of a call picks a number for each item that falls with each
/// step.
pub fn leaves<R: Rewriting, N: Ranking<R::Item>>(
    alloc: Global,
    rewriting: &R,
    item: R::Item,
) -> Result<Vec<R::Done>, AllocError>
    requires { Falls (R.becomes rewriting.now) N.rank }
    ensures { IfOk result (λ leaves. LeavesOf (R.becomes rewriting.now) (variants.Open item) leaves.items) }
{
    let candidates = rewriting.step(alloc, item)?;
    each_leaves::<R, N>(alloc, rewriting, candidates)
}
