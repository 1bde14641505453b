// Candidates for shapes, and the marks that they get.
ghost use Rattle.std.specs.Prelude.{◌≡◌, ◌<◌, length, map, IfOk, IfSome};
ghost use Rattle.cp_search.specs.Candidates.{is_open, open_from, candidate_mark};
ghost use Rattle.cp_search.specs.TreeLabels.{AreCandidateMarks};

use crate::made::Made;
use crate::resolved::Resolved;
use cp_shapes::shapes;
use cp_skel::{Mark, Skeleton};
use std::alloc::{AllocError, Global};

/// Whether the label is a candidate: a leaf without a mark of its own.
fn is_open(settled: &Resolved) -> bool
    ensures { result ≡ is_open settled.now }
{
    match settled {
        Resolved::Leaf(None) => true,
        _ => false,
    }
}

/// The numbers of the candidates.
fn numbers(alloc: Global, made: &[Made], settled: &[Resolved]) -> Result<Vec<usize>, AllocError>
    requires { length settled.now ≡ length made.now }
    ensures { IfOk result (λ ns. ns.items ≡ map (λ c. c.number) (open_from 0 made.now settled.now)) }
{
    let mut numbers = Vec::new(alloc);
    for (number, each) in settled.iter().enumerate() {
        if !is_open(each) {
            continue;
        }
        numbers.push(number)?;
    }
    Ok(numbers)
}

/// The skeletons of the candidates.
fn skeletons<'a>(
    alloc: Global,
    made: &'a [Made],
    settled: &[Resolved],
) -> Result<Vec<&'a Skeleton>, AllocError>
    requires { length settled.now ≡ length made.now }
    ensures { IfOk result (λ ks. map (λ k. k.now) ks.items ≡ map (λ c. c.skeleton) (open_from 0 made.now settled.now)) }
{
    let mut skeletons = Vec::new(alloc);
    for (number, each) in settled.iter().enumerate() {
        if !is_open(each) {
            continue;
        }
        skeletons.push(&made[number].skeleton)?;
    }
    Ok(skeletons)
}

/// The mark of a candidate: a shape if `shape` is `None`, otherwise an instance of the shape at that place.
fn candidate_mark(numbers: &[usize], shape: Option<usize>) -> Mark
    requires { IfSome shape (λ place. place < length numbers.now) }
    ensures { result ≡ candidate_mark numbers.now shape }
{
    match shape {
        Some(place) => Mark::InstanceOf(numbers[place]),
        None => Mark::Shape,
    }
}

/// The marks of the candidates, in their order.
pub(crate) fn candidate_marks(
    alloc: Global,
    made: &[Made],
    settled: &[Resolved],
) -> Result<Vec<Mark>, AllocError>
    requires { length settled.now ≡ length made.now }
    ensures { IfOk result (λ marks. AreCandidateMarks (open_from 0 made.now settled.now) marks.items) }
{
    let numbers = numbers(alloc, made, settled)?;
    let skeletons = skeletons(alloc, made, settled)?;
    let shapes = shapes(alloc, &skeletons)?;
    let mut marks = Vec::new(alloc);
    for shape in &shapes {
        marks.push(candidate_mark(&numbers, *shape))?;
    }
    Ok(marks)
}
