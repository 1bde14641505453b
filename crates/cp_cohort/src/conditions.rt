// The two conditions on a release.
ghost use Rattle.std.specs.Prelude.{◌≡◌, ◌↔◌, IsTrue, IfOk, MatchOption};
ghost use Rattle.cp_model.specs.Term.{apply_to};
ghost use Rattle.cp_cohort.specs.Releases.{came_by, IsReleasedInside, IsInsideAlone, IsFirstOutside};
ghost use Rattle.cp_cohort.specs.Conditions.{IsFirstOutsideAt, HasNoneBefore};

use crate::release::{PartialSolution, Release};
use cp_derive::message_at;
use cp_pattern::{first_outside, is_inside};
use cp_skel::Node;
use cp_term::{Path, Term};
use cp_unify::apply;
use std::alloc::{AllocError, Global};

/// Whether the position of the release is inside the patterns.
pub(crate) fn is_released_inside(
    alloc: Global,
    release: &Release,
    tried: &PartialSolution,
) -> Result<bool, AllocError>
    ensures { IfOk result (λ inside. IsTrue inside ↔ IsReleasedInside release.now tried.now) }
{
    match message_at(alloc, &tried.skeleton, release.node)? {
        Some(message) => is_inside(
            alloc,
            release.patterns,
            &tried.substitution,
            &message,
            release.path.as_slice(),
        ),
        None => Ok(false),
    }
}

/// The message of the event at this index of the release's strand, and the first position outside the patterns at which it
/// carries the term. `critical` is the release's term under the substitution.
fn first_outside_at(
    alloc: Global,
    release: &Release,
    tried: &PartialSolution,
    critical: &Term,
    index: usize,
) -> Result<Option<(Term, Path)>, AllocError>
    requires { critical.now ≡ apply_to (came_by tried.now) release.now.critical }
    ensures { IfOk result (λ found. MatchOption found
        (IsInsideAlone release.now tried.now index)
        (λ p. IsFirstOutsideAt release.now tried.now index p.0 p.1)) }
{
    let node = Node {
        strand: release.node.strand,
        index,
    };
    let Some(term) = message_at(alloc, &tried.skeleton, node)? else {
        return Ok(None);
    };
    match first_outside(
        alloc,
        release.patterns,
        &tried.substitution,
        critical,
        &term,
    )? {
        Some(path) => Ok(Some((term, path))),
        None => Ok(None),
    }
}

/// The first message before the release's node, on its strand, that carries the term outside the patterns, and the first such
/// position of it.
pub(crate) fn first_outside_before(
    alloc: Global,
    release: &Release,
    tried: &PartialSolution,
) -> Result<Option<(Term, Path)>, AllocError>
    ensures { IfOk result (λ found. MatchOption found
        (HasNoneBefore release.now tried.now)
        (λ p. IsFirstOutside release.now tried.now p.0 p.1)) }
{
    let critical = apply(alloc, &tried.substitution, release.critical)?;
    for index in 0..release.node.index {
        match first_outside_at(alloc, release, tried, &critical, index)? {
            Some(position) => return Ok(Some(position)),
            None => {}
        }
    }
    Ok(None)
}
