// Receptions whose messages are not derivable.
ghost use Rattle.std.specs.Prelude.{◌≡◌, ◌<◌, ◌≤◌, length, take, drop, IfOk};
ghost use Rattle.cp_skel.specs.Events.{events_of};
ghost use Rattle.cp_derive.specs.Picked.{Picks};
ghost use Rattle.cp_derive.specs.Unrealised.{ListsUnrealised};

use crate::knowledge::buildable;
use crate::known_before::KnownBefore;
use crate::survey::Survey;
use cp_skel::{Event, ListedSkeleton, LocatedEvent, Node, OrderPair, Skeleton};
use std::alloc::{AllocError, Global};

/// The receptions among the events from `start` to `end` whose messages are not derivable there, in order, and what is known
/// after them.
fn unrealised_between<'a>(
    alloc: Global,
    mut known_before: KnownBefore<'a>,
    start: usize,
    end: usize,
) -> Result<(Vec<Node>, KnownBefore<'a>), AllocError>
    requires start { start ≤ end }
    requires end { end ≤ length (events_of known_before.skeleton) }
    ensures picks { IfOk result (λ r. Picks known_before.entry.skeleton (drop start (take end (events_of known_before.entry.skeleton))) r.0.items) }
    ensures skeleton { IfOk result (λ r. r.1.skeleton ≡ known_before.entry.skeleton) }
{
    let survey = known_before.survey();
    let (left, _) = survey.events().split_at(end);
    let (_, occurrences) = left.split_at(start);
    let mut nodes = Vec::new(alloc);
    for occurrence in occurrences {
        let Event::Receive(message) = occurrence.event() else {
            continue;
        };
        let at = occurrence.node();
        if known_before.derives_at_once(message, at) {
            continue;
        }
        known_before = known_before.move_to(alloc, at)?;
        if buildable(known_before.known(), message) {
            continue;
        }
        nodes.push(at)?;
    }
    Ok((nodes, known_before))
}

/// Where the events on the last strand begin.
fn start_of_last(occurrences: &[LocatedEvent<'_>]) -> usize
    requires { 0 < length occurrences.now }
    ensures { result < length occurrences.now }
{
    let mut start = occurrences.len() - 1;
    while start > 0 && occurrences[start - 1].node().strand == occurrences[start].node().strand {
        start -= 1;
    }
    start
}

/// Whether most pairs lead from a strand to a later one, so that strands are mostly in temporal order.
fn are_in_order(pairs: &[OrderPair]) -> bool {
    let behind = pairs
        .iter()
        .filter(|pair| pair.earlier.strand < pair.later.strand)
        .count();
    behind > pairs.len() / 2
}

/// Where the events to be visited next begin: at 0 if strands are in temporal order, otherwise where those on the last strand
/// begin.
fn start_of_next(occurrences: &[LocatedEvent<'_>], in_order: bool) -> usize
    requires { 0 < length occurrences.now }
    ensures { result < length occurrences.now }
{
    if in_order {
        return 0;
    }
    start_of_last(occurrences)
}

/// The receptions among all events whose messages are not derivable there. Strands are visited in temporal order, so that
/// knowledge grows: from the last to the first, since a search appends what comes before; or from the first to the last, if most
/// pairs lead that way.
fn unrealised_by_strand(alloc: Global, survey: &Survey<'_>) -> Result<Vec<Node>, AllocError>
    ensures { IfOk result (λ nodes. ListsUnrealised survey.now nodes.items) }
{
    let occurrences = survey.events();
    let in_order = are_in_order(survey.skeleton().order().pairs());
    let mut known_before = KnownBefore::new(alloc, survey)?;
    let mut nodes = Vec::new(alloc);
    let mut end = occurrences.len();
    while end > 0 {
        let (left, _) = occurrences.split_at(end);
        let start = start_of_next(left, in_order);
        let (mut more, next) = unrealised_between(alloc, known_before, start, end)?;
        more.reverse();
        nodes.append(&mut more)?;
        known_before = next;
        end = start;
    }
    nodes.reverse();
    Ok(nodes)
}

/// The receptions, listeners' included, whose messages are not derivable there, by strand, then by index.
pub fn unrealised(alloc: Global, k: &Skeleton) -> Result<Vec<Node>, AllocError>
    ensures listed { IfOk result (λ nodes. ListsUnrealised k.now nodes.items) }
{
    let listed = ListedSkeleton::of(alloc, k)?;
    unrealised_of(alloc, &listed)
}

/// The receptions of a skeleton whose events are listed, as [`unrealised`] lists them.
pub fn unrealised_of(alloc: Global, k: &ListedSkeleton<'_>) -> Result<Vec<Node>, AllocError>
    ensures listed { IfOk result (λ nodes. ListsUnrealised k.now nodes.items) }
{
    let survey = Survey::new(alloc, k)?;
    unrealised_by_strand(alloc, &survey)
}
