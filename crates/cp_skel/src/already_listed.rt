// Whether assumptions already stand in the order in which a report lists them.
ghost use Rattle.std.specs.Prelude.{◌≡◌, ◌≤◌, ◌∷◌, [], length, map, IsTrue, IfSome};
ghost use Rattle.cp_model.specs.Given.{has_unique, uniques_onto, listed};
ghost use Rattle.cp_strand.specs.Givens.{unique_on};
ghost use Rattle.cp_skel.specs.InOrder.{ListsTo, AreCountsWithin, none_listed, these, given_from, ListEach};

use crate::assumptions::{Assumptions, UniqueAt};
use crate::gathered::Gathered;
use crate::keys::are_distinct;
use crate::skeleton::{Node, Skeleton};
use cp_strand::{Given, IndexedUnique, Strand, StrandShape, has};
use std::alloc::Global;

/// How many of the old items are listed with this one, where so many were listed before, if it stands in its place or
/// need not be listed.
fn listed_with<T: Gathered>(item: &T, old: &[T], count: usize) -> Option<usize>
    requires { count ≤ length old.now }
    ensures { IfSome result (λ n. ListsTo T.among T.onto old.now count (item.now ∷ []) n) }
{
    if count < old.len() && old[count].is_same(item) {
        return Some(count + 1);
    }
    let (before, behind) = old.split_at(count);
    if has(before, item) {
        return Some(count);
    }
    if has(behind, item) {
        return None;
    }
    Some(count)
}

/// How many of the old items are listed with these, where so many were listed before, if they stand in this order.
fn listed_with_all<T: Gathered>(stated: &[T], old: &[T], start: usize) -> Option<usize>
    requires { start ≤ length old.now }
    ensures { IfSome result (λ n. ListsTo T.among T.onto old.now start stated.now n) }
{
    let mut count = start;
    for item in stated {
        count = listed_with(item, old, count)?;
    }
    Some(count)
}

/// How many of the old unique values are listed with this one, which is given to the strand with this number, where so many
/// were listed before, if it stands in its place or need not be listed.
fn listed_with_unique(
    strand: usize,
    unique: &IndexedUnique,
    old: &[UniqueAt],
    count: usize,
) -> Option<usize>
    requires { count ≤ length old.now }
    ensures { IfSome result (λ n. ListsTo has_unique uniques_onto old.now count (unique_on strand unique.now ∷ []) n) }
{
    let origin = Node {
        strand,
        index: unique.index,
    };
    if count < old.len() && old[count].is_at(&unique.value, origin) {
        return Some(count + 1);
    }
    let Ok(value) = unique.value.copy() else {
        return None;
    };
    let stated = UniqueAt::new(value, origin);
    listed_with(&stated, old, count)
}

/// How many of the old unique values are listed with those that are given to the strand with this number, where so many
/// were listed before, if they stand in this order.
fn listed_with_uniques(
    strand: usize,
    given: &[IndexedUnique],
    old: &[UniqueAt],
    start: usize,
) -> Option<usize>
    requires { start ≤ length old.now }
    ensures { IfSome result (λ n. ListsTo has_unique uniques_onto old.now start (map (unique_on strand) given.now) n) }
{
    let mut count = start;
    for unique in given {
        count = listed_with_unique(strand, unique, old, count)?;
    }
    Some(count)
}

/// How many assumptions of each kind are listed.
#[derive(Clone, Copy)]
pub(crate) struct Counts {
    non_originating: usize,
    penetrator_non_originating: usize,
    uniquely_originating: usize,
}

/// How many of the old assumptions are listed with the problem's own, if they stand in this order.
fn listed_with_own(own: &Assumptions, old: &Assumptions) -> Option<Counts>
    ensures { IfSome result (λ n. ListEach old.now none_listed own.now n) }
{
    let non_originating = listed_with_all(own.non_originating(), old.non_originating(), 0)?;
    let penetrator_non_originating = listed_with_all(
        own.penetrator_non_originating(),
        old.penetrator_non_originating(),
        0,
    )?;
    let uniquely_originating = listed_with_all(
        own.uniquely_originating(),
        old.uniquely_originating(),
        0,
    )?;
    Some(Counts {
        non_originating,
        penetrator_non_originating,
        uniquely_originating,
    })
}

/// How many of the old assumptions are listed with what is given to the strand with this number, where so many were listed
/// before, if they stand in this order.
fn listed_with_given(
    number: usize,
    given: &Given,
    old: &Assumptions,
    start: Counts,
) -> Option<Counts>
    requires { AreCountsWithin old.now start }
    ensures { IfSome result (λ n. ListEach old.now start (these number given.now) n) }
{
    let non_originating = listed_with_all(
        &given.non_originating,
        old.non_originating(),
        start.non_originating,
    )?;
    let penetrator_non_originating = listed_with_all(
        &given.penetrator_non_originating,
        old.penetrator_non_originating(),
        start.penetrator_non_originating,
    )?;
    let uniquely_originating = listed_with_uniques(
        number,
        &given.uniquely_originating,
        old.uniquely_originating(),
        start.uniquely_originating,
    )?;
    Some(Counts {
        non_originating,
        penetrator_non_originating,
        uniquely_originating,
    })
}

/// How many of the old assumptions are listed with what its role gives the strand with this number, where so many were
/// listed before, if they stand in this order.
fn listed_with_strand(
    alloc: Global,
    number: usize,
    strand: &Strand,
    old: &Assumptions,
    start: Counts,
) -> Option<Counts>
    requires { AreCountsWithin old.now start }
    ensures { IfSome result (λ n. ListEach old.now start (given_from number (strand.now ∷ [])) n) }
{
    if let Some(given) = strand.given() {
        return listed_with_given(number, given, old, start);
    }
    let StrandShape::Instance(_) = strand.shape() else {
        return Some(start);
    };
    let Ok(given) = strand.make_given(alloc) else {
        return None;
    };
    listed_with_given(number, &given, old, start)
}

/// How many of the old assumptions are listed with what their roles give the strands, where so many were listed before,
/// if they stand in this order.
fn listed_with_strands(
    alloc: Global,
    strands: &[Strand],
    old: &Assumptions,
    start: Counts,
) -> Option<Counts>
    requires { AreCountsWithin old.now start }
    ensures { IfSome result (λ n. ListEach old.now start (given_from 0 strands.now) n) }
{
    let mut counts = start;
    for (number, strand) in strands.iter().enumerate() {
        counts = listed_with_strand(alloc, number, strand, old, counts)?;
    }
    Some(counts)
}

/// Whether the assumptions of a skeleton are seen to stand in the order in which a report lists them. Without memory they
/// may not be.
pub fn is_listed(alloc: Global, skeleton: &Skeleton) -> bool
    ensures { IsTrue result → listed skeleton.now ≡ skeleton.now.assumptions }
{
    let old = skeleton.assumptions();
    let Some(first) = listed_with_own(skeleton.from_problem().assumptions(), old) else {
        return false;
    };
    let Some(_) = listed_with_strands(alloc, skeleton.strands(), old, first) else {
        return false;
    };
    if !are_distinct(alloc, old.non_originating()) {
        return false;
    }
    if !are_distinct(alloc, old.penetrator_non_originating()) {
        return false;
    }
    are_distinct(alloc, old.uniquely_originating())
}
