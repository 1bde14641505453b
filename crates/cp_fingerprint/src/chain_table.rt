// A table of the nodes of a skeleton, in which the weights of heaviest chains are found. A number in it counts for the nodes behind it
// on its strand too, for each one more than for the node before. The sums saturate.
ghost use Rattle.std.specs.Prelude.{◌≡◌, ◌<◌, [], ◌∷◌, length, get_or, IfOk};
ghost use Rattle.cp_fingerprint.specs.ChainTable.{places_on, starts_from, place_in, next_weight, weight_on, weight_in, EndWithin, Raises, Settles, weights_on, weights_of, weights_from};

use cp_base::Growing;
use cp_skel::{Node, OrderPair, Strand, StrandShape};
use std::alloc::{AllocError, Global};

/// How many places a strand has: one for each node.
fn places_on(strand: &Strand) -> usize
    ensures { result ≡ places_on strand.now }
{
    match strand.shape() {
        StrandShape::Instance(instance) => instance.height(),
        StrandShape::Listener(_) => 2,
    }
}

/// The number at this place, or 0 past the end.
pub(crate) fn number_at(numbers: &[usize], place: usize) -> usize
    ensures { result ≡ get_or numbers.now place 0 }
{
    match numbers.get(place) {
        Some(number) => *number,
        None => 0,
    }
}

/// The first place of each strand, and the place past the end.
pub(crate) fn starts_of(alloc: Global, strands: &[Strand]) -> Result<Vec<usize>, AllocError>
    ensures { IfOk result (λ starts. starts.items ≡ starts_from 0 strands.now) }
{
    let mut starts = Growing::with_capacity(alloc, strands.len().saturating_add(1));
    let mut start: usize = 0;
    for strand in strands {
        starts.push(start);
        start = start.saturating_add(places_on(strand));
    }
    starts.push(start);
    starts.finish()
}

/// The place of a node.
fn place_in(starts: &[usize], node: Node) -> usize
    ensures { result ≡ place_in starts.now node }
{
    number_at(starts, node.strand).saturating_add(node.index)
}

/// The weight at a place, where the place before it on its strand has this weight.
fn next_weight(weights: &[usize], place: usize, weight: usize) -> usize
    ensures { result ≡ next_weight weights.now place weight }
{
    weight.saturating_add(1).max(number_at(weights, place))
}

/// The weight at the place with this index on a strand, of which `start` is the first place.
fn weight_on(weights: &[usize], start: usize, index: usize) -> usize
    ensures { result ≡ weight_on weights.now start index }
{
    let mut weight = number_at(weights, start);
    for before in 0..index {
        weight = next_weight(weights, start.saturating_add(before + 1), weight);
    }
    weight
}

/// The weight of a node.
fn weight_in(starts: &[usize], weights: &[usize], node: Node) -> usize
    ensures { result ≡ weight_in starts.now weights.now node }
{
    weight_on(weights, number_at(starts, node.strand), node.index)
}

/// Raises what stands at the place of the pair's later node to one more than the weight of the earlier one, if it is less. Tells whether
/// it rose.
fn raise_along(starts: &[usize], pair: OrderPair, weights: &mut [usize]) -> bool
    requires within { place_in starts.now pair.later < length weights.old }
    ensures { Raises starts.now (pair ∷ []) weights.old weights.new result }
{
    let weight = weight_in(starts, weights, pair.earlier).saturating_add(1);
    let place = place_in(starts, pair.later);
    if number_at(weights, place) >= weight {
        return false;
    }
    weights[place] = weight;
    true
}

/// Raises the weights along the pairs, from the first to the last. Tells whether one rose.
fn raise_onward(starts: &[usize], pairs: &[OrderPair], weights: &mut [usize]) -> bool
    requires within { EndWithin (length weights.old) starts.now pairs.now }
    ensures { Raises starts.now pairs.now weights.old weights.new result }
{
    let mut rose = false;
    for pair in pairs {
        rose |= raise_along(starts, *pair, weights);
    }
    rose
}

/// Raises the weights along the pairs, from the last to the first. Tells whether one rose.
fn raise_back(starts: &[usize], pairs: &[OrderPair], weights: &mut [usize]) -> bool
    requires within { EndWithin (length weights.old) starts.now pairs.now }
    ensures { Raises starts.now pairs.now weights.old weights.new result }
{
    let mut rose = false;
    for number in (0..pairs.len()).rev() {
        rose |= raise_along(starts, pairs[number], weights);
    }
    rose
}

/// Raises the weights along all pairs until none rises. Pairs mostly stand in the order of their nodes, or, where strands were added for
/// what comes before others, in the opposite one; either way few rounds suffice.
pub(crate) fn settle(starts: &[usize], pairs: &[OrderPair], weights: &mut [usize])
    requires within { EndWithin (length weights.old) starts.now pairs.now }
    ensures { Settles starts.now pairs.now weights.old weights.new }
{
    loop {
        if !raise_back(starts, pairs, weights) {
            return;
        }
        if !raise_onward(starts, pairs, weights) {
            return;
        }
    }
}

/// The sum `first` plus so many weights, from the place `start` on.
fn weights_on(weights: &[usize], start: usize, first: usize, count: usize) -> usize
    ensures { result ≡ weights_on weights.now start first count }
{
    let mut sum = first;
    let mut weight = number_at(weights, start);
    for index in 0..count {
        sum = sum.saturating_add(weight);
        weight = next_weight(weights, start.saturating_add(index + 1), weight);
    }
    sum
}

/// The sum `first` plus the weights at the places of a role strand, of which `start` is the first. A listener adds nothing.
fn weights_of(weights: &[usize], start: usize, first: usize, strand: &Strand) -> usize
    ensures { result ≡ weights_of weights.now start first strand.now }
{
    match strand.shape() {
        StrandShape::Instance(instance) => weights_on(weights, start, first, instance.height()),
        StrandShape::Listener(_) => first,
    }
}

/// The sum of the weights at the places of role strands.
pub(crate) fn weights_from(weights: &[usize], strands: &[Strand]) -> usize
    ensures { result ≡ weights_from weights.now 0 0 strands.now }
{
    let mut start: usize = 0;
    let mut sum: usize = 0;
    for strand in strands {
        sum = weights_of(weights, start, sum, strand);
        start = start.saturating_add(places_on(strand));
    }
    sum
}
