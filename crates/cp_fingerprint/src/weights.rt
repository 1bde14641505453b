// The weights of the values that stand at the places of a skeleton, and how its role strands share them. The sums saturate.
ghost use Rattle.std.specs.Prelude.{◌≡◌, map, IfOk};
ghost use Rattle.cp_fingerprint.specs.SharedValues.{slots_of, weight_from, heard_weight, named_from, steepened, bucket_key_of, light_share_of};
ghost use Rattle.cp_fingerprint.specs.Weights.{weight_beside};

use crate::heard::{heard_weight, listened};
use crate::shares::shares_of;
use crate::sums::{Sums, ValueSum};
use cp_base::Growing;
use cp_skel::{Event, Skeleton, occurs};
use cp_term::{Shape, Sort, Term, var};
use std::alloc::{AllocError, Global};
use std::marker::Model;

/// The values that stand at the places of a skeleton, beside each the weight of all places at which it stands, and for each
/// strand how many places it has.
#[derive(Drop)]
pub(crate) struct Weights<'a> {
    skeleton: &'a Skeleton,
    sums: Sums,
    counts: Vec<usize>,
}

impl<'a> Model for Weights<'a> {
    ghost use Rattle.std.specs.Prelude.{◌≡◌, length, map};
    ghost use Rattle.cp_model.specs.Skeleton.{Skeleton as Plain};
    ghost use Rattle.cp_skel.specs.Code.{coded_skeleton};
    ghost use Rattle.cp_fingerprint.specs.SharedValues.{slots_of, strand_slots};
    ghost use Rattle.cp_fingerprint.specs.Weights.{AreSumsOf};

    ghost Value = { Plain };

    ghost coded = { coded_skeleton };

    ghost view = { λ w. w.skeleton.now };

    ghost invariant = { λ w. AreSumsOf (slots_of w.skeleton.now) w.sums × (w.counts.items ≡ map length (map strand_slots w.skeleton.now.strands)) };
}

/// The numbers for how the role strands of a skeleton share values.
#[derive(Clone, Copy)]
pub(crate) struct ShareNumbers {
    /// The share of the problem's places, plus the steepened share of each strand's places.
    pub(crate) bucket_key: usize,
    /// The share of each strand's places, light ones counting for more.
    pub(crate) light_share: usize,
}

/// The weight of a value apart from its own places: for being heard, which every value counts as but a variable of a sort other than
/// that of key pairs, since a variable may map to it; and for the places of its names, if it is a key. The second name of a long-term
/// key counts twice.
fn first_weight(
    alloc: Global,
    heard: &[Event],
    weights: &Weights,
    value: &Term,
) -> Result<usize, AllocError>
    ensures { IfOk result (λ n. n ≡ named_from (heard_weight heard.now value.now) value.now (slots_of weights.now)) }
{
    match value.shape() {
        Shape::Variable(id, sort) => Ok(heard_weight(
            sort == Sort::Akey || occurs(heard, id, sort),
        )),
        Shape::Ltk(a, b) => {
            let a = var(alloc, a, Sort::Name)?;
            let b = var(alloc, b, Sort::Name)?;
            let weight = weights.with(heard_weight(true), &a);
            let weight = weights.with(weight, &b);
            Ok(weights.with(weight, &b))
        }
        Shape::Pubk(_, _, a) => {
            let a = var(alloc, a, Sort::Name)?;
            Ok(weights.with(heard_weight(true), &a))
        }
        _ => Ok(heard_weight(true)),
    }
}

/// The weight of a value, of which this is the sum: for being heard, for the places of its names if it is a key, and for its own
/// places.
fn value_weight(
    alloc: Global,
    heard: &[Event],
    weights: &Weights,
    own: &ValueSum,
) -> Result<usize, AllocError>
    ensures { IfOk result (λ n. n ≡ weight_beside heard.now (slots_of weights.now) own.now) }
{
    let weight = first_weight(alloc, heard, weights, &own.value)?;
    Ok(weight.saturating_add(own.sum))
}

/// The weights of the values, of which these are the sums.
#[tactic(auto, using(crate::proofs::GrownHeights::one_made))]
fn value_weights(
    alloc: Global,
    heard: &[Event],
    weights: &Weights,
    sums: &[ValueSum],
) -> Result<Vec<usize>, AllocError>
    ensures { IfOk result (λ v. v.items ≡ map (weight_beside heard.now (slots_of weights.now)) sums.now) }
{
    let mut made = Growing::with_capacity(alloc, sums.len());
    for own in sums {
        made.push_made(value_weight(alloc, heard, weights, own));
    }
    made.finish()
}

/// The share as often as 2^16 goes into it: the more, the greater it is, and faster than it. A square would reach the greatest number
/// where some hundred values stand on one strand.
fn steepened(share: usize) -> usize
    ensures { result ≡ steepened share }
{
    share.saturating_mul(share / 65_536)
}

impl<'a> Weights<'a> {
    /// The weights of the values at the places of a skeleton.
    pub(crate) fn of(alloc: Global, k: &'a Skeleton) -> Result<Weights<'a>, AllocError>
        ensures { IfOk result (λ w. w ≡ k.now) }
    {
        let mut sums = Sums::new(alloc)?;
        sums.add_values(k.from_problem().values())?;
        let counts = sums.add_strands(alloc, k.strands())?;
        Ok(Weights {
            skeleton: k,
            sums,
            counts,
        })
    }

    /// The weight `first` plus the weights of the places at which the value stands.
    fn with(&self, first: usize, value: &Term) -> usize
        ensures { result ≡ weight_from first value.now (slots_of self.now) }
    {
        match self.sums.find(value) {
            Some(number) => first.saturating_add(self.sums.sums[number].sum),
            None => first,
        }
    }

    /// The numbers for how the role strands share values.
    pub(crate) fn share_numbers(&self, alloc: Global) -> Result<ShareNumbers, AllocError>
        ensures bucket_key { IfOk result (λ n. n.bucket_key ≡ bucket_key_of self.now) }
        ensures light_share { IfOk result (λ n. n.light_share ≡ light_share_of self.now) }
    {
        let heard = listened(alloc, self.skeleton.strands())?;
        let weights = value_weights(alloc, &heard, self, &self.sums.sums)?;
        let given = self.skeleton.from_problem().values().len();
        let (own, mut rest) = self.sums.places.split_at(given);
        let mut bucket_key = shares_of(own, &weights).heavy;
        let mut light_share: usize = 0;
        for count in &self.counts {
            let (own, later) = rest.split_at(*count);
            let shares = shares_of(own, &weights);
            bucket_key = bucket_key.saturating_add(steepened(shares.heavy));
            light_share = light_share.saturating_add(shares.light);
            rest = later;
        }
        Ok(ShareNumbers {
            bucket_key,
            light_share,
        })
    }
}
