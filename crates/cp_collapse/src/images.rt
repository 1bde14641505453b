// Images of assumptions and pairs, each once, when the strands of each block are merged.
ghost use Rattle.std.specs.Prelude.{◌≡◌, ◌↔◌, ◌≤◌, [], map, IsTrue, IfOk, OnOk};
ghost use Rattle.cp_model.specs.Given.{atoms_onto, uniques_onto};
ghost use Rattle.cp_model.specs.Term.{apply_to_atom};
ghost use Rattle.cp_unify.specs.Bindings.{as_substitution};
ghost use Rattle.cp_collapse.specs.Collapses.{unique_in, ArePairsIn, assumptions_in, IsFromProblemIn, LiesOnOne};
ghost use Rattle.cp_collapse.specs.Property.{Has};
ghost use Rattle.cp_collapse.specs.MergedStrands.{IsPutOnce};
ghost use Rattle.cp_collapse.specs.Partitions.{place_in};

use crate::block_places::{node_in, pair_in, place_in};
use crate::substituted::{Substituted, each_under};
use cp_skel::{Assumptions, Atom, FromProblem, OrderPair, UniqueAt, add_atom, add_unique};
use cp_unify::Subst;
use std::alloc::{AllocError, Global};

/// The map onto the blocks: a substitution on terms, and for each strand the lowest strand of its block.
#[derive(Clone, Copy)]
pub(crate) struct Way<'a> {
    pub(crate) terms: &'a Subst,
    pub(crate) lowest: &'a [usize],
}

/// The atoms under a substitution, in order, each once.
fn atom_images(alloc: Global, atoms: &[Atom], s: &Subst) -> Result<Vec<Atom>, AllocError>
    ensures { IfOk result (λ v. v.items ≡ atoms_onto [] (map (apply_to_atom (as_substitution s.now)) atoms.now)) }
{
    let mut images = Vec::new(alloc);
    for atom in atoms {
        let image = atom.under(alloc, s)?;
        add_atom(&mut images, image)?;
    }
    Ok(images)
}

/// A unique value under the substitution, with its recorded origin moved to the place of its strand's block.
fn unique_image(alloc: Global, unique: &UniqueAt, way: Way<'_>) -> Result<UniqueAt, AllocError>
    ensures { IfOk result (λ u. u ≡ unique_in way.entry.lowest.now (as_substitution way.entry.terms.now) unique.now) }
{
    let origin = node_in(way.lowest, unique.origin());
    unique
        .value()
        .under(alloc, way.terms)
        .map(|value| UniqueAt::new(value, origin))
}

/// The images of unique values, in order, each once.
fn unique_images(
    alloc: Global,
    uniques: &[UniqueAt],
    way: Way<'_>,
) -> Result<Vec<UniqueAt>, AllocError>
    ensures { IfOk result (λ v. v.items ≡ uniques_onto [] (map (unique_in way.entry.lowest.now (as_substitution way.entry.terms.now)) uniques.now)) }
{
    let mut images = Vec::new(alloc);
    for unique in uniques {
        let image = unique_image(alloc, unique, way)?;
        add_unique(&mut images, image)?;
    }
    Ok(images)
}

/// Appends a pair unless it is listed already.
fn put_pair(pair: OrderPair, pairs: &mut Vec<OrderPair>) -> Result<(), AllocError>
    ensures { OnOk result (IsPutOnce pair pairs.old.items pairs.new.items) }
{
    if pairs.iter().any(|other| *other == pair) {
        return Ok(());
    }
    pairs.push(pair).map_err(AllocError::from)
}

/// Whether both nodes of a pair come to lie on one strand.
fn lies_on_one(pair: &OrderPair, lowest: &[usize]) -> bool
    ensures { IsTrue result ↔ LiesOnOne lowest.now pair.now }
{
    place_in(lowest, pair.earlier.strand) == place_in(lowest, pair.later.strand)
}

/// The images of pairs, each once, without those that come to lie on one strand.
pub(crate) fn pair_images(
    alloc: Global,
    pairs: &[OrderPair],
    lowest: &[usize],
) -> Result<Vec<OrderPair>, AllocError>
    ensures { IfOk result (λ v. ArePairsIn lowest.now pairs.now v.items) }
{
    let mut images = Vec::new(alloc);
    for pair in pairs {
        if lies_on_one(pair, lowest) {
            continue;
        }
        put_pair(pair_in(lowest, pair), &mut images)?;
    }
    Ok(images)
}

/// Whether both nodes of a pair come to lie on one strand, the later node at or before the earlier one.
fn lies_backward(pair: &OrderPair, lowest: &[usize]) -> bool
    ensures { IsTrue result ↔ (LiesOnOne lowest.now pair.now × (pair.now.later.index ≤ pair.now.earlier.index)) }
{
    lies_on_one(pair, lowest) && pair.later.index <= pair.earlier.index
}

/// Whether some pair comes to lie on one strand, its later node at or before its earlier one.
pub(crate) fn some_lies_backward(pairs: &[OrderPair], lowest: &[usize]) -> bool
    ensures { IsTrue result ↔ Has (λ q. LiesOnOne lowest.now q × (q.later.index ≤ q.earlier.index)) pairs.now }
{
    pairs.iter().any(|pair| lies_backward(pair, lowest))
}

/// The images of assumptions, in order, each once.
pub(crate) fn assumption_images(
    alloc: Global,
    assumptions: &Assumptions,
    way: Way<'_>,
) -> Result<Assumptions, AllocError>
    ensures { IfOk result (λ a. a ≡ assumptions_in way.entry.lowest.now (as_substitution way.entry.terms.now) assumptions.now) }
{
    Assumptions::of(
        atom_images(alloc, assumptions.non_originating(), way.terms),
        atom_images(alloc, assumptions.penetrator_non_originating(), way.terms),
        unique_images(alloc, assumptions.uniquely_originating(), way),
    )
}

fn places_of(alloc: Global, strands: &[usize], lowest: &[usize]) -> Result<Vec<usize>, AllocError>
    ensures { IfOk result (λ v. v.items ≡ map (place_in lowest.now) strands.now) }
{
    strands
        .iter()
        .map(|strand| place_in(lowest, *strand))
        .collect(alloc)
}

/// The map from a problem, followed by the map onto the blocks.
pub(crate) fn from_problem_image(
    alloc: Global,
    from_problem: &FromProblem,
    way: Way<'_>,
) -> Result<FromProblem, AllocError>
    ensures { IfOk result (λ p. IsFromProblemIn way.entry.lowest.now (as_substitution way.entry.terms.now) from_problem.now p) }
{
    let strands = places_of(alloc, from_problem.strands(), way.lowest)?;
    let values = each_under(alloc, from_problem.values(), way.terms)?;
    let assumptions = assumption_images(alloc, from_problem.assumptions(), way)?;
    let pairs = pair_images(alloc, from_problem.pairs(), way.lowest)?;
    Ok(FromProblem::new(strands, values, assumptions, pairs))
}
