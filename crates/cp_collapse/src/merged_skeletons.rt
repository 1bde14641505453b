// The collapses of a skeleton.
ghost use Rattle.std.specs.Prelude.{◌≡◌, ◌<◌, ◌⊎◌, ◌∷◌, IfOk, MatchOption};
ghost use Rattle.cp_model.specs.Bundle.{Bundle, IsBundle};
ghost use Rattle.cp_model.specs.Homomorphism.{IsCompleteList};
ghost use Rattle.cp_lists.specs.Lists.{IsIn};
ghost use Rattle.cp_model.specs.Skeleton.{IsSkeleton, Skeleton};
ghost use Rattle.cp_model.specs.declared.node.OrderPair.{OrderPair as Pair};
ghost use Rattle.cp_model.specs.Standing.{Standing, StandsIn, StandsApart};
ghost use Rattle.cp_model.specs.Strand.{Protocol};
ghost use Rattle.cp_model.specs.Declares.{HasDeclaredPrefixes};
ghost use Rattle.cp_skel.specs.Sound.{IsSound};
ghost use Rattle.cp_collapse.specs.Collapses.{LiesOnOne, IsCollapsed, HasNoCycle, IsImpossible, AreCollapses, StandsThroughCollapse};
ghost use Rattle.cp_collapse.specs.MergedParts.{parts_view, with_listed};
ghost use Rattle.cp_collapse.specs.Partials.{IsExact};
ghost use Rattle.cp_collapse.specs.Partitions.{IsPartitionByRole};

use crate::cycles::some_closes;
use crate::images::{Way, assumption_images, from_problem_image, pair_images, some_lies_backward};
use crate::merged_strands::merged_strands;
use crate::partitions::{Partial, partitions};
use cp_skel::{Assumptions, FromProblem, OrderPair, Skeleton, Strand};
use std::alloc::{AllocError, Global};

/// The parts of a skeleton after the strands of each block are merged, except its variables, which stay.
#[derive(Drop)]
pub(crate) struct Parts {
    strands: Vec<Strand>,
    pairs: Vec<OrderPair>,
    assumptions: Assumptions,
    from_problem: FromProblem,
}

/// The parts of the skeleton with the strands of each block merged, if no pair comes to lie backward. Once its assumptions are in
/// report order, it is the collapsed skeleton.
fn merged(alloc: Global, k: &Skeleton, partial: &Partial) -> Result<Parts, AllocError>
    requires declared { HasDeclaredPrefixes k.now }
    requires partition { IsPartitionByRole k.now partial.now.lowest.items }
    requires exact { IsExact k.now partial.now }
    requires forward { (q : Pair) → IsIn q k.now.pairs → LiesOnOne partial.now.lowest.items q → q.earlier.index < q.later.index }
    ensures { IfOk result (λ m. IsCollapsed k.now partial.now.lowest.items (with_listed (parts_view k.now.variables m))) }
{
    let lowest = &partial.lowest;
    let bindings = &partial.bindings;
    let pairs = pair_images(alloc, k.order().pairs(), lowest)?;
    let strands = merged_strands(alloc, k, partial)?;
    let way = Way {
        terms: bindings,
        lowest,
    };
    let assumptions = assumption_images(alloc, k.assumptions(), way)?;
    let from_problem = from_problem_image(alloc, k.from_problem(), way)?;
    Ok(Parts {
        strands,
        pairs,
        assumptions,
        from_problem,
    })
}

/// A skeleton of these parts, with the variables of `k` and its assumptions in report order. Its order is closed if that of `k`
/// is.
fn of_parts(alloc: Global, k: &Skeleton, parts: Parts) -> Result<Skeleton, AllocError>
    requires { IsSound (parts_view k.now.variables parts) }
    ensures skeleton { IfOk result (λ l. l ≡ with_listed (parts_view k.now.variables parts)) }
    ensures variables { IfOk result (λ l. l.variables ≡ k.now.variables) }
{
    let Parts {
        strands,
        pairs,
        assumptions,
        from_problem,
    } = parts;
    let variables = k.variables().copy()?;
    let order = k.order().with_pairs(alloc, pairs)?;
    let mut skeleton = Skeleton::new(variables, strands, order, assumptions, from_problem);
    skeleton.list_assumptions(alloc)?;
    Ok(skeleton)
}

/// The collapse by a partition; `None` if a pair comes to lie backward or the merged order has a cycle.
fn collapse(alloc: Global, k: &Skeleton, partial: &Partial) -> Result<Option<Skeleton>, AllocError>
    requires declared { HasDeclaredPrefixes k.now }
    requires partition { IsPartitionByRole k.now partial.now.lowest.items }
    requires exact { IsExact k.now partial.now }
    ensures { IfOk result (λ found. MatchOption found
        (IsImpossible k.now partial.now.lowest.items)
        (λ l. IsCollapsed k.now partial.now.lowest.items l × HasNoCycle l × (l.variables ≡ k.now.variables))) }
{
    k.is_sound();
    if some_lies_backward(k.order().pairs(), &partial.lowest) {
        return Ok(None);
    }
    let parts = merged(alloc, k, partial)?;
    if some_closes(alloc, &parts.pairs)? {
        return Ok(None);
    }
    Ok(Some(of_parts(alloc, k, parts)?))
}

/// The collapses of a skeleton, one for each way to identify strands of one role: each partition of the strands into blocks of
/// instances of one role, except the finest, whose blocks unify and whose merged order has no cycle. The unifier maps the later
/// of two variables to the earlier. A block takes its lowest place and its greatest height; places are then renumbered without
/// gaps. A pair that comes to lie forward on one strand is dropped. The assumptions of a collapse are in report order, each once.
///
/// A partition is written as a list that gives for each strand the lowest strand of its block. The collapses come in descending
/// order of these lists.
pub fn collapses(alloc: Global, k: &Skeleton) -> Result<Vec<Skeleton>, AllocError>
    ensures exact { IfOk result (λ ls. AreCollapses k.now ls.items) }
    ensures covers { IfOk result (λ ls. (protocol : Protocol) → IsSkeleton protocol k.now → IsCompleteList protocol k.now (k.now ∷ ls.items)) }
    ensures through { IfOk result (λ ls. (protocol : Protocol) (b : Bundle) (h : Standing) → IsSkeleton protocol k.now → IsBundle protocol b → StandsIn k.now b h
        → StandsApart k.now h ⊎ StandsThroughCollapse k.now ls.items b h) }
    ensures variables { IfOk result (λ ls. (l : Skeleton) → IsIn l ls.items → l.variables ≡ k.now.variables) }
{
    k.is_sound();
    let partials = partitions(alloc, k)?;
    let mut collapses = Vec::new(alloc);
    // The first partition is the finest.
    for number in 1..partials.len() {
        let collapsed = match collapse(alloc, k, &partials[number])? {
            Some(collapsed) => collapsed,
            None => continue,
        };
        collapses.push(collapsed)?;
    }
    Ok(collapses)
}
