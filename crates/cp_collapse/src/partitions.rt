// Partitions of a skeleton's strands into blocks of instances of one role, built strand by strand.
ghost use Rattle.std.specs.Prelude.{◌≡◌, ◌↔◌, ◌+◌, ◌<◌, ◌++◌, ◌∷◌, [], ℕ, List, Some, length, IsTrue, IfOk, OnOk, IfSome, IfNone, MatchOption};
ghost use Rattle.cp_lists.specs.Lists.{item_at, IsIn};
ghost use Rattle.cp_model.specs.Strand.{Role as PlainRole};
ghost use Rattle.cp_model.specs.Bindings.{Binding};
ghost use Rattle.cp_model.specs.Skeleton.{instance, Skeleton as PlainSkeleton};
ghost use Rattle.cp_unify.specs.Bindings.{Meets};
ghost use Rattle.cp_model.specs.Declares.{HasDeclaredPrefixes};
ghost use Rattle.cp_strand.specs.View.{instance_view};
ghost use Rattle.cp_collapse.specs.FirstPartitions.{IsPartitionOfFirst, AreKeptApart, AreApart, IsExactFor, EqualAt};
ghost use Rattle.cp_collapse.specs.Partials.{AreSolved, IsOfNoAssignment, IsExact, ArePartials, ArePartlyExtended, Joins, MayNotJoin};
ghost use Rattle.cp_collapse.specs.Partitions.{AreOfOneRole, IdentifiesValues, AreDescending};
ghost use Rattle.cp_collapse.specs.Collapses.{IsNeverIdentified};
ghost use Rattle.cp_collapse.specs.Property.{Has};

use crate::equal_values::unify_instances;
use crate::kept_apart::{Apart, all_apart, apart_from};
use cp_skel::{Instance, Skeleton, Strand, StrandShape, is_same_role};
use cp_unify::Subst;
use std::alloc::{AllocError, Global};
use std::rc::Rc;

/// A partition of the first strands, given as the lowest strand of each strand's block, with bindings that identify the strands
/// of each block.
#[derive(Drop)]
pub(crate) struct Partial {
    pub(crate) lowest: Vec<usize>,
    pub(crate) bindings: Rc<Subst>,
}

/// The role instance on the strand with this number, if it is one.
pub(crate) fn instance_at(strands: &[Strand], number: usize) -> Option<&Instance>
    ensures some { IfSome result (λ i. item_at strands.now number ≡ Some (instance_view i.now)) }
    ensures none { IfNone result ((role : PlainRole) (height : ℕ) (terms : List Binding)
        → item_at strands.now number ≡ Some (instance role height terms) → ⊥) }
{
    let Some(strand) = strands.get(number) else {
        return None;
    };
    match strand.shape() {
        StrandShape::Instance(instance) => Some(instance),
        StrandShape::Listener(_) => None,
    }
}

/// Whether two strands are instances of one role.
fn are_of_one_role(strands: &[Strand], s: usize, t: usize) -> bool
    ensures { IsTrue result ↔ AreOfOneRole strands.now s t }
{
    let Some(first) = instance_at(strands, s) else {
        return false;
    };
    let Some(second) = instance_at(strands, t) else {
        return false;
    };
    is_same_role(first.role(), second.role())
}

/// Most general bindings that imply the given ones and make the values of two strands of one role equal, if there are any.
fn unify_strands(
    alloc: Global,
    k: &Skeleton,
    s: usize,
    t: usize,
    given: &Rc<Subst>,
) -> Result<Option<Rc<Subst>>, AllocError>
    requires declared { HasDeclaredPrefixes k.now }
    requires alike { AreOfOneRole k.now.strands s t }
    requires solved { AreSolved given.now.value }
    ensures { IfOk result (λ found. MatchOption found
        (IsOfNoAssignment (λ g. Meets g given.now.value × EqualAt k.now s t g))
        (λ r. IsExactFor (λ g. Meets g given.now.value × EqualAt k.now s t g) r.value)) }
{
    let Some(first) = instance_at(k.strands(), s) else {
        unreachable!();
    };
    let Some(second) = instance_at(k.strands(), t) else {
        unreachable!();
    };
    unify_instances(alloc, first, second, given)
}

/// Most general bindings that identify the strands of each block after strand `number` joins a block of instances of its role;
/// `None` if their values are never equal.
fn unify_block(
    alloc: Global,
    k: &Skeleton,
    partial: &Partial,
    block: usize,
    number: usize,
) -> Result<Option<Rc<Subst>>, AllocError>
    requires declared { HasDeclaredPrefixes k.now }
    requires partition { IsPartitionOfFirst k.now number partial.now.lowest.items }
    requires exact { IsExact k.now partial.now }
    requires own { item_at partial.now.lowest.items block ≡ Some block }
    requires alike { AreOfOneRole k.now.strands number block }
    ensures { IfOk result (λ found. MatchOption found
        (IsNeverIdentified k.now (partial.now.lowest.items ++ (block ∷ [])))
        (λ r. IsExactFor (IdentifiesValues k.now (partial.now.lowest.items ++ (block ∷ []))) r.value)) }
{
    let mut bindings = partial.bindings.clone()?;
    for strand in block..partial.lowest.len() {
        if !is_in_block(partial, strand, block) {
            continue;
        }
        match unify_strands(alloc, k, strand, number, &bindings)? {
            Some(next) => bindings = next,
            None => return Ok(None),
        }
    }
    Ok(Some(bindings))
}

/// The numbers, followed by one more.
fn with_entry(alloc: Global, lowest: &[usize], entry: usize) -> Result<Vec<usize>, AllocError>
    ensures { IfOk result (λ v. v.items ≡ lowest.now ++ (entry ∷ [])) }
{
    let mut entries = Vec::from_slice(alloc, lowest)?;
    entries.push(entry)?;
    Ok(entries)
}

/// Whether a strand is in the block whose lowest strand is `block`.
pub(crate) fn is_in_block(partial: &Partial, strand: usize, block: usize) -> bool
    ensures { IsTrue result ↔ (item_at partial.now.lowest.items strand ≡ Some block) }
{
    match partial.lowest.get(strand) {
        Some(lowest) => *lowest == block,
        None => false,
    }
}

/// Whether one of these strands is in the block whose lowest strand is `block`.
fn some_in_block(partial: &Partial, strands: &[usize], block: usize) -> bool
    ensures { IsTrue result ↔ Has (λ t. item_at partial.now.lowest.items t ≡ Some block) strands.now }
{
    strands
        .iter()
        .any(|strand| is_in_block(partial, *strand, block))
}

/// The partition with one more strand, alone in its block.
fn alone(alloc: Global, partial: &Partial, number: usize) -> Result<Partial, AllocError>
    ensures { IfOk result (λ q. (k : PlainSkeleton) → IsPartitionOfFirst k number partial.now.lowest.items
        → IsExact k partial.now → Joins k number partial.now.lowest.items number q) }
{
    Ok(Partial {
        lowest: with_entry(alloc, &partial.lowest, number)?,
        bindings: partial.bindings.clone()?,
    })
}

/// The partition after one more strand joins a block, if it may. The order keeps the strand apart from the given ones.
fn join(
    alloc: Global,
    k: &Skeleton,
    partial: &Partial,
    block: usize,
    number: usize,
    apart: &[usize],
) -> Result<Option<Partial>, AllocError>
    requires declared { HasDeclaredPrefixes k.now }
    requires partition { IsPartitionOfFirst k.now number partial.now.lowest.items }
    requires exact { IsExact k.now partial.now }
    requires earlier { block < number }
    requires apart { (t : ℕ) → IsIn t apart.now → AreKeptApart k.now number t }
    ensures { IfOk result (λ found. MatchOption found
        (MayNotJoin k.now number partial.now.lowest.items block)
        (λ q. Joins k.now number partial.now.lowest.items block q)) }
{
    if !is_in_block(partial, block, block) {
        return Ok(None);
    }
    if !are_of_one_role(k.strands(), number, block) {
        return Ok(None);
    }
    if some_in_block(partial, apart, block) {
        return Ok(None);
    }
    match unify_block(alloc, k, partial, block, number)? {
        Some(bindings) => Ok(Some(Partial {
            lowest: with_entry(alloc, &partial.lowest, block)?,
            bindings,
        })),
        None => Ok(None),
    }
}

/// Appends the partitions that one more strand gives: first the one in which it is alone, then those in which it joins a block,
/// from the highest block down.
fn extend(
    alloc: Global,
    k: &Skeleton,
    partial: &Partial,
    number: usize,
    apart: &[usize],
    next: &mut Vec<Partial>,
) -> Result<(), AllocError>
    requires declared { HasDeclaredPrefixes k.now }
    requires partition { IsPartitionOfFirst k.now number partial.now.lowest.items }
    requires exact { IsExact k.now partial.now }
    requires apart { (t : ℕ) → IsIn t apart.now → AreKeptApart k.now number t }
    ensures { OnOk result ((ps : List (List ℕ)) (i : ℕ) → item_at ps i ≡ Some partial.now.lowest.items → AreDescending ps
        → ArePartlyExtended k.now number ps i (number + 1) next.old.items → ArePartlyExtended k.now number ps i 0 next.new.items) }
{
    next.push(alone(alloc, partial, number)?)?;
    for block in (0..number).rev() {
        let joined = match join(alloc, k, partial, block, number, apart)? {
            Some(joined) => joined,
            None => continue,
        };
        next.push(joined)?;
    }
    Ok(())
}

/// The partitions of one strand more.
fn round(
    alloc: Global,
    k: &Skeleton,
    partials: &[Partial],
    number: usize,
    all_apart: &[Apart],
) -> Result<Vec<Partial>, AllocError>
    requires declared { HasDeclaredPrefixes k.now }
    requires partials { ArePartials k.now number partials.now }
    requires apart { AreApart k.now all_apart.now }
    ensures { IfOk result (λ next. ArePartials k.now (number + 1) next.items) }
{
    let apart = apart_from(alloc, all_apart, number)?;
    let mut next = Vec::new(alloc);
    for partial in partials {
        extend(alloc, k, partial, number, &apart, &mut next)?;
    }
    Ok(next)
}

/// The partitions of the strands into blocks of instances of one role whose values can be equal, in descending order, without
/// those that put two strands into one block that the order keeps apart.
pub(crate) fn partitions(alloc: Global, k: &Skeleton) -> Result<Vec<Partial>, AllocError>
    requires { HasDeclaredPrefixes k.now }
    ensures { IfOk result (λ partials. ArePartials k.now (length k.now.strands) partials.items) }
{
    let apart = all_apart(alloc, k)?;
    let mut partials = Vec::new(alloc);
    partials.push(Partial {
        lowest: Vec::new(alloc),
        bindings: Rc::new(alloc, Subst::new(alloc))?,
    })?;
    for number in 0..k.strands().len() {
        partials = round(alloc, k, &partials, number, &apart)?;
    }
    Ok(partials)
}
