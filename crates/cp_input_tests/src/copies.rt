// Copies of skeletons. Where the one changes, the other stays what it was.
ghost use Rattle.std.specs.Prelude.{◌≡◌, ◌≤◌, [], length, IsTrue};
ghost use Rattle.cp_model.specs.Strand.{variables_of_trace};
ghost use Rattle.cp_model.specs.PrefixVariables.{is_added, added_variables};
ghost use Rattle.cp_model.specs.Extensions.{CanExtend};

use crate::stated::{skeleton_of, text};
use cp_skel::{Event, Instance, Role, Skeleton, StrandShape, occurs, prefix_of};
use cp_term::{Sort, VarId};
use std::alloc::{AllocError, Global};
use std::test::Fail;

// An instance of the role gets its unique value only when it sends its key.
const OPENING: &str = "(defprotocol o basic \
    (defrole r (vars (n text) (k skey)) (trace (recv (enc n k)) (send n) (send k)) (uniq-orig k)))";

const UNOPENED: &str = "(defskeleton o (vars (n text) (k skey)) (defstrand r 1 (n n) (k k)))";

/// Adds a listener, and answers whether a copy that was made before stays.
fn copy_stays_alone(alloc: Global, k: &mut Skeleton) -> Result<bool, AllocError> {
    let copy = k.copy(alloc)?;
    k.add_listener(alloc, text(alloc, 0)?)?;
    Ok(k.strands().len() == 2 && copy.strands().len() == 1)
}

#[test]
fn a_listener_in_the_original(rt: HostRuntime) -> Result<(), Fail> {
    let mut k = skeleton_of(rt.alloc(), OPENING, UNOPENED)?;
    assert!(rt; copy_stays_alone(rt.alloc(), &mut k)?);
    Ok(())
}

/// Whether the variable of this sort occurs in `events` but not in `earlier`.
fn is_added(earlier: &[Event], events: &[Event], id: VarId, sort: Sort) -> bool
    ensures { result ≡ is_added (variables_of_trace earlier.now) (variables_of_trace events.now)
        (record { sort = sort; number = id }) }
{
    occurs(events, id, sort) && !occurs(earlier, id, sort)
}

/// Whether each variable that occurs in the role's prefix of length `height` occurs in that of length `before`.
fn adds_none(role: &Role, before: usize, height: usize) -> bool
    ensures { IsTrue result → added_variables role.now before height ≡ [] }
{
    let earlier = prefix_of(role, before);
    let prefix = prefix_of(role, height);
    for (number, declaration) in role.variables().iter().enumerate() {
        let id = VarId::numbered(number);
        if is_added(earlier, prefix, id, declaration.sort) {
            return false;
        }
    }
    true
}

/// Whether the instance can grow to this height without further variables.
fn grows_to(instance: &Instance, height: usize) -> bool
    ensures higher { IsTrue result → instance.now.height ≤ height }
    ensures reached { IsTrue result → height ≤ length instance.now.role.trace }
    ensures none { IsTrue result → added_variables instance.now.role instance.now.height height ≡ [] }
{
    let role = instance.role();
    let before = instance.height();
    before <= height && height <= role.trace().len() && adds_none(role, before, height)
}

/// Whether the strand is an instance that can grow to this height without further variables.
fn can_extend(k: &Skeleton, strand: usize, height: usize) -> bool
    ensures { IsTrue result → CanExtend k.now strand height [] }
{
    match k.strands().get(strand) {
        Some(strand) => match strand.shape() {
            StrandShape::Instance(instance) => grows_to(instance, height),
            StrandShape::Listener(_) => false,
        },
        None => false,
    }
}

/// Extends the first strand to this height, if that needs no further variables.
fn extend(alloc: Global, k: &mut Skeleton, height: usize) -> Result<(), Fail> {
    if !can_extend(k, 0, height) {
        return Err(Fail::new("the strand cannot grow so"));
    }
    Ok(k.extend(alloc, 0, height, &[])?)
}

/// Whether the first strand has this height and so many values are unique.
fn has(k: &Skeleton, height: usize, uniques: usize) -> bool {
    match k.strands().first() {
        Some(strand) => match strand.shape() {
            StrandShape::Instance(instance) => {
                instance.height() == height
                    && k.assumptions().uniquely_originating().len() == uniques
            }
            StrandShape::Listener(_) => false,
        },
        None => false,
    }
}

/// Extends the strand of one of two equal skeletons, and answers whether the other stays.
fn other_stays(alloc: Global, one: &mut Skeleton, other: &Skeleton) -> Result<bool, Fail> {
    let were_equal = has(one, 1, 0) && has(other, 1, 0);
    extend(alloc, one, 3)?;
    Ok(were_equal && has(one, 3, 1) && has(other, 1, 0))
}

/// Extends the strand, and answers whether a copy that was made before stays.
fn copy_stays(alloc: Global, k: &mut Skeleton) -> Result<bool, Fail> {
    let copy = k.copy(alloc)?;
    other_stays(alloc, k, &copy)
}

#[test]
fn the_original_grows(rt: HostRuntime) -> Result<(), Fail> {
    let mut k = skeleton_of(rt.alloc(), OPENING, UNOPENED)?;
    assert!(rt; copy_stays(rt.alloc(), &mut k)?);
    Ok(())
}

/// Extends the strand of a copy, and answers whether the original stays.
fn original_stays(alloc: Global, k: &Skeleton) -> Result<bool, Fail> {
    let mut copy = k.copy(alloc)?;
    other_stays(alloc, &mut copy, k)
}

#[test]
fn the_copy_grows(rt: HostRuntime) -> Result<(), Fail> {
    let k = skeleton_of(rt.alloc(), OPENING, UNOPENED)?;
    assert!(rt; original_stays(rt.alloc(), &k)?);
    Ok(())
}
