// Role strands by the names of their roles and by their heights.
ghost use Rattle.std.specs.Prelude.{◌≡◌, IfOk};
ghost use Rattle.cp_fingerprint.specs.Fingerprints.{heights_of, by_name_and_height, is_as_high};
ghost use Rattle.cp_fingerprint.specs.InTurn.{find_in_turn};

use cp_base::{Growing, Text};
use cp_skel::{Instance, Strand, StrandShape};
use std::alloc::{AllocError, Global};
use std::cmp::Ordering;

/// The name of the role of a role strand, and its height.
#[derive(Drop)]
pub struct RoleHeight {
    /// The name of the role.
    pub name: Text,
    /// The height of the strand.
    pub height: usize,
}

/// The name of an instance's role, and its height.
fn height_of(instance: &Instance) -> Result<RoleHeight, AllocError>
    ensures { IfOk result (λ h. h ≡ record { name = instance.now.role.name; height = instance.now.height }) }
{
    let height = instance.height();
    let name = instance.role().name().copy();
    name.map(|name| RoleHeight { name, height })
}

/// The names and heights of the role strands.
#[tactic(auto, using(crate::proofs::GrownHeights::one_made))]
pub(crate) fn heights_of(alloc: Global, strands: &[Strand]) -> Result<Vec<RoleHeight>, AllocError>
    ensures { IfOk result (λ v. v.items ≡ heights_of strands.now) }
{
    let mut heights = Growing::with_capacity(alloc, strands.len());
    for strand in strands {
        if let StrandShape::Instance(instance) = strand.shape() {
            heights.push_made(height_of(instance));
        }
    }
    heights.finish()
}

/// Compares the names as texts, and then the heights.
pub(crate) fn compare(one: &RoleHeight, other: &RoleHeight) -> Ordering
    ensures { result ≡ by_name_and_height one.now other.now }
{
    let by_name = one.name.as_str().cmp(other.name.as_str());
    by_name.then(one.height.cmp(&other.height))
}

/// Whether `other` is of a role of the same name, and at least as high.
fn is_as_high(one: &RoleHeight, other: &RoleHeight) -> bool
    ensures { result ≡ is_as_high one.now.name one.now.height other.now }
{
    other.height >= one.height && other.name.same(&one.name)
}

/// Whether, in one pass through `others`, each of `heights` finds in turn one of its name that is at least as high.
pub(crate) fn find_in_turn(heights: &[RoleHeight], others: &[RoleHeight]) -> bool
    ensures { result ≡ find_in_turn heights.now others.now }
{
    let mut left = heights;
    for other in others {
        let Some((one, rest)) = left.split_first() else {
            return true;
        };
        if is_as_high(one, other) {
            left = rest;
        }
    }
    left.is_empty()
}
