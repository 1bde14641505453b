// The partition of a problem's strands by the role strands to which they map.
ghost use Rattle.std.specs.Prelude.{◌≡◌, ◌↔◌, ◌⊎◌, false, IsTrue, IfOk};
ghost use Rattle.cp_model.specs.Homomorphism.{Embeds};
ghost use Rattle.cp_model.specs.Skeleton as model;
ghost use Rattle.cp_fingerprint.specs.Partition.{entry_of, partition_of, is_whole};
ghost use Rattle.cp_fingerprint.specs.PartitionNumber.{partition_number};

use crate::first_places::first_of;
use cp_skel::{Skeleton, StrandShape};
use std::alloc::{AllocError, Global};
use std::marker::Model;

/// How a skeleton's map identifies the strands of its problem: which of them map to one role strand. A skeleton that embeds in
/// another has the same partition, if its own is whole, that is, has no entry `None`. A number computed from the entries tells
/// most different partitions apart at once.
#[derive(Drop)]
pub(crate) struct Partition {
    number: usize,
    whole: bool,
    entries: Vec<Option<usize>>,
}

impl Model for Partition {
    ghost use Rattle.std.specs.Prelude.{◌≡◌, ℕ, List, Option};
    ghost use Rattle.cp_fingerprint.specs.Partition.{is_whole};
    ghost use Rattle.cp_fingerprint.specs.PartitionNumber.{partition_number};

    ghost Value = { List (Option ℕ) };

    ghost view = { λ f. f.entries.items };

    ghost invariant = { λ f. (f.number ≡ partition_number 1 f.entries.items) × (f.whole ≡ is_whole f.entries.items) };
}

/// The entry for a strand of the problem that maps to this place: if an instance stands there, the first strand of the problem
/// that maps to the same place; if a listener does, the strand's own number. `None` past the end.
fn entry(k: &Skeleton, strand: usize, place: usize) -> Option<usize>
    ensures { result ≡ entry_of k.now strand place }
{
    match k.strands().get(place)?.shape() {
        StrandShape::Instance(_) => Some(first_of(k.from_problem().strands(), place)),
        StrandShape::Listener(_) => Some(strand),
    }
}

/// A number mixed from the entries, one after another; 0 if one is `None`.
fn number_of(entries: &[Option<usize>]) -> usize
    ensures { result ≡ partition_number 1 entries.now }
{
    let mut number: usize = 1;
    for entry in entries {
        let Some(entry) = *entry else {
            return 0;
        };
        number = number.wrapping_mul(1_000_003).wrapping_add(entry);
    }
    number
}

/// Whether no entry is `None`.
fn is_whole(entries: &[Option<usize>]) -> bool
    ensures { result ≡ is_whole entries.now }
{
    for entry in entries {
        if entry.is_none() {
            return false;
        }
    }
    true
}

impl Partition {
    /// The partition of a skeleton.
    pub(crate) fn of(alloc: Global, k: &Skeleton) -> Result<Partition, AllocError>
        ensures { IfOk result (λ f. f ≡ partition_of k.now) }
    {
        let mut entries = Vec::new(alloc);
        for (strand, place) in k.from_problem().strands().iter().enumerate() {
            entries.push(entry(k, strand, *place))?;
        }
        let number = number_of(&entries);
        let whole = is_whole(&entries);
        Ok(Partition {
            number,
            whole,
            entries,
        })
    }

    /// Fast test: false only if no skeleton with this partition embeds in one with the other. It is true if this partition is not
    /// whole, or both are the same.
    pub(crate) fn may_embed(&self, other: &Partition) -> bool
        ensures exact { IsTrue result ↔ ((is_whole self.now ≡ false) ⊎ (self.now ≡ other.now)) }
        ensures kept { (a b : model.Skeleton) → partition_of a ≡ self.now → partition_of b ≡ other.now → Embeds a b → IsTrue result }
    {
        !self.whole || (self.number == other.number && self.entries == other.entries)
    }
}
