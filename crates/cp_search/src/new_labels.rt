// Makes labels.
ghost use Rattle.std.specs.Prelude.{◌≡◌, ◌<◌, length, true, false, None, IfSome, OnOk};
ghost use Rattle.cp_general.specs.Generalisation.{IsMaximallyGeneral};
ghost use Rattle.cp_search.specs.MadeLabels.{AddsMade, AddsGeneral};
ghost use Rattle.cp_search.specs.WaitingRecords.{KeepsRecords};

use crate::made::Made;
use crate::waiting::Queue;
use cp_derive::unrealised_of;
use cp_fingerprint::Signature;
use cp_skel::{ListedSkeleton, Nodes, Operation, Skeleton};
use std::alloc::{AllocError, Global};

/// Appends a label, whose events are listed once. `general` may be set only if no step of generalising applies to it.
pub(crate) fn make(
    alloc: Global,
    queue: &mut Queue,
    parent: Option<usize>,
    operation: Operation,
    skeleton: Skeleton,
    general: bool,
) -> Result<(), AllocError>
    requires parent { IfSome parent (λ p. p < length queue.old.made) }
    requires general { general ≡ true → IsMaximallyGeneral skeleton }
    ensures general { OnOk result (AddsGeneral general queue.old.made queue.new.made) }
    ensures made { OnOk result (AddsMade (record { parent = parent; operation = operation; skeleton = skeleton; dead = false }) queue.old.made queue.new.made) }
    ensures kept { OnOk result (KeepsRecords queue.old queue.new) }
{
    let signature = Signature::of(alloc, &skeleton)?;
    let events = skeleton.own_events(alloc)?;
    let receptions = unrealised_of(alloc, &ListedSkeleton::with_events(&skeleton, &events))?;
    queue.push(
        alloc,
        Made {
            parent,
            operation,
            skeleton,
            general,
            dead: false,
            signature,
            seen_in: None,
            unrealised: Nodes::of(receptions),
            waiting: None,
        },
        events,
    )
}

/// Appends a label that is dead from the start.
pub(crate) fn make_dead(
    alloc: Global,
    queue: &mut Queue,
    operation: Operation,
    skeleton: Skeleton,
) -> Result<(), AllocError>
    ensures made { OnOk result (AddsMade (record { parent = None; operation = operation; skeleton = skeleton; dead = true }) queue.old.made queue.new.made) }
    ensures kept { OnOk result (KeepsRecords queue.old queue.new) }
{
    let signature = Signature::of(alloc, &skeleton)?;
    queue.push(
        alloc,
        Made {
            parent: None,
            operation,
            skeleton,
            general: false,
            dead: true,
            signature,
            seen_in: None,
            unrealised: Nodes::new(alloc),
            waiting: None,
        },
        Vec::new(alloc),
    )
}
