// Resolves realised labels.
ghost use Rattle.std.specs.Prelude.{◌<◌, length, IfOk, OnOk};
ghost use Rattle.cp_search.specs.GeneralLabels.{ResolvesRealised};
ghost use Rattle.cp_search.specs.WaitingRecords.{KeepsRecords};

use crate::new_labels::make;
use crate::resolved::Resolved;
use crate::waiting::Queue;
use cp_general::generalised;
use cp_skel::Operation;
use cp_tree::generalised_labels_are_sound;
use std::alloc::{AllocError, Global};

/// Resolves a realised label. If a step of generalising applies to it, the label of its generalisation is appended, and it
/// generalises to that; otherwise it is a leaf whose mark is open.
pub(crate) fn resolve_realised(
    alloc: Global,
    queue: &mut Queue,
    number: usize,
) -> Result<Resolved, AllocError>
    requires there { number < length queue.old.made }
    ensures resolved { IfOk result (ResolvesRealised number queue.old.made queue.new.made) }
    ensures kept { OnOk result (KeepsRecords queue.old queue.new) }
{
    generalised_labels_are_sound();
    queue.made.are_found();
    let label = queue.made.label(number);
    if label.general {
        return Ok(Resolved::Leaf(None));
    }
    let Some(skeleton) = generalised(alloc, &label.skeleton)? else {
        return Ok(Resolved::Leaf(None));
    };
    let child = queue.made.len();
    make(
        alloc,
        queue,
        Some(number),
        Operation::Generalised,
        skeleton,
        true,
    )?;
    Ok(Resolved::Generalised(child))
}
