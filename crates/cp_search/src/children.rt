// Makes the labels of a test's children.
ghost use Rattle.std.specs.Prelude.{◌≡◌, ◌<◌, length, map, IfOk, OnOk};
ghost use Rattle.cp_model.specs.Problem.{numbers_from};
ghost use Rattle.cp_tree.specs.Made.{made_of_child};
ghost use Rattle.cp_search.specs.MadeLabels.{AddsMade, AddMade};
ghost use Rattle.cp_search.specs.WaitingRecords.{KeepsRecords};

use crate::new_labels::make;
use crate::waiting::Queue;
use cp_cohort::Child;
use std::alloc::{AllocError, Global};

/// Appends the label of one child, with its assumptions listed in report order.
fn make_child(
    alloc: Global,
    queue: &mut Queue,
    parent: usize,
    child: Child,
) -> Result<(), AllocError>
    requires parent { parent < length queue.old.made }
    ensures made { OnOk result (AddsMade (made_of_child parent child) queue.old.made queue.new.made) }
    ensures kept { OnOk result (KeepsRecords queue.old queue.new) }
{
    let Child {
        mut skeleton,
        operation,
        path: _,
    } = child;
    skeleton.list_assumptions(alloc)?;
    make(alloc, queue, Some(parent), operation, skeleton, false)
}

/// Appends the labels of the children of a label's test, in order, each with its assumptions listed in report order. Returns
/// their numbers.
pub(crate) fn make_children(
    alloc: Global,
    queue: &mut Queue,
    parent: usize,
    children: Vec<Child>,
) -> Result<Vec<usize>, AllocError>
    requires parent { parent < length queue.old.made }
    ensures made { OnOk result (AddMade (map (made_of_child parent) children.items) queue.old.made queue.new.made) }
    ensures numbers { IfOk result (λ numbers. numbers.items ≡ numbers_from (length queue.old.made) children.items) }
    ensures kept { OnOk result (KeepsRecords queue.old queue.new) }
{
    queue.made.are_found();
    let first = queue.made.len();
    for child in children {
        make_child(alloc, queue, parent, child)?;
    }
    (first..queue.made.len()).collect(alloc)
}
