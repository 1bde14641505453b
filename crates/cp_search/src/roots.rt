// Makes the labels of the roots.
ghost use Rattle.std.specs.Prelude.{[], map, IfOk, OnOk};
ghost use Rattle.cp_tree.specs.Made.{made_of_root};
ghost use Rattle.cp_search.specs.MadeLabels.{AddsMade, AddMade};
ghost use Rattle.cp_search.specs.WaitingRecords.{AreKept, KeepsRecords};

use crate::new_labels::{make, make_dead};
use crate::waiting::Queue;
use cp_roots::Root;
use std::alloc::{AllocError, Global};

/// Appends the label of a root.
fn make_root(alloc: Global, queue: &mut Queue, root: Root) -> Result<(), AllocError>
    ensures made { OnOk result (AddsMade (made_of_root root) queue.old.made queue.new.made) }
    ensures kept { OnOk result (KeepsRecords queue.old queue.new) }
{
    let Root {
        operation,
        skeleton,
        dead,
    } = root;
    if dead {
        return make_dead(alloc, queue, operation, skeleton);
    }
    make(alloc, queue, None, operation, skeleton, false)
}

/// Makes the labels of the roots, in their order.
pub(crate) fn make_roots(alloc: Global, roots: Vec<Root>) -> Result<Queue, AllocError>
    ensures made { IfOk result (λ q. AddMade (map made_of_root roots.items) [] q.made) }
    ensures kept { IfOk result (AreKept 0) }
{
    let mut queue = Queue::new(alloc);
    for root in roots {
        make_root(alloc, &mut queue, root)?;
    }
    Ok(queue)
}
