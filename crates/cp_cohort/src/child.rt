// Children of a test.
ghost use Rattle.std.specs.Prelude.{◌≡◌, ◌++◌, map, IfOk, OnOk};
ghost use Rattle.cp_model.specs.Skeleton.{Skeleton};
ghost use Rattle.cp_cohort.specs.CoveringChildren.{child};
ghost use Rattle.cp_cohort.specs.Views.{operation_of_made};

use crate::PartialSolution;
use cp_skel::{Node, Operation, Skeleton};
use cp_term::Path;
use std::alloc::AllocError;

/// A child of a test: its skeleton; the operation that made it; and the path at which the event named by the operation (for an
/// added strand, its last event) carries the critical term. The path of a listener's child is empty.
#[derive(Drop)]
pub struct Child {
    pub skeleton: Skeleton,
    pub operation: Operation,
    pub path: Path,
}

/// How a child is made. Strands and nodes are numbered as in the child's own skeleton.
#[derive(Clone, Copy)]
pub(crate) enum Made {
    Contracted(Node),
    Displaced(Node),
    AddedStrand(usize),
    AddedListener(usize),
}

impl Made {
    /// The operation, as a report names it.
    fn operation(self) -> Operation
        ensures { result ≡ operation_of_made self }
    {
        match self {
            Made::Contracted(node) => Operation::Contracted(node),
            Made::Displaced(node) => Operation::Displaced(node),
            Made::AddedStrand(strand) => Operation::AddedStrand(strand),
            Made::AddedListener(strand) => Operation::AddedListener(strand),
        }
    }
}

/// Makes a child of a skeleton.
fn as_child(skeleton: Skeleton, made: Made, path: &Path) -> Result<Child, AllocError>
    ensures { IfOk result (λ c. c ≡ child (operation_of_made made) path.now skeleton) }
{
    path.copy().map(|path| Child {
        skeleton,
        operation: made.operation(),
        path,
    })
}

/// Something from which a child's skeleton can be taken.
pub(crate) trait HasSkeleton {
    /// The child's skeleton.
    ghost skeleton: { Self → Skeleton };

    /// Takes the skeleton out.
    fn into_skeleton(self) -> Skeleton
        ensures { result ≡ skeleton self };
}

impl HasSkeleton for Skeleton {
    ghost skeleton = { λ k. k };

    fn into_skeleton(self) -> Skeleton {
        self
    }
}

impl HasSkeleton for PartialSolution {
    ghost skeleton = { λ x. x.skeleton };

    fn into_skeleton(self) -> Skeleton {
        self.skeleton
    }
}

/// Appends the skeleton of each item as a child.
pub(crate) fn put_children<T: HasSkeleton + Drop>(
    made_of: Vec<T>,
    made: Made,
    path: &Path,
    children: &mut Vec<Child>,
) -> Result<(), AllocError>
    ensures { OnOk result (children.new.items ≡ children.old.items
        ++ map (λ x. child (operation_of_made made) path.now (T.skeleton x)) made_of.items) }
{
    let mut rest = made_of;
    rest.reverse();
    while let Some(next) = rest.pop() {
        let child = as_child(next.into_skeleton(), made, path)?;
        children.push(child)?;
    }
    Ok(())
}
