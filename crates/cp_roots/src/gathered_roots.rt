// Collects the roots of a problem.
ghost use Rattle.std.specs.Prelude.{◌≡◌, IfOk, OnOk};
ghost use Rattle.cp_roots.specs.GatheredRoots.{PutsForms, PutsCollapse, AreFirstRoots};

use crate::partition::partition_of;
use crate::root::Root;
use cp_normal::normalise;
use cp_skel::{Numbers, Operation, Skeleton};
use std::alloc::{AllocError, Global};

/// A copy of the operation.
fn copy_operation(operation: &Operation) -> Result<Operation, AllocError>
    ensures { IfOk result (λ o. o ≡ operation.now) }
{
    match operation {
        Operation::Problem => Ok(Operation::Problem),
        Operation::Contracted(node) => Ok(Operation::Contracted(*node)),
        Operation::Displaced(node) => Ok(Operation::Displaced(*node)),
        Operation::AddedStrand(strand) => Ok(Operation::AddedStrand(*strand)),
        Operation::AddedListener(strand) => Ok(Operation::AddedListener(*strand)),
        Operation::Collapsed(partition) => partition
            .copy()
            .map(|partition| Operation::Collapsed(partition)),
        Operation::Generalised => Ok(Operation::Generalised),
    }
}

/// Appends a root that is not dead for each form, all made by this operation. Puts their assumptions into report order.
fn put_forms(
    alloc: Global,
    operation: &Operation,
    forms: Vec<Skeleton>,
    roots: &mut Vec<Root>,
) -> Result<(), AllocError>
    ensures { OnOk result (PutsForms operation.now forms.items roots.old.items roots.new.items) }
{
    let mut rest = forms;
    rest.reverse();
    while let Some(mut skeleton) = rest.pop() {
        skeleton.list_assumptions(alloc)?;
        let operation = copy_operation(operation)?;
        roots.push(Root {
            operation,
            skeleton,
            dead: false,
        })?;
    }
    Ok(())
}

/// The first roots of a problem: its normal forms or, if there are none, the problem itself, dead.
pub(crate) fn first_roots(alloc: Global, problem: &Skeleton) -> Result<Vec<Root>, AllocError>
    ensures { IfOk result (λ rs. AreFirstRoots problem.now problem.now.variables rs.items) }
{
    let operation = Operation::Problem;
    let forms = normalise(alloc, problem.copy(alloc)?)?;
    let mut roots = Vec::new(alloc);
    if forms.is_empty() {
        roots.push(Root {
            operation,
            skeleton: problem.copy(alloc)?,
            dead: true,
        })?;
        return Ok(roots);
    }
    put_forms(alloc, &operation, forms, &mut roots)?;
    Ok(roots)
}

/// Appends the normal forms of a collapse as roots, with the partition of the collapse.
pub(crate) fn put_collapse(
    alloc: Global,
    collapse: Skeleton,
    roots: &mut Vec<Root>,
) -> Result<(), AllocError>
    ensures { OnOk result (PutsCollapse collapse roots.old.items roots.new.items) }
{
    let partition = partition_of(alloc, collapse.from_problem().strands())?;
    let operation = Operation::Collapsed(Numbers::of(partition));
    let forms = normalise(alloc, collapse)?;
    put_forms(alloc, &operation, forms, roots)
}
