// Skeletons with larger tables of variables.
ghost use Rattle.std.specs.Prelude.{◌≡◌, List, ◌++◌, IfOk};
ghost use Rattle.cp_model.specs.declared.variable.Declaration.{Declaration};

use cp_skel::Skeleton;
use cp_term::{VarId, VarTable};
use std::alloc::{AllocError, Global};

/// The skeleton with the variables of a table that starts with the skeleton's own.
pub(crate) fn with_variables(
    alloc: Global,
    k: &Skeleton,
    variables: &VarTable,
) -> Result<Skeleton, AllocError>
    requires more { (more : List Declaration) × (variables.now ≡ k.now.variables ++ more) }
    ensures { IfOk result (λ l. l ≡ record k.now { variables = variables.now }) }
{
    let mut grown = k.copy(alloc)?;
    for number in k.variables().len()..variables.len() {
        let next = VarId::numbered(number);
        grown.declare(variables.root(next), variables.sort(next))?;
    }
    Ok(grown)
}
