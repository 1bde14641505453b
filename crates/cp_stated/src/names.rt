// The variables of a problem under their names in a report.
ghost use Rattle.std.specs.Prelude.{◌≡◌, nat_lt, length, IfOk};
ghost use Rattle.cp_load.specs.UncheckedProblems.{unchecked_view};
ghost use Rattle.cp_report.specs.Skeletons.{named_declarations, problem_variables};

use cp_base::Text;
use cp_load::UncheckedProblem;
use cp_names::problem_names;
use cp_skel::Declaration;
use cp_spelled::Variables;
use cp_term::{VarId, VarTable};
use std::alloc::{AllocError, Global};

/// Whether the table has a variable with this number.
fn has_variable(table: &VarTable, number: usize) -> bool
    ensures { result ≡ nat_lt number (length table.now) }
{
    number < table.len()
}

/// The variables of a table under these names.
fn named_declarations(
    alloc: Global,
    names: &[Text],
    table: &VarTable,
) -> Result<Variables, AllocError>
    ensures { IfOk result (λ v. v ≡ named_declarations names.now table.now) }
{
    let mut variables = Variables::new(alloc);
    for (number, name) in names.iter().enumerate() {
        if !has_variable(table, number) {
            return Ok(variables);
        }
        let id = VarId::numbered(number);
        let identifier = name.copy()?;
        let sort = table.sort(id);
        variables.push(alloc, Declaration { identifier, sort })?;
    }
    Ok(variables)
}

/// The variables of a problem under their names in a report.
pub fn problem_variables(alloc: Global, problem: &UncheckedProblem) -> Result<Variables, AllocError>
    ensures { IfOk result (λ v. v ≡ problem_variables (unchecked_view problem.now)) }
{
    let table = &problem.skeleton.variables;
    let names = problem_names(alloc, problem.declared, table)?;
    named_declarations(alloc, &names, table)
}
