// Flags for the variables that occur.
ghost use Rattle.std.specs.Prelude.{◌≡◌, get_or, replicate, false, IfOk};
ghost use Rattle.cp_names.specs.Flags.{flagged_variables};

use cp_scope::Variable;
use std::alloc::{AllocError, Global};

/// For each number below the count whether a variable with that number is among these.
pub(crate) fn flags_of(
    alloc: Global,
    count: usize,
    variables: &[Variable],
) -> Result<Vec<bool>, AllocError>
    ensures { IfOk result (λ flags. flags.items ≡ flagged_variables variables.now (replicate count false)) }
{
    let mut flags = vec![in alloc; false; count]?;
    for variable in variables {
        let number = variable.number;
        if number < flags.len() {
            flags[number] = true;
        }
    }
    Ok(flags)
}

/// Whether there is a flag at this number.
pub fn is_flagged(flags: &[bool], number: usize) -> bool
    ensures { result ≡ get_or flags.now number false }
{
    number < flags.len() && flags[number]
}
