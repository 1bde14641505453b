// Patterns: their locals, and their other variables.
ghost use Rattle.std.specs.Prelude.{◌≡◌, ◌++◌, [], IfOk, OnOk};
ghost use Rattle.cp_model.specs.Term.{variables_of};
ghost use Rattle.cp_language.specs.Printed.{locals_in_order};
ghost use Rattle.cp_language.specs.Report.{variables_but, variables_of_patterns};

use crate::occurrences::add_term;
use cp_model::{Variable, has_variable};
use cp_term::Pattern;
use std::alloc::{AllocError, Global};

/// The variables of a pattern.
fn variables_of(alloc: Global, pattern: &Pattern) -> Result<Vec<Variable>, AllocError>
    ensures { IfOk result (λ variables. variables.items ≡ variables_of pattern.now.term) }
{
    let mut variables = Vec::new(alloc);
    add_term(pattern.term(), &mut variables).map(|_| variables)
}

/// Appends the variables, except the locals.
fn add_variables_but(
    locals: &[Variable],
    variables: &[Variable],
    out: &mut Vec<Variable>,
) -> Result<(), AllocError>
    ensures { OnOk result (out.new.items ≡ out.old.items ++ variables_but locals.now variables.now) }
{
    for variable in variables {
        if !has_variable(locals, *variable) {
            out.push(*variable)?;
        }
    }
    Ok(())
}

/// Appends the variables of patterns, except their locals.
pub(crate) fn add_patterns(
    alloc: Global,
    patterns: &[Pattern],
    out: &mut Vec<Variable>,
) -> Result<(), AllocError>
    ensures { OnOk result (out.new.items ≡ out.old.items ++ variables_of_patterns patterns.now) }
{
    for pattern in patterns {
        let variables = variables_of(alloc, pattern)?;
        add_variables_but(pattern.locals(), &variables, out)?;
    }
    Ok(())
}

/// The locals in order of occurrence, each once.
fn locals_in_order(
    alloc: Global,
    locals: &[Variable],
    variables: &[Variable],
) -> Result<Vec<Variable>, AllocError>
    ensures { IfOk result (λ found. found.items ≡ locals_in_order locals.now [] variables.now) }
{
    let mut found = Vec::new(alloc);
    for variable in variables {
        if has_variable(locals, *variable) && !has_variable(&found, *variable) {
            found.push(*variable)?;
        }
    }
    Ok(found)
}

/// The locals of a pattern in order of occurrence, each once.
pub fn locals_of(alloc: Global, pattern: &Pattern) -> Result<Vec<Variable>, AllocError>
    ensures { IfOk result (λ found. found.items ≡ locals_in_order pattern.now.locals [] (variables_of pattern.now.term)) }
{
    let variables = variables_of(alloc, pattern)?;
    locals_in_order(alloc, pattern.locals(), &variables)
}
