// The variables of a label: which of them occur, and what each is called.
ghost use Rattle.std.specs.Prelude.{◌≡◌, ◌++◌, length, IfOk, OnOk};
ghost use Rattle.cp_language.specs.Names.{label_names};
ghost use Rattle.cp_language.specs.Report.{variables_of_test, occurring};
ghost use Rattle.cp_names.specs.Flags.{AreFlagsOf};

use crate::flags::flags_of;
use crate::locals::add_patterns;
use crate::names::{declarations, label_names};
use crate::occurrences::{add_events, add_term};
use cp_scope::Variable;
use cp_skel::{Declaration, Label, Test, used_terms};
use cp_term::Text;
use std::alloc::{AllocError, Global};

/// Appends the variables of a test.
fn add_test_variables(test: &Option<Test>, out: &mut Vec<Variable>) -> Result<(), AllocError>
    ensures { OnOk result (out.new.items ≡ out.old.items ++ variables_of_test test.now) }
{
    match test {
        Some(test) => add_term(&test.critical, out),
        None => Ok(()),
    }
}

/// Room for the variables of most label forms, repetitions included.
const ROOM: usize = 60;

/// The variables that occur in a label form.
fn occurring(alloc: Global, label: &Label) -> Result<Vec<Variable>, AllocError>
    ensures { IfOk result (λ xs. xs.items ≡ occurring label.now) }
{
    let used = used_terms(alloc, &label.skeleton)?;
    let mut variables = Vec::with_capacity(alloc, ROOM)?;
    add_events(&used, &mut variables)?;
    add_test_variables(&label.test, &mut variables)?;
    add_patterns(alloc, label.escape.as_slice(), &mut variables).map(|_| variables)
}

/// A label's variables by number: how each is declared, whether it occurs, and its name.
#[derive(Drop)]
pub struct LabelVariables {
    pub declared: Vec<Declaration>,
    pub flags: Vec<bool>,
    pub names: Vec<Text>,
}

/// The variables of a label. `of_problem` are the names of the problem's variables.
pub fn variables_of_label(
    alloc: Global,
    of_problem: &[Text],
    label: &Label,
) -> Result<LabelVariables, AllocError>
    ensures declared { IfOk result (λ xs. xs.declared.items ≡ label.now.skeleton.variables) }
    ensures flags { IfOk result (λ xs. AreFlagsOf (occurring label.now) (length label.now.skeleton.variables) xs.flags.items) }
    ensures names { IfOk result (λ xs. xs.names.items ≡ label_names of_problem.now (occurring label.now) label.now.skeleton.variables) }
{
    let declared = declarations(alloc, label.skeleton.variables())?;
    let occurring = occurring(alloc, label)?;
    let flags = flags_of(alloc, declared.len(), &occurring)?;
    let names = label_names(alloc, of_problem, &flags, &declared)?;
    Ok(LabelVariables {
        declared,
        flags,
        names,
    })
}
