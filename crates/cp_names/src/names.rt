// The names of variables in a report.
ghost use Rattle.std.specs.Prelude.{◌≡◌, ◌++◌, [], ◌∷◌, IfOk, OnOk, if◌then◌else◌};
ghost use Rattle.cp_language.specs.Names.{numbered_name, free_name, identifiers_in, problem_names};
ghost use Rattle.cp_names.specs.Flags.{label_names_by};

use crate::flags::is_flagged;
use cp_scope::NameSet;
use cp_skel::Declaration;
use cp_term::{Text, VarId, VarTable};
use itoa::Buffer;
use std::alloc::{AllocError, Global};

/// The variables of a table with their identifiers and sorts.
pub(crate) fn declarations(alloc: Global, table: &VarTable) -> Result<Vec<Declaration>, AllocError>
    ensures { IfOk result (λ ds. ds.items ≡ table.now) }
{
    let mut declarations = Vec::with_capacity(alloc, table.len())?;
    for number in 0..table.len() {
        let id = VarId::numbered(number);
        let identifier = Text::new(alloc, table.root(id))?;
        let sort = table.sort(id);
        declarations.push(Declaration { identifier, sort })?;
    }
    Ok(declarations)
}

/// The name with a hyphen and a number appended.
fn numbered_name(alloc: Global, name: &str, number: usize) -> Result<Text, AllocError>
    ensures { IfOk result (λ t. t ≡ numbered_name name.now number) }
{
    let mut text = String::from_str(alloc, name)?;
    text.push_str("-")?;
    let mut buffer = Buffer::new();
    text.push_str(buffer.format(number))?;
    Text::new(alloc, text.as_str())
}

/// The first of the name and its numbered forms that is not taken.
fn free_name(alloc: Global, taken: &NameSet, name: &str) -> Result<Text, AllocError>
    ensures { IfOk result (λ t. t ≡ free_name taken.now name.now) }
{
    if !taken.has(name) {
        return Text::new(alloc, name);
    }
    for n in 0..taken.len() {
        let numbered = numbered_name(alloc, name, n)?;
        if !taken.has(numbered.as_str()) {
            return Ok(numbered);
        }
    }
    numbered_name(alloc, name, taken.len())
}

/// Names, all of which are also taken.
#[derive(Drop)]
struct Names {
    taken: NameSet,
    names: Vec<Text>,
}

/// Appends a name and takes it.
fn give(alloc: Global, name: Text, names: &mut Names) -> Result<(), AllocError>
    ensures taken { OnOk result (names.new.taken ≡ names.old.taken ++ name ∷ []) }
    ensures names { OnOk result (names.new.names.items ≡ names.old.names.items ++ name ∷ []) }
{
    let copy = Text::new(alloc, name.as_str())?;
    names.taken.push(alloc, copy)?;
    names.names.push(name).map_err(AllocError::from)
}

/// The identifiers of these variables, all of which are taken.
fn identifiers(alloc: Global, variables: &[Declaration]) -> Result<Names, AllocError>
    ensures taken { IfOk result (λ names. names.taken ≡ identifiers_in variables.now) }
    ensures names { IfOk result (λ names. names.names.items ≡ identifiers_in variables.now) }
{
    let mut names = Names {
        taken: NameSet::new(alloc),
        names: Vec::new(alloc),
    };
    for variable in variables {
        let name = Text::new(alloc, variable.identifier.as_str())?;
        give(alloc, name, &mut names)?;
    }
    Ok(names)
}

/// The names of variables. The first `declared` of them keep their identifiers.
fn names_in_order(
    alloc: Global,
    declared: usize,
    variables: &[Declaration],
) -> Result<Vec<Text>, AllocError>
    ensures { IfOk result (λ names. names.items ≡ problem_names declared variables.now) }
{
    let (kept, others) = variables.split_at(declared.min(variables.len()));
    let mut names = identifiers(alloc, kept)?;
    for variable in others {
        let name = free_name(alloc, &names.taken, variable.identifier.as_str())?;
        give(alloc, name, &mut names)?;
    }
    Ok(names.names)
}

/// The names of a problem's variables. The first `declared` of them keep their identifiers.
pub fn problem_names(
    alloc: Global,
    declared: usize,
    table: &VarTable,
) -> Result<Vec<Text>, AllocError>
    ensures { IfOk result (λ names. names.items ≡ problem_names declared table.now) }
{
    let variables = declarations(alloc, table)?;
    names_in_order(alloc, declared, &variables)
}

/// The names of a problem's variables, all of which are taken.
fn copied(alloc: Global, of_problem: &[Text]) -> Result<Names, AllocError>
    ensures taken { IfOk result (λ names. names.taken ≡ of_problem.now) }
    ensures names { IfOk result (λ names. names.names.items ≡ of_problem.now) }
{
    let mut names = Names {
        taken: NameSet::new(alloc),
        names: Vec::new(alloc),
    };
    for name in of_problem {
        let name = Text::new(alloc, name.as_str())?;
        give(alloc, name, &mut names)?;
    }
    Ok(names)
}

/// Gives the variable a name that is not taken, and takes it, if the variable occurs; otherwise an empty name, which is
/// not taken.
fn give_later(
    alloc: Global,
    occurs: bool,
    identifier: &str,
    names: &mut Names,
) -> Result<(), AllocError>
    ensures taken { OnOk result (names.new.taken ≡ (if occurs then names.old.taken ++ free_name names.old.taken identifier.now ∷ [] else names.old.taken)) }
    ensures names { OnOk result (names.new.names.items ≡ names.old.names.items ++ (if occurs then free_name names.old.taken identifier.now else []) ∷ []) }
{
    if occurs {
        let name = free_name(alloc, &names.taken, identifier)?;
        give(alloc, name, names)
    } else {
        let name = Text::new(alloc, "")?;
        names.names.push(name).map_err(AllocError::from)
    }
}

/// The names of a label's variables. `of_problem` are the names of the problem's variables; the flags say for each
/// variable whether it occurs.
pub(crate) fn label_names(
    alloc: Global,
    of_problem: &[Text],
    flags: &[bool],
    variables: &[Declaration],
) -> Result<Vec<Text>, AllocError>
    ensures { IfOk result (λ names. names.items ≡ label_names_by of_problem.now flags.now variables.now) }
{
    let mut names = copied(alloc, of_problem)?;
    for number in of_problem.len()..variables.len() {
        let identifier = variables[number].identifier.as_str();
        give_later(alloc, is_flagged(flags, number), identifier, &mut names)?;
    }
    Ok(names.names)
}
