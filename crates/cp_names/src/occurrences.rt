// The variables that occur in terms and events.
ghost use Rattle.std.specs.Prelude.{◌≡◌, ◌++◌, [], ◌∷◌, OnOk};
ghost use Rattle.cp_language.specs.Printed.{variable};
ghost use Rattle.cp_model.specs.Strand.{variables_of_trace};
ghost use Rattle.cp_model.specs.Term.{variables_of};
ghost use Rattle.cp_model.specs.declared.sort.Sort.TheVariants.{Name as name_sort};
ghost use Rattle.cp_names.specs.Variables.{variables_of_leaf};

use cp_scope::Variable;
use cp_strand::Event;
use cp_term::{Shape, Sort, Term, VarId};
use std::alloc::AllocError;

fn add(sort: Sort, id: VarId, out: &mut Vec<Variable>) -> Result<(), AllocError>
    ensures { OnOk result (out.new.items ≡ out.old.items ++ variable sort id ∷ []) }
{
    let number = id.number();
    out.push(Variable { sort, number })
        .map_err(AllocError::from)
}

fn add_names(a: VarId, b: VarId, out: &mut Vec<Variable>) -> Result<(), AllocError>
    ensures { OnOk result (out.new.items ≡ out.old.items ++ variable name_sort a ∷ variable name_sort b ∷ []) }
{
    add(Sort::Name, a, out)?;
    add(Sort::Name, b, out)
}

/// Appends the variables of an atom; a tag has none.
fn add_leaf(term: &Term, out: &mut Vec<Variable>) -> Result<(), AllocError>
    ensures { OnOk result (out.new.items ≡ out.old.items ++ variables_of_leaf term.now) }
{
    match term.shape() {
        Shape::Variable(id, sort) => add(sort, id, out),
        Shape::Inverse(id) => add(Sort::Akey, id, out),
        Shape::Ltk(a, b) => add_names(a, b, out),
        Shape::Pubk(_, _, name) => add(Sort::Name, name, out),
        Shape::Tag(_) | Shape::Pair(..) | Shape::Encryption(..) => Ok(()),
    }
}

/// Appends the variables of a term, from left to right.
pub(crate) fn add_term(term: &Term, out: &mut Vec<Variable>) -> Result<(), AllocError>
    ensures { OnOk result (out.new.items ≡ out.old.items ++ variables_of term.now) }
{
    let mut rest = term;
    loop {
        match rest.shape() {
            Shape::Pair(left, right) => {
                add_term(left, out)?;
                rest = right;
            }
            Shape::Encryption(body, key) => {
                add_term(body, out)?;
                return add_leaf(key, out);
            }
            _ => return add_leaf(rest, out),
        }
    }
}

/// Appends the variables of these events.
pub(crate) fn add_events(events: &[Event], out: &mut Vec<Variable>) -> Result<(), AllocError>
    ensures { OnOk result (out.new.items ≡ out.old.items ++ variables_of_trace events.now) }
{
    for event in events {
        add_term(event.payload(), out)?;
    }
    Ok(())
}
