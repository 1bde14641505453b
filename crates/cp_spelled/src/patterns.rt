// Patterns: where they do not fit, and what they are.
ghost use Rattle.std.specs.Prelude.{◌≡◌, ◌≢◌, [], IfOk, OnOk, MatchOption};
ghost use Rattle.cp_sexpr.specs.View.{view};
ghost use Rattle.cp_report.specs.Spelled.{pattern_misfits, pattern_scope, pattern_of, variables_of_locals};
ghost use Rattle.cp_spelled.specs.FirstMisfit.{first_onto};

use crate::misfits::term_misfits;
use crate::scope::Scope;
use crate::terms::{number_behind, term_in};
use crate::{FirstMisfit, Locals, Variables, has_head, locals_in, locals_of};
use cp_scope::{Variable, place_of};
use cp_sexpr::Form;
use cp_term::{Locals as PatternLocals, Pattern};
use std::alloc::{AllocError, Global};

/// Notes where a form is no pattern. Returns its locals.
fn misfits_and_locals(
    alloc: Global,
    variables: &Variables,
    form: &Form,
    first: &mut FirstMisfit,
) -> Result<Locals, AllocError>
    ensures misfits { OnOk result (first.new ≡ first_onto first.old (pattern_misfits variables.now (view form.now))) }
    ensures locals { IfOk result (λ l. l ≡ (pattern_scope variables.now (view form.now)).locals) }
{
    let found = locals_in(alloc, form)?;
    let locals = locals_of(alloc, &found, first)?;
    first.note_unless(has_head(form, b"enc"), place_of(form));
    let scope = Scope {
        variables,
        in_pattern: true,
        locals: &locals,
    };
    term_misfits(scope, form, first);
    Ok(locals)
}

/// Notes where a form is no pattern.
pub fn pattern_misfits(
    alloc: Global,
    variables: &Variables,
    form: &Form,
    first: &mut FirstMisfit,
) -> Result<(), AllocError>
    ensures { OnOk result (first.new ≡ first_onto first.old (pattern_misfits variables.now (view form.now))) }
{
    misfits_and_locals(alloc, variables, form, first).map(|_locals| ())
}

/// The locals with the numbers that follow those of so many variables.
fn variables_of_locals(
    alloc: Global,
    count: usize,
    locals: &[Variable],
) -> Result<PatternLocals, AllocError>
    ensures { IfOk result (λ found. found ≡ variables_of_locals count locals.now) }
{
    let mut found = PatternLocals::new(alloc);
    for (place, local) in locals.iter().enumerate() {
        let number = number_behind(count, place)?;
        found.push(Variable {
            sort: local.sort,
            number,
        })?;
    }
    Ok(found)
}

/// The pattern that a form is, or `None` if it is none.
pub fn pattern_of(
    alloc: Global,
    variables: &Variables,
    form: &Form,
) -> Result<Option<Pattern>, AllocError>
    ensures { IfOk result (λ found. MatchOption found (pattern_misfits variables.now (view form.now) ≢ [])
        (λ p. p ≡ pattern_of variables.now (view form.now))) }
{
    let mut first = FirstMisfit::new();
    let locals = misfits_and_locals(alloc, variables, form, &mut first)?;
    if !first.is_none() {
        return Ok(None);
    }
    let scope = Scope {
        variables,
        in_pattern: true,
        locals: &locals,
    };
    let term = term_in(alloc, scope, form)?;
    let found = variables_of_locals(alloc, variables.len(), locals.as_slice())?;
    Ok(Some(Pattern::new(term, found)))
}
