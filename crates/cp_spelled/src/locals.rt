// Locals of patterns.
ghost use Rattle.std.specs.Prelude.{◌≡◌, ◌++◌, ◌∷◌, [], map, IfOk, OnOk, if◌then◌else◌};
ghost use Rattle.cp_sexpr.specs.View.{view};
ghost use Rattle.cp_report.specs.Spelled.{is_any, local_with, local_by, local_of, local_at, locals_in, place_of_local, keeps_sort, has_local, locals_onto, clash_misfits, local_misfits};
ghost use Rattle.cp_spelled.specs.FirstMisfit.{first_onto};
ghost use Rattle.cp_spelled.specs.Tables.{local_from};
ghost use Rattle.cp_spelled.specs.LocalParts.{sort_symbol, local_alone};

use crate::entries::{has_head, one_number_misfits, sort_or_none, sort_symbol_misfits};
use crate::first_misfit::FirstMisfit;
use cp_base::Place;
use cp_report::LocalAt;
use cp_scope::{Variable, is_same_sort, items_behind, sort_word};
use cp_sexpr::Form;
use cp_term::Sort;
use std::alloc::{AllocError, Global};
use std::collections::HashMap;
use std::marker::Model;

/// A sort and a number must follow the head of a local.
pub fn local_misfits(place: Place, items: &[Form], first: &mut FirstMisfit)
    ensures { first.new ≡ first_onto first.old (local_misfits place (map view items.now)) }
{
    let Some((sort, rest)) = items.split_first() else {
        first.note(place);
        return;
    };
    sort_symbol_misfits(sort, first);
    one_number_misfits(place, rest, first);
}

/// The sort that a form names, if it names one.
fn sort_named(form: &Form) -> Option<Sort>
    ensures { result ≡ sort_symbol (view form.now) }
{
    match form {
        Form::Symbol(_, word) => sort_or_none(sort_word(word.as_bytes())),
        Form::String(..) | Form::Number(..) | Form::List(..) => None,
    }
}

/// The local of this sort whose number a form states, if it states one.
fn local_with(sort: Option<Sort>, form: &Form) -> Option<Variable>
    ensures { result ≡ local_with sort (view form.now) }
{
    let Some(sort) = sort else {
        return None;
    };
    match form {
        Form::Number(_, number) => Some(Variable {
            sort,
            number: *number,
        }),
        Form::Symbol(..) | Form::String(..) | Form::List(..) => None,
    }
}

/// The local of this sort, if the list is its number alone.
fn local_alone(sort: Option<Sort>, items: &[Form]) -> Option<Variable>
    ensures { result ≡ local_alone sort (map view items.now) }
{
    match items {
        [] => None,
        [number] => local_with(sort, number),
        _ => None,
    }
}

/// The local that the entries after a head state, if they state one.
pub fn local_by(items: &[Form]) -> Option<Variable>
    ensures { result ≡ local_by (map view items.now) }
{
    match items.split_first() {
        Some((word, rest)) => local_alone(sort_named(word), rest),
        None => None,
    }
}

/// Whether a form has the head of a local.
pub fn is_any(form: &Form) -> bool
    ensures { result ≡ is_any (view form.now) }
{
    has_head(form, b"any")
}

/// The local that a form states, if it states one.
fn local_of(form: &Form) -> Option<Variable>
    ensures { result ≡ local_of (view form.now) }
{
    if is_any(form) {
        local_by(items_behind(form))
    } else {
        None
    }
}

/// Appends the local that a form at this place states, if it states one.
fn add_local(place: Place, form: &Form, out: &mut Vec<LocalAt>) -> Result<(), AllocError>
    ensures { OnOk result (out.new.items ≡ out.old.items ++ local_at place (local_of (view form.now))) }
{
    let Some(local) = local_of(form) else {
        return Ok(());
    };
    out.push(LocalAt { place, local })?;
    Ok(())
}

/// Appends the locals of a form in the order of the text.
fn add_locals(form: &Form, out: &mut Vec<LocalAt>) -> Result<(), AllocError>
    ensures { OnOk result (out.new.items ≡ out.old.items ++ locals_in (view form.now)) }
{
    let Form::List(place, items) = form else {
        return Ok(());
    };
    add_local(*place, form, out)?;
    let forms = items.as_slice();
    for item in forms {
        add_locals(item, out)?;
    }
    Ok(())
}

/// The locals of a form in the order of the text, each as often as it stands.
pub fn locals_in(alloc: Global, form: &Form) -> Result<Vec<LocalAt>, AllocError>
    ensures { IfOk result (λ v. v.items ≡ locals_in (view form.now)) }
{
    let mut found = Vec::new(alloc);
    add_locals(form, &mut found).map(|_| found)
}

/// Locals in order, no two with the same number. Each is found by its number.
#[derive(Drop)]
pub struct Locals {
    locals: Vec<Variable>,
    table: HashMap<usize, Variable>,
}

impl Model for Locals {
    ghost use Rattle.std.specs.Prelude.{List};
    ghost use Rattle.cp_model.specs.declared.variable.Variable.{Variable as Plain};
    ghost use Rattle.cp_spelled.specs.Tables.{AreLocalsOf};

    ghost Value = { List Plain };

    ghost invariant = { λ l. AreLocalsOf l.locals.items l.table };

    ghost view = { λ l. l.locals.items };
}

impl Locals {
    /// No locals.
    pub fn new(alloc: Global) -> Locals
        ensures { result ≡ [] }
    {
        Locals {
            locals: Vec::new(alloc),
            table: HashMap::new(alloc),
        }
    }

    /// The locals, in order.
    pub fn as_slice(&self) -> &[Variable]
        ensures { result.now ≡ self.now }
    {
        self.locals.as_slice()
    }

    /// The first local with this number: its sort, and its place, from 0.
    fn found(&self, number: usize) -> Option<Variable>
        ensures { result ≡ local_from 0 self.now number }
    {
        match self.table.get(&number) {
            Some(variable) => Some(*variable),
            None => None,
        }
    }

    /// The place of the local with this number, from 0; if there is none, the number of locals.
    pub fn place_of(&self, number: usize) -> usize
        ensures { result ≡ place_of_local self.now number }
    {
        match self.found(number) {
            Some(variable) => variable.number,
            None => self.locals.len(),
        }
    }

    /// Whether the local has the sort of the one with its number, if there is one.
    pub fn keeps_sort(&self, local: Variable) -> bool
        ensures { result ≡ keeps_sort self.now local }
    {
        match self.found(local.number) {
            Some(variable) => is_same_sort(variable.sort, local.sort),
            None => true,
        }
    }

    /// Appends a local, unless there is one with its number.
    pub fn add(&mut self, local: Variable) -> Result<(), AllocError>
        ensures { OnOk result (self.new ≡ (if has_local self.old local.number then self.old else self.old ++ local ∷ [])) }
    {
        if self.table.contains_key(&local.number) {
            return Ok(());
        }
        let place = self.locals.len();
        let variable = Variable {
            sort: local.sort,
            number: place,
        };
        self.locals.push(local)?;
        if self.table.insert(local.number, variable).is_err() {
            self.locals.truncate(place);
            return Err(AllocError);
        }
        Ok(())
    }
}

/// The locals among these. Notes where one has another sort than the first with its number.
pub fn locals_of(
    alloc: Global,
    found: &[LocalAt],
    first: &mut FirstMisfit,
) -> Result<Locals, AllocError>
    ensures misfits { OnOk result (first.new ≡ first_onto first.old (clash_misfits [] found.now)) }
    ensures locals { IfOk result (λ l. l ≡ locals_onto [] found.now) }
{
    let mut locals = Locals::new(alloc);
    for next in found {
        first.note_unless(locals.keeps_sort(next.local), next.place);
        locals.add(next.local)?;
    }
    Ok(locals)
}
