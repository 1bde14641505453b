// The variables and the strands of a label form.
ghost use Rattle.std.specs.Prelude.{◌≡◌, [], ◌∷◌, map, codes, true, false};
ghost use Rattle.cp_base.specs.Growing.{Grows};
ghost use Rattle.cp_model.specs.Homomorphism.{substitution_by};
ghost use Rattle.cp_model.specs.Skeleton.{listener};
ghost use Rattle.cp_model.specs.Strand.{variables_of_prefix};
ghost use Rattle.cp_model.specs.Term.{variable_term, apply_to};
ghost use Rattle.cp_language.specs.Names.{sort_text};
ghost use Rattle.cp_language.specs.Printed.{variable, term_form, word, plain_list};
ghost use Rattle.cp_language.specs.Report.{item_unless_empty, strand_form};
ghost use Rattle.cp_strand.specs.View.{instance_view};
ghost use Rattle.cp_print.specs.MarkedForms.{vars_by, has_vars, maplets_by};
ghost use Rattle.cp_print.specs.Named.{named_in};
ghost use Rattle.cp_print.specs.Spelled.{item_text, items_text};

use crate::assumptions::put_pair;
use crate::terms::put_term;
use crate::variable_names::{Naming, name_of, sort_text};
use crate::writing::{begin_list, put_numeral, put_word};
use cp_base::Growing;
use cp_names::is_flagged;
use cp_strand::{Declaration, Instance, Role, Strand, StrandShape, value_of_variable};
use cp_term::{Sort, Term, Text, VarId};
use std::alloc::Global;

/// Whether a variable is flagged.
fn has_vars(flags: &[bool], variables: &[Declaration]) -> bool
    ensures { result ≡ has_vars flags.now 0 variables.now }
{
    for number in 0..variables.len() {
        if is_flagged(flags, number) {
            return true;
        }
    }
    false
}

/// Appends a name with its sort.
fn put_var(name: &str, sort: Sort, out: &mut Growing<u8>)
    ensures { Grows out.old out.new (item_text false (plain_list (word name.now ∷ word (sort_text sort) ∷ []))) }
{
    out.append(b" (");
    out.append(name.as_bytes());
    put_word(sort_text(sort), out);
    out.push(b')');
}

/// Appends the flagged variables, each with its sort.
fn put_flagged(names: &[Text], flags: &[bool], variables: &[Declaration], out: &mut Growing<u8>)
    ensures { Grows out.old out.new (items_text false (vars_by names.now flags.now 0 variables.now)) }
{
    for number in 0..variables.len() {
        if !is_flagged(flags, number) {
            continue;
        }
        let variable = &variables[number];
        put_var(name_of(names, number), variable.sort, out);
    }
}

/// Appends a list of the flagged variables, unless there are none.
pub(crate) fn put_vars(
    names: &[Text],
    flags: &[bool],
    variables: &[Declaration],
    out: &mut Growing<u8>,
)
    ensures { Grows out.old out.new (items_text true (item_unless_empty (codes "vars") (vars_by names.now flags.now 0 variables.now))) }
{
    if has_vars(flags, variables) {
        begin_list("vars", out);
        put_flagged(names, flags, variables, out);
        out.push(b')');
    }
}

/// Appends the maplet of a variable: its identifier with its value under the terms of an instance.
fn put_maplet(
    alloc: Global,
    naming: &Naming<'_>,
    values: &[Term],
    number: usize,
    declared: &Declaration,
    out: &mut Growing<u8>,
)
    ensures { Grows out.old out.new (item_text false (plain_list (word declared.now.identifier ∷ term_form (named_in naming.now) (apply_to (substitution_by values.now) (variable_term (variable declared.now.sort number))) ∷ []))) }
{
    match value_of_variable(alloc, values, VarId::numbered(number), declared.sort) {
        Ok(value) => put_pair(naming, declared.identifier.as_str(), &value, out),
        Err(_) => out.fail(),
    }
}

/// Appends the maplets of the variables that occur in an instance of a role.
fn put_maplets(
    alloc: Global,
    naming: &Naming<'_>,
    role: &Role,
    height: usize,
    values: &[Term],
    out: &mut Growing<u8>,
)
    ensures { Grows out.old out.new (items_text false (maplets_by (named_in naming.now) (variables_of_prefix role.now height) (substitution_by values.now) 0 role.now.variables)) }
{
    let variables = role.variables();
    for number in 0..variables.len() {
        let declared = &variables[number];
        if !role.occurs_before(VarId::numbered(number), declared.sort, height) {
            continue;
        }
        put_maplet(alloc, naming, values, number, declared, out);
    }
}

/// Appends an instance.
fn put_instance(alloc: Global, naming: &Naming<'_>, instance: &Instance, out: &mut Growing<u8>)
    ensures { Grows out.old out.new (item_text true (strand_form (named_in naming.now) (instance_view instance.now))) }
{
    let role: &Role = instance.role();
    let height = instance.height();
    begin_list("defstrand", out);
    put_word(role.name().as_str(), out);
    put_numeral(height, out);
    put_maplets(alloc, naming, role, height, instance.values(), out);
    out.push(b')');
}

/// Appends a listener for a message.
fn put_listener(naming: &Naming<'_>, message: &Term, out: &mut Growing<u8>)
    ensures { Grows out.old out.new (item_text true (strand_form (named_in naming.now) (listener message.now))) }
{
    begin_list("deflistener", out);
    put_term(naming, message, out);
    out.push(b')');
}

/// Appends a strand.
fn put_strand(alloc: Global, naming: &Naming<'_>, strand: &Strand, out: &mut Growing<u8>)
    ensures { Grows out.old out.new (item_text true (strand_form (named_in naming.now) strand.now)) }
{
    match strand.shape() {
        StrandShape::Instance(instance) => put_instance(alloc, naming, instance, out),
        StrandShape::Listener(message) => put_listener(naming, message, out),
    }
}

/// Appends these strands.
pub(crate) fn put_strands(
    alloc: Global,
    naming: &Naming<'_>,
    strands: &[Strand],
    out: &mut Growing<u8>,
)
    ensures { Grows out.old out.new (items_text true (map (strand_form (named_in naming.now)) strands.now)) }
{
    for strand in strands {
        put_strand(alloc, naming, strand, out);
    }
}
