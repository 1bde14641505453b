// Assumptions, the map from the problem, and the test of a label form.
ghost use Rattle.std.specs.Prelude.{[], ◌∷◌, map, true, false};
ghost use Rattle.cp_base.specs.Growing.{Grows};
ghost use Rattle.cp_language.specs.Printed.{atom_form, numeral, plain_list, term_form, word};
ghost use Rattle.cp_language.specs.Report.{named_by, unique_form, value_forms, map_form, test_items};
ghost use Rattle.cp_print.specs.Named.{named_in};
ghost use Rattle.cp_print.specs.Spelled.{item_text, items_text};

use crate::terms::{put_atom, put_term};
use crate::variable_names::Naming;
use crate::writing::{Printed, begin_list, put_numbers};
use cp_base::Growing;
use cp_skel::{Atom, Skeleton, Test, UniqueAt};
use cp_term::{Term, Text};
use std::alloc::Global;

impl Printed for Atom {
    ghost printed = { λ names. atom_form (named_by names) };

    fn put(&self, alloc: Global, names: &[Text], out: &mut Growing<u8>) {
        out.push(b' ');
        put_atom(&Naming { names, locals: &[] }, self.as_term(), out);
    }
}

// A unique value stands with its recorded origin.
impl Printed for UniqueAt {
    ghost printed = { λ names. unique_form (named_by names) };

    fn put(&self, alloc: Global, names: &[Text], out: &mut Growing<u8>) {
        out.append(b" (");
        put_atom(&Naming { names, locals: &[] }, self.value().as_term(), out);
        self.origin().put(alloc, names, out);
        out.push(b')');
    }
}

/// Appends a name with its value behind other items.
pub(crate) fn put_pair(naming: &Naming<'_>, name: &str, value: &Term, out: &mut Growing<u8>)
    ensures { Grows out.old out.new (item_text false (plain_list (word name.now ∷ term_form (named_in naming.now) value.now ∷ []))) }
{
    out.append(b" (");
    out.append(name.as_bytes());
    put_term(naming, value, out);
    out.push(b')');
}

/// Appends each of these names with its value.
fn put_values(naming: &Naming<'_>, names: &[Text], values: &[Term], out: &mut Growing<u8>)
    ensures { Grows out.old out.new (items_text false (value_forms (named_in naming.now) names.now values.now)) }
{
    for number in 0..names.len().min(values.len()) {
        put_pair(naming, names[number].as_str(), &values[number], out);
    }
}

/// Appends the numbers of the strands to which the problem's are mapped.
fn put_strands(alloc: Global, strands: &[usize], out: &mut Growing<u8>)
    ensures { Grows out.old out.new (item_text false (plain_list (map numeral strands.now))) }
{
    out.append(b" (");
    put_numbers(alloc, strands, out);
    out.push(b')');
}

/// Appends the map from the problem, whose variables have these names.
pub(crate) fn put_map(
    alloc: Global,
    naming: &Naming<'_>,
    of_problem: &[Text],
    skeleton: &Skeleton,
    out: &mut Growing<u8>,
)
    ensures { Grows out.old out.new (item_text true (map_form (named_in naming.now) of_problem.now skeleton.now)) }
{
    let way = skeleton.from_problem();
    begin_list("map", out);
    put_strands(alloc, way.strands(), out);
    put_values(naming, of_problem, way.values(), out);
    out.push(b')');
}

/// Appends the label's test, if it has one.
pub(crate) fn put_test(
    alloc: Global,
    naming: &Naming<'_>,
    test: &Option<Test>,
    out: &mut Growing<u8>,
)
    ensures { Grows out.old out.new (items_text true (test_items (named_in naming.now) test.now)) }
{
    if let Some(test) = test {
        begin_list("test", out);
        test.node.put(alloc, &[], out);
        put_term(naming, &test.critical, out);
        out.push(b')');
    }
}
