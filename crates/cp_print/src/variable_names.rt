// How variables are named.
ghost use Rattle.std.specs.Prelude.{◌≡◌};
ghost use Rattle.cp_base.specs.Growing.{Grows};
ghost use Rattle.cp_language.specs.Names.{sort_text};
ghost use Rattle.cp_language.specs.Printed.{variable, place_among};
ghost use Rattle.cp_language.specs.Report.{name_or_none};
ghost use Rattle.cp_lists.specs.Lists.{item_at};
ghost use Rattle.cp_sexpr.specs.Spelling.{spelling};
ghost use Rattle.cp_print.specs.Named.{named_in};

use crate::writing::{put_numeral, put_word};
use cp_base::Growing;
use cp_scope::{Variable, is_same_sort};
use cp_term::{Sort, Text, VarId};

/// The names of variables by their numbers, and the locals of a pattern in order of occurrence. Locals have no names.
#[derive(Clone, Copy)]
pub(crate) struct Naming<'a> {
    pub(crate) names: &'a [Text],
    pub(crate) locals: &'a [Variable],
}

/// The word for a sort.
pub(crate) fn sort_text(sort: Sort) -> &'static str
    ensures { result.now ≡ sort_text sort }
{
    match sort {
        Sort::Text => "text",
        Sort::Datum => "data",
        Sort::Name => "name",
        Sort::Skey => "skey",
        Sort::Akey => "akey",
    }
}

/// The name of the variable with this number; empty if there is none.
pub(crate) fn name_of(names: &[Text], number: usize) -> &str
    ensures { result.now ≡ name_or_none (item_at names.now number) }
{
    if number < names.len() {
        names[number].as_str()
    } else {
        ""
    }
}

/// The place of a variable among the locals.
fn place_among(locals: &[Variable], sort: Sort, number: usize) -> Option<usize>
    ensures { result ≡ place_among 0 locals.now (variable sort number) }
{
    for (place, local) in locals.iter().enumerate() {
        if is_same_sort(local.sort, sort) && local.number == number {
            return Some(place);
        }
    }
    None
}

impl Naming<'_> {
    /// Appends a variable by its name, or a local by its place.
    pub(crate) fn put(&self, sort: Sort, id: VarId, out: &mut Growing<u8>)
        ensures { Grows out.old out.new (spelling (named_in self.now (variable sort id))) }
    {
        let number = id.number();
        match place_among(self.locals, sort, number) {
            Some(place) => {
                out.append(b"(any");
                put_word(sort_text(sort), out);
                put_numeral(place, out);
                out.push(b')');
            }
            None => out.append(name_of(self.names, number).as_bytes()),
        }
    }
}
