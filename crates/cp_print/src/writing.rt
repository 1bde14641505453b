// The items of a list as text. Each stands behind others; memory that ran out is remembered by the text.
ghost use Rattle.std.specs.Prelude.{[], ◌∷◌, List, ℕ, decimal, false, map, true};
ghost use Rattle.cp_base.specs.Growing.{Grows};
ghost use Rattle.cp_language.specs.Printed.{no_place, word, numeral, headed_list};
ghost use Rattle.cp_language.specs.Report.{item_unless_empty};
ghost use Rattle.cp_sexpr.specs.Spelling.{first_spelling};
ghost use Rattle.cp_sexpr.specs.Syntax.{Form as Plain, string, forms_of};
ghost use Rattle.cp_print.specs.Spelled.{item_text, items_text};

use cp_base::Growing;
use cp_term::Text;
use itoa::Buffer;
use std::alloc::Global;

/// What is printed as an item of a list.
pub(crate) trait Printed {
    /// The form of an item, if variables have these names.
    ghost printed: { List (List ℕ) → Self → Plain };

    /// Appends the item behind others.
    fn put(&self, alloc: Global, names: &[Text], out: &mut Growing<u8>)
        ensures { Grows out.old out.new (item_text false (printed names.now self.now)) };
}

/// Appends a number.
pub(crate) fn put_number(number: usize, out: &mut Growing<u8>)
    ensures { Grows out.old out.new (decimal number) }
{
    let mut buffer = Buffer::new();
    out.append(buffer.format(number).as_bytes());
}

/// Appends a word behind other items.
pub(crate) fn put_word(text: &str, out: &mut Growing<u8>)
    ensures { Grows out.old out.new (item_text false (word text.now)) }
{
    out.push(b' ');
    out.append(text.as_bytes());
}

/// Appends a number behind other items.
pub(crate) fn put_numeral(number: usize, out: &mut Growing<u8>)
    ensures { Grows out.old out.new (item_text false (numeral number)) }
{
    out.push(b' ');
    put_number(number, out);
}

/// Appends a string behind other items.
pub(crate) fn put_quoted(text: &str, out: &mut Growing<u8>)
    ensures { Grows out.old out.new (item_text false (string no_place text.now)) }
{
    out.append(b" \"");
    out.append(text.as_bytes());
    out.push(b'"');
}

impl Printed for usize {
    ghost printed = { λ names n. numeral n };

    fn put(&self, alloc: Global, names: &[Text], out: &mut Growing<u8>) {
        put_numeral(*self, out)
    }
}

/// Appends these behind other items.
pub(crate) fn put_each<T: Printed>(
    alloc: Global,
    names: &[Text],
    items: &[T],
    out: &mut Growing<u8>,
)
    ensures { Grows out.old out.new (items_text false (map (T.printed names.now) items.now)) }
{
    for item in items {
        item.put(alloc, names, out);
    }
}

/// Appends these numbers, of which the first stands behind nothing.
pub(crate) fn put_numbers(alloc: Global, numbers: &[usize], out: &mut Growing<u8>)
    ensures { Grows out.old out.new (first_spelling (forms_of (map numeral numbers.now))) }
{
    if let Some((first, others)) = numbers.split_first() {
        put_number(*first, out);
        put_each(alloc, &[], others, out);
    }
}

/// Begins a list in a top form by a word.
pub(crate) fn begin_list(head: &str, out: &mut Growing<u8>)
    ensures { Grows out.old out.new (10 ∷ 32 ∷ 32 ∷ 40 ∷ head.now) }
{
    out.append(b"\n  (");
    out.append(head.as_bytes());
}

/// Appends a list of a word and these to a top form.
pub(crate) fn put_list<T: Printed>(
    alloc: Global,
    names: &[Text],
    head: &str,
    items: &[T],
    out: &mut Growing<u8>,
)
    ensures { Grows out.old out.new (item_text true (headed_list head.now (map (T.printed names.now) items.now))) }
{
    begin_list(head, out);
    put_each(alloc, names, items, out);
    out.push(b')');
}

/// Appends a list of a word and these to a top form, unless there are none.
pub(crate) fn put_section<T: Printed>(
    alloc: Global,
    names: &[Text],
    head: &str,
    items: &[T],
    out: &mut Growing<u8>,
)
    ensures { Grows out.old out.new (items_text true (item_unless_empty head.now (map (T.printed names.now) items.now))) }
{
    if !items.is_empty() {
        put_list(alloc, names, head, items, out);
    }
}
