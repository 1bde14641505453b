// From forms to text in normal spelling.
ghost use Rattle.std.specs.Prelude.{◌≡◌, [], ◌∷◌, ◌++◌, OnOk, OnErr, decimal};
ghost use Rattle.cp_base.specs.Growing.{Grows};
ghost use Rattle.cp_sexpr.specs.ListSpelling.{gap_before, list_spelling};
ghost use Rattle.cp_sexpr.specs.Pieces.{quote};
ghost use Rattle.cp_sexpr.specs.Spelling.{spelling, top_text, top_spelling, AppendsFront};
ghost use Rattle.cp_sexpr.specs.View.{view, views};

use crate::form::Form;
use cp_base::{Growing, Text};
use itoa::Buffer;
use std::alloc::AllocError;

fn append_string(text: &Text, out: &mut Growing<u8>)
    ensures { Grows out.old out.new (quote ∷ (text.now ++ quote ∷ [])) }
{
    out.push(b'"');
    out.append(text.as_bytes());
    out.push(b'"');
}

fn append_number(number: usize, out: &mut Growing<u8>)
    ensures { Grows out.old out.new (decimal number) }
{
    let mut buffer = Buffer::new();
    out.append(buffer.format(number).as_bytes());
}

/// Appends a form.
#[cycle(write)]
fn append_form(form: &Form, out: &mut Growing<u8>)
    ensures { Grows out.old out.new (spelling (view form.now)) }
{
    match form {
        Form::Symbol(_, text) => out.append(text.as_bytes()),
        Form::String(_, text) => append_string(text, out),
        Form::Number(_, number) => append_number(*number, out),
        Form::List(_, items) => append_list(items, false, out),
    }
}

/// The bytes before an item that is not the first, in a top form or in another list.
fn gap(is_top: bool, item: &Form) -> &'static [u8]
    ensures { result.now ≡ gap_before is_top (view item.now) }
{
    if !is_top {
        return b" ";
    }
    match item {
        Form::List(..) => b"\n  ",
        Form::Symbol(..) | Form::String(..) | Form::Number(..) => b" ",
    }
}

/// Appends a list, which is a top form or another: its items in parentheses, and the bytes between them.
#[cycle(write)]
fn append_list(items: &[Form], is_top: bool, out: &mut Growing<u8>)
    ensures { Grows out.old out.new (list_spelling is_top (views items.now)) }
{
    out.push(b'(');
    if let Some((first, others)) = items.split_first() {
        append_form(first, out);
        for item in others {
            out.append(gap(is_top, item));
            append_form(item, out);
        }
    }
    out.push(b')');
}

/// Appends a top form without its line feed.
fn append_top_text(form: &Form, out: &mut Growing<u8>)
    ensures { Grows out.old out.new (top_text (view form.now)) }
{
    match form {
        Form::Symbol(..) => append_form(form, out),
        Form::String(..) => append_form(form, out),
        Form::Number(..) => append_form(form, out),
        Form::List(_, items) => append_list(items, true, out),
    }
}

/// Appends the normal spelling of a form. If memory runs out, a prefix of it may have been appended.
pub fn write(form: &Form, out: &mut Vec<u8>) -> Result<(), AllocError>
    ensures ok { OnOk result (out.new.items ≡ out.old.items ++ spelling (view form.now)) }
    ensures err { OnErr result (AppendsFront out.old.items out.new.items (spelling (view form.now))) }
{
    let mut text = Growing::taken(out);
    append_form(form, &mut text);
    text.put_back(out)
}

/// Appends the normal spelling of a top form. If memory runs out, a prefix of it may have been appended.
pub fn write_top(form: &Form, out: &mut Vec<u8>) -> Result<(), AllocError>
    ensures ok { OnOk result (out.new.items ≡ out.old.items ++ top_spelling (view form.now)) }
    ensures err { OnErr result (AppendsFront out.old.items out.new.items (top_spelling (view form.now))) }
{
    let mut text = Growing::taken(out);
    append_top_text(form, &mut text);
    text.push(b'\n');
    text.put_back(out)
}
