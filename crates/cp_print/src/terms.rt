// Terms and atoms as text.
ghost use Rattle.std.specs.Prelude.{◌≡◌, [], ◌∷◌, codes, false};
ghost use Rattle.std.specs.Option.{option_map};
ghost use Rattle.cp_base.specs.Growing.{Grows};
ghost use Rattle.cp_language.specs.Printed.{variable, headed_list, asymmetric_form, atom_form, spine, term_form};
ghost use Rattle.cp_model.specs.Term.{pubk_term};
ghost use Rattle.cp_model.specs.declared.sort.Sort.TheVariants.{Name as name_sort, Akey as akey_sort};
ghost use Rattle.cp_sexpr.specs.Pieces.{open_parenthesis};
ghost use Rattle.cp_sexpr.specs.Spelling.{spelling, next_spelling};
ghost use Rattle.cp_strand.specs.Atoms.{atom_of};
ghost use Rattle.cp_print.specs.Named.{named_in};
ghost use Rattle.cp_print.specs.Parts.{purpose_items, name_key_word, is_pair_term};
ghost use Rattle.cp_print.specs.Spelled.{item_text, items_text};

use crate::variable_names::Naming;
use crate::writing::put_quoted;
use cp_base::Growing;
use cp_term::{Shape, Sort, Term, VarId};

/// Appends the purpose of a name's key, if there is one.
fn put_purpose(purpose: Option<&str>, out: &mut Growing<u8>)
    ensures { Grows out.old out.new (items_text false (purpose_items (option_map (λ t. t.now) purpose.entry))) }
{
    if let Some(purpose) = purpose {
        put_quoted(purpose, out);
    }
}

/// Appends a variable behind other items.
fn put_variable(naming: &Naming<'_>, sort: Sort, id: VarId, out: &mut Growing<u8>)
    ensures { Grows out.old out.new (item_text false (named_in naming.now (variable sort id))) }
{
    out.push(b' ');
    naming.put(sort, id, out);
}

/// The beginning of the key of a name.
fn key_opening(private: bool) -> &'static [u8]
    ensures { result.now ≡ open_parenthesis ∷ name_key_word private }
{
    if private { b"(privk" } else { b"(pubk" }
}

/// Appends the public or private key of a name.
fn put_name_key(
    naming: &Naming<'_>,
    private: bool,
    purpose: Option<&str>,
    name: VarId,
    out: &mut Growing<u8>,
)
    ensures { Grows out.old out.new (spelling (asymmetric_form (named_in naming.now) private (pubk_term (option_map (λ t. t.now) purpose.entry) name))) }
{
    out.append(key_opening(private));
    put_purpose(purpose, out);
    put_variable(naming, Sort::Name, name, out);
    out.push(b')');
}

/// Appends the long-term key of two names.
fn put_long_term_key(naming: &Naming<'_>, a: VarId, b: VarId, out: &mut Growing<u8>)
    ensures { Grows out.old out.new (spelling (headed_list (codes "ltk") (named_in naming.now (variable name_sort a) ∷ named_in naming.now (variable name_sort b) ∷ []))) }
{
    out.append(b"(ltk");
    put_variable(naming, Sort::Name, a, out);
    put_variable(naming, Sort::Name, b, out);
    out.push(b')');
}

/// Appends the inverse of an asymmetric key.
fn put_inverse(naming: &Naming<'_>, id: VarId, out: &mut Growing<u8>)
    ensures { Grows out.old out.new (spelling (headed_list (codes "invk") (named_in naming.now (variable akey_sort id) ∷ []))) }
{
    out.append(b"(invk");
    put_variable(naming, Sort::Akey, id, out);
    out.push(b')');
}

/// Appends an atom, or the key of an encryption.
pub(crate) fn put_atom(naming: &Naming<'_>, term: &Term, out: &mut Growing<u8>)
    ensures { Grows out.old out.new (spelling (atom_form (named_in naming.now) (atom_of term.now))) }
{
    match term.shape() {
        Shape::Variable(id, sort) => naming.put(sort, id, out),
        Shape::Inverse(id) => put_inverse(naming, id, out),
        Shape::Ltk(a, b) => put_long_term_key(naming, a, b, out),
        Shape::Pubk(private, purpose, name) => put_name_key(naming, private, purpose, name, out),
        Shape::Tag(_) | Shape::Pair(..) | Shape::Encryption(..) => {
            naming.put(Sort::Text, VarId::numbered(0), out)
        }
    }
}

/// Whether the term is a pair.
fn is_pair(term: &Term) -> bool
    ensures { result ≡ is_pair_term term.now }
{
    matches!(term.shape(), Shape::Pair(..))
}

/// Appends the parts along the right spine of a pair behind other items; a term that is no pair is its only part.
#[cycle(spine)]
fn put_spine(naming: &Naming<'_>, term: &Term, out: &mut Growing<u8>)
    ensures { Grows out.old out.new (next_spelling (spine (named_in naming.now) term.now)) }
{
    let mut rest = term;
    loop {
        match rest.shape() {
            Shape::Pair(left, right) => {
                put_term(naming, left, out);
                rest = right;
            }
            Shape::Encryption(body, key) => {
                out.append(b" (enc");
                put_spine(naming, body, out);
                out.push(b' ');
                put_atom(naming, key, out);
                return out.push(b')');
            }
            Shape::Tag(text) => return put_quoted(text, out),
            Shape::Variable(..) | Shape::Inverse(_) | Shape::Ltk(..) | Shape::Pubk(..) => {
                out.push(b' ');
                return put_atom(naming, rest, out);
            }
        }
    }
}

/// Appends a term behind other items.
#[cycle(spine)]
pub(crate) fn put_term(naming: &Naming<'_>, term: &Term, out: &mut Growing<u8>)
    ensures { Grows out.old out.new (item_text false (term_form (named_in naming.now) term.now)) }
{
    if !is_pair(term) {
        return put_spine(naming, term, out);
    }
    out.append(b" (cat");
    put_spine(naming, term, out);
    out.push(b')');
}
