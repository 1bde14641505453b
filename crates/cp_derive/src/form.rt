// The outermost form of a term.
ghost use Rattle.cp_derive.specs.Forms.{HasForm};

use cp_term::{Shape, Term};

/// The outermost form of a term; all atoms have the same form.
#[derive(Clone, Copy)]
pub(crate) enum Form<'a> {
    Tag,
    Atom,
    Pair(&'a Term, &'a Term),
    /// The encryption of the first term under the second, its key.
    Encryption(&'a Term, &'a Term),
}

/// The outermost form of a term.
pub(crate) fn form_of(term: &Term) -> Form<'_>
    ensures { HasForm result term.now }
{
    match term.shape() {
        Shape::Tag(_) => Form::Tag,
        Shape::Variable(..) | Shape::Inverse(_) | Shape::Ltk(..) | Shape::Pubk(..) => Form::Atom,
        Shape::Pair(left, right) => Form::Pair(left, right),
        Shape::Encryption(body, key) => Form::Encryption(body, key),
    }
}
