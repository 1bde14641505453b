// What a term is made of, and of which sort it is.
ghost use Rattle.std.specs.Prelude.{◌≡◌};
ghost use Rattle.cp_term.specs.Shapes.{HasShape};
ghost use Rattle.cp_term.specs.Sorts.{is_of_sort};

use crate::term::{Node, Term};
use crate::variable::VarId;
use cp_base::Text;
use cp_model::Sort;

/// What a term consists of, one level deep.
#[derive(Clone, Copy)]
pub enum Shape<'a> {
    Tag(&'a str),
    /// A variable of this sort.
    Variable(VarId, Sort),
    /// The inverse of a variable of sort akey.
    Inverse(VarId),
    /// The long-term key of two names.
    Ltk(VarId, VarId),
    /// The public key of a name, with a purpose or without one; the private key if the flag is set.
    Pubk(bool, Option<&'a str>, VarId),
    Pair(&'a Term, &'a Term),
    /// The encryption of a term under a key.
    Encryption(&'a Term, &'a Term),
}

impl Term {
    /// What the term consists of.
    #[inline(always)]
    pub fn shape(&self) -> Shape<'_>
        ensures { HasShape result self.now }
    {
        match self.node() {
            Node::Tag(text) => Shape::Tag(text.as_str()),
            Node::TextVariable(id) => Shape::Variable(*id, Sort::Text),
            Node::DatumVariable(id) => Shape::Variable(*id, Sort::Datum),
            Node::NameVariable(id) => Shape::Variable(*id, Sort::Name),
            Node::SkeyVariable(id) => Shape::Variable(*id, Sort::Skey),
            Node::AkeyVariable(false, id) => Shape::Variable(*id, Sort::Akey),
            Node::AkeyVariable(true, id) => Shape::Inverse(*id),
            Node::Ltk(a, b) => Shape::Ltk(*a, *b),
            Node::Pubk(flag, None, name) => Shape::Pubk(*flag, None, *name),
            Node::Pubk(flag, Some(purpose), name) => Shape::Pubk(
                *flag,
                Some(purpose.as_str()),
                *name,
            ),
            Node::Pair(left, right) => Shape::Pair(left, right),
            Node::Encryption(body, key) => Shape::Encryption(body, key),
        }
    }
}

/// Whether the term is an atom of this sort.
pub fn is_of_sort(term: &Term, sort: Sort) -> bool
    ensures { result ≡ is_of_sort sort term.now }
{
    match term.node() {
        Node::TextVariable(_) => sort == Sort::Text,
        Node::DatumVariable(_) => sort == Sort::Datum,
        Node::NameVariable(_) => sort == Sort::Name,
        Node::SkeyVariable(_) | Node::Ltk(..) => sort == Sort::Skey,
        Node::AkeyVariable(..) | Node::Pubk(..) => sort == Sort::Akey,
        Node::Tag(_) | Node::Pair(..) | Node::Encryption(..) => false,
    }
}
