// Equality of terms.
ghost use Rattle.std.specs.Prelude.{◌≡◌, ◌↔◌, IsTrue};
ghost use Rattle.cp_term.specs.Layer.{term_of_node};
ghost use Rattle.cp_term.specs.Leaves.{IsAtomicNode};

use crate::term::{Node, Term};
use cp_base::same_if_any;

/// Whether a node without parts is the same as another node. Variables are compared by their numbers.
fn same_leaf(leaf: &Node, other: &Node) -> bool
    requires { IsAtomicNode leaf.now }
    ensures { IsTrue result ↔ (term_of_node leaf.now ≡ term_of_node other.now) }
{
    match (leaf, other) {
        (Node::Tag(a), Node::Tag(b)) => a.same(b),
        (Node::TextVariable(x), Node::TextVariable(y)) => x.number() == y.number(),
        (Node::DatumVariable(x), Node::DatumVariable(y)) => x.number() == y.number(),
        (Node::NameVariable(x), Node::NameVariable(y)) => x.number() == y.number(),
        (Node::SkeyVariable(x), Node::SkeyVariable(y)) => x.number() == y.number(),
        (Node::AkeyVariable(f, x), Node::AkeyVariable(g, y)) => f == g && x.number() == y.number(),
        (Node::Ltk(a, b), Node::Ltk(c, d)) => a.number() == c.number() && b.number() == d.number(),
        (Node::Pubk(f, p, x), Node::Pubk(g, q, y)) => f == g
            && x.number() == y.number()
            && same_if_any(p, q),
        _ => false,
    }
}

impl Term {
    /// Whether this is the same term as the other.
    pub fn same(&self, other: &Term) -> bool
        ensures { IsTrue result ↔ (self.now ≡ other.now) }
    {
        self.number() == other.number() && self.is_same_throughout(other)
    }

    /// The same test, for terms whose numbers do not tell them apart. Right parts and plaintexts are walked by a loop,
    /// since a term may be long.
    fn is_same_throughout(&self, other: &Term) -> bool
        ensures { IsTrue result ↔ (self.now ≡ other.now) }
    {
        let mut a = self;
        let mut b = other;
        loop {
            match (a.node(), b.node()) {
                (Node::Pair(left, right), Node::Pair(other_left, other_right)) => {
                    if !left.is_same_throughout(other_left) {
                        return false;
                    }
                    a = right;
                    b = other_right;
                }
                (Node::Encryption(body, key), Node::Encryption(other_body, other_key)) => {
                    if !key.is_same_throughout(other_key) {
                        return false;
                    }
                    a = body;
                    b = other_body;
                }
                (Node::Pair(..) | Node::Encryption(..), _) => return false,
                (leaf, other) => return same_leaf(leaf, other),
            }
        }
    }
}
