// Equality of messages, and the messages that a message carries.
ghost use Rattle.std.specs.Prelude.{◌≡◌, ◌↔◌, IsTrue};
ghost use Rattle.cp_model.specs.Message.{IsCarriedBy};
ghost use Rattle.cp_model.specs.MessageView.{message_of_form};
ghost use Rattle.cp_model.specs.FormLeaves.{IsLeafForm};

use crate::key::{Key, KeyKind};
use crate::message::{Form, Msg};
use cp_base::same_if_any;

impl Key {
    /// Whether the two keys are equal.
    pub fn same(&self, other: &Key) -> bool
        ensures { IsTrue result ↔ (self.now ≡ other.now) }
    {
        match (&self.kind, &other.kind) {
            (KeyKind::Skey(x), KeyKind::Skey(y)) => x == y,
            (KeyKind::Ltk(a, b), KeyKind::Ltk(c, d)) => a == c && b == d,
            (KeyKind::Akey(f, x), KeyKind::Akey(g, y)) => f == g && x == y,
            (KeyKind::Pubk(f, p, x), KeyKind::Pubk(g, q, y)) => {
                f == g && x == y && same_if_any(p, q)
            }
            _ => false,
        }
    }
}

/// Whether a message without parts equals another.
fn same_leaf(leaf: &Form, other: &Form) -> bool
    requires { IsLeafForm leaf.now }
    ensures { IsTrue result ↔ (message_of_form leaf.now ≡ message_of_form other.now) }
{
    match (leaf, other) {
        (Form::Tag(a), Form::Tag(b)) => a.same(b),
        (Form::Text(x), Form::Text(y)) => x == y,
        (Form::Datum(x), Form::Datum(y)) => x == y,
        (Form::Name(x), Form::Name(y)) => x == y,
        (Form::Key(a), Form::Key(b)) => a.same(b),
        _ => false,
    }
}

impl Msg {
    /// Whether the two messages are equal.
    pub fn same(&self, other: &Msg) -> bool
        ensures { IsTrue result ↔ (self.now ≡ other.now) }
    {
        let mut a = self;
        let mut b = other;
        loop {
            match (a.form(), b.form()) {
                (Form::Pair(left, right), Form::Pair(other_left, other_right)) => {
                    if !left.same(other_left) {
                        return false;
                    }
                    a = right;
                    b = other_right;
                }
                (Form::Encryption(body, key), Form::Encryption(other_body, other_key)) => {
                    if !key.same(other_key) {
                        return false;
                    }
                    a = body;
                    b = other_body;
                }
                (Form::Pair(..) | Form::Encryption(..), _) => return false,
                (leaf, other) => return same_leaf(leaf, other),
            }
        }
    }

    /// Whether the message carries the part: it is the part, or a pair one of whose sides carries it, or an encryption whose
    /// plaintext carries it.
    pub fn carries(&self, part: &Msg) -> bool
        ensures { IsTrue result ↔ IsCarriedBy part.now self.now }
    {
        let mut rest = self;
        loop {
            if rest.same(part) {
                return true;
            }
            match rest.form() {
                Form::Pair(left, right) => {
                    if left.carries(part) {
                        return true;
                    }
                    rest = right;
                }
                Form::Encryption(body, _) => rest = body,
                _ => return false,
            }
        }
    }
}
