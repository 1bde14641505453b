// Roles' terms under the terms of an instance, compared with others without being built.
ghost use Rattle.std.specs.Prelude.{◌≡◌, ◌↔◌, Bool, not, IsTrue};
ghost use Rattle.std.specs.Option.{option_map};
ghost use Rattle.cp_model.specs.Term.{PairTerm, akey_variable, pubk_term, ltk_term, symmetric_term, asymmetric_term, IsCarriedByTerm, apply_to};
ghost use Rattle.cp_model.specs.Homomorphism.{substitution_by};
ghost use Rattle.cp_term.specs.Keys.{key_as_term};
ghost use Rattle.cp_term.specs.Spines.{HasTail};

use crate::values::{ByNumber, value_of};
use cp_term::{Shape, Sort, Term, VarId, name_for};

/// Whether the purposes of two keys are the same.
fn same_purpose(a: Option<&str>, b: Option<&str>) -> bool
    ensures { IsTrue result ↔ (option_map (λ text. text.now) a.entry ≡ option_map (λ text. text.now) b.entry) }
{
    match (a, b) {
        (None, None) => true,
        (Some(x), Some(y)) => x == y,
        _ => false,
    }
}

/// Whether a term is the long-term key of these names.
fn is_ltk(term: &Term, a: VarId, b: VarId) -> bool
    ensures { IsTrue result ↔ (key_as_term (symmetric_term (ltk_term a b)) ≡ term.now) }
{
    match term.shape() {
        Shape::Ltk(c, d) => a == c && b == d,
        _ => false,
    }
}

/// Whether a term is the public key of this name for this purpose, or the private one if the flag is set.
fn is_pubk(term: &Term, flag: bool, purpose: Option<&str>, a: VarId) -> bool
    ensures { IsTrue result
        ↔ (key_as_term (asymmetric_term flag (pubk_term (option_map (λ text. text.now) purpose.entry) a)) ≡ term.now) }
{
    match term.shape() {
        Shape::Pubk(g, other, b) => flag == g && a == b && same_purpose(purpose, other),
        _ => false,
    }
}

/// Whether a term is this variable of sort akey, or its inverse if the flag is set.
fn is_akey(term: &Term, flag: bool, a: VarId) -> bool
    ensures { IsTrue result ↔ (key_as_term (asymmetric_term flag (akey_variable a)) ≡ term.now) }
{
    match term.shape() {
        Shape::Variable(b, sort) => sort == Sort::Akey && !flag && a == b,
        Shape::Inverse(b) => flag && a == b,
        _ => false,
    }
}

/// Whether a term is the inverse of a key of sort akey.
fn is_inverse(key: &Term, term: &Term) -> bool
    ensures { (flag : Bool) (pair : PairTerm) → key.now ≡ key_as_term (asymmetric_term flag pair)
        → IsTrue result ↔ (key_as_term (asymmetric_term (not flag) pair) ≡ term.now) }
{
    match key.shape() {
        Shape::Variable(a, _) => is_akey(term, true, a),
        Shape::Inverse(a) => is_akey(term, false, a),
        Shape::Pubk(flag, purpose, a) => is_pubk(term, !flag, purpose, a),
        _ => false,
    }
}

/// Whether a tag or a term of an atom sort, under the values, is this term.
fn same_leaf_under(values: &[Term], leaf: &Term, term: &Term) -> bool
    requires { ¬ HasTail leaf.now }
    ensures { IsTrue result ↔ (apply_to (substitution_by values.now) leaf.now ≡ term.now) }
{
    let by_number = ByNumber { terms: values };
    match leaf.shape() {
        Shape::Variable(variable, sort) => match value_of(values, sort, variable) {
            Some(value) => value.same(term),
            None => leaf.same(term),
        },
        Shape::Inverse(variable) => match value_of(values, Sort::Akey, variable) {
            Some(key) => is_inverse(key, term),
            None => leaf.same(term),
        },
        Shape::Ltk(a, b) => is_ltk(term, name_for(&by_number, a), name_for(&by_number, b)),
        Shape::Pubk(flag, purpose, a) => is_pubk(term, flag, purpose, name_for(&by_number, a)),
        _ => leaf.same(term),
    }
}

/// Whether a role's term, under the values, is this term. The right spine is walked by a loop, since it may be long.
pub(crate) fn same_under(values: &[Term], whole: &Term, term: &Term) -> bool
    ensures { IsTrue result ↔ (apply_to (substitution_by values.now) whole.now ≡ term.now) }
{
    let mut rest = whole;
    let mut other = term;
    loop {
        match rest.shape() {
            Shape::Pair(left, right) => {
                let Shape::Pair(other_left, other_right) = other.shape() else {
                    return false;
                };
                if !same_under(values, left, other_left) {
                    return false;
                }
                rest = right;
                other = other_right;
            }
            Shape::Encryption(body, key) => {
                let Shape::Encryption(other_body, other_key) = other.shape() else {
                    return false;
                };
                if !same_leaf_under(values, key, other_key) {
                    return false;
                }
                rest = body;
                other = other_body;
            }
            _ => return same_leaf_under(values, rest, other),
        }
    }
}

/// Whether a role's term, under the values, carries the part. The right spine is walked by a loop, since it may be
/// long.
pub fn carries_under(values: &[Term], whole: &Term, part: &Term) -> bool
    ensures { IsTrue result ↔ IsCarriedByTerm part.now (apply_to (substitution_by values.now) whole.now) }
{
    let mut rest = whole;
    loop {
        if same_under(values, rest, part) {
            return true;
        }
        match rest.shape() {
            Shape::Pair(left, right) => {
                if carries_under(values, left, part) {
                    return true;
                }
                rest = right;
            }
            Shape::Encryption(body, _) => rest = body,
            _ => return false,
        }
    }
}
