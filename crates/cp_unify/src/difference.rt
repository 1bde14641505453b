// The first difference of two terms.
ghost use Rattle.std.specs.Prelude.{◌≡◌, true, nat_eq, [], ◌∷◌, IfOk, IsTrue};
ghost use Rattle.std.specs.Cmp.Lexicographic.{pointwise};
ghost use Rattle.std.specs.Option.{option_map, option_eq};
ghost use Rattle.cp_model.specs.Term.{atom_term, pubk_term, symmetric_term, ltk_term, tag_term, asymmetric_term, KeyTerm, inverse_term, apply_to};
ghost use Rattle.cp_unify.specs.Bindings.{as_substitution};
ghost use Rattle.cp_unify.specs.declared.difference.Difference.TheVariants.{Bind};
ghost use Rattle.cp_model.specs.declared.sort.Sort.TheVariants.{Akey as akey_sort};
ghost use Rattle.cp_term.specs.Keys.{key_as_term};
ghost use Rattle.cp_term.specs.Variables.{variable_of_sort};
ghost use Rattle.cp_term.specs.Sorts.{is_of_sort};
ghost use Rattle.cp_unify.specs.Differences.{akey_atom, binds, between, between_opposites, difference_of_symmetric, difference_of};
ghost use Rattle.cp_term.specs.Spines.{HasTail};

use crate::binding::Binding;
use cp_term::{Shape, Sort, Term, VarId, invert, var};
use std::alloc::{AllocError, Global};

/// How two terms differ: not at all; so that nothing makes them equal; or so that whatever makes them equal meets this
/// binding.
#[derive(Drop)]
pub(crate) enum Difference {
    Same,
    Clash,
    Bind(Binding),
}

/// A variable of this sort bound to a term.
fn bind(sort: Sort, x: VarId, term: &Term) -> Result<Difference, AllocError>
    requires { is_of_sort sort term.now ≡ true }
    ensures { IfOk result (λ d. d ≡ binds sort x term.now) }
{
    let copy = term.copy()?;
    Ok(Difference::Bind(Binding::of(sort, x, copy)))
}

/// Binds the later of two variables of this sort: x to b, or y to a.
fn bind_later(sort: Sort, x: VarId, a: &Term, y: VarId, b: &Term) -> Result<Difference, AllocError>
    requires first { is_of_sort sort a.now ≡ true }
    requires second { is_of_sort sort b.now ≡ true }
    ensures { IfOk result (λ d. d ≡ between sort x a.now y b.now) }
{
    if x == y {
        return Ok(Difference::Same);
    }
    if x.number() < y.number() {
        bind(sort, y, a)
    } else {
        bind(sort, x, b)
    }
}

/// The difference of two variables of this sort that must be equal.
fn alike_difference(alloc: Global, sort: Sort, x: VarId, y: VarId) -> Result<Difference, AllocError>
    ensures { IfOk result (λ d. d ≡ between sort x (variable_of_sort sort x) y (variable_of_sort sort y)) }
{
    if x == y {
        return Ok(Difference::Same);
    }
    let (later, earlier) = if x.number() < y.number() {
        (y, x)
    } else {
        (x, y)
    };
    let term = var(alloc, earlier, sort)?;
    Ok(Difference::Bind(Binding::of(sort, later, term)))
}

/// The inverse of a variable of sort akey.
fn inverse_of(alloc: Global, x: VarId) -> Result<Term, AllocError>
    ensures { IfOk result (λ t. t ≡ atom_term (akey_atom true x)) }
{
    let key = var(alloc, x, Sort::Akey)?;
    invert(alloc, &key)
}

/// The difference of two variables of sort akey that must be inverses of each other. No key is its own inverse.
fn opposite_difference(alloc: Global, x: VarId, y: VarId) -> Result<Difference, AllocError>
    ensures { IfOk result (λ d. d ≡ between_opposites x y) }
{
    if x == y {
        return Ok(Difference::Clash);
    }
    let a = inverse_of(alloc, x)?;
    let b = inverse_of(alloc, y)?;
    bind_later(Sort::Akey, x, &a, y, &b)
}

fn two_names_difference(
    alloc: Global,
    a: VarId,
    b: VarId,
    c: VarId,
    d: VarId,
) -> Result<Difference, AllocError>
    ensures { IfOk result (λ e. e ≡ difference_of_symmetric (ltk_term a b) (ltk_term c d)) }
{
    match alike_difference(alloc, Sort::Name, a, c)? {
        Difference::Same => alike_difference(alloc, Sort::Name, b, d),
        other => Ok(other),
    }
}

pub(crate) fn is_same_purpose(p: Option<&str>, q: Option<&str>) -> bool
    ensures { result ≡ option_eq (pointwise nat_eq) (option_map (λ s. s.now) p.entry) (option_map (λ s. s.now) q.entry) }
{
    match (p, q) {
        (None, None) => true,
        (Some(x), Some(y)) => x == y,
        _ => false,
    }
}

/// Binds a variable of sort akey whose inverse must be a key of a name.
fn bind_inverse(alloc: Global, x: VarId, key: &Term) -> Result<Difference, AllocError>
    requires { is_of_sort akey_sort key.now ≡ true }
    ensures { IfOk result (λ d. (k : KeyTerm) → key.now ≡ key_as_term k → d ≡ binds akey_sort x (key_as_term (inverse_term k))) }
{
    let inverse = invert(alloc, key)?;
    Ok(Difference::Bind(Binding::of(Sort::Akey, x, inverse)))
}

/// The difference of a tag and a term.
fn tag_difference(x: &str, b: &Term) -> Difference
    ensures { result ≡ difference_of (tag_term x.now) b.now }
{
    match b.shape() {
        Shape::Tag(y) => {
            if x == y {
                Difference::Same
            } else {
                Difference::Clash
            }
        }
        _ => Difference::Clash,
    }
}

/// The difference of a variable a and a term.
fn variable_difference(
    alloc: Global,
    x: VarId,
    sort: Sort,
    a: &Term,
    b: &Term,
) -> Result<Difference, AllocError>
    requires { a.now ≡ variable_of_sort sort x }
    ensures { IfOk result (λ d. d ≡ difference_of a.now b.now) }
{
    match b.shape() {
        Shape::Variable(y, other) => {
            if sort == other {
                bind_later(sort, x, a, y, b)
            } else {
                Ok(Difference::Clash)
            }
        }
        Shape::Inverse(y) => {
            if sort == Sort::Akey {
                opposite_difference(alloc, x, y)
            } else {
                Ok(Difference::Clash)
            }
        }
        Shape::Ltk(..) => {
            if sort == Sort::Skey {
                bind(sort, x, b)
            } else {
                Ok(Difference::Clash)
            }
        }
        Shape::Pubk(..) => {
            if sort == Sort::Akey {
                bind(sort, x, b)
            } else {
                Ok(Difference::Clash)
            }
        }
        _ => Ok(Difference::Clash),
    }
}

/// The difference of the inverse of a variable of sort akey, and a term.
fn inverse_difference(alloc: Global, x: VarId, b: &Term) -> Result<Difference, AllocError>
    ensures { IfOk result (λ d. d ≡ difference_of (atom_term (akey_atom true x)) b.now) }
{
    match b.shape() {
        Shape::Variable(y, sort) => {
            if sort == Sort::Akey {
                opposite_difference(alloc, x, y)
            } else {
                Ok(Difference::Clash)
            }
        }
        Shape::Inverse(y) => alike_difference(alloc, Sort::Akey, x, y),
        Shape::Pubk(..) => bind_inverse(alloc, x, b),
        _ => Ok(Difference::Clash),
    }
}

/// The difference of a long-term key a of two names, and a term.
fn ltk_difference(
    alloc: Global,
    m: VarId,
    n: VarId,
    a: &Term,
    b: &Term,
) -> Result<Difference, AllocError>
    requires { a.now ≡ key_as_term (symmetric_term (ltk_term m n)) }
    ensures { IfOk result (λ d. d ≡ difference_of a.now b.now) }
{
    match b.shape() {
        Shape::Variable(y, sort) => {
            if sort == Sort::Skey {
                bind(sort, y, a)
            } else {
                Ok(Difference::Clash)
            }
        }
        Shape::Ltk(k, l) => two_names_difference(alloc, m, n, k, l),
        _ => Ok(Difference::Clash),
    }
}

/// The difference of a key a of a name, and a term.
fn pubk_difference(
    alloc: Global,
    flag: bool,
    purpose: Option<&str>,
    x: VarId,
    a: &Term,
    b: &Term,
) -> Result<Difference, AllocError>
    requires { a.now ≡ key_as_term (asymmetric_term flag (pubk_term (option_map (λ s. s.now) purpose) x)) }
    ensures { IfOk result (λ d. d ≡ difference_of a.now b.now) }
{
    match b.shape() {
        Shape::Variable(y, sort) => {
            if sort == Sort::Akey {
                bind(sort, y, a)
            } else {
                Ok(Difference::Clash)
            }
        }
        Shape::Inverse(y) => bind_inverse(alloc, y, a),
        Shape::Pubk(other, other_purpose, y) => {
            if flag == other && is_same_purpose(purpose, other_purpose) {
                alike_difference(alloc, Sort::Name, x, y)
            } else {
                Ok(Difference::Clash)
            }
        }
        _ => Ok(Difference::Clash),
    }
}

/// The difference of two terms, the first a tag or of an atom sort.
pub(crate) fn leaf_difference(alloc: Global, a: &Term, b: &Term) -> Result<Difference, AllocError>
    requires { ¬ HasTail a.now }
    ensures { IfOk result (λ d. d ≡ difference_of a.now b.now) }
{
    match a.shape() {
        Shape::Tag(text) => Ok(tag_difference(text, b)),
        Shape::Variable(x, sort) => variable_difference(alloc, x, sort, a, b),
        Shape::Inverse(x) => inverse_difference(alloc, x, b),
        Shape::Ltk(m, n) => ltk_difference(alloc, m, n, a, b),
        Shape::Pubk(flag, purpose, x) => pubk_difference(alloc, flag, purpose, x, a, b),
        _ => unreachable!(),
    }
}

/// Fast test: true only if two terms do not differ any more under the binding that removes their first difference.
pub(crate) fn is_all(binding: &Binding, a: &Term, b: &Term) -> bool
    ensures { IsTrue result → Bind binding.now ≡ difference_of a.now b.now
        → apply_to (as_substitution (binding.now ∷ [])) a.now ≡ apply_to (as_substitution (binding.now ∷ [])) b.now }
{
    match (a.shape(), b.shape()) {
        (Shape::Pubk(..), Shape::Pubk(..)) => true,
        _ => binding.is_between(a, b),
    }
}
