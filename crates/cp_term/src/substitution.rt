// Terms under substitutions. Unchanged parts are shared.
ghost use Rattle.std.specs.Prelude.{◌≡◌, unwrap_or, MatchOption, IfOk, IsTrue};
ghost use Rattle.std.specs.Option.{option_map};
ghost use Rattle.cp_model.specs.Term.{Term as Plain, Substitution, KeyTerm, ltk_term, pubk_term, symmetric_term, asymmetric_term, pair_term, enc_term, apply_to};
ghost use Rattle.cp_term.specs.Keys.{key_as_term, IsKey};
ghost use Rattle.cp_term.specs.Spines.{tail_of, HasTail};
ghost use Rattle.cp_term.specs.Variables.{variable_of_sort, KeepsBelow};

use crate::makers::{enc, invert, key_of_name, pair};
use crate::parts::Parts;
use crate::shape::Shape;
use crate::term::{Node, Term};
use crate::variable::VarId;
use cp_model::Sort;
use std::alloc::{AllocError, Global};

/// For so many levels a right spine is walked by calls, which need no memory.
const LEVELS: usize = 16;

/// Gives variables terms of their sorts.
pub trait Valuation {
    /// The substitution that replaces the variables by these terms.
    ghost substitution: { Self → Substitution };

    /// The term that replaces a variable of this sort, if any.
    fn term_for(&self, sort: Sort, variable: VarId) -> Option<&Term>
        ensures { MatchOption result
            (apply_to (substitution self.now) (variable_of_sort sort variable) ≡ variable_of_sort sort variable)
            (λ t. apply_to (substitution self.now) (variable_of_sort sort variable) ≡ t.now) };

    /// A number such that no variable with a lower one changes; 0 is always one.
    fn least(&self) -> usize
        ensures { KeepsBelow result (substitution self.now) };
}

/// Fast test: true only if the substitution leaves the term as it is. The numbers of its variables alone tell.
#[tactic(auto, using(crate::proofs::Tops::kept))]
pub fn keeps<V: Valuation>(values: &V, term: &Term) -> bool
    ensures { IsTrue result → apply_to (V.substitution values.now) term.now ≡ term.now }
{
    term.top() < values.least()
}

/// The name that replaces a name.
pub fn name_for<V: Valuation>(values: &V, name: VarId) -> VarId
    ensures { result ≡ (V.substitution values.now).names name }
{
    match values.term_for(Sort::Name, name) {
        None => name,
        Some(term) => match term.shape() {
            Shape::Variable(other, _) => other,
            _ => unreachable!(),
        },
    }
}

/// A new long-term key, or `None` if the names do not change.
fn ltk_under<V: Valuation>(
    alloc: Global,
    values: &V,
    a: VarId,
    b: VarId,
) -> Result<Option<Term>, AllocError>
    ensures { IfOk result (λ changed. (t : Plain) → t ≡ key_as_term (symmetric_term (ltk_term a b))
        → unwrap_or changed t ≡ apply_to (V.substitution values.now) t) }
{
    let c = name_for(values, a);
    let d = name_for(values, b);
    if c == a && d == b {
        return Ok(None);
    }
    Term::made(alloc, Node::Ltk(c, d)).map(Some)
}

/// A new key of a name, or `None` if the name does not change.
fn pubk_under<V: Valuation>(
    alloc: Global,
    values: &V,
    flag: bool,
    purpose: Option<&str>,
    a: VarId,
) -> Result<Option<Term>, AllocError>
    ensures { IfOk result (λ changed. (t : Plain)
        → t ≡ key_as_term (asymmetric_term flag (pubk_term (option_map (λ text. text.now) purpose.entry) a))
        → unwrap_or changed t ≡ apply_to (V.substitution values.now) t) }
{
    let b = name_for(values, a);
    if b == a {
        return Ok(None);
    }
    key_of_name(alloc, flag, purpose, b).map(Some)
}

/// A new term of an atom sort, or `None` if it does not change, as other terms must.
fn leaf_under<V: Valuation>(
    alloc: Global,
    values: &V,
    leaf: &Term,
) -> Result<Option<Term>, AllocError>
    requires { HasTail leaf.now → apply_to (V.substitution values.now) leaf.now ≡ leaf.now }
    ensures { IfOk result (λ changed. unwrap_or changed leaf.now ≡ apply_to (V.substitution values.now) leaf.now) }
{
    if keeps(values, leaf) {
        return Ok(None);
    }
    match leaf.shape() {
        Shape::Variable(variable, sort) => match values.term_for(sort, variable) {
            Some(term) => term.copy().map(Some),
            None => Ok(None),
        },
        Shape::Inverse(variable) => match values.term_for(Sort::Akey, variable) {
            Some(key) => {
                let inverse = invert(alloc, key)?;
                Ok(Some(inverse))
            }
            None => Ok(None),
        },
        Shape::Ltk(a, b) => ltk_under(alloc, values, a, b),
        Shape::Pubk(flag, purpose, a) => pubk_under(alloc, values, flag, purpose, a),
        _ => Ok(None),
    }
}

/// The new term, or else a copy of the old one.
fn or_copy(changed: Option<Term>, term: &Term) -> Result<Term, AllocError>
    ensures { IfOk result (λ t. t ≡ unwrap_or changed term.now) }
{
    match changed {
        Some(new) => Ok(new),
        None => term.copy(),
    }
}

/// What two parts become, or `None` if neither is new.
fn new_parts(
    first: &Term,
    second: &Term,
    new_first: Option<Term>,
    new_second: Option<Term>,
) -> Result<Option<(Term, Term)>, AllocError>
    ensures { IfOk result (λ parts. MatchOption parts
        ((unwrap_or new_first first.now ≡ first.now) × (unwrap_or new_second second.now ≡ second.now))
        (λ p. (p.0 ≡ unwrap_or new_first first.now) × (p.1 ≡ unwrap_or new_second second.now))) }
{
    if new_first.is_none() && new_second.is_none() {
        return Ok(None);
    }
    let first = or_copy(new_first, first)?;
    or_copy(new_second, second).map(|second| Some((first, second)))
}

/// A new pair, of new parts if there are any, or `None` if neither part is new.
fn pair_of(
    alloc: Global,
    left: &Term,
    right: &Term,
    new_left: Option<Term>,
    new_right: Option<Term>,
) -> Result<Option<Term>, AllocError>
    ensures { IfOk result (λ changed. unwrap_or changed (pair_term left.now right.now)
        ≡ pair_term (unwrap_or new_left left.now) (unwrap_or new_right right.now)) }
{
    match new_parts(left, right, new_left, new_right)? {
        None => Ok(None),
        Some((first, second)) => pair(alloc, first, second).map(Some),
    }
}

/// A new encryption, of new parts if there are any, or `None` if neither part is new.
fn encryption_of(
    alloc: Global,
    body: &Term,
    key: &Term,
    new_body: Option<Term>,
    new_key: Option<Term>,
) -> Result<Option<Term>, AllocError>
    requires { IsKey (unwrap_or new_key key.now) }
    ensures { IfOk result (λ changed. (k j : KeyTerm) → key.now ≡ key_as_term k → unwrap_or new_key key.now ≡ key_as_term j
        → unwrap_or changed (enc_term body.now k) ≡ enc_term (unwrap_or new_body body.now) j) }
{
    match new_parts(body, key, new_body, new_key)? {
        None => Ok(None),
        Some((plain, under)) => enc(alloc, plain, under).map(Some),
    }
}

/// The new term of one on a spine, whose tail became another or stayed; `None` if it does not change.
#[cycle(under)]
fn above_under<V: Valuation>(
    alloc: Global,
    values: &V,
    above: &Term,
    tail: Option<Term>,
) -> Result<Option<Term>, AllocError>
    requires has_tail { HasTail above.now }
    requires tail { unwrap_or tail (tail_of above.now) ≡ apply_to (V.substitution values.now) (tail_of above.now) }
    ensures { IfOk result (λ changed. unwrap_or changed above.now ≡ apply_to (V.substitution values.now) above.now) }
{
    match above.parts() {
        Parts::Pair(left, right) => {
            let new_left = under(alloc, values, left, LEVELS)?;
            pair_of(alloc, left, right, new_left, tail)
        }
        Parts::Encryption(body, key) => {
            let new_key = leaf_under(alloc, values, key)?;
            encryption_of(alloc, body, key, tail, new_key)
        }
        Parts::Leaf => unreachable!(),
    }
}

/// The new term, or `None` if it does not change. The right spine is walked by loops, since it may be long.
#[cycle(under)]
fn long_under<V: Valuation>(
    alloc: Global,
    values: &V,
    term: &Term,
) -> Result<Option<Term>, AllocError>
    ensures { IfOk result (λ changed. unwrap_or changed term.now ≡ apply_to (V.substitution values.now) term.now) }
{
    let mut spine: Vec<&Term> = Vec::new(alloc);
    let mut rest = term;
    while !keeps(values, rest) {
        match rest.tail() {
            Some(tail) => {
                spine.push(rest)?;
                rest = tail;
            }
            None => break,
        }
    }
    let mut changed = leaf_under(alloc, values, rest)?;
    while let Some(above) = spine.pop() {
        changed = above_under(alloc, values, above, changed)?;
    }
    Ok(changed)
}

/// The new term, or `None` if it does not change. The right spine is walked by calls for so many levels, and by loops
/// below them.
#[cycle(under)]
fn under<V: Valuation>(
    alloc: Global,
    values: &V,
    term: &Term,
    levels: usize,
) -> Result<Option<Term>, AllocError>
    ensures { IfOk result (λ changed. unwrap_or changed term.now ≡ apply_to (V.substitution values.now) term.now) }
{
    let Some(tail) = term.tail() else {
        return leaf_under(alloc, values, term);
    };
    if keeps(values, term) {
        return Ok(None);
    }
    if levels == 0 {
        return long_under(alloc, values, term);
    }
    let new_tail = under(alloc, values, tail, levels - 1)?;
    above_under(alloc, values, term, new_tail)
}

/// The term with each variable replaced by what it is given. Unchanged parts are shared.
pub fn substituted<V: Valuation>(alloc: Global, values: &V, term: &Term) -> Result<Term, AllocError>
    ensures { IfOk result (λ t. t ≡ apply_to (V.substitution values.now) term.now) }
{
    let changed = under(alloc, values, term, LEVELS)?;
    or_copy(changed, term)
}
