// The makers of terms.
ghost use Rattle.std.specs.Prelude.{◌≡◌, ℕ, false, IfOk};
ghost use Rattle.std.specs.Option.{option_map};
ghost use Rattle.cp_model.specs.Message.{Key, inverse};
ghost use Rattle.cp_model.specs.Message as message;
ghost use Rattle.cp_model.specs.Term.{Assignment, KeyTerm, value_of, tag_term, pair_term, enc_term, pubk_term, ltk_term, symmetric_term, asymmetric_term, inverse_term};
ghost use Rattle.cp_term.specs.Keys.{name_of, key_as_term, IsName, IsKey};
ghost use Rattle.cp_term.specs.Variables.{variable_of_sort, value_of_variable};

use crate::term::{Node, Term};
use crate::variable::VarId;
use cp_base::{Text, copy_if_any};
use cp_model::Sort;
use std::alloc::{AllocError, Global};

/// The tag with this text.
pub fn tag(alloc: Global, text: &str) -> Result<Term, AllocError>
    ensures plain { IfOk result (λ t. t ≡ tag_term text.now) }
    ensures value { IfOk result (λ t. (g : Assignment) → value_of g t ≡ message.tag text.now) }
{
    let text = Text::new(alloc, text)?;
    Term::made(alloc, Node::Tag(text))
}

/// The variable of this sort.
pub fn var(alloc: Global, id: VarId, sort: Sort) -> Result<Term, AllocError>
    ensures plain { IfOk result (λ t. t ≡ variable_of_sort sort id) }
    ensures value { IfOk result (λ t. (g : Assignment) → value_of g t ≡ value_of_variable g sort id) }
{
    match sort {
        Sort::Text => Term::made(alloc, Node::TextVariable(id)),
        Sort::Datum => Term::made(alloc, Node::DatumVariable(id)),
        Sort::Name => Term::made(alloc, Node::NameVariable(id)),
        Sort::Skey => Term::made(alloc, Node::SkeyVariable(id)),
        Sort::Akey => Term::made(alloc, Node::AkeyVariable(false, id)),
    }
}

/// The variable that a term of sort name is.
fn name_in(term: &Term) -> VarId
    requires { IsName term.now }
    ensures { term.now ≡ name_of result }
{
    match term.node() {
        Node::NameVariable(id) => *id,
        _ => unreachable!(),
    }
}

/// The long-term key of two names. Both must be variables of sort name.
pub fn ltk(alloc: Global, a: Term, b: Term) -> Result<Term, AllocError>
    requires first { IsName a }
    requires second { IsName b }
    ensures plain { IfOk result (λ t. (m n : ℕ) → a ≡ name_of m → b ≡ name_of n
        → t ≡ key_as_term (symmetric_term (ltk_term m n))) }
    ensures is_key { IfOk result (λ t. IsKey t) }
    ensures value { IfOk result (λ t. (g : Assignment) (x y : ℕ) → value_of g a ≡ message.atom (message.name x)
        → value_of g b ≡ message.atom (message.name y)
        → value_of g t ≡ message.atom (message.key (message.symmetric (message.ltk x y)))) }
{
    Term::made(alloc, Node::Ltk(name_in(&a), name_in(&b)))
}

/// The public key of a name, or its private key if the flag is set, with a purpose or without one.
pub(crate) fn key_of_name(
    alloc: Global,
    flag: bool,
    purpose: Option<&str>,
    name: VarId,
) -> Result<Term, AllocError>
    ensures { IfOk result (λ t. t ≡ key_as_term (asymmetric_term flag (pubk_term (option_map (λ s. s.now) purpose.entry) name))) }
{
    match purpose {
        None => Term::made(alloc, Node::Pubk(flag, None, name)),
        Some(text) => {
            let text = Text::new(alloc, text)?;
            Term::made(alloc, Node::Pubk(flag, Some(text), name))
        }
    }
}

/// The public key of a name, with a purpose or without one. The name must be a variable of sort name.
pub fn pubk(alloc: Global, purpose: Option<&str>, name: Term) -> Result<Term, AllocError>
    requires { IsName name }
    ensures plain { IfOk result (λ t. (n : ℕ) → name ≡ name_of n
        → t ≡ key_as_term (asymmetric_term false (pubk_term (option_map (λ s. s.now) purpose.entry) n))) }
    ensures is_key { IfOk result (λ t. IsKey t) }
    ensures value { IfOk result (λ t. (g : Assignment) (x : ℕ) → value_of g name ≡ message.atom (message.name x)
        → value_of g t ≡ message.atom (message.key
        (message.asymmetric false (message.pubk (option_map (λ s. s.now) purpose.entry) x)))) }
{
    key_of_name(alloc, false, purpose, name_in(&name))
}

/// The pair of two terms.
pub fn pair(alloc: Global, left: Term, right: Term) -> Result<Term, AllocError>
    ensures plain { IfOk result (λ t. t ≡ pair_term left right) }
    ensures value { IfOk result (λ t. (g : Assignment)
        → value_of g t ≡ message.pair (value_of g left) (value_of g right)) }
{
    Term::made(alloc, Node::Pair(left, right))
}

/// The encryption of a term under a key, which must have sort skey or akey.
pub fn enc(alloc: Global, body: Term, key: Term) -> Result<Term, AllocError>
    requires { IsKey key }
    ensures plain { IfOk result (λ t. (k : KeyTerm) → key ≡ key_as_term k → t ≡ enc_term body k) }
    ensures value { IfOk result (λ t. (g : Assignment) (k : Key) → value_of g key ≡ message.atom (message.key k)
        → value_of g t ≡ message.enc (value_of g body) k) }
{
    Term::made(alloc, Node::Encryption(body, key))
}

/// The inverse of a key, which must have sort skey or akey. A symmetric key is its own inverse.
pub fn invert(alloc: Global, key: &Term) -> Result<Term, AllocError>
    requires { IsKey key.now }
    ensures plain { IfOk result (λ t. (k : KeyTerm) → key.now ≡ key_as_term k → t ≡ key_as_term (inverse_term k)) }
    ensures is_key { IfOk result (λ t. IsKey t) }
    ensures value { IfOk result (λ t. (g : Assignment) (k : Key) → value_of g key.now ≡ message.atom (message.key k)
        → value_of g t ≡ message.atom (message.key (inverse k))) }
{
    match key.node() {
        Node::SkeyVariable(_) | Node::Ltk(..) => key.copy(),
        Node::AkeyVariable(flag, id) => Term::made(alloc, Node::AkeyVariable(!*flag, *id)),
        Node::Pubk(flag, purpose, id) => {
            let purpose = copy_if_any(purpose)?;
            Term::made(alloc, Node::Pubk(!*flag, purpose, *id))
        }
        _ => unreachable!(),
    }
}
