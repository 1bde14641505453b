// What terms of the input stand for. What stands for a term with faults has no meaning.
ghost use Rattle.std.specs.Prelude.{◌≡◌, [], map, option_map, None, IfOk};
ghost use Rattle.cp_model.specs.Term.{variable_term, tag_term, enc_term, asymmetric_term, pubk_term, symmetric_term, skey_variable};
ghost use Rattle.cp_sexpr.specs.View.{view};
ghost use Rattle.cp_language.specs.Roles.{headed};
ghost use Rattle.cp_language.specs.Terms.{variable_named, term_of_variable, paired, all_but_last, last_of, as_key, as_name, long_term, inverted, applied, term_of};
ghost use Rattle.cp_term.specs.Keys.{name_of, key_as_term};
ghost use Rattle.cp_scope.specs.Applied.{is_name, is_key, purpose_in, key_of_purpose};

use crate::{TermHead, Variables, headed, term_head};
use cp_base::Text;
use cp_model::Variable;
use cp_sexpr::Form;
use cp_term::{Shape, Sort, Term, VarId, enc, invert, ltk, pair, pubk, tag, var};
use std::alloc::{AllocError, Global};

/// Placeholder for an ill-formed term.
pub fn no_term(alloc: Global) -> Result<Term, AllocError>
    ensures { IfOk result (λ t. t ≡ tag_term []) }
{
    tag(alloc, "")
}

/// The variable as a term.
pub fn variable_term(alloc: Global, variable: Variable) -> Result<Term, AllocError>
    ensures { IfOk result (λ t. t ≡ variable_term variable) }
{
    var(alloc, VarId::numbered(variable.number), variable.sort)
}

/// Whether a term is of sort name.
fn is_name(term: &Term) -> bool
    ensures { result ≡ is_name term.now }
{
    matches!(term.shape(), Shape::Variable(_, Sort::Name))
}

/// The term as a name. Any other term counts as the first name.
fn name_term(alloc: Global, term: &Term) -> Result<Term, AllocError>
    ensures { IfOk result (λ t. t ≡ name_of (as_name term.now)) }
{
    if is_name(term) {
        return term.copy();
    }
    var(alloc, VarId::numbered(0), Sort::Name)
}

/// Whether a term is a key.
fn is_key(term: &Term) -> bool
    ensures { result ≡ is_key term.now }
{
    matches!(
        term.shape(),
        Shape::Variable(_, Sort::Skey | Sort::Akey)
            | Shape::Inverse(_)
            | Shape::Ltk(..)
            | Shape::Pubk(..)
    )
}

/// Placeholder for an ill-formed key.
fn no_key(alloc: Global) -> Result<Term, AllocError>
    ensures { IfOk result (λ t. t ≡ key_as_term (symmetric_term (skey_variable 0))) }
{
    var(alloc, VarId::numbered(0), Sort::Skey)
}

/// A term as a key.
fn key_term(alloc: Global, term: &Term) -> Result<Term, AllocError>
    ensures { IfOk result (λ t. t ≡ key_as_term (as_key term.now)) }
{
    if is_key(term) {
        term.copy()
    } else {
        no_key(alloc)
    }
}

/// The terms as one, paired to the right.
fn paired(alloc: Global, mut terms: Vec<Term>) -> Result<Term, AllocError>
    ensures { IfOk result (λ t. t ≡ paired terms.items) }
{
    let Some(mut right) = terms.pop() else {
        return no_term(alloc);
    };
    while let Some(left) = terms.pop() {
        right = pair(alloc, left, right)?;
    }
    Ok(right)
}

/// Removes the last term and returns it as a key.
fn pop_key(alloc: Global, terms: &mut Vec<Term>) -> Result<Term, AllocError>
    ensures { IfOk result (λ k. (k ≡ key_as_term (as_key (last_of terms.old.items))) × (terms.new.items ≡ all_but_last terms.old.items)) }
{
    match terms.pop() {
        Some(last) => key_term(alloc, &last),
        None => no_key(alloc),
    }
}

/// The encryption of the first terms under the last.
fn encryption(alloc: Global, mut terms: Vec<Term>) -> Result<Term, AllocError>
    ensures { IfOk result (λ t. t ≡ enc_term (paired (all_but_last terms.items)) (as_key (last_of terms.items))) }
{
    let key = pop_key(alloc, &mut terms)?;
    let body = paired(alloc, terms)?;
    enc(alloc, body, key)
}

/// The long-term key of the first two terms.
fn long_term(alloc: Global, terms: &[Term]) -> Result<Term, AllocError>
    ensures { IfOk result (λ t. t ≡ long_term terms.now) }
{
    match terms {
        [first, second, ..] => {
            let first = name_term(alloc, first)?;
            ltk(alloc, first, name_term(alloc, second)?)
        }
        _ => no_term(alloc),
    }
}

/// The inverse of the first term.
fn inverted(alloc: Global, terms: &[Term]) -> Result<Term, AllocError>
    ensures { IfOk result (λ t. t ≡ inverted terms.now) }
{
    match terms {
        [key, ..] => {
            let key = key_term(alloc, key)?;
            invert(alloc, &key)
        }
        [] => no_term(alloc),
    }
}

/// The public or private key of a name, with a purpose or without one.
fn key_of(
    alloc: Global,
    private: bool,
    purpose: Option<&str>,
    name: &Term,
) -> Result<Term, AllocError>
    ensures { IfOk result (λ t. t ≡ key_as_term (asymmetric_term private
        (pubk_term (option_map (λ s. s.now) purpose.entry) (as_name name.now)))) }
{
    let name = name_term(alloc, name)?;
    let key = pubk(alloc, purpose, name)?;
    if private {
        invert(alloc, &key)
    } else {
        Ok(key)
    }
}

/// The purpose, if one comes first.
fn purpose_in(items: &[Form]) -> Option<&Text>
    ensures { option_map (λ t. t.now) result ≡ purpose_in (map view items.now) }
{
    match items {
        [Form::String(_, purpose), ..] => Some(purpose),
        _ => None,
    }
}

/// The public or private key of the name that the terms of a list give, after the purpose if there is one.
fn key_of_purpose(
    alloc: Global,
    private: bool,
    purpose: Option<&Text>,
    terms: &[Term],
) -> Result<Term, AllocError>
    ensures { IfOk result (λ t. t ≡ key_of_purpose private (option_map (λ p. p.now) purpose.entry) terms.now) }
{
    match (purpose, terms) {
        (Some(purpose), [_, name, ..]) => key_of(alloc, private, Some(purpose.as_str()), name),
        (None, [name, ..]) => key_of(alloc, private, None, name),
        _ => no_term(alloc),
    }
}

/// What a list with this head and these items stands for, if the items stand for these terms.
pub fn applied(
    alloc: Global,
    head: TermHead,
    items: &[Form],
    terms: Vec<Term>,
) -> Result<Term, AllocError>
    ensures { IfOk result (λ t. t ≡ applied head (map view items.now) terms.items) }
{
    match head {
        TermHead::Cat => paired(alloc, terms),
        TermHead::Enc => encryption(alloc, terms),
        TermHead::Ltk => long_term(alloc, &terms),
        TermHead::Pubk => key_of_purpose(alloc, false, purpose_in(items), &terms),
        TermHead::Privk => key_of_purpose(alloc, true, purpose_in(items), &terms),
        TermHead::Invk => inverted(alloc, &terms),
        TermHead::OutOfProfile | TermHead::Unknown => no_term(alloc),
    }
}

/// What a symbol stands for.
fn named_term(alloc: Global, variables: &Variables, identifier: &[u8]) -> Result<Term, AllocError>
    ensures { IfOk result (λ t. t ≡ term_of_variable (variable_named variables.now identifier.now)) }
{
    match variables.named(identifier) {
        Some(variable) => variable_term(alloc, variable),
        None => no_term(alloc),
    }
}

/// What a term that is no list with a head stands for.
fn leaf_term(alloc: Global, variables: &Variables, form: &Form) -> Result<Term, AllocError>
    ensures { IfOk result (λ t. headed (view form.now) ≡ None → t ≡ term_of variables.now (view form.now)) }
{
    match form {
        Form::Symbol(_, identifier) => named_term(alloc, variables, identifier.as_bytes()),
        Form::String(_, text) => tag(alloc, text.as_str()),
        Form::Number(..) | Form::List(..) => no_term(alloc),
    }
}

/// What a term over these variables stands for.
pub fn term_of(alloc: Global, variables: &Variables, form: &Form) -> Result<Term, AllocError>
    ensures { IfOk result (λ t. t ≡ term_of variables.now (view form.now)) }
{
    let Some(list) = headed(form) else {
        return leaf_term(alloc, variables, form);
    };
    let mut terms = Vec::new(alloc);
    for item in list.items {
        terms.push(term_of(alloc, variables, item)?)?;
    }
    applied(alloc, term_head(list.head), list.items, terms)
}
