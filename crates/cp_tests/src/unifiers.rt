// Unifiers and matches of terms made by hand.
ghost use Rattle.std.specs.Prelude.{IfOk};
ghost use Rattle.cp_term.specs.Keys.{IsKey};

use crate::terms::{sealed, variable};
use cp_model::Variable;
use cp_term::{Sort, Term, invert, ltk, pair, pubk};
use cp_unify::{Subst, apply, matching, unify};
use std::alloc::{AllocError, Global};
use std::test::Fail;

// A term that is made by hand.
type Made = Result<Term, AllocError>;

fn text(alloc: Global, number: usize) -> Made {
    variable(alloc, Sort::Text, number)
}

fn name(alloc: Global, number: usize) -> Made {
    variable(alloc, Sort::Name, number)
}

fn akey(alloc: Global) -> Made {
    variable(alloc, Sort::Akey, 0)
}

/// The inverse of the asymmetric key 0.
fn inverse(alloc: Global) -> Made {
    invert(alloc, &variable(alloc, Sort::Akey, 0)?)
}

/// The public key of the name 0, for a purpose or for none.
fn public(alloc: Global, purpose: Option<&str>) -> Made {
    pubk(alloc, purpose, variable(alloc, Sort::Name, 0)?)
}

/// Its private key.
fn private(alloc: Global) -> Made {
    invert(alloc, &pubk(alloc, None, variable(alloc, Sort::Name, 0)?)?)
}

/// The long-term key of two names.
pub(crate) fn shared(alloc: Global, first: usize, second: usize) -> Made
    ensures { IfOk result (λ t. IsKey t) }
{
    let name = variable(alloc, Sort::Name, first)?;
    ltk(alloc, name, variable(alloc, Sort::Name, second)?)
}

/// The pair of two terms.
fn both(alloc: Global, left: Made, right: Made) -> Made {
    pair(alloc, left?, right?)
}

/// Whether the substitution makes the one term of the other.
fn makes(alloc: Global, s: &Subst, of: &Term, wanted: &Term) -> Result<bool, AllocError> {
    Ok(apply(alloc, s, of)?.same(wanted))
}

/// The unifier of two terms, if they have one.
fn unifier(alloc: Global, left: Made, right: Made) -> Result<Option<Subst>, AllocError> {
    unify(alloc, &left?, &right?, &Subst::new(alloc))
}

/// Whether the unifier of two terms makes the fourth of the third.
fn is_unified(
    alloc: Global,
    left: Made,
    right: Made,
    of: Made,
    wanted: Made,
) -> Result<bool, AllocError> {
    match unifier(alloc, left, right)? {
        Some(s) => makes(alloc, &s, &of?, &wanted?),
        None => Ok(false),
    }
}

/// Whether the two terms have no unifier.
fn stay_apart(alloc: Global, left: Made, right: Made) -> Result<bool, AllocError> {
    Ok(unifier(alloc, left, right)?.is_none())
}

// Of two variables the later becomes the earlier.
#[test]
fn unifiers(rt: HostRuntime) -> Result<(), Fail> {
    let alloc = rt.alloc();
    for is_right in [
        is_unified(
            alloc,
            inverse(alloc),
            public(alloc, None),
            akey(alloc),
            private(alloc),
        ),
        is_unified(
            alloc,
            text(alloc, 0),
            text(alloc, 1),
            text(alloc, 1),
            text(alloc, 0),
        ),
        is_unified(
            alloc,
            text(alloc, 1),
            text(alloc, 0),
            text(alloc, 1),
            text(alloc, 0),
        ),
        is_unified(
            alloc,
            sealed(alloc, 0),
            sealed(alloc, 2),
            text(alloc, 2),
            text(alloc, 0),
        ),
        is_unified(
            alloc,
            shared(alloc, 0, 1),
            shared(alloc, 2, 3),
            name(alloc, 3),
            name(alloc, 1),
        ),
        stay_apart(alloc, akey(alloc), inverse(alloc)),
        stay_apart(alloc, public(alloc, Some("sign")), public(alloc, None)),
        stay_apart(alloc, text(alloc, 0), name(alloc, 0)),
        stay_apart(alloc, sealed(alloc, 0), text(alloc, 2)),
    ] {
        assert!(rt; is_right?);
    }
    Ok(())
}

/// Whether the answer binds the local text 2 to this text, and nothing else.
fn binds(answer: &Option<Subst>, wanted: &Term) -> bool {
    match answer {
        Some(s) => match s.bindings() {
            [binding] => binding.variable().number == 2 && binding.term().same(wanted),
            _ => false,
        },
        None => false,
    }
}

/// The match of a pattern, in which the text 2 is local, with a term.
fn matched(alloc: Global, pattern: Made, term: Made) -> Result<Option<Subst>, AllocError> {
    let local = Variable {
        sort: Sort::Text,
        number: 2,
    };
    matching(alloc, &pattern?, &term?, &[local])
}

/// Whether the local is this text.
fn is_local(alloc: Global, pattern: Made, term: Made, wanted: Made) -> Result<bool, AllocError> {
    Ok(binds(&matched(alloc, pattern, term)?, &wanted?))
}

/// Whether the term does not match the pattern.
fn is_unmatched(alloc: Global, pattern: Made, term: Made) -> Result<bool, AllocError> {
    Ok(matched(alloc, pattern, term)?.is_none())
}

/// The text 2 twice.
fn twice(alloc: Global) -> Made {
    both(alloc, text(alloc, 2), text(alloc, 2))
}

// A local has one value, which is of its sort.
#[test]
fn matches_of_patterns(rt: HostRuntime) -> Result<(), Fail> {
    let alloc = rt.alloc();
    let same = both(alloc, text(alloc, 1), text(alloc, 1));
    let others = both(alloc, text(alloc, 0), text(alloc, 1));
    for is_right in [
        is_local(alloc, sealed(alloc, 2), sealed(alloc, 1), text(alloc, 1)),
        is_local(alloc, twice(alloc), same, text(alloc, 1)),
        is_unmatched(alloc, twice(alloc), others),
        is_unmatched(alloc, text(alloc, 2), name(alloc, 1)),
        is_unmatched(alloc, text(alloc, 0), text(alloc, 1)),
    ] {
        assert!(rt; is_right?);
    }
    Ok(())
}
