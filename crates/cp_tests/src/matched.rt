// Which terms a pattern matches, where a substitution gives its key.
use crate::terms::{pattern, sealed, variable};
use crate::unifiers::shared;
use cp_pattern::matches;
use cp_term::{Sort, Term, enc};
use cp_unify::{Subst, unify};
use std::alloc::{AllocError, Global};
use std::test::Fail;

/// A text under a long-term key.
fn sealed_between_names(alloc: Global) -> Result<Term, AllocError> {
    let text = variable(alloc, Sort::Text, 0)?;
    enc(alloc, text, shared(alloc, 0, 0)?)
}

/// The substitution that makes the key 1 that long-term key.
fn bound(alloc: Global) -> Result<Option<Subst>, AllocError> {
    let key = variable(alloc, Sort::Skey, 1)?;
    unify(alloc, &key, &shared(alloc, 0, 0)?, &Subst::new(alloc))
}

/// Whether the pattern of any text under the key 1 matches the term, where the substitution gives the key, as wanted.
fn is_right(
    alloc: Global,
    from: &Subst,
    term: Result<Term, AllocError>,
    wanted: bool,
) -> Result<bool, AllocError> {
    Ok(matches(alloc, &pattern(alloc)?, from, &term?)? == wanted)
}

/// Whether texts under the key alone match, or texts under the long-term key alone.
fn are_right(alloc: Global, from: &Subst, is_itself: bool) -> Result<bool, AllocError> {
    Ok(
        is_right(alloc, from, sealed(alloc, 0), is_itself)?
            && is_right(alloc, from, sealed(alloc, 3), is_itself)?
            && is_right(alloc, from, sealed_between_names(alloc), !is_itself)?
            && is_right(alloc, from, variable(alloc, Sort::Text, 0), false)?,
    )
}

/// Whether texts under the long-term key match where the key is that one.
fn are_right_where_bound(alloc: Global) -> Result<bool, AllocError> {
    match bound(alloc)? {
        Some(from) => are_right(alloc, &from, false),
        None => Ok(false),
    }
}

#[test]
fn where_the_key_is_as_said(rt: HostRuntime) -> Result<(), Fail> {
    assert!(rt; are_right(rt.alloc(), &Subst::new(rt.alloc()), true)?);
    assert!(rt; are_right_where_bound(rt.alloc())?);
    Ok(())
}
