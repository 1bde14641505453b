// The terms of two labels, place by place.
use cp_skel::{Event, Label, LocatedEvent};
use cp_term::Term;
use cp_unify::{Subst, matching_beside};
use std::alloc::{AllocError, Global};

/// The message of an event.
fn message_of(event: &Event) -> &Term {
    match event {
        Event::Send(message) | Event::Receive(message) => message,
    }
}

/// The messages of a label's events, the terms of its patterns, and the critical term of its test.
fn terms_of<'a>(
    alloc: Global,
    label: &'a Label,
    events: &'a [LocatedEvent<'_>],
) -> Result<Vec<&'a Term>, AllocError> {
    let messages = events.iter().map(|located| message_of(located.event()));
    let patterns = label.escape.as_slice().iter().map(|pattern| pattern.term());
    let tested = label.test.as_ref().map(|test| &test.critical);
    messages.chain(patterns).chain(tested).collect(alloc)
}

/// Whether variables of the first terms have values under which these terms are the others, place by place.
fn can_become(alloc: Global, terms: &[&Term], others: &[&Term]) -> Result<bool, AllocError> {
    let mut values = Subst::new(alloc);
    for (term, other) in terms.iter().zip(others) {
        let Some(more) = matching_beside(alloc, term, other, values)? else {
            return Ok(false);
        };
        values = more;
    }
    Ok(true)
}

/// Whether the terms of two labels are the same, place by place, up to the names of variables: there are equally many,
/// and each list can become the other.
pub(crate) fn have_same_terms(
    alloc: Global,
    one: &Label,
    other: &Label,
) -> Result<bool, AllocError> {
    let events = one.skeleton.events(alloc)?;
    let terms = terms_of(alloc, one, &events)?;
    let other_events = other.skeleton.events(alloc)?;
    let others = terms_of(alloc, other, &other_events)?;
    if terms.len() != others.len() || !can_become(alloc, &terms, &others)? {
        return Ok(false);
    }
    can_become(alloc, &others, &terms)
}
