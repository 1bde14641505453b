// Events and traces.
ghost use Rattle.std.specs.Prelude.{◌≡◌, map, IfOk};
ghost use Rattle.cp_sexpr.specs.View.{view};
ghost use Rattle.cp_language.specs.Words.{event_head};
ghost use Rattle.cp_language.specs.Terms.{term_faults, term_of};
ghost use Rattle.cp_language.specs.Roles.{headed, message_faults, event_faults, events_faults, trace_faults, where_faultless, message_of, event_of, events_stated, items_behind};
ghost use Rattle.cp_scope.specs.FirstFault.{first_onto};

use cp_base::{Code, Place};
use cp_scope::{
    EventHead, FirstFault, Variables, event_head, fixed, headed, items_behind, lacks, no_term,
    place_of, term_faults, term_of,
};
use cp_sexpr::Form;
use cp_strand::Event;
use cp_term::Term;
use std::alloc::{AllocError, Global};

/// Notes the faults of the items after the head of a transmission or a reception. There must be one message; two items
/// mean a channel.
fn message_faults(variables: &Variables, place: Place, items: &[Form], first: &mut FirstFault)
    ensures { first.new ≡ first_onto first.old (message_faults variables.now place (map view items.now)) }
{
    match items {
        [] => first.note(place, Code::BadShape),
        [message] => term_faults(variables, message, first),
        [_, _] => first.note(place, Code::OutOfProfile),
        [channel, message, more, ..] => {
            term_faults(variables, channel, first);
            term_faults(variables, message, first);
            first.note(place_of(more), Code::BadShape);
        }
    }
}

/// Notes the faults of an event.
fn event_faults(variables: &Variables, form: &Form, first: &mut FirstFault)
    ensures { first.new ≡ first_onto first.old (event_faults variables.now (view form.now)) }
{
    let Some(list) = headed(form) else {
        first.note(place_of(form), Code::BadShape);
        return;
    };
    match event_head(list.head) {
        EventHead::Send | EventHead::Recv => message_faults(
            variables,
            place_of(form),
            list.items,
            first,
        ),
        EventHead::OutOfProfile => first.note(place_of(form), Code::OutOfProfile),
        EventHead::Unknown => first.note(place_of(form), Code::UnknownForm),
    }
}

/// Notes the faults of the events of a trace.
fn events_faults(variables: &Variables, items: &[Form], first: &mut FirstFault)
    ensures { first.new ≡ first_onto first.old (events_faults variables.now (map view items.now)) }
{
    for item in items {
        event_faults(variables, item, first);
    }
}

/// Notes the faults of a trace.
pub(crate) fn trace_faults(variables: &Variables, form: &Form, first: &mut FirstFault)
    ensures { first.new ≡ first_onto first.old (trace_faults variables.now (view form.now)) }
{
    if let Some(list) = fixed(form, b"trace", first) {
        lacks(1, list.place, list.items, first);
        events_faults(variables, list.items, first);
    }
}

/// What a term stands for, or a placeholder if it has faults.
fn faultless_term(alloc: Global, variables: &Variables, form: &Form) -> Result<Term, AllocError>
    ensures { IfOk result (λ t. t ≡ where_faultless (term_faults variables.now (view form.now)) (term_of variables.now (view form.now))) }
{
    let mut faults = FirstFault::new();
    term_faults(variables, form, &mut faults);
    if faults.is_none() {
        term_of(alloc, variables, form)
    } else {
        no_term(alloc)
    }
}

/// The message of a transmission or a reception with these items after its head.
fn message_of(alloc: Global, variables: &Variables, items: &[Form]) -> Result<Term, AllocError>
    ensures { IfOk result (λ t. t ≡ message_of variables.now (map view items.now)) }
{
    match items {
        [message, ..] => faultless_term(alloc, variables, message),
        [] => no_term(alloc),
    }
}

/// The event that a form stands for. What stands for a form with faults has no meaning, but its message has no
/// variables.
fn event_of(alloc: Global, variables: &Variables, form: &Form) -> Result<Event, AllocError>
    ensures { IfOk result (λ e. e ≡ event_of variables.now (headed (view form.now))) }
{
    let Some(list) = headed(form) else {
        return no_term(alloc).map(Event::Send);
    };
    let message = message_of(alloc, variables, list.items);
    match event_head(list.head) {
        EventHead::Send => message.map(Event::Send),
        _ => message.map(Event::Receive),
    }
}

/// The events of a trace.
pub(crate) fn events_of(
    alloc: Global,
    variables: &Variables,
    form: &Form,
) -> Result<Vec<Event>, AllocError>
    ensures { IfOk result (λ v. v.items ≡ events_stated variables.now (view form.now)) }
{
    items_behind(form)
        .iter()
        .map(|item| event_of(alloc, variables, item))
        .try_collect(alloc)
}
