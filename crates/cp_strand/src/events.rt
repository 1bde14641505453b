// Terms and events of instances.
ghost use Rattle.std.specs.Prelude.{◌≡◌, IfOk, IfSome};
ghost use Rattle.cp_lists.specs.Lists.{item_at};
ghost use Rattle.cp_model.specs.Term.{apply_to, apply_to_atom};
ghost use Rattle.cp_model.specs.Strand.{event_map};
ghost use Rattle.cp_model.specs.Skeleton.{skeleton_trace, listener};
ghost use Rattle.cp_model.specs.Homomorphism.{substitution_by};
ghost use Rattle.cp_strand.specs.View.{instance_view};

use crate::atom::Atom;
use crate::prefix_variables::prefix_of;
use crate::protocol::Event;
use crate::strand::{Body, Instance, Strand};
use crate::values::ByNumber;
use cp_model::item_at;
use cp_term::{Term, substituted};
use std::alloc::{AllocError, Global};

/// A role's term under the terms of an instance: variable number i is replaced by the term number i, if that is of its
/// sort.
pub fn applied(alloc: Global, values: &[Term], term: &Term) -> Result<Term, AllocError>
    ensures { IfOk result (λ t. t ≡ apply_to (substitution_by values.now) term.now) }
{
    substituted(alloc, &ByNumber { terms: values }, term)
}

/// An atom of a role under the terms of an instance.
pub fn applied_atom(alloc: Global, values: &[Term], atom: &Atom) -> Result<Atom, AllocError>
    ensures { IfOk result (λ a. a ≡ apply_to_atom (substitution_by values.now) atom.now) }
{
    match Atom::new(applied(alloc, values, atom.as_term())?) {
        Some(atom) => Ok(atom),
        None => unreachable!(),
    }
}

/// A role's event under the terms of an instance.
fn applied_event(alloc: Global, values: &[Term], event: &Event) -> Result<Event, AllocError>
    ensures { IfOk result (λ e. e ≡ event_map (apply_to (substitution_by values.now)) event.now) }
{
    match event {
        Event::Send(message) => applied(alloc, values, message).map(Event::Send),
        Event::Receive(message) => applied(alloc, values, message).map(Event::Receive),
    }
}

/// The event at an index of an instance, from 0.
fn instance_event(
    alloc: Global,
    instance: &Instance,
    index: usize,
) -> Result<Option<Event>, AllocError>
    ensures { IfOk result (λ e. e ≡ item_at (skeleton_trace (instance_view instance.now)) index) }
{
    if index >= instance.height() {
        return Ok(None);
    }
    match item_at(instance.role().trace(), index) {
        Some(event) => applied_event(alloc, instance.values(), event).map(Some),
        None => Ok(None),
    }
}

/// The events of an instance.
pub(crate) fn instance_events(alloc: Global, instance: &Instance) -> Result<Vec<Event>, AllocError>
    ensures { IfOk result (λ es. es.items ≡ skeleton_trace (instance_view instance.now)) }
{
    let values = instance.values();
    prefix_of(instance.role(), instance.height())
        .iter()
        .map(|event| applied_event(alloc, values, event))
        .try_collect(alloc)
}

/// A copy of the event.
fn copy_of(event: &Event) -> Result<Event, AllocError>
    ensures { IfOk result (λ e. e ≡ event.now) }
{
    match event {
        Event::Send(message) => message.copy().map(Event::Send),
        Event::Receive(message) => message.copy().map(Event::Receive),
    }
}

/// A copy of the event at an index, from 0.
fn copy_at(events: &[Event], index: usize) -> Result<Option<Event>, AllocError>
    ensures { IfOk result (λ e. e ≡ item_at events.now index) }
{
    match item_at(events, index) {
        Some(event) => copy_of(event).map(Some),
        None => Ok(None),
    }
}

/// The event at an index of a listener, from 0.
fn listener_event(message: &Term, index: usize) -> Result<Option<Event>, AllocError>
    ensures { IfOk result (λ e. e ≡ item_at (skeleton_trace (listener message.now)) index) }
{
    match index {
        0 => message.copy().map(|message| Some(Event::Receive(message))),
        1 => message.copy().map(|message| Some(Event::Send(message))),
        _ => Ok(None),
    }
}

impl Strand {
    /// The events of the strand, if it keeps them.
    pub fn held(&self) -> Option<&[Event]>
        ensures { IfSome result (λ es. es.now ≡ skeleton_trace self.now) }
    {
        match self.body() {
            Body::Instance(_, Some(held)) => Some(&held.events),
            _ => None,
        }
    }

    /// The event at an index of the strand, from 0.
    pub fn event(&self, alloc: Global, index: usize) -> Result<Option<Event>, AllocError>
        ensures { IfOk result (λ e. e ≡ item_at (skeleton_trace self.now) index) }
    {
        match self.body() {
            Body::Instance(_, Some(held)) => copy_at(&held.events, index),
            Body::Instance(instance, None) => instance_event(alloc, instance, index),
            Body::Listener(message) => listener_event(message, index),
        }
    }
}
