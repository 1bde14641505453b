// Events and strands.
ghost use Rattle.std.specs.Prelude.{◌≡◌, map, IfOk};
ghost use Rattle.cp_model.specs.Strand.{payload};
ghost use Rattle.cp_model.specs.RunView.{trace_view};

use crate::message::Msg;
use std::alloc::{AllocError, Global};

/// One event of a strand: a transmission or a reception of a message.
#[derive(Drop)]
pub enum Event<M: Drop> {
    Send(M),
    Receive(M),
}

/// A strand of a run or a bundle: its events, in order. It does not record its role, nor its kind if it is a penetrator strand.
#[derive(Drop)]
pub struct Strand {
    pub events: Vec<Event<Msg>>,
}

impl<M: Drop> Event<M> {
    /// The message that is sent or received.
    pub fn payload(&self) -> &M
        ensures { result.now ≡ payload self.now }
    {
        match self {
            Event::Send(message) => message,
            Event::Receive(message) => message,
        }
    }
}

impl Event<Msg> {
    /// A copy of the event.
    pub fn copy(&self) -> Result<Event<Msg>, AllocError>
        ensures { IfOk result (λ e. e ≡ self.now) }
    {
        match self {
            Event::Send(message) => message.copy().map(Event::Send),
            Event::Receive(message) => message.copy().map(Event::Receive),
        }
    }
}

impl Clone for Event<Msg> {
    ghost is_clone = { λ a b. b ≡ a };

    fn clone(&self) -> Result<Event<Msg>, AllocError> {
        self.copy()
    }
}

impl Strand {
    /// A copy of the strand.
    pub fn copy(&self, alloc: Global) -> Result<Strand, AllocError>
        ensures { IfOk result (λ s. trace_view s ≡ trace_view self.now) }
    {
        Vec::from_clones(alloc, &self.events).map(|events| Strand { events })
    }
}

/// Copies of the strands.
pub(crate) fn copy_strands(alloc: Global, strands: &[Strand]) -> Result<Vec<Strand>, AllocError>
    ensures { IfOk result (λ v. map trace_view v.items ≡ map trace_view strands.now) }
{
    strands
        .iter()
        .map(|strand| strand.copy(alloc))
        .try_collect(alloc)
}
