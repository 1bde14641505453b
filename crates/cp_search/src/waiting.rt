// Labels that wait to be expanded, and what is kept of each.
ghost use Rattle.std.specs.Prelude.{◌≡◌, ◌↔◌, ◌<◌, [], length, false, IsTrue, IfSome, IfOk, OnOk};
ghost use Rattle.cp_skel.specs.Events.{events_of};
ghost use Rattle.cp_search.specs.MadeLabels.{IsFoundApart, AddsFoundIn};
ghost use Rattle.cp_search.specs.WaitingRecords.{Waits, KeepsLabel, AreKept, KeepsRecords, TakesRecord};

use crate::labels::MadeLabels;
use crate::made::Made;
use cp_skel::LocatedEvent;
use slab::Slab;
use std::alloc::{AllocError, AllocFailed, Global};

/// What only a label that waits needs: its number, and the events of its skeleton, which are listed once.
#[derive(Drop)]
pub(crate) struct Waiting {
    pub label: usize,
    pub events: Vec<LocatedEvent<'static>>,
}

/// The labels made so far, and a record of each that waits, at the key that the label has. A record is taken out when its label's
/// turn comes.
#[derive(Drop)]
pub(crate) struct Queue {
    pub made: MadeLabels,
    pub waiting: Slab<Waiting>,
}

/// Whether the label waits to be expanded: it is not dead, seen in no other, and not realised.
fn waits(label: &Made) -> bool
    ensures { IsTrue result ↔ Waits label.now }
{
    !label.dead && label.seen_in.is_none() && !label.unrealised.as_slice().is_empty()
}

/// Keeps the number and the events of a label that waits, and returns the key. A label that does not wait gets none.
fn keep(
    waiting: &mut Slab<Waiting>,
    label: &Made,
    number: usize,
    events: Vec<LocatedEvent<'static>>,
) -> Result<Option<usize>, AllocFailed<Waiting>>
    requires events { label.now.dead ≡ false → events.items ≡ events_of label.now.skeleton }
    ensures kept { IfOk result (KeepsLabel waiting.old waiting.new number label.now) }
{
    if !waits(label) {
        return Ok(None);
    }
    let record = Waiting {
        label: number,
        events,
    };
    waiting.insert(record).map(Some)
}

impl Queue {
    /// No labels.
    pub(crate) fn new(alloc: Global) -> Queue
        ensures made { result.made ≡ [] }
        ensures kept { AreKept 0 result }
    {
        Queue {
            made: MadeLabels::new(alloc),
            waiting: Slab::new(alloc),
        }
    }

    /// Appends a label, of which all is found but in which label it is seen: that is found now. If it then waits, its record is
    /// kept, with these events. After an error the labels are of no use.
    pub(crate) fn push(
        &mut self,
        alloc: Global,
        mut label: Made,
        events: Vec<LocatedEvent<'static>>,
    ) -> Result<(), AllocError>
        requires apart { IsFoundApart label }
        requires parent { IfSome label.parent (λ p. p < length self.old.made) }
        requires events { label.dead ≡ false → events.items ≡ events_of label.skeleton }
        ensures pushed { OnOk result (AddsFoundIn label self.old.made self.new.made) }
        ensures kept { OnOk result (KeepsRecords self.old self.new) }
    {
        label.seen_in = self.made.seen_in(alloc, &label)?;
        label.waiting = keep(&mut self.waiting, &label, self.made.len(), events)?;
        self.made.push(alloc, label)
    }

    /// Takes out the record of a label, if it waits.
    pub(crate) fn take(&mut self, number: usize) -> Option<Waiting>
        requires there { number < length self.old.made }
        ensures made { self.new.made ≡ self.old.made }
        ensures taken { AreKept number self.old → TakesRecord number self.old self.new result }
    {
        match self.made.label(number).waiting {
            Some(key) => self.waiting.try_remove(key),
            None => None,
        }
    }
}
