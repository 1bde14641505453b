// The events of a skeleton in a list, each with its node.
ghost use Rattle.std.specs.Prelude.{◌≡◌, ◌++◌, length, IfOk, OnOk};
ghost use Rattle.cp_model.specs.Skeleton.{skeleton_trace};
ghost use Rattle.cp_skel.specs.Events.{is_role_strand, located_events_on, events_of};
ghost use Rattle.cp_skel.specs.EventLists.{events_in};
ghost use Rattle.cp_skel.specs.LentEvents.{lent_event};
ghost use Rattle.cp_skel.specs.Tables.{DiffersInTable};

use crate::skeleton::{Node, Skeleton};
use cp_strand::{Event, Strand, StrandShape};
use std::alloc::{AllocError, Global};
use std::marker::Model;

/// An event of a strand: the strand's own if it keeps its events, otherwise one that is made.
#[derive(Drop)]
enum Lent<'a> {
    Held(&'a Event),
    Made(Event),
}

/// An event of a skeleton, its node, and whether its strand is a role strand and no listener.
#[derive(Drop)]
pub struct LocatedEvent<'a> {
    node: Node,
    event: Lent<'a>,
    by_role: bool,
}

impl<'a> Model for LocatedEvent<'a> {
    ghost use Rattle.cp_skel.specs.Events.{LocatedEvent as Plain};
    ghost use Rattle.cp_skel.specs.Code.{coded_located_event};

    ghost Value = { Plain };

    ghost coded = { coded_located_event };

    ghost use Rattle.cp_skel.specs.LentEvents.{lent_event};

    ghost view = { λ o. record { node = o.node; event = lent_event o.event; by_role = o.by_role } };
}

/// The event.
fn event_of<'a>(lent: &'a Lent<'_>) -> &'a Event
    ensures { result.now ≡ lent_event lent.now }
{
    match lent {
        Lent::Held(event) => event,
        Lent::Made(event) => event,
    }
}

impl<'a> LocatedEvent<'a> {
    /// The node where the event stands.
    pub fn node(&self) -> Node
        ensures { result ≡ self.now.node }
    {
        self.node
    }

    /// The event.
    pub fn event(&self) -> &Event
        ensures { result.now ≡ self.now.event }
    {
        event_of(&self.event)
    }

    /// Whether a role strand is there, and no listener.
    pub fn is_by_role(&self) -> bool
        ensures { result ≡ self.now.by_role }
    {
        self.by_role
    }
}

/// How many events the strand has.
fn event_count(strand: &Strand) -> usize
    ensures { result ≡ length (skeleton_trace strand.now) }
{
    match strand.shape() {
        StrandShape::Instance(instance) => instance.height().min(instance.role().trace().len()),
        StrandShape::Listener(_) => 2,
    }
}

/// How many events the strands have, or `usize::MAX` if there are more.
fn total_count(strands: &[Strand]) -> usize {
    strands.iter().fold(
        0,
        |count: usize, strand| count.saturating_add(event_count(strand)),
    )
}

/// Whether the strand is an instance of a role.
fn is_role_strand(strand: &Strand) -> bool
    ensures { result ≡ is_role_strand strand.now }
{
    matches!(strand.shape(), StrandShape::Instance(_))
}

/// Appends the events that the strand with this number keeps.
fn add_held<'a>(
    number: usize,
    by_role: bool,
    events: &'a [Event],
    occurrences: &mut Vec<LocatedEvent<'a>>,
) -> Result<(), AllocError>
    ensures { OnOk result (occurrences.new.items ≡ occurrences.old.items ++ located_events_on number 0 by_role events.now) }
{
    occurrences.extend(
        events.iter().enumerate().map(|(index, event)| LocatedEvent {
            node: Node {
                strand: number,
                index,
            },
            event: Lent::Held(event),
            by_role,
        }),
    )
}

/// Makes the events of the strand with this number, and appends them.
fn add_made(
    alloc: Global,
    number: usize,
    by_role: bool,
    strand: &Strand,
    occurrences: &mut Vec<LocatedEvent<'_>>,
) -> Result<(), AllocError>
    ensures { OnOk result (occurrences.new.items ≡ occurrences.old.items ++ located_events_on number 0 by_role (skeleton_trace strand.now)) }
{
    for index in 0..event_count(strand) {
        if let Some(event) = strand.event(alloc, index)? {
            let node = Node {
                strand: number,
                index,
            };
            occurrences.push(LocatedEvent {
                node,
                event: Lent::Made(event),
                by_role,
            })?;
        }
    }
    Ok(())
}

/// Appends the events of the strand with this number.
fn add_events<'a>(
    alloc: Global,
    number: usize,
    strand: &'a Strand,
    occurrences: &mut Vec<LocatedEvent<'a>>,
) -> Result<(), AllocError>
    ensures { OnOk result (occurrences.new.items ≡ occurrences.old.items ++ located_events_on number 0 (is_role_strand strand.now) (skeleton_trace strand.now)) }
{
    let by_role = is_role_strand(strand);
    match strand.held() {
        Some(events) => add_held(number, by_role, events, occurrences),
        None => add_made(alloc, number, by_role, strand, occurrences),
    }
}

impl Skeleton {
    /// The events of the skeleton, each with its node, by strand and then by index.
    pub fn events(&self, alloc: Global) -> Result<Vec<LocatedEvent<'_>>, AllocError>
        ensures listed { IfOk result (λ os. os.items ≡ events_of self.now) }
    {
        let strands = self.strands();
        let mut occurrences = Vec::with_capacity(alloc, total_count(strands))?;
        for (number, strand) in strands.iter().enumerate() {
            add_events(alloc, number, strand, &mut occurrences)?;
        }
        Ok(occurrences)
    }

    /// The events as [`Skeleton::events`] lists them, in a list that does not borrow from the skeleton.
    pub fn own_events(&self, alloc: Global) -> Result<Vec<LocatedEvent<'static>>, AllocError>
        ensures listed { IfOk result (λ os. os.items ≡ events_of self.now) }
    {
        let mut made = Vec::with_capacity(alloc, total_count(self.strands()))?;
        let strands = self.strands();
        for (number, strand) in strands.iter().enumerate() {
            add_made(alloc, number, is_role_strand(strand), strand, &mut made)?;
        }
        Ok(made)
    }
}

/// A list of events that is its holder's own, or that is lent to it.
#[derive(Drop)]
enum EventList<'a> {
    Owned(Vec<LocatedEvent<'a>>),
    Borrowed(&'a [LocatedEvent<'a>]),
}

/// The events in the list.
fn events_in<'s, 'a>(list: &'s EventList<'a>) -> &'s [LocatedEvent<'a>]
    ensures { result.now ≡ events_in list.now }
{
    match list {
        EventList::Owned(events) => events,
        EventList::Borrowed(events) => events,
    }
}

/// A skeleton with its events, listed once.
#[derive(Drop)]
pub struct ListedSkeleton<'a> {
    skeleton: &'a Skeleton,
    events: EventList<'a>,
}

impl<'a> Model for ListedSkeleton<'a> {
    ghost use Rattle.cp_model.specs.Skeleton.{Skeleton};
    ghost use Rattle.cp_skel.specs.Code.{coded_skeleton};

    ghost Value = { Skeleton };

    ghost coded = { coded_skeleton };

    ghost use Rattle.std.specs.Prelude.{◌≡◌};
    ghost use Rattle.cp_skel.specs.Events.{events_of};
    ghost use Rattle.cp_skel.specs.EventLists.{events_in};

    ghost view = { λ l. l.skeleton.now };

    ghost invariant = { λ l. events_in l.events ≡ events_of l.skeleton.now };
}

impl<'a> ListedSkeleton<'a> {
    /// Lists the events of the skeleton.
    pub fn of(alloc: Global, skeleton: &'a Skeleton) -> Result<ListedSkeleton<'a>, AllocError>
        ensures { IfOk result (λ l. l ≡ skeleton.now) }
    {
        let events = skeleton.events(alloc)?;
        Ok(ListedSkeleton {
            skeleton,
            events: EventList::Owned(events),
        })
    }

    /// The skeleton with its events, which are lent.
    pub fn with_events(skeleton: &'a Skeleton, events: &'a [LocatedEvent<'a>]) -> ListedSkeleton<'a>
        requires events { events.now ≡ events_of skeleton.now }
        ensures { result ≡ skeleton.now }
    {
        ListedSkeleton {
            skeleton,
            events: EventList::Borrowed(events),
        }
    }

    /// The same, with the events lent.
    pub fn lent(&self) -> ListedSkeleton<'_>
        ensures { result ≡ self.now }
    {
        ListedSkeleton::with_events(self.skeleton, self.events())
    }

    /// A skeleton that differs from this one in its table of variables alone, with the same events.
    pub fn in_table(self, k: &'a Skeleton) -> ListedSkeleton<'a>
        requires table { DiffersInTable self k.now }
        ensures { result ≡ k.now }
    {
        let ListedSkeleton {
            skeleton: _,
            events,
        } = self;
        ListedSkeleton {
            skeleton: k,
            events,
        }
    }

    /// The skeleton.
    pub fn skeleton(&self) -> &'a Skeleton
        ensures { result.now ≡ self.now }
    {
        self.skeleton
    }

    /// The events, each with its node, by strand and then by index.
    pub fn events(&self) -> &[LocatedEvent<'a>]
        ensures { result.now ≡ events_of self.now }
    {
        events_in(&self.events)
    }
}
