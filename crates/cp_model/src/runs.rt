// The bundle of a run, and the run along the numbering of a bundle.
ghost use Rattle.std.specs.Prelude.{◌≡◌, ◌↔◌, map, Some, IsTrue, IfOk};
ghost use Rattle.cp_model.specs.Strand.{Protocol};
ghost use Rattle.cp_model.specs.Bundle.{Bundle as PlainBundle, AreOfProtocol, IsBundle};
ghost use Rattle.cp_model.specs.Run.{Run as PlainRun, IsRun, IsBundleOf};
ghost use Rattle.cp_model.specs.RunView.{trace_view, StandsForRun, StandsForBundle, run_along, row_view};
ghost use Rattle.cp_model.specs.Senders.{IsFirst, ArePaired, Sends, IsSenderOf, AreSendersOf};

use crate::bundle::{Bundle, Run, event_at};
use crate::message::Msg;
use crate::node::Node;
use crate::strand::{Event, Strand, copy_strands};
use std::alloc::{AllocError, Global};

/// Whether the event at the node sends the message.
fn sends(strands: &[Strand], node: Node, message: &Msg) -> bool
    ensures { IsTrue result ↔ Sends (map trace_view strands.now) message.now node }
{
    match event_at(strands, node) {
        Some(Event::Send(sent)) => sent.same(message),
        _ => false,
    }
}

/// The first of the nodes that sends the message.
fn first_sender(strands: &[Strand], nodes: &[Node], message: &Msg) -> Option<Node>
    ensures { IsFirst (Sends (map trace_view strands.now) message.now) nodes.now result }
{
    for node in nodes {
        if sends(strands, *node, message) {
            return Some(*node);
        }
    }
    None
}

/// The sender to which an event is linked.
fn sender_of(strands: &[Strand], nodes: &[Node], event: &Event<Msg>) -> Option<Node>
    ensures { IsSenderOf (map trace_view strands.now) nodes.now event.now result }
{
    match event {
        Event::Send(_) => None,
        Event::Receive(message) => first_sender(strands, nodes, message),
    }
}

/// The senders to which the events are linked.
fn senders_on(
    alloc: Global,
    strands: &[Strand],
    nodes: &[Node],
    events: &[Event<Msg>],
) -> Result<Vec<Option<Node>>, AllocError>
    ensures { IfOk result (λ row. AreSendersOf (map trace_view strands.now) nodes.now events.now row.items) }
{
    let mut row = Vec::new(alloc);
    for event in events {
        row.push(sender_of(strands, nodes, event))?;
    }
    Ok(row)
}

/// The senders to which the events of all strands are linked.
fn senders_of(
    alloc: Global,
    strands: &[Strand],
    nodes: &[Node],
) -> Result<Vec<Vec<Option<Node>>>, AllocError>
    ensures { IfOk result (λ rows. ArePaired (AreSendersOf (map trace_view strands.now) nodes.now) (map trace_view strands.now) (map row_view rows.items)) }
{
    let mut rows = Vec::new(alloc);
    for strand in strands {
        rows.push(senders_on(alloc, strands, nodes, &strand.events)?)?;
    }
    Ok(rows)
}

/// The bundle of a run: the run's strands, its events as the numbering, and each reception linked to the first event that sends
/// its message. The run must have every event once, in the order of its strand, and each received message must be sent by an
/// earlier event. If its strands are of a protocol and keep its assumptions, the result is a bundle over the protocol.
pub fn bundle_of(alloc: Global, run: &Run) -> Result<Bundle, AllocError>
    ensures strands { IfOk result (λ b. map trace_view b.strands.items ≡ map trace_view run.now.strands.items) }
    ensures order { IfOk result (λ b. b.order.items ≡ run.now.events.items) }
    ensures bundle { IfOk result (λ b. (r : PlainRun) → StandsForRun run.now r → IsRun r → (p : PlainBundle) × StandsForBundle b p × IsBundleOf r p
        × ((protocol : Protocol) → AreOfProtocol protocol r.strands → IsBundle protocol p)) }
{
    let senders = senders_of(alloc, &run.strands, &run.events)?;
    let strands = copy_strands(alloc, &run.strands)?;
    let order = Vec::from_slice(alloc, &run.events)?;
    Ok(Bundle {
        strands,
        senders,
        order,
    })
}

/// The run along a bundle: the bundle's strands, and its nodes in the order of its numbering. If the bundle is one over a
/// protocol, the result is a run.
pub fn run_of(alloc: Global, bundle: &Bundle) -> Result<Run, AllocError>
    ensures strands { IfOk result (λ r. map trace_view r.strands.items ≡ map trace_view bundle.now.strands.items) }
    ensures events { IfOk result (λ r. r.events.items ≡ bundle.now.order.items) }
    ensures run { IfOk result (λ r. (p : PlainBundle) → StandsForBundle bundle.now p → StandsForRun r (run_along p)) }
    ensures is_run { IfOk result (λ r. (protocol : Protocol) (p : PlainBundle) → StandsForBundle bundle.now p → IsBundle protocol p → StandsForRun r (run_along p) × IsRun (run_along p)) }
{
    let strands = copy_strands(alloc, &bundle.strands)?;
    let events = Vec::from_slice(alloc, &bundle.order)?;
    Ok(Run { strands, events })
}
