// All pairs of a skeleton's order.
ghost use Rattle.std.specs.Prelude.{◌≡◌, ◌↔◌, ◌++◌, map, IfOk, OnOk};
ghost use Rattle.cp_model.specs.declared.node.Node.{Node as Plain};
ghost use Rattle.cp_model.specs.Skeleton.{Before};
ghost use Rattle.cp_skel.specs.Ordered.{ordered_by};
ghost use Rattle.cp_skel.specs.Sound.{IsSound};
ghost use Rattle.cp_general.specs.ListedPairs.{ListsOrder, is_transmission, is_reception, nodes_where, gathered, leads_across, pairs_to_receptions, pairs_between};

use cp_skel::{Event, LocatedEvent, Node, Order, OrderPair, Predecessors, Skeleton, SortedPairs};
use std::alloc::{AllocError, Global};

/// A reception's node and its predecessors.
#[derive(Drop)]
struct Reception<'a> {
    node: Node,
    leading: Predecessors<'a>,
}

/// Whether the event is a transmission.
fn is_transmission(event: &Event) -> bool
    ensures { result ≡ is_transmission event.now }
{
    matches!(event, Event::Send(_))
}

/// Whether the event is a reception.
fn is_reception(event: &Event) -> bool
    ensures { result ≡ is_reception event.now }
{
    matches!(event, Event::Receive(_))
}

/// The nodes of the transmissions among these events.
fn transmissions(alloc: Global, occurrences: &[LocatedEvent<'_>]) -> Result<Vec<Node>, AllocError>
    ensures { IfOk result (λ ns. ns.items ≡ nodes_where is_transmission occurrences.now) }
{
    occurrences
        .iter()
        .filter(|occurrence| is_transmission(occurrence.event()))
        .map(|occurrence| occurrence.node())
        .collect(alloc)
}

/// The nodes of the receptions among these events.
fn reception_nodes(alloc: Global, occurrences: &[LocatedEvent<'_>]) -> Result<Vec<Node>, AllocError>
    ensures { IfOk result (λ ns. ns.items ≡ nodes_where is_reception occurrences.now) }
{
    let received = occurrences
        .iter()
        .filter(|occurrence| is_reception(occurrence.event()));
    received.map(|occurrence| occurrence.node()).collect(alloc)
}

/// The reception at a node, with its predecessors along the pairs.
fn gathered<'a>(
    alloc: Global,
    sorted: &SortedPairs<'a>,
    node: Node,
) -> Result<Reception<'a>, AllocError>
    ensures { IfOk result (λ r. r ≡ gathered sorted.now node) }
{
    let leading = sorted.predecessors_of(alloc, node);
    leading.map(|leading| Reception { node, leading })
}

/// The receptions among these events, each with its predecessors along the pairs.
fn receptions<'a>(
    alloc: Global,
    sorted: &SortedPairs<'a>,
    occurrences: &[LocatedEvent<'_>],
) -> Result<Vec<Reception<'a>>, AllocError>
    ensures { IfOk result (λ rs. rs.items ≡ map (gathered sorted.now) (nodes_where is_reception occurrences.now)) }
{
    let nodes = reception_nodes(alloc, occurrences)?;
    nodes
        .iter()
        .map(|node| gathered(alloc, sorted, *node))
        .try_collect(alloc)
}

/// Whether a node reaches the reception and is on another strand.
fn leads_across(from: Node, to: &Reception<'_>) -> bool
    ensures { result ≡ leads_across from to.now }
{
    from.strand != to.node.strand && to.leading.has(from)
}

/// Appends the pairs from a node to each of these receptions that it reaches.
fn add_pairs_from(
    from: Node,
    tos: &[Reception<'_>],
    pairs: &mut Vec<OrderPair>,
) -> Result<(), AllocError>
    ensures { OnOk result (pairs.new.items ≡ pairs.old.items ++ pairs_to_receptions from tos.now) }
{
    for to in tos {
        if !leads_across(from, to) {
            continue;
        }
        pairs.push(OrderPair {
            earlier: from,
            later: to.node,
        })?;
    }
    Ok(())
}

/// The pairs from each of these nodes to each of the receptions that it reaches.
fn pairs_between(
    alloc: Global,
    froms: &[Node],
    tos: &[Reception<'_>],
) -> Result<Vec<OrderPair>, AllocError>
    ensures { IfOk result (λ ps. ps.items ≡ pairs_between froms.now tos.now) }
{
    let mut pairs = Vec::new(alloc);
    for from in froms {
        add_pairs_from(*from, tos, &mut pairs)?;
    }
    Ok(pairs)
}

/// All pairs of the skeleton's order from a transmission to a reception of another strand, in ascending order.
fn pairs_of_order(alloc: Global, k: &Skeleton) -> Result<Vec<OrderPair>, AllocError>
    ensures { IfOk result (λ ps. ListsOrder k.now ps.items) }
{
    k.is_sound();
    let occurrences = k.events(alloc)?;
    let sent = transmissions(alloc, &occurrences)?;
    let sorted = SortedPairs::new(alloc, k.order().pairs())?;
    let received = receptions(alloc, &sorted, &occurrences)?;
    pairs_between(alloc, &sent, &received)
}

/// The skeleton with another order, with which it must be sound.
pub(crate) fn reordered(alloc: Global, k: &Skeleton, order: Order) -> Result<Skeleton, AllocError>
    requires { IsSound (ordered_by k.now order) }
    ensures { IfOk result (λ h. h ≡ record (k.now) { pairs = order }) }
{
    Ok(Skeleton::new(
        k.variables().copy()?,
        Vec::from_clones(alloc, k.strands())?,
        order,
        k.assumptions().copy(alloc)?,
        k.from_problem().copy(alloc)?,
    ))
}

/// The skeleton, listing all pairs of its order.
pub(crate) fn with_all_pairs(alloc: Global, k: &Skeleton) -> Result<Skeleton, AllocError>
    ensures same { IfOk result (λ h. h ≡ record (k.now) { pairs = h.pairs }) }
    ensures before { IfOk result (λ h. (x y : Plain) → Before h x y ↔ Before k.now x y) }
    ensures lists { IfOk result (λ h. ListsOrder h h.pairs) }
{
    k.is_sound();
    let pairs = pairs_of_order(alloc, k)?;
    let order = Order::of(pairs);
    reordered(alloc, k, order)
}
