// The covering pairs of a skeleton's order.
ghost use Rattle.std.specs.Prelude.{◌≡◌, ◌++◌, map, length, false, IfOk, OnOk};
ghost use Rattle.cp_base.specs.Growing.{Grows, seen};
ghost use Rattle.cp_language.specs.Report.{nodes_from, covering_pairs};
ghost use Rattle.cp_model.specs.OrderTests.{any_pair, reaches_within};
ghost use Rattle.cp_model.specs.Skeleton.{skeleton_trace};
ghost use Rattle.cp_print.specs.Order.{nodes_counted, entry_of, shared, enters_too, implies, is_implied, covers_of, led_to, has_node, pair_form, covered, all_covered};

use crate::items::put_node;
use crate::writing::Printed;
use cp_base::Growing;
use cp_skel::{Node, OrderPair, Predecessors, Skeleton, SortedPairs, Strand, StrandShape};
use cp_term::Text;
use std::alloc::{AllocError, Global};

/// A pair, and the predecessors of its earlier node.
#[derive(Drop)]
struct Entry<'a> {
    pair: OrderPair,
    predecessors: Predecessors<'a>,
}

/// Whether another pair ends on the strand on which this one ends.
fn enters_too(pair: &OrderPair, other: &OrderPair) -> bool
    ensures { result ≡ enters_too pair.now other.now }
{
    other.later.strand == pair.later.strand
        && (other.earlier != pair.earlier || other.later != pair.later)
}

/// Whether one of the pairs is another one that ends on the strand on which this one ends.
fn some_enters_too(pairs: &[OrderPair], pair: &OrderPair) -> bool
    ensures { result ≡ any_pair (enters_too pair.now) pairs.now }
{
    for other in pairs {
        if enters_too(pair, other) {
            return true;
        }
    }
    false
}

/// The pair with the predecessors of its earlier node.
fn entry_of<'a>(
    alloc: Global,
    sorted: &SortedPairs<'a>,
    pair: OrderPair,
) -> Result<Entry<'a>, AllocError>
    ensures { IfOk result (λ e. e ≡ entry_of sorted.now pair) }
{
    let predecessors = sorted.predecessors_of(alloc, pair.earlier)?;
    Ok(Entry { pair, predecessors })
}

/// The pairs that end on a strand on which others end too.
fn shared(alloc: Global, pairs: &[OrderPair]) -> Result<Vec<OrderPair>, AllocError>
    ensures { IfOk result (λ ps. ps.items ≡ shared pairs.now) }
{
    pairs
        .iter()
        .copied()
        .filter(|pair| some_enters_too(pairs, pair))
        .collect(alloc)
}

/// The shared pairs with the predecessors of their earlier nodes along all pairs.
fn entries<'a>(
    alloc: Global,
    pairs: &'a [OrderPair],
    shared: &[OrderPair],
) -> Result<Vec<Entry<'a>>, AllocError>
    ensures { IfOk result (λ es. es.items ≡ map (entry_of pairs.now) shared.now) }
{
    let sorted = SortedPairs::new(alloc, pairs)?;
    shared
        .iter()
        .map(|pair| entry_of(alloc, &sorted, *pair))
        .try_collect(alloc)
}

/// Whether a node reaches the one asked about.
fn leads(predecessors: &Predecessors<'_>, node: Node) -> bool
    ensures { result ≡ reaches_within (length predecessors.now.pairs) predecessors.now.pairs node predecessors.now.node }
{
    predecessors.has(node)
}

/// Whether the order has a way over another pair from the earlier node of this one to the later one: the other ends there or
/// before that on its strand.
fn implies(entry: &Entry<'_>, pair: &OrderPair) -> bool
    ensures { result ≡ implies pair.now entry.now }
{
    entry.pair.later.index <= pair.later.index
        && enters_too(pair, &entry.pair)
        && leads(&entry.predecessors, pair.earlier)
}

/// Whether the order has such a way over one of these.
fn is_implied(entries: &[Entry<'_>], pair: &OrderPair) -> bool
    ensures { result ≡ is_implied entries.now pair.now }
{
    for entry in entries {
        if implies(entry, pair) {
            return true;
        }
    }
    false
}

/// The pairs that the others do not imply.
fn covers_of(
    alloc: Global,
    pairs: &[OrderPair],
    entries: &[Entry<'_>],
) -> Result<Vec<OrderPair>, AllocError>
    ensures { IfOk result (λ ps. ps.items ≡ covers_of pairs.now entries.now) }
{
    pairs
        .iter()
        .copied()
        .filter(|pair| !is_implied(entries, pair))
        .collect(alloc)
}

/// The later nodes of the pairs that begin at a node.
fn led_to(alloc: Global, pairs: &[OrderPair], x: Node) -> Result<Vec<Node>, AllocError>
    ensures { IfOk result (λ ns. ns.items ≡ led_to pairs.now x) }
{
    pairs
        .iter()
        .filter(|pair| pair.earlier == x)
        .map(|pair| pair.later)
        .collect(alloc)
}

/// Whether a node is one of these.
fn has_node(ends: &[Node], node: Node) -> bool
    ensures { result ≡ has_node ends.now node }
{
    ends.iter().any(|end| *end == node)
}

/// Appends the pairs of x and those of the nodes that are among its ends.
fn add_covered(ends: &[Node], x: Node, nodes: &[Node], pairs: &mut Growing<OrderPair>)
    ensures { Grows (seen pair_form pairs.old) (seen pair_form pairs.new) (covered ends.now x nodes.now) }
{
    if ends.is_empty() {
        return;
    }
    for y in nodes {
        if !has_node(ends, *y) {
            continue;
        }
        pairs.push(OrderPair {
            earlier: x,
            later: *y,
        });
    }
}

/// Appends the pairs that begin at x.
fn add_from(
    alloc: Global,
    covers: &[OrderPair],
    nodes: &[Node],
    x: Node,
    pairs: &mut Growing<OrderPair>,
) -> Result<(), AllocError>
    ensures { OnOk result (Grows (seen pair_form pairs.old) (seen pair_form pairs.new) (covered (led_to covers.now x) x nodes.now)) }
{
    let ends = led_to(alloc, covers, x)?;
    add_covered(&ends, x, nodes, pairs);
    Ok(())
}

/// How many events a strand has.
#[tactic(auto, using(crate::proofs::CoveringPairs::lengths))]
fn length_of(strand: &Strand) -> usize
    ensures { result ≡ length (skeleton_trace strand.now) }
{
    match strand.shape() {
        StrandShape::Instance(instance) => instance.height().min(instance.role().trace().len()),
        StrandShape::Listener(_) => 2,
    }
}

/// Appends the nodes of a strand.
fn add_nodes_on(strand: usize, count: usize, nodes: &mut Growing<Node>)
    ensures { nodes.new.ran_out ≡ false → (nodes.old.ran_out ≡ false) × (nodes.new.items ≡ nodes.old.items ++ nodes_counted strand 0 count) }
{
    for index in 0..count {
        nodes.push(Node { strand, index });
    }
}

/// The nodes of these strands, by strand and index.
#[tactic(auto, using(crate::proofs::CoveringPairs::nodes_are))]
fn nodes_of(alloc: Global, strands: &[Strand]) -> Result<Vec<Node>, AllocError>
    ensures { IfOk result (λ nodes. nodes.items ≡ nodes_from 0 strands.now) }
{
    let mut nodes = Growing::with_capacity(alloc, strands.len());
    for number in 0..strands.len() {
        add_nodes_on(number, length_of(&strands[number]), &mut nodes);
    }
    nodes.finish()
}

/// The pairs in the order of the nodes.
#[tactic(auto, using(crate::proofs::GrownForms::made_none))]
fn covered(
    alloc: Global,
    covers: &[OrderPair],
    nodes: &[Node],
) -> Result<Vec<OrderPair>, AllocError>
    ensures { IfOk result (λ ps. map pair_form ps.items ≡ all_covered covers.now nodes.now nodes.now) }
{
    let mut pairs = Growing::with_capacity(alloc, covers.len());
    for node in nodes {
        add_from(alloc, covers, nodes, *node, &mut pairs)?;
    }
    pairs.finish()
}

/// The covering pairs between different strands, by first node and then by second. They are among the pairs of the
/// order: those that the others do not imply.
pub(crate) fn covering_pairs(
    alloc: Global,
    skeleton: &Skeleton,
) -> Result<Vec<OrderPair>, AllocError>
    ensures { IfOk result (λ ps. map pair_form ps.items ≡ covering_pairs skeleton.now) }
{
    let pairs = skeleton.order().pairs();
    if pairs.is_empty() {
        return Ok(Vec::new(alloc));
    }
    skeleton.is_sound();
    let shared = shared(alloc, pairs)?;
    let entries = entries(alloc, pairs, &shared)?;
    let covers = covers_of(alloc, pairs, &entries)?;
    let nodes = nodes_of(alloc, skeleton.strands())?;
    covered(alloc, &covers, &nodes)
}

impl Printed for OrderPair {
    ghost printed = { λ names p. pair_form p };

    fn put(&self, alloc: Global, names: &[Text], out: &mut Growing<u8>) {
        out.append(b" (");
        put_node(self.earlier, out);
        self.later.put(alloc, names, out);
        out.push(b')');
    }
}
