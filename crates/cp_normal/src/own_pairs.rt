// Looks pairs up among those of an order.
ghost use Rattle.std.specs.Prelude.{◌≡◌, ◌↔◌, IsTrue, IfOk};
ghost use Rattle.std.specs.List.{filter};
ghost use Rattle.cp_normal.specs.OwnPairs.{pair_key, has_key, AreKeysOf, is_other, AllLead};

use cp_skel::{OrderPair, SortedPairs};
use std::alloc::{AllocError, Global};
use std::collections::HashSet;

/// So many pairs are few.
const FEW: usize = 64;

/// Strand and index of a pair's earlier node, then of its later node.
type Key = ((usize, usize), (usize, usize));

/// The key under which a pair is looked up.
fn key_of(pair: OrderPair) -> Key
    ensures { result ≡ pair_key pair }
{
    let OrderPair { earlier, later } = pair;
    ((earlier.strand, earlier.index), (later.strand, later.index))
}

/// The keys of the pairs.
fn keys_of(alloc: Global, pairs: &[OrderPair]) -> Result<HashSet<Key>, AllocError>
    ensures { IfOk result (λ keys. AreKeysOf keys pairs.now) }
{
    let mut keys = HashSet::new(alloc);
    for pair in pairs {
        keys.insert(key_of(*pair))?;
    }
    Ok(keys)
}

/// Whether the pair is among these.
fn is_among(pairs: &[OrderPair], pair: OrderPair) -> bool
    ensures { result ≡ has_key pairs.now (pair_key pair) }
{
    pairs.iter().any(|own| *own == pair)
}

/// Those of the pairs that are not among `own`. Few are compared with each of these; many are looked up by their keys.
pub(crate) fn others(
    alloc: Global,
    own: &[OrderPair],
    mut pairs: Vec<OrderPair>,
) -> Result<Vec<OrderPair>, AllocError>
    ensures { IfOk result (λ others. others.items ≡ filter (is_other own.now) pairs.items) }
{
    if pairs.len() <= FEW {
        pairs.retain(|pair| !is_among(own, *pair));
        return Ok(pairs);
    }
    let keys = keys_of(alloc, own)?;
    pairs.retain(|pair| !keys.contains(&key_of(*pair)));
    Ok(pairs)
}

/// Whether in each pair the earlier node reaches the later one along strands and the pairs of an order.
fn lead_along(alloc: Global, order: &[OrderPair], pairs: &[OrderPair]) -> Result<bool, AllocError>
    ensures { IfOk result (λ all. IsTrue all ↔ AllLead order.now pairs.now) }
{
    if pairs.is_empty() {
        return Ok(true);
    }
    let sorted = SortedPairs::new(alloc, order)?;
    for pair in pairs {
        let leading = sorted.predecessors_of(alloc, pair.later)?;
        if !leading.has(pair.earlier) {
            return Ok(false);
        }
    }
    Ok(true)
}

/// Whether in each pair the earlier node reaches the later one along strands and the pairs of an order. A pair that the order
/// lists is only looked up; for the later nodes of the other pairs, all predecessors are gathered.
pub fn all_lead(alloc: Global, order: &[OrderPair], pairs: &[OrderPair]) -> Result<bool, AllocError>
    ensures { IfOk result (λ all. IsTrue all ↔ AllLead order.now pairs.now) }
{
    let pairs = Vec::from_slice(alloc, pairs)?;
    let others = others(alloc, order, pairs)?;
    lead_along(alloc, order, &others)
}
