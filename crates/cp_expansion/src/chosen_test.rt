// The test of an unrealised skeleton.
ghost use Rattle.std.specs.Prelude.{◌≡◌, ◌↔◌, [], IfOk, IsNone, IfSome};
ghost use Rattle.cp_derive.specs.Unrealised.{ListsUnrealised};
ghost use Rattle.cp_expansion.specs.ChosenNode.{listens_at, chosen};
ghost use Rattle.cp_expansion.specs.ChosenTest.{IsTestOf};

use cp_derive::{AtTest, test_at};
use cp_skel::{ListedSkeleton, Node, Skeleton, StrandShape};
use std::alloc::{AllocError, Global};

/// Whether the node is on a listener.
fn is_on_listener(k: &Skeleton, node: Node) -> bool
    ensures { result ≡ listens_at k.now node }
{
    match k.strands().get(node.strand) {
        Some(strand) => match strand.shape() {
            StrandShape::Listener(_) => true,
            StrandShape::Instance(_) => false,
        },
        None => false,
    }
}

/// The last of the nodes that is on a listener; if none is, the first node.
fn chosen(k: &Skeleton, nodes: &[Node]) -> Option<Node>
    ensures { result ≡ chosen k.now nodes.now }
{
    let mut chosen = nodes.first().copied();
    for node in nodes {
        if !is_on_listener(k, *node) {
            continue;
        }
        chosen = Some(*node);
    }
    chosen
}

/// The test of a skeleton, given its unrealised receptions, with what is known of its node. The node is the unrealised listener of
/// the highest strand; if there is none, the unrealised node of the lowest strand, and there of the lowest index. The term is the
/// first component of the message received there that is not derivable. `None` exactly if no reception is unrealised.
pub(crate) fn test_of<'a>(
    alloc: Global,
    k: &'a ListedSkeleton<'a>,
    unrealised: &[Node],
) -> Result<Option<AtTest<'a>>, AllocError>
    requires listed { ListsUnrealised k.now unrealised.now }
    ensures skeleton { IfOk result (λ t. IfSome t (λ t. t.skeleton ≡ k.now)) }
    ensures test { IfOk result (λ t. IfSome t (λ t. IsTestOf k.now t.node t.critical)) }
    ensures none { IfOk result (λ t. IsNone t ↔ (unrealised.now ≡ [])) }
{
    let Some(node) = chosen(k.skeleton(), unrealised) else {
        return Ok(None);
    };
    test_at(alloc, k, node)
}
