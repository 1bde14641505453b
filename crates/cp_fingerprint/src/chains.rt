// The heaviest chains of nodes that lead to the nodes of role strands.
ghost use Rattle.std.specs.Prelude.{◌≡◌, ◌≤◌, IfOk};
ghost use Rattle.cp_model.specs.Homomorphism.{Embeds};
ghost use Rattle.cp_model.specs.Skeleton as model;
ghost use Rattle.cp_model.specs.declared.node.Node.{Node};
ghost use Rattle.cp_fingerprint.specs.Chains.{IsHeaviest, heaviest, chains_of};
ghost use Rattle.cp_fingerprint.specs.Isomorphic.{IsIsomorphic};

use crate::chain_table::{number_at, settle, starts_of, weights_from};
use cp_skel::Skeleton;
use std::alloc::{AllocError, Global};

/// The sum, over all nodes of role strands, of the weight of the heaviest chain that leads to the node.
pub(crate) fn chains_of(alloc: Global, k: &Skeleton) -> Result<usize, AllocError>
    ensures exact { IfOk result (λ n. n ≡ chains_of k.now) }
{
    k.is_sound();
    let starts = starts_of(alloc, k.strands())?;
    let mut weights = Vec::new(alloc);
    weights.resize(number_at(&starts, k.strands().len()), 0)?;
    settle(&starts, k.order().pairs(), &mut weights);
    Ok(weights_from(&weights, k.strands()))
}

/// Law: no embedding makes the sum of the weights of heaviest chains smaller, and isomorphic skeletons have the same one.
pub fn embedding_keeps_chains()
    ensures embeds { (a b : model.Skeleton) → Embeds a b → chains_of a ≤ chains_of b }
    ensures isomorphic { (a b : model.Skeleton) → IsIsomorphic a b → chains_of a ≡ chains_of b }
{}

/// Law: what is added up for a node is the weight of a chain that leads to it, and no chain that leads to it is heavier.
pub fn heaviest_chains_lead()
    ensures { (k : model.Skeleton) (y : Node) → IsHeaviest k y (heaviest k y) }
{}
