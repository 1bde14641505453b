// Laws: what skeletons keep when they change. Each is the contract of a function that does nothing.
ghost use Rattle.std.specs.Prelude.{ℕ, ◌≤◌, ◌∷◌, List};
ghost use Rattle.cp_model.specs.Term.{Term};
ghost use Rattle.cp_model.specs.Strand.{Protocol};
ghost use Rattle.cp_model.specs.Skeleton.{Skeleton, Before, IsOrderPair, IsSkeleton};
ghost use Rattle.cp_model.specs.declared.node.OrderPair.{OrderPair};
ghost use Rattle.cp_model.specs.Homomorphism.{CarriesHomomorphism};
ghost use Rattle.cp_model.specs.Stated.{KeepsStated};
ghost use Rattle.cp_model.specs.Extensions.{IsClosedPrefix, CanExtend, Extends};
ghost use Rattle.cp_skel.specs.KeptByChanges.{KeptByChanges};
ghost use Rattle.cp_skel.specs.Sound.{IsSound};
ghost use Rattle.cp_skel.specs.Ordered.{IsOrdered, ordered_by, DiffersInOrder};

/// A skeleton over a protocol stays one when a transmission is put before a reception of another strand, unless that
/// reception is before it; and under any order that has no cycle and whose pairs go from transmissions to receptions of
/// other strands.
pub fn order_keeps_skeletons()
    ensures pair { (protocol : Protocol) (k : Skeleton) (p : OrderPair) → IsSkeleton protocol k → IsOrderPair k p → (Before k p.later p.earlier → ⊥) → IsSkeleton protocol (ordered_by k (p ∷ k.pairs)) }
    ensures reordered { (protocol : Protocol) (old new : Skeleton) → IsSkeleton protocol old → DiffersInOrder old new → IsOrdered new → IsSkeleton protocol new }
{}

/// A skeleton that carries a homomorphism from its problem still does when a listener or an instance is added, when an
/// instance grows, when a pair is added, and under any order in which what was before a node still is.
pub fn changes_keep_homomorphisms()
    ensures kept { (problem : Skeleton) → KeptByChanges (CarriesHomomorphism problem) }
{}

/// So does a skeleton that keeps what its problem states itself: the problem's own assumptions and pairs.
pub fn changes_keep_what_is_stated()
    ensures kept { (problem : Skeleton) → KeptByChanges (KeepsStated problem) }
{}

/// An instance that can grow to a height is not higher before; in a sound skeleton its role declares the variables of
/// the longer prefix.
pub fn extensions_fit()
    ensures higher { (s height : ℕ) (values : List Term) (old new : Skeleton) → CanExtend old s height values → (x : Extends s height values old new) → x.before ≤ height }
    ensures declared { (s height : ℕ) (values : List Term) (old new : Skeleton) → IsSound old → (x : Extends s height values old new) → IsClosedPrefix x.role height }
{}
