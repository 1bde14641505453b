//! What a standing in a bundle demands of a skeleton, and which changes keep standings.
ghost use Rattle.std.specs.Prelude.{◌≡◌, ◌≢◌, ℕ, ◌<◌, List};
ghost use Rattle.cp_lists.specs.Lists.{IsIn};
ghost use Rattle.cp_model.specs.Term.{AtomTerm, Substitution};
ghost use Rattle.cp_model.specs.Strand.{Protocol};
ghost use Rattle.cp_model.specs.Bundle.{node_at, Bundle, Precedes, IsBundle};
ghost use Rattle.cp_model.specs.declared.node.Node.{Node};
ghost use Rattle.cp_model.specs.Skeleton.{UniqueAt, Skeleton, Before, IsSkeleton};
ghost use Rattle.cp_model.specs.declared.node.OrderPair.{OrderPair};
ghost use Rattle.cp_model.specs.Standing.{Standing, image_of, StandsIn, StandsApart};
ghost use Rattle.cp_model.specs.Homomorphism.{FactorsThrough};
ghost use Rattle.cp_model.specs.Realisation.{OriginatesAtTerm};
ghost use Rattle.cp_theory.specs.Normal.{IsCarriedAt, IsOriginPair, with_pairs, AddOnlyOriginPairs, IsHeardBefore, skeleton_under, IsSolution};

/// A skeleton stands in no bundle if one of its nodes, on a role strand or a listener, carries a non-originating value.
#[tactic(auto, using(crate::proofs::Origins::carried_non_originating))]
pub fn carried_non_originating_stands_nowhere()
    ensures { (protocol : Protocol) (k : Skeleton) (b : Bundle) (h : Standing) (v : AtomTerm) (n : Node) → IsBundle protocol b → IsIn v k.assumptions.non_originating → IsCarriedAt k v n → StandsIn k b h → ⊥ }
{}

/// A skeleton stands apart in no bundle if a unique value has two recorded origins.
#[tactic(auto, using(crate::proofs::Origins::two_origins))]
pub fn two_origins_stand_nowhere_apart()
    ensures { (protocol : Protocol) (k : Skeleton) (b : Bundle) (h : Standing) (u w : UniqueAt) → IsSkeleton protocol k → IsIn u k.assumptions.uniquely_originating → IsIn w k.assumptions.uniquely_originating → u.value ≡ w.value → u.origin ≢ w.origin → StandsIn k b h → StandsApart k h → ⊥ }
{}

/// A skeleton stands in no bundle if an event before the recorded origin of a unique value, on the same strand, carries the
/// value. If it stands in a bundle, each unique value originates at its recorded origin.
#[tactic(auto, using(crate::proofs::Origins::lost_origin, crate::proofs::Origins::unique_value_originates))]
pub fn lost_origin_stands_nowhere()
    ensures nowhere { (protocol : Protocol) (k : Skeleton) (b : Bundle) (h : Standing) (u : UniqueAt) (j : ℕ) → IsSkeleton protocol k → IsIn u k.assumptions.uniquely_originating → j < u.origin.index → IsCarriedAt k u.value (node_at u.origin.strand j) → StandsIn k b h → ⊥ }
    ensures originates { (protocol : Protocol) (k : Skeleton) (b : Bundle) (h : Standing) (u : UniqueAt) → IsSkeleton protocol k → IsIn u k.assumptions.uniquely_originating → StandsIn k b h → OriginatesAtTerm k u.value u.origin }
{}

/// If a skeleton stands in a bundle, the image of the recorded origin of a unique value precedes the image of each reception, on
/// a role strand or a listener, that carries the value.
#[tactic(auto, using(crate::proofs::Origins::origin_precedes))]
pub fn origin_precedes_carrier()
    ensures { (protocol : Protocol) (k : Skeleton) (b : Bundle) (h : Standing) (p : OrderPair) → IsBundle protocol b → StandsIn k b h → IsOriginPair k p → Precedes b (image_of k h p.earlier) (image_of k h p.later) }
{}

/// A skeleton with added pairs, from recorded origins of unique values to receptions that carry them, stands wherever it did
/// without them. So if they close a cycle, it stands nowhere.
#[tactic(auto, using(crate::proofs::Pairs::stands_with_pairs, crate::proofs::Pairs::no_cycle_with_pairs))]
pub fn origin_pairs_keep_standings()
    ensures stands { (protocol : Protocol) (k : Skeleton) (b : Bundle) (h : Standing) (pairs : List OrderPair) → IsSkeleton protocol k → IsBundle protocol b → AddOnlyOriginPairs k pairs → StandsIn k b h → StandsIn (with_pairs k pairs) b h }
    ensures no_cycle { (protocol : Protocol) (k : Skeleton) (b : Bundle) (h : Standing) (pairs : List OrderPair) → IsSkeleton protocol k → IsBundle protocol b → AddOnlyOriginPairs k pairs → StandsIn k b h → (n : Node) → Before (with_pairs k pairs) n n → ⊥ }
{}

/// If a skeleton stands apart, and a unique value originates at a node other than its recorded origin, some earlier reception on
/// that node's strand carries an atom with the same value. The recorded origin is not an earlier node of that strand, since the
/// strand would carry the value there.
pub fn heard_where_it_does_not_originate()
    ensures heard { (protocol : Protocol) (k : Skeleton) (b : Bundle) (h : Standing) (u : UniqueAt) (x : Node) → IsSkeleton protocol k → IsIn u k.assumptions.uniquely_originating → OriginatesAtTerm k u.value x → x ≢ u.origin → StandsIn k b h → StandsApart k h → IsHeardBefore k h.values u.value x }
    ensures not_after_its_origin { (protocol : Protocol) (k : Skeleton) (u : UniqueAt) (x : Node) → IsSkeleton protocol k → IsIn u k.assumptions.uniquely_originating → OriginatesAtTerm k u.value x → u.origin.strand ≡ x.strand → u.origin.index < x.index → ⊥ }
{}

/// Let a skeleton stand by an assignment that gives each of its variables the value of that variable's term under a substitution.
/// Then the skeleton under the substitution stands by the same standing, apart if the first one does, and the standing factors
/// through it.
#[tactic(auto, using(crate::proofs::Under::stands_under, crate::proofs::Under::apart_under, crate::proofs::Under::factors_under))]
pub fn substitution_keeps_standings()
    ensures stands { (s : Substitution) (k : Skeleton) (b : Bundle) (h : Standing) → IsSolution h.values s k → StandsIn k b h → StandsIn (skeleton_under s k) b h }
    ensures apart { (s : Substitution) (k : Skeleton) (h : Standing) → StandsApart k h → StandsApart (skeleton_under s k) h }
    ensures factors { (s : Substitution) (k : Skeleton) (h : Standing) → IsSolution h.values s k → FactorsThrough k h (skeleton_under s k) h }
{}
