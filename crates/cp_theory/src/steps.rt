//! The steps of normalising. Each loses no standing, and so does every sequence of them.
ghost use Rattle.std.specs.Prelude.{◌≡◌, ◌≢◌, ℕ, ◌<◌, List, [], ◌∷◌};
ghost use Rattle.cp_lists.specs.Lists.{IsIn};
ghost use Rattle.cp_model.specs.Term.{AtomTerm, Substitution};
ghost use Rattle.cp_model.specs.Strand.{Protocol};
ghost use Rattle.cp_model.specs.declared.variable.Declaration.{Declaration};
ghost use Rattle.cp_model.specs.Bundle.{node_at, Bundle, IsBundle};
ghost use Rattle.cp_model.specs.declared.node.Node.{Node};
ghost use Rattle.cp_model.specs.Skeleton.{UniqueAt, Skeleton, Before, IsSkeleton};
ghost use Rattle.cp_model.specs.declared.node.OrderPair.{OrderPair};
ghost use Rattle.cp_model.specs.Standing.{Standing, StandsIn, StandsApart};
ghost use Rattle.cp_model.specs.Homomorphism.{CarriesHomomorphism, FactorsThrough, Covers};
ghost use Rattle.cp_model.specs.PointOfView.{MapsToItself, StatesItself};
ghost use Rattle.cp_model.specs.Realisation.{OriginatesAtTerm};
ghost use Rattle.cp_model.specs.Stated.{KeepsStated};
ghost use Rattle.cp_theory.specs.Normal.{IsCarriedAt, with_pairs, AddOnlyOriginPairs, skeleton_under, LosesNoStanding, AreBranches, SaysNoMore};

/// The empty list loses no standing of a skeleton if: some node carries a non-originating value; a unique value has two recorded
/// origins, is carried before its recorded origin on the same strand, or does not originate there; or pairs from recorded origins
/// to receptions close a cycle.
pub fn no_results_where_it_stands_nowhere()
    ensures carried { (protocol : Protocol) (k : Skeleton) (v : AtomTerm) (n : Node) → IsIn v k.assumptions.non_originating → IsCarriedAt k v n → LosesNoStanding protocol k [] }
    ensures two_origins { (protocol : Protocol) (k : Skeleton) (u w : UniqueAt) → IsSkeleton protocol k → IsIn u k.assumptions.uniquely_originating → IsIn w k.assumptions.uniquely_originating → u.value ≡ w.value → u.origin ≢ w.origin → LosesNoStanding protocol k [] }
    ensures lost_origin { (protocol : Protocol) (k : Skeleton) (u : UniqueAt) (j : ℕ) → IsSkeleton protocol k → IsIn u k.assumptions.uniquely_originating → j < u.origin.index → IsCarriedAt k u.value (node_at u.origin.strand j) → LosesNoStanding protocol k [] }
    ensures not_originating { (protocol : Protocol) (k : Skeleton) (u : UniqueAt) → IsSkeleton protocol k → IsIn u k.assumptions.uniquely_originating → (OriginatesAtTerm k u.value u.origin → ⊥) → LosesNoStanding protocol k [] }
    ensures cycle { (protocol : Protocol) (k : Skeleton) (pairs : List OrderPair) (n : Node) → IsSkeleton protocol k → AddOnlyOriginPairs k pairs → Before (with_pairs k pairs) n n → LosesNoStanding protocol k [] }
{}

/// If a unique value originates at a node other than its recorded origin, the branches for the atoms that earlier receptions of
/// the node's strand carry lose no standing.
pub fn branches_lose_no_standing()
    ensures { (protocol : Protocol) (k : Skeleton) (u : UniqueAt) (x : Node) (branches : List Skeleton) → IsSkeleton protocol k → IsIn u k.assumptions.uniquely_originating → OriginatesAtTerm k u.value x → x ≢ u.origin → AreBranches k u.value x branches → LosesNoStanding protocol k branches }
{}

/// Adding pairs from recorded origins to receptions that carry their values loses no standing.
pub fn origin_pairs_lose_no_standing()
    ensures { (protocol : Protocol) (k : Skeleton) (pairs : List OrderPair) → IsSkeleton protocol k → AddOnlyOriginPairs k pairs → LosesNoStanding protocol k (with_pairs k pairs ∷ []) }
{}

/// A skeleton that says no more than another loses none of its standings.
pub fn weaker_loses_no_standing()
    ensures { (protocol : Protocol) (l k : Skeleton) → SaysNoMore l k → LosesNoStanding protocol k (l ∷ []) }
{}

/// A list loses no standing of a skeleton if it is the skeleton alone, if it contains all of a list that loses none, or if it
/// loses none of each skeleton of such a list. If a list loses none, it covers each standing of a problem that factors through a
/// standing of the skeleton.
pub fn steps_compose()
    ensures itself { (protocol : Protocol) (k : Skeleton) → LosesNoStanding protocol k (k ∷ []) }
    ensures more { (protocol : Protocol) (k : Skeleton) (ks ls : List Skeleton) → ((l : Skeleton) → IsIn l ks → IsIn l ls) → LosesNoStanding protocol k ks → LosesNoStanding protocol k ls }
    ensures through { (protocol : Protocol) (k : Skeleton) (ks ls : List Skeleton) → LosesNoStanding protocol k ks → ((l : Skeleton) → IsIn l ks → LosesNoStanding protocol l ls) → LosesNoStanding protocol k ls }
    ensures covers { (protocol : Protocol) (problem k : Skeleton) (ks : List Skeleton) (b : Bundle) (f h : Standing) → LosesNoStanding protocol k ks → IsBundle protocol b → StandsIn k b h → StandsApart k h → FactorsThrough problem f k h → Covers ks problem b f }
{}

/// A skeleton over a protocol stays one under a substitution, and when pairs from recorded origins to receptions of other strands
/// are added that close no cycle.
pub fn skeletons_stay_skeletons()
    ensures substitution { (protocol : Protocol) (s : Substitution) (k : Skeleton) → IsSkeleton protocol k → IsSkeleton protocol (skeleton_under s k) }
    ensures pairs { (protocol : Protocol) (k : Skeleton) (pairs : List OrderPair) → IsSkeleton protocol k → AddOnlyOriginPairs k pairs → ((p : OrderPair) → IsIn p pairs → p.earlier.strand ≢ p.later.strand) → ((n : Node) → Before (with_pairs k pairs) n n → ⊥) → IsSkeleton protocol (with_pairs k pairs) }
{}

/// A skeleton that carries a homomorphism from its problem still does under a substitution, and with more pairs.
pub fn homomorphisms_stay()
    ensures substitution { (variables : List Declaration) (problem k : Skeleton) (s : Substitution) → MapsToItself variables problem → CarriesHomomorphism problem k → CarriesHomomorphism problem (skeleton_under s k) }
    ensures pairs { (problem k : Skeleton) (pairs : List OrderPair) → ((p : OrderPair) → IsIn p k.pairs → IsIn p pairs) → CarriesHomomorphism problem k → CarriesHomomorphism problem (with_pairs k pairs) }
{}

/// A skeleton that keeps what its problem states still does under a substitution, and with more pairs.
pub fn what_is_stated_stays()
    ensures substitution { (variables : List Declaration) (problem k : Skeleton) (s : Substitution) → StatesItself variables problem → CarriesHomomorphism problem k → KeepsStated problem k → KeepsStated problem (skeleton_under s k) }
    ensures pairs { (problem k : Skeleton) (pairs : List OrderPair) → ((p : OrderPair) → IsIn p k.pairs → IsIn p pairs) → KeepsStated problem k → KeepsStated problem (with_pairs k pairs) }
{}
