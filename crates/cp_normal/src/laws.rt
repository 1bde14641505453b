// Laws of the definitions. Each is the contract of a function that does nothing.
ghost use Rattle.std.specs.Prelude.{◌≡◌, List, []};
ghost use Rattle.cp_model.specs.Term.{Term, Substitution, after, value_of};
ghost use Rattle.cp_model.specs.Strand.{Protocol};
ghost use Rattle.cp_model.specs.declared.variable.Declaration.{Declaration};
ghost use Rattle.cp_model.specs.Bundle.{Bundle};
ghost use Rattle.cp_model.specs.Skeleton.{Skeleton, IsSkeleton};
ghost use Rattle.cp_model.specs.declared.node.OrderPair.{OrderPair};
ghost use Rattle.cp_model.specs.Standing.{Standing, StandsIn};
ghost use Rattle.cp_model.specs.Homomorphism.{CarriesHomomorphism};
ghost use Rattle.cp_model.specs.PointOfView.{MapsToItself, StatesItself};
ghost use Rattle.cp_model.specs.Stated.{KeepsStated};
ghost use Rattle.cp_model.specs.Realisation.{KeepsAssumptions};
ghost use Rattle.cp_theory.specs.Normal.{skeleton_under, AddOnlyOriginPairs, LosesNoStanding};
ghost use Rattle.cp_collapse.specs.SameSkeletons.{SaysTheSame};
ghost use Rattle.cp_normal.specs.Findings.{AreNormalPairs, IsContradictory};
ghost use Rattle.cp_normal.specs.NormalForms.{NarrowsTo, IsNormal, IsNormalFormOf};

/// A skeleton over a protocol that contradicts itself stands apart in no bundle. Each pair that normalising adds goes from a
/// recorded origin to a reception that carries the value.
pub fn contradictory_skeletons_stand_nowhere()
    ensures nowhere { (protocol : Protocol) (k : Skeleton) → IsSkeleton protocol k → IsContradictory k → LosesNoStanding protocol k [] }
    ensures added { (k : Skeleton) (pairs : List OrderPair) → AreNormalPairs k pairs → AddOnlyOriginPairs k pairs }
{}

/// What normal forms keep:
///
/// - a normal form of a skeleton over a protocol is a skeleton over it, and is a normal form of itself;
/// - it carries a homomorphism from a problem that maps to itself if the skeleton does;
/// - it then keeps what the problem states itself, if the skeleton does;
/// - the assumptions of a normal skeleton over a protocol are true of it;
/// - a skeleton reached by narrowing is the first one under one substitution, with each strand at its place; if both stand in a
///   bundle by one standing, each term keeps its value under that substitution.
pub fn normal_forms_keep_what_is_stated()
    ensures skeleton { (protocol : Protocol) (k r : Skeleton) → IsNormalFormOf k r → IsSkeleton protocol k → IsSkeleton protocol r }
    ensures itself { (k r : Skeleton) → IsNormalFormOf k r → IsNormalFormOf r r }
    ensures homomorphism { (variables : List Declaration) (problem k r : Skeleton) → MapsToItself variables problem → IsNormalFormOf k r → CarriesHomomorphism problem k → CarriesHomomorphism problem r }
    ensures stated { (variables : List Declaration) (problem k r : Skeleton) → StatesItself variables problem → IsNormalFormOf k r → CarriesHomomorphism problem k → KeepsStated problem k → KeepsStated problem r }
    ensures assumptions { (protocol : Protocol) (k : Skeleton) → IsSkeleton protocol k → IsNormal k → KeepsAssumptions k }
    ensures substitution { (k l : Skeleton) → NarrowsTo k l → (s : Substitution) × SaysTheSame (skeleton_under s k) l }
    ensures standing { (k l : Skeleton) (b : Bundle) (h : Standing) → NarrowsTo k l → StandsIn k b h → StandsIn l b h → (s : Substitution) × SaysTheSame (skeleton_under s k) l × ((t : Term) → value_of (after h.values s) t ≡ value_of h.values t) }
{}
