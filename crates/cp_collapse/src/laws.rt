// Laws of substitutions. Each is the contract of a function that does nothing.
ghost use Rattle.std.specs.Prelude.{◌≡◌, [], ◌∷◌};
ghost use Rattle.cp_model.specs.Term.{AtomTerm, Term, Substitution, apply_to};
ghost use Rattle.cp_model.specs.Strand.{Protocol};
ghost use Rattle.cp_model.specs.Bundle.{Bundle};
ghost use Rattle.cp_model.specs.Skeleton.{Skeleton, IsSkeleton};
ghost use Rattle.cp_model.specs.Standing.{Standing, StandsIn};
ghost use Rattle.cp_theory.specs.Normal.{LosesNoStanding};
ghost use Rattle.cp_collapse.specs.SameSkeletons.{SaysTheSame};
ghost use Rattle.cp_collapse.specs.Directed.{IsMostGeneralFor};

/// Skeletons that say the same stand in the same bundles, and neither loses a standing of the other. A skeleton that says the
/// same as one over a protocol is one over it.
pub fn agreeing_skeletons_stand_alike()
    ensures stands { (k l : Skeleton) (b : Bundle) (h : Standing) → SaysTheSame k l → StandsIn k b h → StandsIn l b h }
    ensures loses_none { (protocol : Protocol) (k l : Skeleton) → SaysTheSame k l → LosesNoStanding protocol k (l ∷ []) }
    ensures skeleton { (protocol : Protocol) (k l : Skeleton) → SaysTheSame k l → IsSkeleton protocol k → IsSkeleton protocol l }
{}

/// Two atoms have only one most general unifier that maps later variables to earlier ones: any two such unifiers agree on every
/// term.
pub fn unifiers_are_determined()
    ensures { (a b : AtomTerm) (s t : Substitution) → IsMostGeneralFor a b s → IsMostGeneralFor a b t → (u : Term) → apply_to s u ≡ apply_to t u }
{}
