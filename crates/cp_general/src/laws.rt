// Laws of generalising. Each is the contract of a function that does nothing.
ghost use Rattle.std.specs.Prelude.{List};
ghost use Rattle.cp_model.specs.Strand.{Protocol};
ghost use Rattle.cp_model.specs.declared.variable.Declaration.{Declaration};
ghost use Rattle.cp_model.specs.Skeleton.{Skeleton, IsSkeleton};
ghost use Rattle.cp_model.specs.Realisation.{KeepsAssumptions};
ghost use Rattle.cp_model.specs.Standing.{IsRealised};
ghost use Rattle.cp_model.specs.Homomorphism.{Embeds, CarriesHomomorphism};
ghost use Rattle.cp_model.specs.PointOfView.{HasDeclaredVariables, IsPointOfView};
ghost use Rattle.cp_model.specs.Stated.{KeepsStated};
ghost use Rattle.cp_general.specs.Fit.{IsFit};
ghost use Rattle.cp_general.specs.Generalisation.{IsMaximallyGeneral, GeneralisesTo};

/// Let a skeleton over a protocol generalise to another. The result:
///
/// - is a skeleton over the protocol and embeds in the original over the problem;
/// - carries a homomorphism from the problem and keeps what the problem states, if the original does and the problem is a
///   point-of-view skeleton over the protocol;
/// - has declared variables if the original does, and its assumptions are true of it;
/// - is normal, and all its receptions are derivable;
/// - is realised: in some bundle it stands apart, alone, and with no order beyond its own;
/// - admits no further step of generalising.
pub fn generalisations_are_sound()
    ensures skeleton { (protocol : Protocol) (k g : Skeleton) → IsSkeleton protocol k → GeneralisesTo k g → IsSkeleton protocol g }
    ensures embeds { (protocol : Protocol) (k g : Skeleton) → IsSkeleton protocol k → GeneralisesTo k g → Embeds g k }
    ensures stated { (protocol : Protocol) (variables : List Declaration) (problem k g : Skeleton) → IsSkeleton protocol problem → IsPointOfView variables problem
        → IsSkeleton protocol k → CarriesHomomorphism problem k → KeepsStated problem k → GeneralisesTo k g → KeepsStated problem g }
    ensures from_problem { (protocol : Protocol) (variables : List Declaration) (problem k g : Skeleton) → IsSkeleton protocol problem → IsPointOfView variables problem
        → IsSkeleton protocol k → KeepsStated problem k → CarriesHomomorphism problem k → GeneralisesTo k g → CarriesHomomorphism problem g }
    ensures declared { (variables : List Declaration) (k g : Skeleton) → HasDeclaredVariables variables k → GeneralisesTo k g → HasDeclaredVariables variables g }
    ensures assumptions { (protocol : Protocol) (k g : Skeleton) → IsSkeleton protocol k → GeneralisesTo k g → KeepsAssumptions g }
    ensures fit { (k g : Skeleton) → GeneralisesTo k g → IsFit g }
    ensures realised { (protocol : Protocol) (k g : Skeleton) → IsSkeleton protocol k → GeneralisesTo k g → IsRealised protocol g }
    ensures most_general { (k g : Skeleton) → GeneralisesTo k g → IsMaximallyGeneral g }
{}
