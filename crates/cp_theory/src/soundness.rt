// The soundness law, and an example that meets its premises.
ghost use Rattle.cp_model.specs.Realisation.{AllDerivable, KeepsAssumptions};
ghost use Rattle.cp_model.specs.Example.{example_protocol};
ghost use Rattle.cp_model.specs.Skeleton.{Skeleton, IsSkeleton};
ghost use Rattle.cp_model.specs.Standing.{IsRealised};
ghost use Rattle.cp_model.specs.Strand.{Protocol};
ghost use Rattle.cp_theory.specs.Heard.{heard_skeleton};

/// A skeleton over a protocol is realised if its assumptions are true of its role strands and the message of each of its
/// receptions is derivable there.
#[tactic(auto, using(crate::proofs::Realised::realised))]
pub fn derivable_skeleton_is_realised()
    ensures { (protocol : Protocol) (k : Skeleton) → IsSkeleton protocol k → KeepsAssumptions k → AllDerivable k → IsRealised protocol k }
{}

/// An example that meets the premises of the law above: an instance of a role, and a listener that hears its message.
#[tactic(auto, using(crate::proofs::Example::is_skeleton, crate::proofs::Example::keeps_assumptions, crate::proofs::Example::all_derivable))]
pub fn derivable_skeleton_example()
    ensures skeleton { IsSkeleton example_protocol heard_skeleton }
    ensures assumptions { KeepsAssumptions heard_skeleton }
    ensures derivable { AllDerivable heard_skeleton }
{}
