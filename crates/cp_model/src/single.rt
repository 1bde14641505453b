//! Laws about skeletons with one strand that only transmits. They test the definitions.

ghost use Rattle.std.specs.Prelude.{◌≡◌, ℕ, List, [], ◌∷◌};
ghost use Rattle.cp_model.specs.Example.{example_protocol, example_role, example_skeleton};
ghost use Rattle.cp_model.specs.Homomorphism.{CarriesHomomorphism, IsCompleteList};
ghost use Rattle.cp_model.specs.PointOfView.{IsPointOfView, MapsToItself, StatesItself};
ghost use Rattle.cp_model.specs.Single.{IsOneSendingStrand};
ghost use Rattle.cp_model.specs.Skeleton.{Skeleton, instance};
ghost use Rattle.cp_model.specs.Standing.{IsRealised};
ghost use Rattle.cp_model.specs.Stated.{KeepsStated};
ghost use Rattle.cp_model.specs.Strand.{Declaration, Protocol, Role};
ghost use Rattle.cp_model.specs.Bindings.{Binding};

/// A skeleton of one strand that only transmits is realised if its assumptions are true of that strand.
#[tactic(auto, using(crate::proofs::SingleRealised::realised))]
pub fn one_sending_strand_is_realised()
    ensures { (protocol : Protocol) (k : Skeleton) → IsOneSendingStrand protocol k → IsRealised protocol k }
{}

/// A skeleton of one role strand is, alone, a complete list for itself.
#[tactic(auto, using(crate::proofs::SingleRealised::own_complete_list))]
pub fn one_strand_is_its_own_complete_list()
    ensures { (protocol : Protocol) (k : Skeleton) (role : Role) (height : ℕ) (terms : List Binding) → k.strands ≡ instance role height terms ∷ [] → IsCompleteList protocol k (k ∷ []) }
{}

/// The skeleton of a problem carries a homomorphism from itself: its own map.
pub fn skeleton_maps_from_itself()
    ensures { (variables : List Declaration) (k : Skeleton) → MapsToItself variables k → CarriesHomomorphism k k }
{}

/// A skeleton that is its own problem keeps what it states.
pub fn skeleton_keeps_what_it_states()
    ensures { (variables : List Declaration) (k : Skeleton) → StatesItself variables k → KeepsStated k k }
{}

/// An example that meets the premises of the laws above: an instance of a role that sends a text under a public key.
#[tactic(auto, using(crate::proofs::SingleExample::example_sends, crate::proofs::SingleExample::example_problem))]
pub fn one_sending_strand_example()
    ensures sending { IsOneSendingStrand example_protocol example_skeleton }
    ensures problem { IsPointOfView example_role.variables example_skeleton }
{}
