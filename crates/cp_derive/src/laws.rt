//! Laws of the definitions. Each is the contract of a function that does nothing.
ghost use Rattle.std.specs.Prelude.{◌↔◌};
ghost use Rattle.cp_model.specs.declared.node.Node.{Node};
ghost use Rattle.cp_model.specs.Derivable.{DerivableAt, IsSecret};
ghost use Rattle.cp_model.specs.Skeleton.{Skeleton};
ghost use Rattle.cp_model.specs.Term.{Term};
ghost use Rattle.cp_derive.specs.From.{DerivableFrom, IsSentBefore};
ghost use Rattle.cp_derive.specs.Given.{Given, IsDerivable, IsGivenAt};

/// The terms derivable at a node of a skeleton are those derivable from what role strands send strictly before it, when the
/// values of the assumptions are secret.
#[tactic(auto, using(crate::proofs::FromLaw::from_at, crate::proofs::FromLaw::at_from))]
pub fn derivable_at_a_node()
    ensures { (k : Skeleton) (n : Node) (t : Term) → DerivableAt k n t ↔ DerivableFrom (IsSecret k) (IsSentBefore k n) t }
{}

/// If two lists are what is given at a node, the terms derivable at the node are those derivable from the lists.
#[tactic(auto, using(crate::proofs::FromLaw::given_at))]
pub fn derivable_where_given()
    ensures { (k : Skeleton) (n : Node) (g : Given) → IsGivenAt k n g → (t : Term) → DerivableAt k n t ↔ IsDerivable g t }
{}
