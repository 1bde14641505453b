//! Laws of the definitions. Each is the contract of a function that does nothing.
ghost use Rattle.std.specs.Prelude.{◌≡◌, ◌⊎◌, ◌↔◌, Some};
ghost use Rattle.cp_model.specs.Message.{Message, IsCarriedBy};
ghost use Rattle.cp_model.specs.Term.{Term, Assignment, value_of, Substitution, apply_to, after, composed};
ghost use Rattle.cp_model.specs.Strand.{Event, payload, Protocol};
ghost use Rattle.cp_model.specs.Bundle.{AreOfProtocol, event_at, OriginatesAt, Bundle, Precedes, IsBundle};
ghost use Rattle.cp_model.specs.declared.node.Node.{Node};
ghost use Rattle.cp_model.specs.Run.{Run, IsRun, IsBundleOf};
ghost use Rattle.cp_lists.specs.Lists.{IsIn};
ghost use Rattle.cp_model.specs.Skeleton.{IsNodeOf, Skeleton, Before, IsOrderPair, IsSkeleton};
ghost use Rattle.cp_model.specs.declared.node.OrderPair.{OrderPair};
ghost use Rattle.cp_model.specs.Order.{ReachesAlong};
ghost use Rattle.cp_model.specs.Standing.{Standing, StandsIn};
ghost use Rattle.cp_model.specs.Homomorphism.{SkeletonMap, IsHomomorphism, Embeds};
ghost use Rattle.cp_model.specs.Composition.{through};

/// The value of a term under an assignment after a substitution is the value of the substituted term. Applying two substitutions
/// one after the other is applying their composition.
#[tactic(auto, using(crate::proofs::LawTerms::value_after, crate::proofs::LawTerms::term_composed))]
pub fn value_after_substitution()
    ensures value { (g : Assignment) (s : Substitution) (t : Term) → value_of (after g s) t ≡ value_of g (apply_to s t) }
    ensures composition { (s t : Substitution) (u : Term) → apply_to (composed s t) u ≡ apply_to t (apply_to s u) }
{}

/// A homomorphism between skeletons over a protocol, followed by a standing of the second in a bundle, is a standing of the first
/// in that bundle.
#[tactic(auto, using(crate::proofs::LawStandings::standing_through))]
pub fn homomorphism_then_standing()
    ensures { (protocol : Protocol) (a b : Skeleton) (f : SkeletonMap) (bundle : Bundle) (h : Standing) → IsSkeleton protocol a → IsSkeleton protocol b → IsHomomorphism a b f → StandsIn b bundle h → StandsIn a bundle (through f h) }
{}

/// A skeleton embeds in itself.
#[tactic(auto, using(crate::proofs::LawEmbeddings::embeds_same))]
pub fn embeds_in_itself()
    ensures { (k : Skeleton) → Embeds k k }
{}

/// If a skeleton embeds in a second, and that in a third, the first embeds in the third.
pub fn embeddings_compose()
    ensures { (a b c : Skeleton) → Embeds a b → Embeds b c → Embeds a c }
{}

/// A message that a node of a bundle carries originates at that node or at one that precedes it.
#[tactic(auto, using(crate::proofs::LawOrigins::origin_of))]
pub fn origin_at_or_before()
    ensures { (protocol : Protocol) (b : Bundle) → IsBundle protocol b → (n : Node) (e : Event Message) (v : Message) → event_at b.strands n ≡ Some e → IsCarriedBy v (payload e) → (o : Node) × OriginatesAt b.strands v o × ((o ≡ n) ⊎ Precedes b o n) }
{}

/// The bundle made of a run over a protocol is a bundle over that protocol.
#[tactic(auto, using(crate::proofs::LawRuns::bundle_of_run))]
pub fn run_makes_a_bundle()
    ensures { (protocol : Protocol) (r : Run) (b : Bundle) → IsRun r → IsBundleOf r b → AreOfProtocol protocol r.strands → IsBundle protocol b }
{}

/// Let the pairs of a skeleton go from transmissions to receptions of other strands, and its order have no cycle. Then a node is
/// before an existing one exactly if it is a different node that reaches it along strands and pairs.
#[tactic(auto, using(crate::proofs::LawOrder::before_by_pairs))]
pub fn before_is_leading_to_another()
    ensures { (k : Skeleton) → ((p : OrderPair) → IsIn p k.pairs → IsOrderPair k p) → ((n : Node) → Before k n n → ⊥) → (x y : Node) → IsNodeOf k.strands y → Before k x y ↔ (ReachesAlong k.pairs x y × (x ≡ y → ⊥)) }
{}
