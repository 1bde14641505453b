// Laws of collapses. Each is the contract of a function that does nothing.
ghost use Rattle.std.specs.Prelude.{◌≡◌, ◌⊎◌, ℕ, List, ◌∷◌};
ghost use Rattle.cp_lists.specs.Lists.{IsIn};
ghost use Rattle.cp_model.specs.Strand.{Protocol};
ghost use Rattle.cp_model.specs.declared.variable.Declaration.{Declaration};
ghost use Rattle.cp_model.specs.Term.{Term, apply_to};
ghost use Rattle.cp_model.specs.Bundle.{Bundle, IsBundle};
ghost use Rattle.cp_model.specs.Given.{listed};
ghost use Rattle.cp_model.specs.Skeleton.{Skeleton, IsSkeleton};
ghost use Rattle.cp_model.specs.Standing.{Standing, StandsIn, StandsApart};
ghost use Rattle.cp_model.specs.Homomorphism.{CarriesHomomorphism, IsHomomorphism, IsCompleteList};
ghost use Rattle.cp_model.specs.PointOfView.{StatesItself, HasDeclaredVariables};
ghost use Rattle.cp_model.specs.Stated.{KeepsStated};
ghost use Rattle.cp_collapse.specs.Collapses.{onto_blocks, IsCollapsed, HasNoCycle, IsImpossible, IsCollapse, AreCollapses, StandsThroughCollapse};
ghost use Rattle.cp_collapse.specs.Partitions.{IsPartitionByRole};

/// A skeleton whose strands are merged by a partition lists its assumptions in report order.
pub fn collapses_are_listed()
    ensures { (k l : Skeleton) (p : List ℕ) → IsCollapsed k p l → l.assumptions ≡ listed l }
{}

/// If the strands of a skeleton over a protocol are merged by a partition and the merged order has no cycle, the result is a
/// skeleton over the protocol. The map onto the blocks is a homomorphism. A skeleton and its collapses are a complete list for
/// it: whenever the skeleton stands in a bundle, it stands apart there, or its standing goes through a collapse that stands apart
/// there, strand by strand and value by value.
pub fn collapses_cover()
    ensures skeleton { (protocol : Protocol) (k l : Skeleton) (p : List ℕ) → IsSkeleton protocol k → IsCollapsed k p l → HasNoCycle l → IsSkeleton protocol l }
    ensures homomorphism { (protocol : Protocol) (k l : Skeleton) (p : List ℕ) → IsSkeleton protocol k → (c : IsCollapsed k p l) → IsHomomorphism k l (onto_blocks p c.unifier) }
    ensures covers { (protocol : Protocol) (k : Skeleton) (ls : List Skeleton) → IsSkeleton protocol k → AreCollapses k ls → IsCompleteList protocol k (k ∷ ls) }
    ensures through { (protocol : Protocol) (k : Skeleton) (ls : List Skeleton) (b : Bundle) (h : Standing) → IsSkeleton protocol k → AreCollapses k ls → IsBundle protocol b → StandsIn k b h → StandsApart k h ⊎ StandsThroughCollapse k ls b h }
{}

/// No collapse is by an impossible partition, so all lists of a skeleton's collapses are by the same partitions. Collapses by one
/// partition are under substitutions that agree on every term.
pub fn collapses_are_determined()
    ensures possible { (k l : Skeleton) (p : List ℕ) → IsCollapse k p l → IsImpossible k p → ⊥ }
    ensures partitions { (k : Skeleton) (ls ms : List Skeleton) → (a : AreCollapses k ls) → (b : AreCollapses k ms) → a.partitions ≡ b.partitions }
    ensures unifiers { (k l m : Skeleton) (p : List ℕ) → (c : IsCollapsed k p l) → (d : IsCollapsed k p m) → (u : Term) → apply_to c.unifier u ≡ apply_to d.unifier u }
{}

/// A skeleton whose strands are merged by a partition keeps what a problem states itself, if the original keeps it and carries a
/// homomorphism from the problem.
pub fn collapses_keep_what_is_stated()
    ensures { (protocol : Protocol) (variables : List Declaration) (problem k l : Skeleton) (p : List ℕ) → IsSkeleton protocol problem → StatesItself variables problem → IsSkeleton protocol k → CarriesHomomorphism problem k → IsCollapsed k p l → KeepsStated problem k → KeepsStated problem l }
{}

/// Collapses bring in no new variables.
pub fn collapses_have_declared_variables()
    ensures one { (variables : List Declaration) (k l : Skeleton) (p : List ℕ) → IsPartitionByRole k p → IsCollapsed k p l → HasDeclaredVariables variables k → HasDeclaredVariables variables l }
    ensures all { (variables : List Declaration) (k l : Skeleton) (ls : List Skeleton) → AreCollapses k ls → HasDeclaredVariables variables k → IsIn l ls → HasDeclaredVariables variables l }
{}
