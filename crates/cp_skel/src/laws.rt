// Laws of the changes to skeletons. Each is the contract of a function that does nothing.
ghost use Rattle.std.specs.Prelude.{◌≡◌, ◌↔◌, ℕ, List, IsTrue};
ghost use Rattle.std.specs.List.{remove};
ghost use Rattle.cp_lists.specs.Lists.{IsIn};
ghost use Rattle.cp_model.specs.Term.{AtomTerm, Term};
ghost use Rattle.cp_model.specs.declared.variable.Variable.{Variable};
ghost use Rattle.cp_model.specs.Strand.{Role, Protocol, variables_of_trace, variables_of_prefix, IsHeight};
ghost use Rattle.cp_model.specs.Skeleton.{UniqueAt, Skeleton, IsSkeleton};
ghost use Rattle.cp_model.specs.Problem.{IsDeclared};
ghost use Rattle.cp_model.specs.Same.{has_variable};
ghost use Rattle.cp_model.specs.Given.{atoms_onto, uniques_onto, listed_atoms, listed_uniques, listed};
ghost use Rattle.cp_model.specs.Declares.{HasDeclaredPrefixes};
ghost use Rattle.cp_model.specs.GivenAssumptions.{IsEachOnce, HasEachOnce};
ghost use Rattle.cp_model.specs.PrefixVariables.{prefix_variables, added_variables};
ghost use Rattle.cp_skel.specs.Ordered.{IsOrdered};
ghost use Rattle.cp_skel.specs.Deletion.{ForgetsAssumptions};
ghost use Rattle.cp_model.specs.Extensions.{AddsListener, AddsStrand, CanExtend, Extends};

/// A skeleton over a protocol stays one when a listener is added.
pub fn listener_keeps_skeletons()
    ensures { (protocol : Protocol) (t : Term) (old new : Skeleton) → IsSkeleton protocol old → AddsListener t old new → IsSkeleton protocol new }
{}

/// A skeleton over a protocol stays one when an instance of one of the protocol's roles is added, of a height that the
/// role has.
pub fn strand_keeps_skeletons()
    ensures { (protocol : Protocol) (role : Role) (height : ℕ) (values : List Term) (old new : Skeleton) → IsIn role protocol.roles → IsHeight role height
        → IsSkeleton protocol old → AddsStrand role height values old new → IsSkeleton protocol new }
{}

/// A skeleton over a protocol stays one when an instance grows.
pub fn extending_keeps_skeletons()
    ensures { (protocol : Protocol) (s height : ℕ) (values : List Term) (old new : Skeleton) → CanExtend old s height values
        → IsSkeleton protocol old → Extends s height values old new → IsSkeleton protocol new }
{}

/// A skeleton over a protocol stays one when a strand is deleted, if each pair that is left goes from a transmission to
/// a reception of another strand and the order has no cycle.
pub fn deleting_keeps_skeletons()
    ensures { (protocol : Protocol) (d : ℕ) (old new : Skeleton) → IsSkeleton protocol old → new.strands ≡ remove old.strands d
        → ForgetsAssumptions d old new.assumptions → IsOrdered new → IsSkeleton protocol new }
{}

/// The variables of a prefix are the declared ones that occur in it. Those that it adds to an earlier prefix are those
/// of them that do not occur there.
pub fn variables_of_prefixes()
    ensures whole { (role : Role) (height : ℕ) (x : Variable) → IsIn x (prefix_variables role height)
        ↔ (IsDeclared role.variables x × IsIn x (variables_of_prefix role height)) }
    ensures added { (role : Role) (before height : ℕ) (x : Variable) → IsIn x (added_variables role before height)
        ↔ (IsDeclared role.variables x × IsIn x (variables_of_prefix role height) × (IsIn x (variables_of_prefix role before) → ⊥)) }
{}

/// The test whether a list has a variable is exact.
pub fn test_of_variables()
    ensures { (xs : List Variable) (x : Variable) → IsTrue (has_variable xs x) ↔ IsIn x xs }
{}

/// Assumptions in the order of the report are the same: each list has the items that it had, and each once. Listing
/// them again changes nothing.
pub fn listed_assumptions_are_the_same()
    ensures non { (k : Skeleton) → HasEachOnce k.assumptions.non_originating (listed k).non_originating }
    ensures penetrator_non { (k : Skeleton) → HasEachOnce k.assumptions.penetrator_non_originating (listed k).penetrator_non_originating }
    ensures unique { (k : Skeleton) → HasEachOnce k.assumptions.uniquely_originating (listed k).uniquely_originating }
    ensures again { (k : Skeleton) → listed (record k { assumptions = listed k }) ≡ listed k }
{}

/// The assumptions of a problem, first its own (each once) and then those that its strands give, are in the order of
/// the report.
pub fn given_behind_own_is_listed()
    ensures atoms { (own given : List AtomTerm) → IsEachOnce own → listed_atoms own given (atoms_onto own given) ≡ atoms_onto own given }
    ensures uniques { (own given : List UniqueAt) → IsEachOnce own → listed_uniques own given (uniques_onto own given) ≡ uniques_onto own given }
{}

/// If the roles of a protocol declare the variables of their events, as those of well-formed input do, then the role of
/// each instance of a skeleton over it declares the variables of the instance's prefix.
pub fn skeletons_have_declared_prefixes()
    ensures { (protocol : Protocol) (k : Skeleton) → ((role : Role) → IsIn role protocol.roles → (x : Variable) → IsIn x (variables_of_trace role.trace) → IsDeclared role.variables x)
        → IsSkeleton protocol k → HasDeclaredPrefixes k }
{}
