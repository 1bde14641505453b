//! Laws: the cohort of a test covers it.
ghost use Rattle.std.specs.Prelude.{List, [], map};
ghost use Rattle.cp_lists.specs.Lists.{IsIn};
ghost use Rattle.cp_model.specs.Strand.{Role, Protocol};
ghost use Rattle.cp_model.specs.Bundle.{Bundle, IsBundle};
ghost use Rattle.cp_model.specs.Skeleton.{IsSkeleton};
ghost use Rattle.cp_model.specs.Standing.{Standing, StandsIn, StandsApart};
ghost use Rattle.cp_model.specs.PointOfView.{HasDeclaredVariables};
ghost use Rattle.cp_model.specs.Declares.{DeclaresItsVariables};
ghost use Rattle.cp_theory.specs.Critical.{IsTest};
ghost use Rattle.cp_theory.specs.Guards.{Guards};
ghost use Rattle.cp_theory.specs.Covering.{IsCovering};
ghost use Rattle.cp_theory.specs.NoneLeftOut.{IsComplete};
ghost use Rattle.cp_cohort.specs.CoveringChildren.{Child};
ghost use Rattle.cp_cohort.specs.Cohort.{GuardedTest, IsCohort};
ghost use Rattle.cp_cohort.specs.Sound.{IsSoundChild};
ghost use Rattle.cp_cohort.specs.Released.{HasItsOperation};
ghost use Rattle.cp_cohort.specs.Through.{GoesThroughChild};

/// The children of a test, under patterns that guard it, cover it. So they leave out no standing: whenever the skeleton stands
/// apart, some child does, and the skeleton's standing factors through the child's by a homomorphism. Without children the
/// skeleton stands apart in no bundle.
pub fn cohorts_cover()
    ensures covering { (protocol : Protocol) (q : GuardedTest) (children : List Child) → IsSkeleton protocol q.skeleton → ((role : Role) → IsIn role protocol.roles → DeclaresItsVariables role) → HasDeclaredVariables q.skeleton.variables q.skeleton
        → IsTest q.skeleton q.node q.critical → Guards q.patterns q.skeleton q.node q.critical → IsCohort protocol q children → IsCovering protocol q.skeleton q.node q.critical q.patterns (map (λ (c : Child). c.skeleton) children) }
    ensures leaves_none_out { (protocol : Protocol) (q : GuardedTest) (children : List Child) → IsSkeleton protocol q.skeleton → ((role : Role) → IsIn role protocol.roles → DeclaresItsVariables role) → HasDeclaredVariables q.skeleton.variables q.skeleton
        → IsTest q.skeleton q.node q.critical → Guards q.patterns q.skeleton q.node q.critical → IsCohort protocol q children → IsComplete protocol q.skeleton (map (λ (c : Child). c.skeleton) children) }
    ensures through_the_child { (protocol : Protocol) (q : GuardedTest) (children : List Child) → IsSkeleton protocol q.skeleton → ((role : Role) → IsIn role protocol.roles → DeclaresItsVariables role) → HasDeclaredVariables q.skeleton.variables q.skeleton
        → IsTest q.skeleton q.node q.critical → Guards q.patterns q.skeleton q.node q.critical → IsCohort protocol q children → (b : Bundle) (h : Standing) → IsBundle protocol b → StandsIn q.skeleton b h → StandsApart q.skeleton h → GoesThroughChild q children b h }
    ensures nowhere { (protocol : Protocol) (q : GuardedTest) → IsSkeleton protocol q.skeleton → ((role : Role) → IsIn role protocol.roles → DeclaresItsVariables role) → HasDeclaredVariables q.skeleton.variables q.skeleton
        → IsTest q.skeleton q.node q.critical → Guards q.patterns q.skeleton q.node q.critical → IsCohort protocol q [] → (b : Bundle) (h : Standing) → IsBundle protocol b → StandsIn q.skeleton b h → StandsApart q.skeleton h → ⊥ }
{}

/// Each child of a test is a skeleton over the protocol with declared variables, those of the test's skeleton first. It carries a
/// homomorphism from a problem, and keeps what the problem states, if the test's skeleton does.
pub fn children_are_sound()
    ensures { (protocol : Protocol) (q : GuardedTest) (children : List Child) → IsSkeleton protocol q.skeleton → ((role : Role) → IsIn role protocol.roles → DeclaresItsVariables role) → HasDeclaredVariables q.skeleton.variables q.skeleton
        → IsTest q.skeleton q.node q.critical → Guards q.patterns q.skeleton q.node q.critical → IsCohort protocol q children → (c : Child) → IsIn c children → IsSoundChild protocol q c }
{}

/// Each child of a test comes from the test's skeleton by a substitution, with the strands at their places, and its operation
/// tells the truth. The node of a contraction, which is before the test already, carries the critical term. A displaced node, on
/// another strand, releases the critical term before the test, and so does the last node of an added strand. An added listener
/// hears a term that may release it.
pub fn operations_are_true()
    ensures { (protocol : Protocol) (q : GuardedTest) (children : List Child) → IsCohort protocol q children → (c : Child) → IsIn c children → HasItsOperation q c }
{}
