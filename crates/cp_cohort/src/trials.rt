//! Laws of solving a release.
ghost use Rattle.std.specs.Prelude.{List};
ghost use Rattle.cp_lists.specs.Lists.{IsIn};
ghost use Rattle.cp_model.specs.Strand.{Protocol};
ghost use Rattle.cp_model.specs.Skeleton.{Skeleton};
ghost use Rattle.cp_theory.specs.Trials.{SolvesTest};
ghost use Rattle.cp_cohort.specs.Releases.{Release, PartialSolution, came_by};
ghost use Rattle.cp_cohort.specs.Stages.{Stage, SolvesRelease};
ghost use Rattle.cp_cohort.specs.Way.{AreUsedVariables, trial_of, IsSoundPartial, DeclaresMore};

/// Let a release be solved from a skeleton that comes from the first one by a substitution. Then its test is solved for this
/// skeleton (`SolvesTest`) by every list that contains all the results. Each result comes from the first skeleton in the same way
/// and keeps the declared variables.
pub fn settling_is_trying()
    ensures tries { (protocol : Protocol) (first : Skeleton) (r : Release) (ks : List Skeleton) (stage : Stage) (x : PartialSolution) (ys : List PartialSolution) → AreUsedVariables first r → IsSoundPartial protocol first r x → SolvesRelease r stage x ys
        → ((y : PartialSolution) → IsIn y ys → IsIn y.skeleton ks) → SolvesTest (trial_of protocol first r) ks (came_by x) x.skeleton }
    ensures on_the_way { (protocol : Protocol) (first : Skeleton) (r : Release) (stage : Stage) (x y : PartialSolution) (ys : List PartialSolution) → AreUsedVariables first r → IsSoundPartial protocol first r x → SolvesRelease r stage x ys
        → IsIn y ys → IsSoundPartial protocol first r y × DeclaresMore x.skeleton.variables y.skeleton.variables }
{}
