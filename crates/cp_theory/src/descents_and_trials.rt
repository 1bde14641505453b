//! Laws by which covers of a test are built.
ghost use Rattle.std.specs.Prelude.{List};
ghost use Rattle.cp_lists.specs.Lists.{IsIn};
ghost use Rattle.cp_model.specs.Term.{Substitution};
ghost use Rattle.cp_model.specs.Strand.{Protocol};
ghost use Rattle.cp_model.specs.Skeleton.{Skeleton};
ghost use Rattle.cp_theory.specs.Normal.{SaysNoMore};
ghost use Rattle.cp_theory.specs.Forms.{ReducesTo};
ghost use Rattle.cp_theory.specs.Trials.{ReleaseTest, SolvesTest};

/// A skeleton reduces to a list that contains it. What reduces to a list reduces to every list that contains all of it. If a
/// skeleton says no more than another and reduces to a list, so does the other.
pub fn coming_down()
    ensures listed { (protocol : Protocol) (ks : List Skeleton) (k : Skeleton) → IsIn k ks → ReducesTo protocol ks k }
    ensures more { (protocol : Protocol) (ks ls : List Skeleton) (k : Skeleton) → ((l : Skeleton) → IsIn l ks → IsIn l ls) → ReducesTo protocol ks k → ReducesTo protocol ls k }
    ensures weaker { (protocol : Protocol) (ks : List Skeleton) (l k : Skeleton) → SaysNoMore l k → ReducesTo protocol ks l → ReducesTo protocol ks k }
{}

/// A release test that is solved by a list is solved by every list that contains all of it. If it is solved for a
/// skeleton that says no more than another, it is solved for the other too.
pub fn trying()
    ensures more { (trial : ReleaseTest) (ks ls : List Skeleton) (s : Substitution) (k : Skeleton) → ((l : Skeleton) → IsIn l ks → IsIn l ls) → SolvesTest trial ks s k → SolvesTest trial ls s k }
    ensures weaker { (trial : ReleaseTest) (ks : List Skeleton) (s : Substitution) (l k : Skeleton) → SaysNoMore l k → SolvesTest trial ks s l → SolvesTest trial ks s k }
{}
