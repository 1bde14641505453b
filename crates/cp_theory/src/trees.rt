//! The law of trees: no standing of the problem is lost along the edges of a lawful tree.
ghost use Rattle.std.specs.Prelude.{ℕ, List, [], ◌∷◌};
ghost use Rattle.cp_model.specs.Strand.{Protocol};
ghost use Rattle.cp_model.specs.Skeleton.{Skeleton, IsSkeleton};
ghost use Rattle.cp_model.specs.Homomorphism.{SkeletonMap, IsEmbedding, IsCompleteList};
ghost use Rattle.cp_model.specs.Bundle.{Bundle, IsBundle};
ghost use Rattle.cp_model.specs.Standing.{Standing, StandsIn, StandsApart};
ghost use Rattle.cp_theory.specs.Normal.{LosesNoStanding};
ghost use Rattle.cp_model.specs.Tree.{Label, shapes_of, skeletons_left};
ghost use Rattle.cp_theory.specs.Lawful.{PassesOn, skeletons_at, IsLawful, IsWithinLimits};
ghost use Rattle.cp_theory.specs.NoneLeftOut.{IsComplete, IsMapInRange};

/// If the roots of a lawful tree are a complete list for the problem, so are its shapes together with its labels at a limit; if
/// no label is at a limit, its shapes alone are.
pub fn lawful_trees_are_complete()
    ensures left { (protocol : Protocol) (problem : Skeleton) (labels : List Label) (edges : ℕ → List ℕ) (roots : List ℕ) → IsLawful protocol problem labels edges
        → IsCompleteList protocol problem (skeletons_at labels roots) → IsCompleteList protocol problem (skeletons_left labels) }
    ensures shapes { (protocol : Protocol) (problem : Skeleton) (labels : List Label) (edges : ℕ → List ℕ) (roots : List ℕ) → IsLawful protocol problem labels edges
        → IsCompleteList protocol problem (skeletons_at labels roots) → IsWithinLimits labels → IsCompleteList protocol problem (shapes_of labels) }
{}

/// A skeleton passes the standings of a problem on to a list that leaves out or loses none of its standings, and to a skeleton
/// that embeds in it. If it stands apart in no bundle, it passes them on to the empty list.
pub fn standings_pass_on()
    ensures none_left_out { (protocol : Protocol) (problem k : Skeleton) (ks : List Skeleton) → IsMapInRange k → IsComplete protocol k ks → PassesOn protocol problem k ks }
    ensures none_lost { (protocol : Protocol) (problem k : Skeleton) (ks : List Skeleton) → LosesNoStanding protocol k ks → PassesOn protocol problem k ks }
    ensures nowhere { (protocol : Protocol) (problem k : Skeleton) → ((b : Bundle) (h : Standing) → IsBundle protocol b → StandsIn k b h → StandsApart k h → ⊥) → PassesOn protocol problem k [] }
    ensures embedding { (protocol : Protocol) (problem l k : Skeleton) (f : SkeletonMap) → IsSkeleton protocol l → IsSkeleton protocol k → IsEmbedding l k f → PassesOn protocol problem k (l ∷ []) }
{}
