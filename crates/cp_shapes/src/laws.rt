// Laws about shapes. Each is the contract of a function that does nothing.
ghost use Rattle.std.specs.Prelude.{◌≡◌, ◌≢◌, ℕ, ◌<◌, List, length, Option};
ghost use Rattle.cp_lists.specs.Lists.{IsIn};
ghost use Rattle.cp_model.specs.Strand.{Protocol};
ghost use Rattle.cp_model.specs.Bundle.{Bundle};
ghost use Rattle.cp_model.specs.Skeleton.{Skeleton, IsSkeleton};
ghost use Rattle.cp_model.specs.Standing.{Standing};
ghost use Rattle.cp_shapes.specs.Shapes.{EmbedsAt, IsShapeAt, AreShapeMarksOf};
ghost use Rattle.cp_shapes.specs.Through.{FactorsThroughNumber};

/// No shape embeds in another.
pub fn shapes_are_apart()
    ensures { (ks : List Skeleton) (n m : ℕ) → IsShapeAt ks n → IsShapeAt ks m → n ≢ m → EmbedsAt ks n m → ⊥ }
{}

/// Some shape, possibly the candidate itself, embeds in each candidate. So a standing that factors through a candidate factors
/// through a shape.
pub fn standings_go_through_shapes()
    ensures embeds { (ks : List Skeleton) (marks : List (Option ℕ)) → AreShapeMarksOf ks marks → (m : ℕ) → m < length ks → (n : ℕ) × IsShapeAt ks n × EmbedsAt ks n m }
    ensures stands { (protocol : Protocol) (problem : Skeleton) (ks : List Skeleton) (marks : List (Option ℕ)) (b : Bundle) (h : Standing) → AreShapeMarksOf ks marks → ((k : Skeleton) → IsIn k ks → IsSkeleton protocol k)
        → (m : ℕ) → FactorsThroughNumber problem ks b h m → (n : ℕ) × IsShapeAt ks n × FactorsThroughNumber problem ks b h n }
{}
