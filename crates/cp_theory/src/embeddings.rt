//! Why a skeleton in which another embeds may be left out: whatever factors through it factors through the other.
ghost use Rattle.cp_model.specs.Strand.{Protocol};
ghost use Rattle.cp_model.specs.Bundle.{Bundle};
ghost use Rattle.cp_model.specs.Skeleton.{Skeleton, IsSkeleton};
ghost use Rattle.cp_model.specs.Standing.{Standing, StandsIn, StandsApart};
ghost use Rattle.cp_model.specs.Homomorphism.{SkeletonMap, IsEmbedding, FactorsThrough};
ghost use Rattle.cp_model.specs.Composition.{through};

/// An embedding, followed by a standing of the second skeleton, is a standing of the first. It is apart if the second's is. Each
/// standing of the problem that factors through the second's factors through the first's.
pub fn embedding_then_standing()
    ensures stands { (protocol : Protocol) (a b : Skeleton) (f : SkeletonMap) (bundle : Bundle) (g : Standing) → IsSkeleton protocol a → IsSkeleton protocol b → IsEmbedding a b f → StandsIn b bundle g → StandsIn a bundle (through f g) }
    ensures apart { (a b : Skeleton) (f : SkeletonMap) (g : Standing) → IsEmbedding a b f → StandsApart b g → StandsApart a (through f g) }
    ensures factors { (problem a b : Skeleton) (f : SkeletonMap) (h g : Standing) → IsEmbedding a b f → FactorsThrough problem h b g → FactorsThrough problem h a (through f g) }
{}
