// The law of generalising. It is the contract of a function that does nothing.
ghost use Rattle.std.specs.Prelude.{List};
ghost use Rattle.cp_model.specs.Strand.{Protocol};
ghost use Rattle.cp_model.specs.declared.variable.Declaration.{Declaration};
ghost use Rattle.cp_model.specs.Skeleton.{Skeleton, IsSkeleton};
ghost use Rattle.cp_model.specs.PointOfView.{IsPointOfView};
ghost use Rattle.cp_tree.specs.Sound.{GeneralisesSoundly};

/// If a problem is a skeleton over the protocol, each generalisation of one of its labels is sound, provided that the label is
/// sound and not dead: the label made of it is sound, and it embeds in the generalised one.
pub fn generalised_labels_are_sound()
    ensures { (protocol : Protocol) (variables : List Declaration) (k : Skeleton) → IsSkeleton protocol k → IsPointOfView variables k → GeneralisesSoundly protocol k }
{}
