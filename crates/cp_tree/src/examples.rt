// An example of a tree.
ghost use Rattle.std.specs.Prelude.{[], ◌∷◌};
ghost use Rattle.cp_model.specs.PointOfView.{IsPointOfView};
ghost use Rattle.cp_model.specs.Tree.{IsTrueOf};
ghost use Rattle.cp_theory.specs.EncryptionExamples.{locker, protocol, heard};
ghost use Rattle.cp_roots.specs.Sound.{AreSound};
ghost use Rattle.cp_tree.specs.Searched.{IsTreeFrom};
ghost use Rattle.cp_tree.specs.Example.{heard_root, heard_tree, one_step_limits};

/// An encryption is heard, under a non-originating key, and one role sends such encryptions. The problem is its only root. The
/// search makes two labels: the root, whose one reception is not derivable and whose test has one child, under no patterns; and
/// that child, a shape, in which a strand of the role has sent the encryption before. The tree meets the premises of the law of
/// trees, so it is true of the problem: wherever the encryption is heard, a strand of the role has sent it.
#[tactic(auto, using(crate::proofs::ExampleRoot::heard_own, crate::proofs::ExampleRoot::heard_sound, crate::proofs::ExampleTree::is_tree))]
pub fn heard_encryption_has_a_tree()
    ensures problem { IsPointOfView locker.variables heard }
    ensures sound { AreSound protocol heard (heard_root ∷ []) }
    ensures tree { IsTreeFrom protocol locker.variables one_step_limits (heard_root ∷ []) heard_tree }
    ensures truth { IsTrueOf protocol heard one_step_limits heard_tree }
{}
