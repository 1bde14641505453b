//! An example of a cohort.
ghost use Rattle.std.specs.Prelude.{[], ◌∷◌};
ghost use Rattle.cp_lists.specs.Lists.{IsIn};
ghost use Rattle.cp_model.specs.Strand.{Role};
ghost use Rattle.cp_model.specs.PointOfView.{HasDeclaredVariables};
ghost use Rattle.cp_model.specs.Declares.{DeclaresItsVariables};
ghost use Rattle.cp_theory.specs.EncryptionExamples.{protocol, heard};
ghost use Rattle.cp_theory.specs.NoneLeftOut.{IsComplete};
ghost use Rattle.cp_cohort.specs.Cohort.{IsCohort};
ghost use Rattle.cp_cohort.specs.Example.{asked, one_child};

/// An encryption is heard, under a non-originating key. One role sends such encryptions and declares its variables. The test has
/// one child: a strand of the role has sent the encryption before. The term inside the encryption never equals it, and a listener
/// on the key would hear a non-originating value. So this child leaves out no standing.
pub fn heard_encryption_has_one_child()
    ensures declares { (role : Role) → IsIn role protocol.roles → DeclaresItsVariables role }
    ensures declared { HasDeclaredVariables asked.skeleton.variables heard }
    ensures cohort { IsCohort protocol asked (one_child ∷ []) }
    ensures leaves_none_out { IsComplete protocol heard (one_child.skeleton ∷ []) }
{}
