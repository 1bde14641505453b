// Laws: normal forms come by substitutions. Each is the contract of a function that does nothing.
ghost use Rattle.std.specs.Prelude.{◌≡◌, List, map};
ghost use Rattle.cp_lists.specs.Lists.{IsIn};
ghost use Rattle.cp_model.specs.Term.{Term, Assignment, value_of, after};
ghost use Rattle.cp_model.specs.Strand.{Protocol};
ghost use Rattle.cp_model.specs.Bundle.{Bundle};
ghost use Rattle.cp_model.specs.Skeleton.{Skeleton, IsSkeleton};
ghost use Rattle.cp_model.specs.Standing.{Standing};
ghost use Rattle.cp_model.specs.Homomorphism.{FactorsThrough};
ghost use Rattle.cp_unify.specs.Bindings.{Binding, as_substitution};
ghost use Rattle.cp_theory.specs.Normal.{LosesNoStanding};
ghost use Rattle.cp_normal.specs.BySubstitution.{ComesBySubstitution, ComeBySubstitutions};
ghost use Rattle.cp_normal.specs.Exact.{HasForms};
ghost use Rattle.cp_normal.specs.Formed.{Formed, StandsAmongFormed, AreFormedNormalForms, IsFormBeside};
ghost use Rattle.cp_normal.specs.NormalForms.{IsNormalFormOf};
ghost use Rattle.cp_normal.specs.declared.form.Form.{Form};

/// The normal forms that the rules give (`HasForms`) are normal forms of the skeleton. For a skeleton over a protocol they lose
/// no standing. Each comes from the skeleton by one substitution, independent of any bundle. Whenever the skeleton stands apart,
/// one of them does by the same standing, and that standing gives each term the value of the term under the form's substitution;
/// so it factors through the form.
pub fn forms_come_by_substitutions()
    ensures forms { (k r : Skeleton) (rs : List Skeleton) → HasForms k rs → IsIn r rs → IsNormalFormOf k r }
    ensures loses_none { (protocol : Protocol) (k : Skeleton) (rs : List Skeleton) → IsSkeleton protocol k → HasForms k rs → LosesNoStanding protocol k rs }
    ensures each { (k r : Skeleton) → IsNormalFormOf k r → ComesBySubstitution k r }
    ensures factors { (k r : Skeleton) (h : Standing) → (c : ComesBySubstitution k r) → ((t : Term) → value_of (after h.values c.substitution) t ≡ value_of h.values t) → FactorsThrough k h r h }
    ensures all { (protocol : Protocol) (k : Skeleton) (rs : List Skeleton) → IsSkeleton protocol k → HasForms k rs → ComeBySubstitutions protocol k rs }
{}

/// The normal forms that the rules give have substitutions by which they come. A standing that agrees with the substitution of a
/// normal form factors through that form. If a substitution was given beside the skeleton, an assignment that agrees with a
/// form's substitution gives each term the same value under the given one as under the given one followed by the form's.
pub fn normal_forms_have_substitutions()
    ensures exist { (k : Skeleton) (rs : List Skeleton) → HasForms k rs → (forms : List Formed) × AreFormedNormalForms k forms × (map (λ f. f.skeleton) forms ≡ rs) }
    ensures factors { (k : Skeleton) (forms : List Formed) (b : Bundle) (h : Standing) → AreFormedNormalForms k forms → (among : StandsAmongFormed forms b h) → FactorsThrough k h among.form.skeleton h }
    ensures beside { (k : Skeleton) (given : List Binding) (answer : Form) (f : Formed) (g : Assignment) → IsFormBeside k given answer f → ((t : Term) → value_of (after g f.substitution) t ≡ value_of g t) → (t : Term) → value_of (after g (as_substitution answer.substitution)) t ≡ value_of (after g (as_substitution given)) t }
{}
