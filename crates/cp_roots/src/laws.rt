// Laws: what is true of the roots of a problem. Each is the contract of a function that does nothing.
ghost use Rattle.std.specs.Prelude.{◌≡◌, ℕ, List, Some};
ghost use Rattle.cp_lists.specs.Lists.{item_at};
ghost use Rattle.cp_model.specs.PointOfView.{HasDeclaredVariables, IsPointOfView};
ghost use Rattle.cp_model.specs.Skeleton.{IsSkeleton, Skeleton};
ghost use Rattle.cp_model.specs.Strand.{Protocol};
ghost use Rattle.cp_model.specs.declared.variable.Declaration.{Declaration};
ghost use Rattle.cp_roots.specs.Roots.{Root, AreRoots};
ghost use Rattle.cp_roots.specs.Sound.{AreSound};

/// The roots that the rules give for a point-of-view skeleton over a protocol are sound: they are skeletons over the protocol with
/// homomorphisms from the problem, dead ones stand apart in no bundle, and each standing of the problem goes through a living one
/// that stands apart.
pub fn roots_are_sound()
    ensures { (protocol : Protocol) (variables : List Declaration) (k : Skeleton) (roots : List Root) → IsSkeleton protocol k → IsPointOfView variables k → AreRoots k roots → AreSound protocol k roots }
{}

/// If the variables of a problem are declared, so are those that occur in its roots and in their maps from the problem.
pub fn roots_have_declared_variables()
    ensures { (variables : List Declaration) (k : Skeleton) (roots : List Root) → HasDeclaredVariables variables k → AreRoots k roots → (i : ℕ) (root : Root) → item_at roots i ≡ Some root → HasDeclaredVariables variables root.skeleton }
{}
