// The law that searches add no strings. It is the contract of a function that does nothing.
ghost use Rattle.std.specs.Prelude.{ℕ, List};
ghost use Rattle.cp_lists.specs.Lists.{IsIn};
ghost use Rattle.cp_model.specs.Strand.{Role, Protocol};
ghost use Rattle.cp_model.specs.declared.variable.Declaration.{Declaration};
ghost use Rattle.cp_model.specs.Skeleton.{Skeleton, IsSkeleton};
ghost use Rattle.cp_model.specs.PointOfView.{IsPointOfView};
ghost use Rattle.cp_model.specs.Tree.{Label, Tree};
ghost use Rattle.cp_model.specs.declared.tree.Limits.{Limits};
ghost use Rattle.cp_model.specs.Declares.{DeclaresItsVariables};
ghost use Rattle.cp_tree.specs.Searched.{IsTreeOf};
ghost use Rattle.cp_printable.specs.Spelled.{AreSpelledDeclarations, IsSpelledRole, IsSpelledSkeleton, IsSpelledLabel};

/// The labels of the tree that a search makes for a problem have no other strings than the problem and the protocol's
/// roles, and no other identifiers.
///
/// In detail: let all tags, and all purposes of keys, of the roles and of the problem's skeleton be among some strings,
/// and the names of the roles and the identifiers of their variables and of the problem's among some identifiers. Let
/// the problem be a skeleton over the protocol that maps to itself, and let the roles declare their variables. Then all
/// tags and purposes of each label, including those of its critical term and its patterns, are among these strings, and
/// its identifiers are among these identifiers.
pub fn search_trees_have_no_other_strings()
    ensures { (protocol : Protocol) (k : Skeleton) (variables : List Declaration) (limits : Limits) (t : Tree) (strings identifiers : List (List ℕ)) → ((role : Role) → IsIn role protocol.roles → DeclaresItsVariables role)
        → ((role : Role) → IsIn role protocol.roles → IsSpelledRole (λ s. IsIn s strings) (λ s. IsIn s identifiers) role) → AreSpelledDeclarations (λ s. IsIn s identifiers) variables
        → IsSpelledSkeleton (λ s. IsIn s strings) (λ s. IsIn s identifiers) k → IsPointOfView variables k → IsSkeleton protocol k → IsTreeOf protocol k variables limits t
        → (l : Label) → IsIn l t.labels → IsSpelledLabel (λ s. IsIn s strings) (λ s. IsIn s identifiers) l }
{}
