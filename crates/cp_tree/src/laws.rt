// Laws about trees. Each is the contract of a function that does nothing.
ghost use Rattle.std.specs.Prelude.{◌≡◌, ◌<◌, ◌≤◌, ◌↔◌, ℕ, List, Some, None};
ghost use Rattle.cp_lists.specs.Lists.{item_at, IsIn, Steps};
ghost use Rattle.cp_model.specs.Strand.{Role, Protocol};
ghost use Rattle.cp_model.specs.declared.variable.Declaration.{Declaration};
ghost use Rattle.cp_model.specs.Bundle.{Bundle, IsBundle};
ghost use Rattle.cp_model.specs.Skeleton.{Skeleton, IsSkeleton};
ghost use Rattle.cp_model.specs.Standing.{Standing, StandsIn, StandsApart};
ghost use Rattle.cp_model.specs.PointOfView.{HasDeclaredVariables, IsPointOfView};
ghost use Rattle.cp_model.specs.Tree.{Label, Tree, expanded_count, IsTrueOf};
ghost use Rattle.cp_model.specs.declared.tree.Mark.TheVariants.{Dead as dead, LimitSteps as limit_steps};
ghost use Rattle.cp_model.specs.declared.tree.Limits.{Limits};
ghost use Rattle.cp_model.specs.Declares.{DeclaresItsVariables};
ghost use Rattle.cp_theory.specs.Lawful.{IsEdgeOf, IsLawful};
ghost use Rattle.cp_roots.specs.declared.root.Root.{Root};
ghost use Rattle.cp_roots.specs.Sound.{AreSound};
ghost use Rattle.cp_tree.specs.Searched.{IsTreeFrom};
ghost use Rattle.cp_tree.specs.Edges.{edges};
ghost use Rattle.cp_tree.specs.LabelVariables.{DeclaresItsOwn};
ghost use Rattle.cp_tree.specs.Placed.{RootsAreFirst, AreRootsGeneralised};

/// The labels of the roots come first. Label j is a child of label i exactly if it was made from label i. Edges lead from a label
/// to its children, to the label in which it is seen, and to the shape of which it is an instance; they form no cycle.
pub fn search_trees_are_ordered()
    ensures roots_first { (protocol : Protocol) (variables : List Declaration) (limits : Limits) (roots : List Root) (tree : Tree) → IsTreeFrom protocol variables limits roots tree → RootsAreFirst variables roots tree.labels }
    ensures children { (protocol : Protocol) (variables : List Declaration) (limits : Limits) (roots : List Root) (tree : Tree) → IsTreeFrom protocol variables limits roots tree
        → (i j : ℕ) (l m : Label) → item_at tree.labels i ≡ Some l → item_at tree.labels j ≡ Some m → (IsIn j l.children ↔ (m.parent ≡ Some i)) }
    ensures no_cycle { (protocol : Protocol) (variables : List Declaration) (limits : Limits) (roots : List Root) (tree : Tree) → IsTreeFrom protocol variables limits roots tree → (i : ℕ) → Steps (IsEdgeOf (edges tree.labels)) i i → ⊥ }
{}

/// At most as many labels are expanded as the step limit says, and each of them comes before all labels that are at that limit.
/// If none may be expanded, each label is that of a root or was made by generalising one of those.
pub fn searches_keep_within_limits()
    ensures steps { (protocol : Protocol) (variables : List Declaration) (limits : Limits) (roots : List Root) (tree : Tree) → IsTreeFrom protocol variables limits roots tree → expanded_count tree.labels ≤ limits.steps }
    ensures expanded_first { (protocol : Protocol) (variables : List Declaration) (limits : Limits) (roots : List Root) (tree : Tree) → IsTreeFrom protocol variables limits roots tree
        → (i j : ℕ) (l m : Label) → item_at tree.labels i ≡ Some l → item_at tree.labels j ≡ Some m → (l.test ≡ None → ⊥) → m.mark ≡ Some limit_steps → i < j }
    ensures no_step { (protocol : Protocol) (variables : List Declaration) (limits : Limits) (roots : List Root) (tree : Tree) → IsTreeFrom protocol variables limits roots tree → limits.steps ≡ 0 → AreRootsGeneralised variables roots tree.labels }
{}

/// If the roots of a problem are sound, the tree that a search makes from them is lawful: each label that is neither a shape nor
/// at a limit passes the problem's standings on to the labels to which its edges lead. A dead label stands apart in no bundle.
pub fn search_trees_are_lawful()
    ensures lawful { (protocol : Protocol) (variables : List Declaration) (k : Skeleton) (limits : Limits) (roots : List Root) (tree : Tree) → ((role : Role) → IsIn role protocol.roles → DeclaresItsVariables role)
        → AreSound protocol k roots → ((i : ℕ) (root : Root) → item_at roots i ≡ Some root → HasDeclaredVariables variables root.skeleton) → IsPointOfView variables k → IsTreeFrom protocol variables limits roots tree → IsLawful protocol k tree.labels (edges tree.labels) }
    ensures dead_nowhere { (protocol : Protocol) (variables : List Declaration) (k : Skeleton) (limits : Limits) (roots : List Root) (tree : Tree) → ((role : Role) → IsIn role protocol.roles → DeclaresItsVariables role)
        → AreSound protocol k roots → ((i : ℕ) (root : Root) → item_at roots i ≡ Some root → HasDeclaredVariables variables root.skeleton) → IsPointOfView variables k → IsTreeFrom protocol variables limits roots tree
        → (i : ℕ) (l : Label) → item_at tree.labels i ≡ Some l → l.mark ≡ Some dead → (b : Bundle) (h : Standing) → IsBundle protocol b → StandsIn l.skeleton b h → StandsApart l.skeleton h → ⊥ }
{}

/// If the roots of a problem are sound, and the problem is a skeleton over the protocol, the tree that a search makes from them
/// is true of the problem.
pub fn search_trees_are_true()
    ensures truth { (protocol : Protocol) (variables : List Declaration) (k : Skeleton) (limits : Limits) (roots : List Root) (tree : Tree) → ((role : Role) → IsIn role protocol.roles → DeclaresItsVariables role)
        → AreSound protocol k roots → ((i : ℕ) (root : Root) → item_at roots i ≡ Some root → HasDeclaredVariables variables root.skeleton) → IsSkeleton protocol k → IsPointOfView variables k → IsTreeFrom protocol variables limits roots tree → IsTrueOf protocol k limits tree }
{}

/// If the roots of a problem are sound, each label of the tree that a search makes from them declares the problem's variables
/// first, and all variables that occur in it.
pub fn search_trees_declare_their_variables()
    ensures { (protocol : Protocol) (variables : List Declaration) (k : Skeleton) (limits : Limits) (roots : List Root) (tree : Tree) → ((role : Role) → IsIn role protocol.roles → DeclaresItsVariables role)
        → AreSound protocol k roots → ((i : ℕ) (root : Root) → item_at roots i ≡ Some root → HasDeclaredVariables variables root.skeleton) → IsPointOfView variables k → IsTreeFrom protocol variables limits roots tree
        → (i : ℕ) (l : Label) → item_at tree.labels i ≡ Some l → DeclaresItsOwn variables l }
{}
