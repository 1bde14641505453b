// The law of marks. It is the contract of a function that does nothing.
ghost use Rattle.std.specs.Prelude.{◌≡◌, ◌⊎◌, ◌<◌, ◌≤◌, ℕ, List, [], length, map, Some, None};
ghost use Rattle.cp_lists.specs.Lists.{item_at};
ghost use Rattle.cp_model.specs.Strand.{Protocol};
ghost use Rattle.cp_model.specs.declared.variable.Declaration.{Declaration};
ghost use Rattle.cp_model.specs.Derivable.{IsUnrealised};
ghost use Rattle.cp_model.specs.Homomorphism.{Embeds};
ghost use Rattle.cp_model.specs.Tree.{Label, Tree, expanded_count};
ghost use Rattle.cp_model.specs.declared.tree.Mark.TheVariants.{Shape as shape, Dead as dead, Seen as seen, InstanceOf as instance_of, LimitSteps as limit_steps, LimitStrands as limit_strands};
ghost use Rattle.cp_model.specs.declared.tree.Limits.{Limits};
ghost use Rattle.cp_shapes.specs.Shapes.{IsLeast};
ghost use Rattle.cp_roots.specs.declared.root.Root.{Root};
ghost use Rattle.cp_tree.specs.Made.{link_of, MayPointTo};
ghost use Rattle.cp_tree.specs.Searched.{IsTreeFrom};
ghost use Rattle.cp_tree.specs.Edges.{IsLeafLabel};
ghost use Rattle.cp_tree.specs.Marked.{IsShapeAmong, IsDeadRoot, IsSeenInLeast, IsGeneralised};

/// Each mark has its cause:
///
/// - a shape is realised, its own generalisation, a leaf, and an instance of no other candidate;
/// - a dead label has no child, and was expanded, or is a root that is dead from the start;
/// - a label is seen only in the least label to which it may point, and is then a leaf; each label that may point to some label
///   is seen, unless it is a root that is dead from the start;
/// - a label is an instance only of a shape that embeds in it;
/// - a label at the strand limit is unrealised, and has more strands than the bound;
/// - a label at the step limit is unrealised and within the strand bound, and as many labels were expanded as the step limit
///   says;
/// - a label that has no mark and was not expanded is realised, and its one child is its generalisation.
pub fn marks_have_causes()
    ensures shape { (protocol : Protocol) (variables : List Declaration) (limits : Limits) (roots : List Root) (tree : Tree) → IsTreeFrom protocol variables limits roots tree
        → (i : ℕ) (l : Label) → item_at tree.labels i ≡ Some l → l.mark ≡ Some shape → IsShapeAmong tree.labels i l }
    ensures dead { (protocol : Protocol) (variables : List Declaration) (limits : Limits) (roots : List Root) (tree : Tree) → IsTreeFrom protocol variables limits roots tree
        → (i : ℕ) (l : Label) → item_at tree.labels i ≡ Some l → l.mark ≡ Some dead → (l.children ≡ []) × ((l.test ≡ None → ⊥) ⊎ IsDeadRoot roots i) }
    ensures seen { (protocol : Protocol) (variables : List Declaration) (limits : Limits) (roots : List Root) (tree : Tree) → IsTreeFrom protocol variables limits roots tree
        → (i n : ℕ) (l : Label) → item_at tree.labels i ≡ Some l → l.mark ≡ Some (seen n) → IsLeast (MayPointTo (map link_of tree.labels) i) n × IsLeafLabel l }
    ensures seen_where_it_may { (protocol : Protocol) (variables : List Declaration) (limits : Limits) (roots : List Root) (tree : Tree) → IsTreeFrom protocol variables limits roots tree
        → (i n : ℕ) (l : Label) → item_at tree.labels i ≡ Some l → MayPointTo (map link_of tree.labels) i n → IsSeenInLeast tree.labels i l ⊎ ((l.mark ≡ Some dead) × IsDeadRoot roots i) }
    ensures instance { (protocol : Protocol) (variables : List Declaration) (limits : Limits) (roots : List Root) (tree : Tree) → IsTreeFrom protocol variables limits roots tree
        → (i n : ℕ) (l : Label) → item_at tree.labels i ≡ Some l → l.mark ≡ Some (instance_of n) → (m : Label) × (item_at tree.labels n ≡ Some m) × (m.mark ≡ Some shape) × Embeds m.skeleton l.skeleton }
    ensures limit_strands { (protocol : Protocol) (variables : List Declaration) (limits : Limits) (roots : List Root) (tree : Tree) → IsTreeFrom protocol variables limits roots tree
        → (i : ℕ) (l : Label) → item_at tree.labels i ≡ Some l → l.mark ≡ Some limit_strands → IsUnrealised l.skeleton × (limits.strands < length l.skeleton.strands) × IsLeafLabel l }
    ensures limit_steps { (protocol : Protocol) (variables : List Declaration) (limits : Limits) (roots : List Root) (tree : Tree) → IsTreeFrom protocol variables limits roots tree
        → (i : ℕ) (l : Label) → item_at tree.labels i ≡ Some l → l.mark ≡ Some limit_steps → IsUnrealised l.skeleton × (length l.skeleton.strands ≤ limits.strands) × (expanded_count tree.labels ≡ limits.steps) × IsLeafLabel l }
    ensures generalised { (protocol : Protocol) (variables : List Declaration) (limits : Limits) (roots : List Root) (tree : Tree) → IsTreeFrom protocol variables limits roots tree
        → (i : ℕ) (l : Label) → item_at tree.labels i ≡ Some l → l.mark ≡ None → l.test ≡ None → IsGeneralised tree.labels l }
{}
