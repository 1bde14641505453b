// The derivation tree of a problem.
ghost use Rattle.std.specs.Prelude.{◌≡◌, ◌↔◌, ℕ, Some, IfOk};
ghost use Rattle.cp_lists.specs.Lists.{item_at};
ghost use Rattle.cp_model.specs.Bundle.{Bundle, IsBundle};
ghost use Rattle.cp_model.specs.Standing.{Standing, StandsIn, StandsApart};
ghost use Rattle.cp_model.specs.PointOfView.{IsPointOfView};
ghost use Rattle.cp_model.specs.Tree.{Label, ReachedSteps, ReachedStrands, IsTrueOf};
ghost use Rattle.cp_model.specs.declared.tree.Mark.TheVariants.{Dead as dead};
ghost use Rattle.cp_model.specs.declared.tree.Outcome.TheVariants.{LimitSteps as at_step_limit, LimitStrands as at_strand_limit};
ghost use Rattle.cp_theory.specs.Lawful.{IsLawful};
ghost use Rattle.cp_roots.specs.Over.{IsOver};
ghost use Rattle.cp_tree.specs.Searched.{IsTreeOf};
ghost use Rattle.cp_tree.specs.Edges.{edges};
ghost use Rattle.cp_tree.specs.LabelVariables.{DeclaresItsOwn};

use crate::label_search::search_from;
use crate::resolved_tree::tree_of;
use cp_roots::{roots, roots_have_declared_variables};
use cp_skel::{Limits, Protocol, Skeleton, Tree};
use cp_tree::{
    limits_are_exact, search_trees_are_lawful, search_trees_are_true,
    search_trees_declare_their_variables,
};
use std::alloc::{AllocError, Global};

/// Searches a problem: returns its derivation tree. The first labels are the problem's roots, in order. Labels are resolved in
/// ascending order, and the children of each resolved label are appended after all labels made so far. The rules for a label, by
/// the first that applies:
///
/// - the problem itself is dead if it has no normal form;
/// - a label is seen in the first earlier label that is isomorphic to it, is not its parent, and from which its parent cannot be
///   reached along the labels made before it;
/// - a label whose receptions are all derivable generalises to its one child if a step of generalising applies to it. Otherwise
///   it is its own generalisation: a shape, or, if another such label embeds in it, an instance of the first shape that does;
/// - an unrealised label with more strands than the bound, listeners included, is at the strand limit;
/// - any other label is expanded if fewer labels than the step limit were expanded, and is at the step limit otherwise. Its
///   children are those of its test, under the widened escape set of that test. Without children it is dead.
///
/// The outcome is the step limit if some label is at it; otherwise the strand limit if some label is at that; otherwise complete.
/// If it is complete, each standing of the problem in a bundle factors through a shape; at a limit, through a shape or a label at
/// the limit. Each of the two limits is the outcome exactly if it was reached.
///
/// The tree is lawful: its edges form no cycle, and each label that is neither a shape nor at a limit passes the problem's
/// standings on to the labels to which its edges lead. A dead label stands apart in no bundle.
///
/// The problem's strands must have roles of the protocol, and the problem must be a point-of-view skeleton: it maps to itself, it
/// declares the variables that occur in it, its assumptions are those that it states and those that its strands' roles give, and
/// the pairs that it states generate its order.
pub fn search(
    alloc: Global,
    protocol: &Protocol,
    problem: &Skeleton,
    limits: Limits,
) -> Result<Tree, AllocError>
    requires over { IsOver protocol.now problem.now }
    requires own { IsPointOfView problem.now.variables problem.now }
    ensures true_tree { IfOk result (λ t. IsTrueOf protocol.now problem.now limits t) }
    ensures exact { IfOk result (λ t. IsTreeOf protocol.now problem.now problem.now.variables limits t) }
    ensures variables { IfOk result (λ t. (i : ℕ) (l : Label) → item_at t.labels i ≡ Some l → DeclaresItsOwn problem.now.variables l) }
    ensures lawful { IfOk result (λ t. IsLawful protocol.now problem.now t.labels (edges t.labels)) }
    ensures dead_nowhere { IfOk result (λ t. (i : ℕ) (l : Label) → item_at t.labels i ≡ Some l → l.mark ≡ Some dead → (b : Bundle) (h : Standing) → IsBundle protocol.now b → StandsIn l.skeleton b h → StandsApart l.skeleton h → ⊥) }
    ensures limits { IfOk result (λ t. ((t.outcome ≡ at_step_limit) ↔ ReachedSteps limits t) × ((t.outcome ≡ at_strand_limit) ↔ ReachedStrands limits t)) }
{
    roots_have_declared_variables();
    search_trees_are_true();
    search_trees_are_lawful();
    limits_are_exact();
    search_trees_declare_their_variables();
    problem.is_sound();
    protocol.is_sound();
    let roots = roots(alloc, protocol, problem)?;
    let search = search_from(alloc, protocol, limits, roots)?;
    tree_of(alloc, search)
}
