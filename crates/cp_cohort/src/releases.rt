// Children in which an event of a strand releases the critical term.
ghost use Rattle.std.specs.Prelude.{◌≡◌, Some, IfOk, OnOk};
ghost use Rattle.cp_model.specs.Strand.{payload};
ghost use Rattle.cp_model.specs.declared.strand.Event.{Event as PlainEvent};
ghost use Rattle.cp_model.specs.Skeleton.{IsNodeOf, IsOrderPair, term_event_at};
ghost use Rattle.cp_model.specs.Term.{Term as Plain};
ghost use Rattle.cp_pattern.specs.Candidates.{may_equal};
ghost use Rattle.cp_model.specs.Positions.{positions_where};
ghost use Rattle.cp_cohort.specs.Children.{IsPosition, ReleasesPut, ReleasesEach, StartsReleasing};
ghost use Rattle.cp_cohort.specs.GatheredLists.{EachGives, StartsGiving};
ghost use Rattle.cp_cohort.specs.Views.{operation_of_made, PutsChildren};
ghost use Rattle.cp_cohort.specs.Widening.{PutsUntil};

use crate::child::{Child, Made, put_children};
use crate::guarded_test::GuardedTest;
use crate::widening::{GivesPatterns, Widening, first_widening};
use crate::{PartialSolution, Release, solve};
use cp_normal::under;
use cp_pattern::{positions_for, unifier};
use cp_skel::{Node, Skeleton};
use cp_term::{Path, Term, at};
use std::alloc::{AllocError, Global};

/// The message at a node that exists.
fn message_at(alloc: Global, k: &Skeleton, node: Node) -> Result<Term, AllocError>
    requires { IsNodeOf k.now.strands node }
    ensures { IfOk result (λ t. (e : PlainEvent Plain) → term_event_at k.now.strands node ≡ Some e → t ≡ payload e) }
{
    let Some(strand) = k.strands().get(node.strand) else {
        unreachable!();
    };
    let Some(event) = strand.event(alloc, node.index)? else {
        unreachable!();
    };
    event.payload().copy()
}

/// Appends the children for one position of the message sent at a node, which has already been put before the test's node.
fn release_at(
    alloc: Global,
    guarded_test: &GuardedTest,
    put: &Skeleton,
    node: Node,
    message: &Term,
    path: &Path,
    made: Made,
    children: &mut Vec<Child>,
) -> Result<(), AllocError>
    requires { IsPosition message.now path.now }
    ensures { OnOk result (PutsChildren (ReleasesPut guarded_test.now (operation_of_made made) node put.now message.now path.now) children.old.items children.new.items) }
{
    put.is_sound();
    let Some(term) = at(message, path) else {
        unreachable!();
    };
    let Some(substitution) = unifier(alloc, term, guarded_test.critical)? else {
        return Ok(());
    };
    let skeleton = under(alloc, put, &substitution)?;
    let release = Release {
        patterns: guarded_test.patterns,
        critical: guarded_test.critical,
        node,
        path,
    };
    let tried = PartialSolution {
        skeleton,
        substitution,
    };
    let settled = solve(alloc, &release, tried)?;
    put_children(settled, made, path, children)
}

/// Appends the children for each position of the message sent at a node at which the critical term may stand, until one of them
/// gives a pattern. The node has already been put before the test's node.
fn release_each<S: GivesPatterns>(
    alloc: Global,
    guarded_test: &GuardedTest,
    put: &Skeleton,
    node: Node,
    message: &Term,
    made: Made,
    source: &S,
    children: &mut Vec<Child>,
) -> Result<Option<Widening>, AllocError>
    ensures { IfOk result (PutsUntil (S.gives source.now)
        (EachGives (ReleasesPut guarded_test.now (operation_of_made made) node put.now message.now) (positions_where (may_equal guarded_test.now.critical) message.now))
        (StartsGiving (ReleasesPut guarded_test.now (operation_of_made made) node put.now message.now) (ReleasesPut guarded_test.now (operation_of_made made) node put.now message.now) (positions_where (may_equal guarded_test.now.critical) message.now))
        children.old.items children.new.items) }
{
    let paths = positions_for(alloc, message, guarded_test.critical)?;
    for path in &paths {
        let before = children.len();
        release_at(
            alloc,
            guarded_test,
            put,
            node,
            message,
            path,
            made,
            children,
        )?;
        if let Some(widening) = first_widening(alloc, source, children, before)? {
            return Ok(Some(widening));
        }
    }
    Ok(None)
}

/// Puts a node of the grown skeleton before the test's node and appends the children for the positions of its message, until one
/// of them gives a pattern. Appends none if that order closes a cycle.
fn release_before<S: GivesPatterns>(
    alloc: Global,
    guarded_test: &GuardedTest,
    grown: &mut Skeleton,
    node: Node,
    made: Made,
    source: &S,
    children: &mut Vec<Child>,
) -> Result<Option<Widening>, AllocError>
    requires { IsOrderPair grown.old (record { earlier = node; later = guarded_test.now.node }) }
    ensures { IfOk result (PutsUntil (S.gives source.now) (ReleasesEach guarded_test.now (operation_of_made made) node grown.old)
        (StartsReleasing guarded_test.now (operation_of_made made) node grown.old) children.old.items children.new.items) }
{
    if !grown.add_order(alloc, node, guarded_test.node)? {
        return Ok(None);
    }
    let message = message_at(alloc, grown, node)?;
    release_each(
        alloc,
        guarded_test,
        grown,
        node,
        &message,
        made,
        source,
        children,
    )
}

/// Appends the children for the positions of the message sent at a node of the grown skeleton, until one of them gives a pattern.
pub(crate) fn release<S: GivesPatterns>(
    alloc: Global,
    guarded_test: &GuardedTest,
    grown: Skeleton,
    node: Node,
    made: Made,
    source: &S,
    children: &mut Vec<Child>,
) -> Result<Option<Widening>, AllocError>
    requires { IsOrderPair grown (record { earlier = node; later = guarded_test.now.node }) }
    ensures { IfOk result (PutsUntil (S.gives source.now) (ReleasesEach guarded_test.now (operation_of_made made) node grown)
        (StartsReleasing guarded_test.now (operation_of_made made) node grown) children.old.items children.new.items) }
{
    let mut put = grown;
    release_before(alloc, guarded_test, &mut put, node, made, source, children)
}
