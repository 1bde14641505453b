// Children with an added strand: its last event is put before the node and releases the critical term.
ghost use Rattle.std.specs.Prelude.{◌<◌, length, IfOk};
ghost use Rattle.cp_model.specs.Problem.{numbers_from};
ghost use Rattle.cp_cohort.specs.Cohort.{AddsEvent, StartsEvent, AreFirstAdded};
ghost use Rattle.cp_cohort.specs.GatheredLists.{EachGives, StartsGiving};
ghost use Rattle.cp_cohort.specs.Widening.{PutsUntil};

use crate::child::{Child, Made};
use crate::grown_skeletons::with_strand;
use crate::guarded_test::GuardedTest;
use crate::releases::release;
use crate::transmissions::may_send;
use crate::widening::{GivesPatterns, Widening};
use cp_skel::{Node, Protocol, Role};
use std::alloc::{AllocError, Global};
use std::rc::Rc;

/// Appends the children for a new strand that ends with this event of the role, until one of them gives a pattern.
fn add_event<S: GivesPatterns>(
    alloc: Global,
    guarded_test: &GuardedTest,
    role: &Rc<Role>,
    index: usize,
    source: &S,
    children: &mut Vec<Child>,
) -> Result<Option<Widening>, AllocError>
    requires reached { index < length role.now.value.trace }
    ensures { IfOk result (PutsUntil (S.gives source.now) (AddsEvent guarded_test.now role.now.value index) (StartsEvent guarded_test.now role.now.value index) children.old.items children.new.items) }
{
    if !may_send(role, index, guarded_test.critical) {
        return Ok(None);
    }
    guarded_test.is_test();
    let strand = guarded_test.skeleton.strands().len();
    let node = Node { strand, index };
    let height = index + 1;
    let grown = with_strand(alloc, guarded_test, role, height)?;
    release(
        alloc,
        guarded_test,
        grown,
        node,
        Made::AddedStrand(strand),
        source,
        children,
    )
}

/// Appends the children for a new strand of the role, event by event, until one of them gives a pattern.
fn add_role<S: GivesPatterns>(
    alloc: Global,
    guarded_test: &GuardedTest,
    role: &Rc<Role>,
    source: &S,
    children: &mut Vec<Child>,
) -> Result<Option<Widening>, AllocError>
    ensures { IfOk result (PutsUntil (S.gives source.now) (EachGives (AddsEvent guarded_test.now role.now.value) (numbers_from 0 role.now.value.trace))
        (StartsGiving (AddsEvent guarded_test.now role.now.value) (StartsEvent guarded_test.now role.now.value) (numbers_from 0 role.now.value.trace)) children.old.items children.new.items) }
{
    let events = role.trace();
    for index in 0..events.len() {
        if let Some(widening) = add_event(alloc, guarded_test, role, index, source, children)? {
            return Ok(Some(widening));
        }
    }
    Ok(None)
}

/// Appends all children with an added strand, until one of them gives a pattern.
pub(crate) fn add<S: GivesPatterns>(
    alloc: Global,
    protocol: &Protocol,
    guarded_test: &GuardedTest,
    source: &S,
    children: &mut Vec<Child>,
) -> Result<Option<Widening>, AllocError>
    ensures { IfOk result (PutsUntil (S.gives source.now) (EachGives (λ role. EachGives (AddsEvent guarded_test.now role) (numbers_from 0 role.trace)) protocol.now.roles)
        (AreFirstAdded protocol.now guarded_test.now) children.old.items children.new.items) }
{
    let all = protocol.roles();
    for role in all {
        if let Some(widening) = add_role(alloc, guarded_test, role, source, children)? {
            return Ok(Some(widening));
        }
    }
    Ok(None)
}
