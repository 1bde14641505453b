// A test of a skeleton, with what is known of its node.
ghost use Rattle.std.specs.Prelude.{◌≡◌, ◌↔◌, List, Some, IsNone, IfSome, IfOk};
ghost use Rattle.cp_model.specs.Derivable.{DerivableAt};
ghost use Rattle.cp_model.specs.Skeleton.{term_event_at};
ghost use Rattle.cp_model.specs.Term.{Term as Plain};
ghost use Rattle.cp_model.specs.declared.step.Step.{Step as PlainStep};
ghost use Rattle.cp_model.specs.declared.strand.Event.TheVariants.{Receive as recv};
ghost use Rattle.cp_skel.specs.Tables.{DiffersInTable};
ghost use Rattle.cp_theory.specs.Critical.{IsTest};
ghost use Rattle.cp_derive.specs.Components.{IsFirstUnderivable};
ghost use Rattle.cp_derive.specs.Unrealised.{IsRealisedAt};

use crate::at_node::AtNode;
use crate::walk::critical_in;
use cp_skel::{Event, ListedSkeleton, Node, Skeleton, Test};
use cp_term::Term;
use std::alloc::{AllocError, Global};
use std::marker::Model;

/// A test of a skeleton: a node, with what is known of it, that receives a message with the critical term, a component that is not
/// derivable there.
pub struct AtTest<'a> {
    at: AtNode<'a>,
    critical: Term,
}

// A holder drops it by one call, which leaves less to prove of the holder.
impl<'a> Drop for AtTest<'a> {
    fn drop(self) {
        let AtTest { at, critical } = self;
    }
}

impl<'a> Model for AtTest<'a> {
    ghost use Rattle.cp_theory.specs.Critical.{IsTest};
    ghost use Rattle.cp_derive.specs.AtTest.{SkeletonTest, coded_skeleton_test};

    ghost Value = { SkeletonTest };

    ghost coded = { coded_skeleton_test };

    ghost view = { λ t. record { skeleton = t.at.skeleton; node = t.at.node; critical = t.critical } };

    ghost invariant = { λ t. IsTest t.at.skeleton t.at.node t.critical };
}

impl<'a> AtTest<'a> {
    /// Gathers what is known at a test. The node and the term must be a test of the skeleton.
    pub fn new(
        alloc: Global,
        k: &'a Skeleton,
        node: Node,
        critical: &Term,
    ) -> Result<AtTest<'a>, AllocError>
        requires test { IsTest k.now node critical.now }
        ensures { IfOk result (λ t. t ≡ record { skeleton = k.now; node = node; critical = critical.now }) }
    {
        let at = AtNode::new(alloc, k, node)?;
        let critical = critical.copy()?;
        Ok(AtTest { at, critical })
    }

    /// The test's node, with what is known of it.
    pub fn at(&self) -> &AtNode<'a>
        ensures { result.now ≡ record { skeleton = self.now.skeleton; node = self.now.node } }
    {
        &self.at
    }

    /// The critical term.
    pub fn critical(&self) -> &Term
        ensures { result.now ≡ self.now.critical }
    {
        &self.critical
    }

    /// The node and the term are a test of the skeleton.
    pub fn is_test(&self)
        ensures { IsTest self.now.skeleton self.now.node self.now.critical }
    {
        let critical = &self.critical;
    }

    /// The same test of a skeleton that differs from this one in its table of variables alone.
    pub fn in_table(self, k: &'a Skeleton) -> AtTest<'a>
        requires table { DiffersInTable self.skeleton k.now }
        ensures { result ≡ record { skeleton = k.now; node = self.entry.node; critical = self.entry.critical } }
    {
        let AtTest { at, critical } = self;
        let at = at.in_table(k);
        AtTest { at, critical }
    }

    /// The test, without what is known of its node.
    pub fn into_test(self) -> Test
        ensures { result ≡ record { node = self.entry.node; critical = self.entry.critical } }
    {
        let AtTest { at, critical } = self;
        let node = at.node();
        Test { node, critical }
    }
}

/// The test at a node: its term is the first component, from left to right, of the message received there that is not derivable.
/// `None` exactly if the node is realised: there is no such node, it is no reception, or its message is derivable.
pub fn test_at<'a>(
    alloc: Global,
    k: &'a ListedSkeleton<'a>,
    node: Node,
) -> Result<Option<AtTest<'a>>, AllocError>
    ensures none { IfOk result (λ t. IsNone t ↔ IsRealisedAt k.now node) }
    ensures there { IfOk result (λ t. IfSome t (λ t. (t.skeleton ≡ k.now) × (t.node ≡ node))) }
    ensures first { IfOk result (λ t. IfSome t (λ t. (m : Plain) → term_event_at k.now.strands node ≡ Some (recv m) → (path : List PlainStep) × IsFirstUnderivable (DerivableAt k.now node) m path t.critical)) }
{
    let Some(strand) = k.skeleton().strands().get(node.strand) else {
        return Ok(None);
    };
    let Some(Event::Receive(message)) = strand.event(alloc, node.index)? else {
        return Ok(None);
    };
    let at = AtNode::of(alloc, k.lent(), node)?;
    let Some(critical) = critical_in(alloc, at.known(), &message)? else {
        return Ok(None);
    };
    let critical = critical.term;
    Ok(Some(AtTest { at, critical }))
}
