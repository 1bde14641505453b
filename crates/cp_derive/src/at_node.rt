// What is derivable at a node of a skeleton.
ghost use Rattle.std.specs.Prelude.{◌≡◌, ◌↔◌, Some, option_map, IsNone, IfSome, IfOk, IsTrue};
ghost use Rattle.cp_model.specs.Derivable.{DerivableAt};
ghost use Rattle.cp_model.specs.Skeleton.{Before, IsNodeOf, term_event_at};
ghost use Rattle.cp_model.specs.Strand.{payload};
ghost use Rattle.cp_model.specs.declared.strand.Event.{Event as PlainEvent};
ghost use Rattle.cp_model.specs.Term.{Term as Plain};
ghost use Rattle.cp_model.specs.Positions.{term_at};
ghost use Rattle.cp_skel.specs.Events.{events_of};
ghost use Rattle.cp_skel.specs.Tables.{DiffersInTable};
ghost use Rattle.cp_derive.specs.Components.{IsFirstUnderivable};
ghost use Rattle.cp_derive.specs.Given.{IsDerivable};

use crate::assumed::assumed_values;
use crate::before::sent_before;
use crate::component::Critical;
use crate::knowledge::Known;
use crate::walk::critical_in;
use cp_skel::{ListedSkeleton, LocatedEvent, Node, Preceding, Skeleton};
use cp_term::Term;
use std::alloc::{AllocError, Global};
use std::marker::Model;

/// A node of a skeleton, with what is asked of a skeleton there again and again: its events, what precedes the node, and what is
/// known at it.
#[derive(Drop)]
pub struct AtNode<'a> {
    preceding: Preceding<'a>,
    listed: ListedSkeleton<'a>,
    known: Known,
}

impl<'a> Model for AtNode<'a> {
    ghost use Rattle.cp_skel.specs.Preceding.{SkeletonNode, coded_skeleton_node};
    ghost use Rattle.cp_derive.specs.AtNode.{IsAtNode};

    ghost Value = { SkeletonNode };

    ghost coded = { coded_skeleton_node };

    ghost view = { λ a. a.preceding };

    ghost invariant = { λ a. IsAtNode a.preceding a.listed a.known };
}

impl<'a> AtNode<'a> {
    /// Lists the events of a skeleton, and gathers what is known of a node. The node must exist.
    pub(crate) fn new(alloc: Global, k: &'a Skeleton, node: Node) -> Result<AtNode<'a>, AllocError>
        requires there { IsNodeOf k.now.strands node }
        ensures { IfOk result (λ at. at ≡ record { skeleton = k.now; node = node }) }
    {
        let listed = ListedSkeleton::of(alloc, k)?;
        AtNode::of(alloc, listed, node)
    }

    /// Gathers what is known of a node. The node must exist.
    pub(crate) fn of(
        alloc: Global,
        listed: ListedSkeleton<'a>,
        node: Node,
    ) -> Result<AtNode<'a>, AllocError>
        requires there { IsNodeOf listed.strands node }
        ensures { IfOk result (λ at. at ≡ record { skeleton = listed.entry; node = node }) }
    {
        let k = listed.skeleton();
        let preceding = Preceding::of(alloc, k, node)?;
        let sent = sent_before(alloc, listed.events(), &preceding)?;
        let secrets = assumed_values(alloc, k.assumptions())?;
        let known = Known::new(alloc, sent, secrets)?;
        Ok(AtNode {
            preceding,
            listed,
            known,
        })
    }

    /// The skeleton.
    pub fn skeleton(&self) -> &'a Skeleton
        ensures { result.now ≡ self.now.skeleton }
    {
        self.preceding.skeleton()
    }

    /// The node.
    pub fn node(&self) -> Node
        ensures { result ≡ self.now.node }
    {
        self.preceding.node()
    }

    /// The events of the skeleton, each with its node, by strand and then by index.
    pub fn events(&self) -> &[LocatedEvent<'a>]
        ensures { result.now ≡ events_of self.now.skeleton }
    {
        self.listed.events()
    }

    /// Whether another node is before this one in the skeleton's order.
    pub fn has_before(&self, other: Node) -> bool
        ensures { IsTrue result ↔ Before self.now.skeleton other self.now.node }
    {
        self.preceding.has(other)
    }

    /// What is known at the node: what is derivable from it is what is derivable there.
    pub fn known(&self) -> &Known
        ensures { (t : Plain) → IsDerivable result.now t ↔ DerivableAt self.now.skeleton self.now.node t }
    {
        &self.known
    }

    /// The critical term at the node, as [`critical`] tells it.
    pub fn critical(&self, alloc: Global) -> Result<Option<Critical>, AllocError>
        ensures none { IfOk result (λ found. (e : PlainEvent Plain) → term_event_at self.now.skeleton.strands self.now.node ≡ Some e → IsNone found ↔ DerivableAt self.now.skeleton self.now.node (payload e)) }
        ensures first { IfOk result (λ found. IfSome found (λ c. (e : PlainEvent Plain) → term_event_at self.now.skeleton.strands self.now.node ≡ Some e → IsFirstUnderivable (DerivableAt self.now.skeleton self.now.node) (payload e) c.path c.term)) }
        ensures place { IfOk result (λ found. IfSome found (λ c. (e : PlainEvent Plain) → term_event_at self.now.skeleton.strands self.now.node ≡ Some e → term_at (payload e) c.path ≡ Some c.term)) }
    {
        match message_at(alloc, self.skeleton(), self.node())? {
            Some(message) => critical_in(alloc, &self.known, &message),
            None => Ok(None),
        }
    }

    /// The same node of a skeleton that differs from this one in its table of variables alone.
    pub(crate) fn in_table(self, k: &'a Skeleton) -> AtNode<'a>
        requires table { DiffersInTable self.skeleton k.now }
        ensures { result ≡ record { skeleton = k.now; node = self.entry.node } }
    {
        let AtNode {
            preceding,
            listed,
            known,
        } = self;
        let preceding = preceding.in_table(k);
        let listed = listed.in_table(k);
        AtNode {
            preceding,
            listed,
            known,
        }
    }
}

/// What is derivable at a node: from everything that role strands send strictly before it, all tags, and all atoms that no
/// assumption names. The node must exist.
pub fn known(alloc: Global, k: &Skeleton, node: Node) -> Result<Known, AllocError>
    requires there { IsNodeOf k.now.strands node }
    ensures given { IfOk result (λ known. (t : Plain) → IsDerivable known t ↔ DerivableAt k.now node t) }
{
    let AtNode {
        preceding: _,
        listed: _,
        known,
    } = AtNode::new(alloc, k, node)?;
    Ok(known)
}

/// The message of the event at a node, if there is one.
pub fn message_at(alloc: Global, k: &Skeleton, node: Node) -> Result<Option<Term>, AllocError>
    ensures { IfOk result (λ m. m ≡ option_map payload (term_event_at k.now.strands node)) }
{
    match k.strands().get(node.strand) {
        Some(strand) => match strand.event(alloc, node.index)? {
            Some(event) => event.payload().copy().map(Some),
            None => Ok(None),
        },
        None => Ok(None),
    }
}

/// The critical term at a node: the first component, from left to right, of the node's message that is not derivable there, with
/// its path. `None` exactly if the message is derivable. The node must exist.
pub fn critical(alloc: Global, k: &Skeleton, node: Node) -> Result<Option<Critical>, AllocError>
    requires there { IsNodeOf k.now.strands node }
    ensures none { IfOk result (λ found. (e : PlainEvent Plain) → term_event_at k.now.strands node ≡ Some e → IsNone found ↔ DerivableAt k.now node (payload e)) }
    ensures first { IfOk result (λ found. IfSome found (λ c. (e : PlainEvent Plain) → term_event_at k.now.strands node ≡ Some e → IsFirstUnderivable (DerivableAt k.now node) (payload e) c.path c.term)) }
    ensures place { IfOk result (λ found. IfSome found (λ c. (e : PlainEvent Plain) → term_event_at k.now.strands node ≡ Some e → term_at (payload e) c.path ≡ Some c.term)) }
{
    let at = AtNode::new(alloc, k, node)?;
    at.critical(alloc)
}
