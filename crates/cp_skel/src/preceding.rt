// A node of a skeleton, with what precedes it.
ghost use Rattle.std.specs.Prelude.{◌≡◌, ◌↔◌, IsTrue, IfOk};
ghost use Rattle.cp_model.specs.Skeleton.{IsNodeOf, Before};
ghost use Rattle.cp_skel.specs.Tables.{DiffersInTable};

use crate::skeleton::{Node, Skeleton};
use cp_order::Predecessors;
use std::alloc::{AllocError, Global};
use std::marker::Model;

/// A node of a skeleton, with the nodes that precede it, gathered once.
#[derive(Drop)]
pub struct Preceding<'a> {
    skeleton: &'a Skeleton,
    node: Node,
    leading: Predecessors<'a>,
}

impl<'a> Model for Preceding<'a> {
    ghost use Rattle.cp_skel.specs.Preceding.{SkeletonNode, coded_skeleton_node, ArePredecessors};

    ghost Value = { SkeletonNode };

    ghost coded = { coded_skeleton_node };

    ghost view = { λ p. record { skeleton = p.skeleton.now; node = p.node } };

    ghost invariant = { λ p. ArePredecessors p.skeleton.now p.node p.leading };
}

impl<'a> Preceding<'a> {
    /// Gathers what precedes a node. The node must exist.
    pub fn of(
        alloc: Global,
        skeleton: &'a Skeleton,
        node: Node,
    ) -> Result<Preceding<'a>, AllocError>
        requires there { IsNodeOf skeleton.now.strands node }
        ensures { IfOk result (λ p. p ≡ record { skeleton = skeleton.now; node = node }) }
    {
        let leading = Predecessors::new(alloc, skeleton.order().pairs(), node)?;
        Ok(Preceding {
            skeleton,
            node,
            leading,
        })
    }

    /// The node.
    pub fn node(&self) -> Node
        ensures { result ≡ self.now.node }
    {
        self.node
    }

    /// Whether another node is before this one in the skeleton's order.
    pub fn has(&self, other: Node) -> bool
        ensures { IsTrue result ↔ Before self.now.skeleton other self.now.node }
    {
        self.skeleton.is_sound();
        other != self.node && self.leading.has(other)
    }

    /// The skeleton.
    pub fn skeleton(&self) -> &'a Skeleton
        ensures { result.now ≡ self.now.skeleton }
    {
        self.skeleton
    }

    /// The same node of a skeleton that differs from this one in its table of variables alone.
    pub fn in_table(self, k: &'a Skeleton) -> Preceding<'a>
        requires table { DiffersInTable self.skeleton k.now }
        ensures { result ≡ record { skeleton = k.now; node = self.entry.node } }
    {
        let Preceding {
            skeleton: _,
            node,
            leading,
        } = self;
        Preceding {
            skeleton: k,
            node,
            leading,
        }
    }
}
