// The order of a skeleton's nodes.
ghost use Rattle.std.specs.Prelude.{◌≡◌, ◌↔◌, [], ◌∷◌, ◌++◌, true, false, IsTrue, IfOk, OnOk, OnErr};
ghost use Rattle.cp_model.specs.declared.node.Node.{Node as PlainNode};
ghost use Rattle.cp_model.specs.Skeleton.{IsNodeOf, Before, IsOrderPair};
ghost use Rattle.cp_order.specs.Closed.{IsTransitive};
ghost use Rattle.cp_skel.specs.Ordered.{ordered_by, ChangesOrderOnly};
ghost use Rattle.cp_skel.specs.Sound.{IsSound};

use crate::skeleton::{Node, OrderPair, Skeleton};
use cp_order::reaches;
use std::alloc::{AllocError, Global};

impl Skeleton {
    /// The skeleton with these pairs in place of its own. It must be sound with them. If its order was closed, so is
    /// the new one.
    pub fn with_pairs(
        mut self,
        alloc: Global,
        pairs: Vec<OrderPair>,
    ) -> Result<Skeleton, AllocError>
        requires { IsSound (ordered_by self pairs.items) }
        ensures { IfOk result (λ k. k ≡ record self { pairs = pairs.items }) }
    {
        let order = self.order.with_pairs(alloc, pairs)?;
        self.order = order;
        Ok(self)
    }

    /// Whether n is before m in the skeleton's order. Both nodes must exist.
    ///
    /// After `order_close` the answer is looked up, also in what the calls of this crate, normalising and collapsing
    /// then make of the skeleton.
    pub fn before(&self, n: Node, m: Node) -> bool
        requires first { IsNodeOf self.now.strands n }
        requires second { IsNodeOf self.now.strands m }
        ensures exact { IsTrue result ↔ Before self.now n m }
    {
        n != m && self.order.reaches(n, m)
    }

    /// Closes the order: the same nodes are before each other, and this is then looked up. On an error nothing has
    /// changed.
    pub fn order_close(&mut self, alloc: Global) -> Result<(), AllocError>
        ensures rest { OnOk result (ChangesOrderOnly self.old self.new) }
        ensures before { OnOk result ((x y : PlainNode) → Before self.new x y ↔ Before self.old x y) }
        ensures closed { OnOk result (IsTransitive self.new.pairs) }
        ensures unchanged { OnErr result (self.new ≡ self.old) }
    {
        self.order.close(alloc)
    }

    /// Puts n, a transmission, before m, a reception of another strand, and returns `true`. If m is before n, so that
    /// the pair would close a cycle, it changes nothing and returns `false`. On an error nothing has changed.
    pub fn add_order(&mut self, alloc: Global, n: Node, m: Node) -> Result<bool, AllocError>
        requires pair { IsOrderPair self.old (record { earlier = n; later = m }) }
        ensures refused { IfOk result (λ added. (added ≡ false) ↔ Before self.old m n) }
        ensures same { IfOk result (λ added. added ≡ false → self.new ≡ self.old) }
        ensures rest { IfOk result (λ added. added ≡ true → ChangesOrderOnly self.old self.new) }
        ensures pairs { IfOk result (λ added. added ≡ true → self.new.pairs ≡ self.old.pairs ++ record { earlier = n; later = m } ∷ []) }
        ensures before { IfOk result (λ added. added ≡ true → (x y : PlainNode)
            → Before self.new x y ↔ Before (ordered_by self.old (record { earlier = n; later = m } ∷ self.old.pairs)) x y) }
        ensures unchanged { OnErr result (self.new ≡ self.old) }
    {
        let leads_back = reaches(alloc, self.order.pairs(), m, n)?;
        if leads_back {
            return Ok(false);
        }
        let (earlier, later) = (n, m);
        self.order.add(alloc, OrderPair { earlier, later })?;
        Ok(true)
    }
}
