// Orders of nodes, given by pairs of nodes in addition to the order of each strand.
ghost use Rattle.std.specs.Prelude.{◌≡◌, ◌↔◌, ◌∷◌, ◌++◌, [], IsTrue, IfOk, OnOk, OnErr, IfSome};
ghost use Rattle.cp_model.specs.declared.node.Node.{Node as PlainNode};
ghost use Rattle.cp_model.specs.Order.{ReachesAlong};
ghost use Rattle.cp_order.specs.Closed.{IsTransitive, KeepsOrder, IsClosureOf};

use crate::closed::ClosedPairs;
use crate::paths::leads_within;
use cp_model::{Node, OrderPair, SharedList};
use std::alloc::{AllocError, Global};
use std::marker::Model;
use std::rc::Rc;

/// An order, given by pairs of nodes. Once closed, it keeps closed pairs beside its own: pairs with the same order, of
/// which a single one leads wherever its own lead, except within one strand. Copies share both.
pub struct Order {
    pairs: SharedList<OrderPair>,
    closure: Option<Rc<ClosedPairs>>,
}

// A value drops by one call of its own, wherever it is held.
impl Drop for Order {
    fn drop(self) {
        let Order { pairs, closure } = self;
    }
}

impl Model for Order {
    ghost use Rattle.std.specs.Prelude.{List};
    ghost use Rattle.cp_model.specs.declared.node.OrderPair.{OrderPair as Plain};

    ghost Value = { List Plain };

    ghost use Rattle.std.specs.Prelude.{IfSome};
    ghost use Rattle.cp_order.specs.Closed.{IsClosureOf};

    ghost view = { λ o. o.pairs };

    ghost invariant = { λ o. IfSome o.closure (λ c. IsClosureOf o.pairs c.value) };
}

impl Order {
    /// The order given by these pairs. It is not closed.
    pub fn of(pairs: Vec<OrderPair>) -> Order
        ensures { result ≡ pairs.items }
    {
        Order {
            pairs: SharedList::of(pairs),
            closure: None,
        }
    }

    /// The order given by these pairs in place of its own. If this one was closed, so is the new one.
    pub fn with_pairs(&self, alloc: Global, pairs: Vec<OrderPair>) -> Result<Order, AllocError>
        ensures { IfOk result (λ o. o ≡ pairs.items) }
    {
        let mut order = Order::of(pairs);
        if self.closure.is_some() {
            let closed = ClosedPairs::of(alloc, order.pairs())?;
            order.closure = Some(closed);
        }
        Ok(order)
    }

    /// Its pairs.
    pub fn pairs(&self) -> &[OrderPair]
        ensures { result.now ≡ self.now }
    {
        self.pairs.as_slice()
    }

    /// Whether x reaches y along strands and pairs. In an order that was closed this is looked up; otherwise it is
    /// searched for.
    pub fn reaches(&self, x: Node, y: Node) -> bool
        ensures { IsTrue result ↔ ReachesAlong self.now x y }
    {
        match &self.closure {
            Some(closed) => closed.reaches(x, y),
            None => {
                let pairs = self.pairs();
                leads_within(pairs, pairs.len(), x, y)
            }
        }
    }

    /// Closed pairs with the same order as its own.
    fn closed_pairs(&self, alloc: Global) -> Result<Rc<ClosedPairs>, AllocError>
        ensures { IfOk result (λ c. IsClosureOf self.now c.value) }
    {
        if let Some(closed) = &self.closure {
            return closed.clone();
        }
        ClosedPairs::of(alloc, self.pairs())
    }

    /// Closes the order: its pairs become closed ones. What reaches what stays the same, and is looked up from now on.
    /// On an error nothing has changed.
    pub fn close(&mut self, alloc: Global) -> Result<(), AllocError>
        ensures leads { OnOk result ((x y : PlainNode) → ReachesAlong self.new x y ↔ ReachesAlong self.old x y) }
        ensures keeps { OnOk result (KeepsOrder self.old self.new) }
        ensures closed { OnOk result (IsTransitive self.new) }
        ensures unchanged { OnErr result (self.new ≡ self.old) }
    {
        let closed = self.closed_pairs(alloc)?;
        let pairs = Vec::from_slice(alloc, closed.pairs())?;
        self.pairs = SharedList::of(pairs);
        self.closure = Some(closed);
        Ok(())
    }

    /// If the order was closed: its closed pairs together with one more pair.
    fn closure_with(
        &self,
        alloc: Global,
        pair: OrderPair,
    ) -> Result<Option<Rc<ClosedPairs>>, AllocError>
        ensures { IfOk result (λ found. IfSome found (λ c. IsClosureOf (pair ∷ self.now) c.value)) }
    {
        let Some(closed) = &self.closure else {
            return Ok(None);
        };
        closed.with_pair(alloc, pair).map(Some)
    }

    /// Adds a pair. If the order was closed, its closed pairs take the new pair into account. On an error nothing has
    /// changed.
    pub fn add(&mut self, alloc: Global, pair: OrderPair) -> Result<(), AllocError>
        ensures pairs { OnOk result (self.new ≡ self.old ++ (pair ∷ [])) }
        ensures leads { OnOk result ((x y : PlainNode) → ReachesAlong self.new x y ↔ ReachesAlong (pair ∷ self.old) x y) }
        ensures keeps { OnOk result (KeepsOrder (pair ∷ self.old) self.new) }
        ensures unchanged { OnErr result (self.new ≡ self.old) }
    {
        let closure = self.closure_with(alloc, pair)?;
        let pairs = self.pairs.joined(&[pair])?;
        self.pairs = pairs;
        self.closure = closure;
        Ok(())
    }

    /// The same order, closed if this one is.
    pub fn copy(&self, alloc: Global) -> Result<Order, AllocError>
        ensures { IfOk result (λ o. o ≡ self.now) }
    {
        let closure = match &self.closure {
            Some(closed) => Some(closed.clone()?),
            None => None,
        };
        let pairs = self.pairs.copy(alloc)?;
        Ok(Order { pairs, closure })
    }
}
