// What skeletons assume.
ghost use Rattle.std.specs.Prelude.{◌≡◌, ◌↔◌, [], IsTrue, IfOk, OnOk, OnErr};
ghost use Rattle.std.specs.Result.{IsOkAnd};
ghost use Rattle.cp_skel.specs.JoinedAssumptions.{joined_assumptions};

use cp_model::{Node, SharedList};
use cp_strand::{Atom, Same};
use std::alloc::{AllocError, Global};
use std::marker::Model;

/// A unique value with its recorded origin.
#[derive(Drop)]
pub struct UniqueAt {
    value: Atom,
    origin: Node,
}

impl Model for UniqueAt {
    ghost use Rattle.cp_model.specs.Skeleton.{UniqueAt as Plain};

    ghost Value = { Plain };

    ghost view = { λ u. record { value = u.value; origin = u.origin } };
}

impl UniqueAt {
    /// This value with this recorded origin.
    pub fn new(value: Atom, origin: Node) -> UniqueAt
        ensures { result ≡ record { value = value; origin = origin } }
    {
        UniqueAt { value, origin }
    }

    /// The value.
    pub fn value(&self) -> &Atom
        ensures { result.now ≡ self.now.value }
    {
        &self.value
    }

    /// The recorded origin.
    pub fn origin(&self) -> Node
        ensures { result ≡ self.now.origin }
    {
        self.origin
    }

    /// Whether it is this value with this recorded origin.
    pub(crate) fn is_at(&self, value: &Atom, origin: Node) -> bool
        ensures { IsTrue result ↔ (self.now ≡ record { value = value.now; origin = origin }) }
    {
        self.origin() == origin && self.value().same(value)
    }

    /// The same value with the same origin.
    pub fn copy(&self) -> Result<UniqueAt, AllocError>
        ensures { IfOk result (λ u. u ≡ self.now) }
    {
        self.value
            .copy()
            .map(|value| UniqueAt::new(value, self.origin))
    }
}

impl Clone for UniqueAt {
    ghost is_clone = { λ u v. v ≡ u };

    fn clone(&self) -> Result<UniqueAt, AllocError> {
        self.copy()
    }
}

impl Same for UniqueAt {
    fn is_same(&self, other: &UniqueAt) -> bool {
        self.is_at(other.value(), other.origin())
    }
}

/// The three lists of assumptions. Copies share them.
pub struct Assumptions {
    non_originating: SharedList<Atom>,
    penetrator_non_originating: SharedList<Atom>,
    uniquely_originating: SharedList<UniqueAt>,
}

// A value drops by one call of its own, wherever it is held.
impl Drop for Assumptions {
    fn drop(self) {
        let Assumptions {
            non_originating,
            penetrator_non_originating,
            uniquely_originating,
        } = self;
    }
}

impl Model for Assumptions {
    ghost use Rattle.cp_model.specs.Skeleton.{Assumptions as Plain};
    ghost use Rattle.cp_skel.specs.Code.{coded_assumptions};

    ghost Value = { Plain };

    ghost coded = { coded_assumptions };

    ghost view = { λ a. record {
      non_originating = a.non_originating;
      penetrator_non_originating = a.penetrator_non_originating;
      uniquely_originating = a.uniquely_originating;
    } };
}

impl Assumptions {
    /// The assumptions that the first values originate nowhere, that the penetrator does not originate the second, and
    /// that the third originate only at their recorded origins.
    pub fn new(
        non_originating: Vec<Atom>,
        penetrator_non_originating: Vec<Atom>,
        uniquely_originating: Vec<UniqueAt>,
    ) -> Assumptions
        ensures { result ≡ record {
          non_originating = non_originating.items;
          penetrator_non_originating = penetrator_non_originating.items;
          uniquely_originating = uniquely_originating.items;
        } }
    {
        Assumptions {
            non_originating: SharedList::of(non_originating),
            penetrator_non_originating: SharedList::of(penetrator_non_originating),
            uniquely_originating: SharedList::of(uniquely_originating),
        }
    }

    /// The assumptions of these three lists, if each could be made.
    pub fn of(
        non_originating: Result<Vec<Atom>, AllocError>,
        penetrator_non_originating: Result<Vec<Atom>, AllocError>,
        uniquely_originating: Result<Vec<UniqueAt>, AllocError>,
    ) -> Result<Assumptions, AllocError>
        ensures non { IfOk result (λ a. IsOkAnd non_originating (λ v. a.non_originating ≡ v.items)) }
        ensures penetrator_non { IfOk result (λ a. IsOkAnd penetrator_non_originating (λ v. a.penetrator_non_originating ≡ v.items)) }
        ensures unique { IfOk result (λ a. IsOkAnd uniquely_originating (λ v. a.uniquely_originating ≡ v.items)) }
    {
        Assumptions::of_shared(
            non_originating.map(SharedList::of),
            penetrator_non_originating.map(SharedList::of),
            uniquely_originating.map(SharedList::of),
        )
    }

    /// The assumptions of these three shared lists, if each could be made.
    fn of_shared(
        non_originating: Result<SharedList<Atom>, AllocError>,
        penetrator_non_originating: Result<SharedList<Atom>, AllocError>,
        uniquely_originating: Result<SharedList<UniqueAt>, AllocError>,
    ) -> Result<Assumptions, AllocError>
        ensures non { IfOk result (λ a. IsOkAnd non_originating (λ l. a.non_originating ≡ l)) }
        ensures penetrator_non { IfOk result (λ a. IsOkAnd penetrator_non_originating (λ l. a.penetrator_non_originating ≡ l)) }
        ensures unique { IfOk result (λ a. IsOkAnd uniquely_originating (λ l. a.uniquely_originating ≡ l)) }
    {
        Ok(Assumptions {
            non_originating: non_originating?,
            penetrator_non_originating: penetrator_non_originating?,
            uniquely_originating: uniquely_originating?,
        })
    }

    /// The values that originate nowhere (`non-orig`).
    pub fn non_originating(&self) -> &[Atom]
        ensures { result.now ≡ self.now.non_originating }
    {
        self.non_originating.as_slice()
    }

    /// The values that the penetrator does not originate (`pen-non-orig`).
    pub fn penetrator_non_originating(&self) -> &[Atom]
        ensures { result.now ≡ self.now.penetrator_non_originating }
    {
        self.penetrator_non_originating.as_slice()
    }

    /// The unique values, each with its recorded origin (`uniq-orig`).
    pub fn uniquely_originating(&self) -> &[UniqueAt]
        ensures { result.now ≡ self.now.uniquely_originating }
    {
        self.uniquely_originating.as_slice()
    }

    /// Whether nothing is assumed.
    fn is_empty(&self) -> bool
        ensures { IsTrue result → self.now ≡ record { non_originating = []; penetrator_non_originating = []; uniquely_originating = [] } }
    {
        self.non_originating().is_empty()
            && self.penetrator_non_originating().is_empty()
            && self.uniquely_originating().is_empty()
    }

    /// The same assumptions.
    pub fn copy(&self, alloc: Global) -> Result<Assumptions, AllocError>
        ensures { IfOk result (λ a. a ≡ self.now) }
    {
        Assumptions::of_shared(
            self.non_originating.copy(alloc),
            self.penetrator_non_originating.copy(alloc),
            self.uniquely_originating.copy(alloc),
        )
    }

    /// The assumptions with these unique values in place of their own. They share the other lists.
    pub(crate) fn with_uniques(
        &self,
        alloc: Global,
        uniques: Vec<UniqueAt>,
    ) -> Result<Assumptions, AllocError>
        ensures { IfOk result (λ a. a ≡ record self.now { uniquely_originating = uniques.items }) }
    {
        Assumptions::of_shared(
            self.non_originating.copy(alloc),
            self.penetrator_non_originating.copy(alloc),
            Ok(SharedList::of(uniques)),
        )
    }

    /// Appends other assumptions to these. On an error nothing has changed.
    pub fn append(&mut self, more: Assumptions) -> Result<(), AllocError>
        ensures joined { OnOk result (self.new ≡ joined_assumptions self.old more) }
        ensures unchanged { OnErr result (self.new ≡ self.old) }
    {
        if more.is_empty() {
            return Ok(());
        }
        let both = self.joined(
            more.non_originating(),
            more.penetrator_non_originating(),
            more.uniquely_originating(),
        )?;
        *self = both;
        Ok(())
    }

    /// These assumptions, and others behind them, kind by kind. Where there are no others of a kind, its list is shared.
    pub(crate) fn joined(
        &self,
        non_originating: &[Atom],
        penetrator_non_originating: &[Atom],
        uniquely_originating: &[UniqueAt],
    ) -> Result<Assumptions, AllocError>
        ensures { IfOk result (λ a. a ≡ joined_assumptions self.now (record {
          non_originating = non_originating.now;
          penetrator_non_originating = penetrator_non_originating.now;
          uniquely_originating = uniquely_originating.now;
        })) }
    {
        Assumptions::of_shared(
            self.non_originating.joined(non_originating),
            self.penetrator_non_originating
                .joined(penetrator_non_originating),
            self.uniquely_originating.joined(uniquely_originating),
        )
    }
}
