// A skeleton and its events, transmissions and pairs.
ghost use Rattle.std.specs.Prelude.{◌≡◌, IsTrue, IfOk};
ghost use Rattle.cp_model.specs.Derivable.{DerivableAt};
ghost use Rattle.cp_skel.specs.Events.{events_of};
ghost use Rattle.cp_derive.specs.Before.{ArePlacesBefore, transmissions_of};

use crate::before::places_before;
use crate::direct::is_sent_directly;
use crate::transmission::{Transmission, transmissions};
use cp_skel::{ListedSkeleton, LocatedEvent, Node, Skeleton, SortedPairs};
use cp_term::Term;
use std::alloc::{AllocError, Global};
use std::marker::Model;

/// A skeleton, with what is gone through for one of its nodes after another: its events, its transmissions, and its pairs, sorted.
pub(crate) struct Survey<'a> {
    listed: &'a ListedSkeleton<'a>,
    transmissions: Vec<Transmission>,
    sorted: SortedPairs<'a>,
}

// A holder drops it by one call, which leaves less to prove of the holder.
impl<'a> Drop for Survey<'a> {
    fn drop(self) {
        let Survey {
            listed: _,
            transmissions,
            sorted,
        } = self;
    }
}

impl<'a> Model for Survey<'a> {
    ghost use Rattle.cp_model.specs.Skeleton.{Skeleton as Plain};
    ghost use Rattle.cp_skel.specs.Code.{coded_skeleton};
    ghost use Rattle.cp_derive.specs.Before.{IsSurveyed};

    ghost Value = { Plain };

    ghost coded = { coded_skeleton };

    ghost view = { λ s. s.listed.now };

    ghost invariant = { λ s. IsSurveyed s.listed.now s.transmissions.items s.sorted };
}

impl<'a> Survey<'a> {
    /// Lists the transmissions of the skeleton, and sorts its pairs.
    pub(crate) fn new(
        alloc: Global,
        listed: &'a ListedSkeleton<'a>,
    ) -> Result<Survey<'a>, AllocError>
        ensures { IfOk result (λ s. s ≡ listed.now) }
    {
        let transmissions = transmissions(alloc, listed.events())?;
        let sorted = SortedPairs::new(alloc, listed.skeleton().order().pairs())?;
        Ok(Survey {
            listed,
            transmissions,
            sorted,
        })
    }

    /// The skeleton.
    pub(crate) fn skeleton(&self) -> &'a Skeleton
        ensures { result.now ≡ self.now }
    {
        self.listed.skeleton()
    }

    /// The events, each with its node, by strand and then by index.
    pub(crate) fn events(&self) -> &[LocatedEvent<'a>]
        ensures { result.now ≡ events_of self.now }
    {
        self.listed.events()
    }

    /// The transmissions of role strands.
    pub(crate) fn transmissions(&self) -> &[Transmission]
        ensures { result.now ≡ transmissions_of self.now }
    {
        &self.transmissions
    }

    /// The places, in the list of transmissions, of those at other nodes that reach this one.
    pub(crate) fn places_before(&self, alloc: Global, node: Node) -> Result<Vec<usize>, AllocError>
        ensures { IfOk result (λ ps. ArePlacesBefore self.now.pairs node (transmissions_of self.now) ps.items) }
    {
        places_before(alloc, &self.sorted, &self.transmissions, node)
    }

    /// Whether a role strand sends the message at a node from which a pair leads to this one; then it is derivable here.
    pub(crate) fn is_sent_directly(&self, message: &Term, node: Node) -> bool
        ensures { IsTrue result → DerivableAt self.now node message.now }
    {
        let pairs = self.listed.skeleton().order().pairs();
        is_sent_directly(&self.transmissions, pairs, message, node)
    }
}
