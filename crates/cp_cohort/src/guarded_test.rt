// What a cohort is computed for.
ghost use Rattle.cp_theory.specs.Critical.{IsTest};

use cp_derive::AtNode;
use cp_skel::{Node, Skeleton};
use cp_term::{Pattern, Term};
use std::marker::Model;

/// The test and the patterns of a cohort: the critical component of the message received at a node of a skeleton is to be
/// released from these patterns.
#[derive(Drop)]
pub(crate) struct GuardedTest<'a> {
    pub(crate) skeleton: &'a Skeleton,
    pub(crate) node: Node,
    /// The node, with what is known of it.
    pub(crate) at: &'a AtNode<'a>,
    pub(crate) critical: &'a Term,
    pub(crate) patterns: &'a [Pattern],
}

impl<'a> Model for GuardedTest<'a> {
    ghost use Rattle.std.specs.Prelude.{◌≡◌};
    ghost use Rattle.cp_theory.specs.Critical.{IsTest};
    ghost use Rattle.cp_cohort.specs.Cohort.{GuardedTest};
    ghost use Rattle.cp_cohort.specs.Code.{coded_guarded_test};

    ghost Value = { GuardedTest };

    ghost coded = { coded_guarded_test };

    ghost view = { λ q. record { skeleton = q.skeleton.now; node = q.node; critical = q.critical.now; patterns = q.patterns.now } };

    ghost invariant = { λ q. (q.at.now ≡ record { skeleton = q.skeleton.now; node = q.node }) × IsTest q.skeleton.now q.node q.critical.now };
}

impl<'a> GuardedTest<'a> {
    /// The node and the term are a test of the skeleton.
    pub(crate) fn is_test(&self)
        ensures { IsTest self.now.skeleton self.now.node self.now.critical }
    {
        let node = self.node;
    }
}
