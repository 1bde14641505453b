// Displaced children: an event of an existing strand is put before the node and releases the critical term.
ghost use Rattle.std.specs.Prelude.{◌≡◌, ◌≢◌, ◌<◌, Some, length, IsTrue, OnOk};
ghost use Rattle.cp_model.specs.Problem.{numbers_from};
ghost use Rattle.cp_model.specs.Skeleton.{Before, IsNodeOf};
ghost use Rattle.cp_lists.specs.Lists.{item_at};
ghost use Rattle.cp_cohort.specs.Cohort.{DisplacesEvent, DisplacesStrand};
ghost use Rattle.cp_cohort.specs.Children.{IsThere};
ghost use Rattle.cp_cohort.specs.GatheredLists.{EachGives};
ghost use Rattle.cp_cohort.specs.Views.{PutsChildren};

use crate::child::{Child, Made};
use crate::grown_skeletons::with_events;
use crate::guarded_test::GuardedTest;
use crate::releases::release;
use crate::transmissions::is_sent;
use crate::widening::NoPatterns;
use cp_skel::{Instance, Node, Strand, StrandShape};
use std::alloc::{AllocError, Global};

impl<'a> GuardedTest<'a> {
    /// Whether an event that the instance has follows the test's node: put before it, it would close a cycle.
    fn has_after(&self, node: Node, instance: &Instance) -> bool
        requires { node.index < instance.now.height → IsNodeOf self.now.skeleton.strands node }
        ensures { IsTrue result → (node.index < instance.now.height) × Before self.now.skeleton self.now.node node }
    {
        self.is_test();
        if node.index >= instance.height() {
            return false;
        }
        let closes = self.skeleton.before(self.node, node);
        closes
    }

    /// Appends the children for one event of the role of the instance on this strand.
    fn displace_event(
        &self,
        alloc: Global,
        strand: usize,
        instance: &Instance,
        index: usize,
        children: &mut Vec<Child>,
    ) -> Result<(), AllocError>
        requires there { IsThere self.now.skeleton strand instance.now }
        requires other { strand ≢ self.now.node.strand }
        requires reached { index < length instance.now.role.trace }
        ensures { OnOk result (PutsChildren (DisplacesEvent self.now strand instance.now.role instance.now.height index) children.old.items children.new.items) }
    {
        if !is_sent(instance.role(), index) {
            return Ok(());
        }
        let node = Node { strand, index };
        if self.at.has_before(node) {
            return Ok(());
        }
        if self.has_after(node, instance) {
            return Ok(());
        }
        self.is_test();
        let height = index + 1;
        let grown = with_events(alloc, self, strand, instance, height)?;
        let made = Made::Displaced(node);
        release(alloc, self, grown, node, made, &NoPatterns, children).map(|_| ())
    }

    /// Appends the displaced children for one strand.
    fn displace_strand(
        &self,
        alloc: Global,
        number: usize,
        strand: &Strand,
        children: &mut Vec<Child>,
    ) -> Result<(), AllocError>
        requires there { item_at self.now.skeleton.strands number ≡ Some strand.now }
        ensures { OnOk result (PutsChildren (DisplacesStrand self.now number) children.old.items children.new.items) }
    {
        let StrandShape::Instance(instance) = strand.shape() else {
            return Ok(());
        };
        if number == self.node.strand {
            return Ok(());
        }
        let events = instance.role().trace();
        for index in 0..events.len() {
            self.displace_event(alloc, number, instance, index, children)?;
        }
        Ok(())
    }

    /// Appends all displaced children.
    pub(crate) fn displace(
        &self,
        alloc: Global,
        children: &mut Vec<Child>,
    ) -> Result<(), AllocError>
        ensures { OnOk result (PutsChildren (EachGives (DisplacesStrand self.now) (numbers_from 0 self.now.skeleton.strands)) children.old.items children.new.items) }
    {
        for (number, strand) in self.skeleton.strands().iter().enumerate() {
            self.displace_strand(alloc, number, strand, children)?;
        }
        Ok(())
    }
}
