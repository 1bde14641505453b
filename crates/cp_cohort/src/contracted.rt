// Contracted children: a term at a position of an earlier transmission is unified with the critical term.
ghost use Rattle.std.specs.Prelude.{◌↔◌, IsTrue, IfOk, OnOk};
ghost use Rattle.cp_theory.specs.Inside.{IsInside};
ghost use Rattle.cp_model.specs.Identity.{unchanged};
ghost use Rattle.cp_model.specs.Strand.{payload};
ghost use Rattle.cp_cohort.specs.Cohort.{Contracts, AreContracted};
ghost use Rattle.cp_cohort.specs.Children.{AreChildrenOfForms, ContractsEvent, IsPosition};
ghost use Rattle.cp_cohort.specs.Views.{operation_of_made, PutsChildren};

use crate::child::{Child, Made, put_children};
use crate::guarded_test::GuardedTest;
use crate::is_sent_before;
use cp_normal::{normalise, under};
use cp_pattern::{is_inside, positions_for, unifier};
use cp_skel::{LocatedEvent, Skeleton};
use cp_term::{Path, Term, at};
use cp_unify::Subst;
use std::alloc::{AllocError, Global};

/// Appends the normal forms of a skeleton as children.
pub(crate) fn put_forms(
    alloc: Global,
    skeleton: Skeleton,
    made: Made,
    path: &Path,
    children: &mut Vec<Child>,
) -> Result<(), AllocError>
    ensures { OnOk result (PutsChildren (AreChildrenOfForms (operation_of_made made) path.now skeleton) children.old.items children.new.items) }
{
    let forms = normalise(alloc, skeleton)?;
    put_children(forms, made, path, children)
}

impl<'a> GuardedTest<'a> {
    /// Whether a position of a message lies inside the test's patterns.
    fn is_guarded(&self, alloc: Global, message: &Term, path: &Path) -> Result<bool, AllocError>
        ensures { IfOk result (λ answer. IsTrue answer ↔ IsInside self.now.patterns unchanged message.now path.now) }
    {
        let nothing = Subst::new(alloc);
        is_inside(alloc, self.patterns, &nothing, message, path.as_slice())
    }

    /// Appends the children for one position of an earlier transmission.
    fn contract_at(
        &self,
        alloc: Global,
        occurrence: &LocatedEvent<'_>,
        path: &Path,
        children: &mut Vec<Child>,
    ) -> Result<(), AllocError>
        requires { IsPosition (payload occurrence.now.event) path.now }
        ensures { OnOk result (PutsChildren (Contracts self.now occurrence.now path.now) children.old.items children.new.items) }
    {
        let message = occurrence.event().payload();
        if self.is_guarded(alloc, message, path)? {
            return Ok(());
        }
        let Some(term) = at(message, path) else {
            unreachable!();
        };
        if term.same(self.critical) {
            return Ok(());
        }
        let Some(s) = unifier(alloc, term, self.critical)? else {
            return Ok(());
        };
        let skeleton = under(alloc, self.skeleton, &s)?;
        put_forms(
            alloc,
            skeleton,
            Made::Contracted(occurrence.node()),
            path,
            children,
        )
    }

    /// Appends the contracted children for one event.
    fn contract_event(
        &self,
        alloc: Global,
        occurrence: &LocatedEvent<'_>,
        children: &mut Vec<Child>,
    ) -> Result<(), AllocError>
        ensures { OnOk result (PutsChildren (ContractsEvent self.now occurrence.now) children.old.items children.new.items) }
    {
        if !is_sent_before(self.at, occurrence) {
            return Ok(());
        }
        let paths = positions_for(alloc, occurrence.event().payload(), self.critical)?;
        for path in &paths {
            self.contract_at(alloc, occurrence, path, children)?;
        }
        Ok(())
    }

    /// Appends all contracted children.
    pub(crate) fn contract(
        &self,
        alloc: Global,
        children: &mut Vec<Child>,
    ) -> Result<(), AllocError>
        ensures { OnOk result (PutsChildren (AreContracted self.now) children.old.items children.new.items) }
    {
        let occurrences = self.at.events();
        for occurrence in occurrences {
            self.contract_event(alloc, occurrence, children)?;
        }
        Ok(())
    }
}
