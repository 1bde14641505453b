// The assumptions that roles give to their instances.
ghost use Rattle.std.specs.Prelude.{◌≡◌, ◌↔◌, ◌∷◌, [], ◌++◌, map, IsTrue, IfOk, OnOk};
ghost use Rattle.cp_model.specs.Bindings.{bindings_of};
ghost use Rattle.cp_lists.specs.Lists.{IsIn};
ghost use Rattle.cp_model.specs.Given.{uniques_onto};
ghost use Rattle.cp_model.specs.GivenAssumptions.{AddsGiven, with_given_from};
ghost use Rattle.cp_skel.specs.JoinedAssumptions.{joined_assumptions, with_these};
ghost use Rattle.cp_strand.specs.Givens.{unique_on};
ghost use Rattle.cp_strand.specs.View.{InstanceData, instance_view};

use crate::assumptions::{Assumptions, UniqueAt};
use crate::gathered::{add_missing, push_missing};
use crate::skeleton::Node;
use cp_strand::{Atom, Given, IndexedUnique, Strand, has};
use std::alloc::{AllocError, Global};
use std::marker::Model;

/// Whether the unique value, with this origin, is one of these.
pub fn has_unique(uniques: &[UniqueAt], unique: &UniqueAt) -> bool
    ensures { IsTrue result ↔ IsIn unique.now uniques.now }
{
    has(uniques, unique)
}

/// Appends those of the given unique values, with their origins on the strand with this number, that are neither among
/// the old ones nor there yet.
fn add_missing_uniques(
    strand: usize,
    given: &[IndexedUnique],
    old: &[UniqueAt],
    more: &mut Vec<UniqueAt>,
) -> Result<(), AllocError>
    ensures { OnOk result (old.now ++ more.new.items ≡ uniques_onto (old.now ++ more.old.items) (map (unique_on strand) given.now)) }
{
    for unique in given {
        let value = unique.value.copy()?;
        let origin = Node {
            strand,
            index: unique.index,
        };
        push_missing(old, more, UniqueAt::new(value, origin))?;
    }
    Ok(())
}

/// What is given to strands and some assumptions lack, each once.
#[derive(Drop)]
pub(crate) struct Missing {
    non_originating: Vec<Atom>,
    penetrator_non_originating: Vec<Atom>,
    uniquely_originating: Vec<UniqueAt>,
}

impl Model for Missing {
    ghost use Rattle.cp_model.specs.Skeleton.{Assumptions as Plain};
    ghost use Rattle.cp_skel.specs.Code.{coded_assumptions};

    ghost Value = { Plain };

    ghost coded = { coded_assumptions };

    ghost view = { λ m. record {
      non_originating = m.non_originating.items;
      penetrator_non_originating = m.penetrator_non_originating.items;
      uniquely_originating = m.uniquely_originating.items;
    } };
}

impl Missing {
    /// Nothing is missing.
    pub(crate) fn none(alloc: Global) -> Missing
        ensures { result ≡ record { non_originating = []; penetrator_non_originating = []; uniquely_originating = [] } }
    {
        Missing {
            non_originating: Vec::new(alloc),
            penetrator_non_originating: Vec::new(alloc),
            uniquely_originating: Vec::new(alloc),
        }
    }

    /// What is missing, as assumptions.
    pub(crate) fn into_assumptions(self) -> Assumptions
        ensures { result ≡ self }
    {
        let Missing {
            non_originating,
            penetrator_non_originating,
            uniquely_originating,
        } = self;
        Assumptions::new(
            non_originating,
            penetrator_non_originating,
            uniquely_originating,
        )
    }

    /// The assumptions with what is missing behind them.
    pub(crate) fn behind(&self, assumptions: &Assumptions) -> Result<Assumptions, AllocError>
        ensures { IfOk result (λ a. a ≡ joined_assumptions assumptions.now self.now) }
    {
        assumptions.joined(
            &self.non_originating,
            &self.penetrator_non_originating,
            &self.uniquely_originating,
        )
    }

    /// Appends what is given to the strand with this number and neither the assumptions have nor is there yet.
    fn add(
        &mut self,
        strand: usize,
        given: &Given,
        assumptions: &Assumptions,
    ) -> Result<(), AllocError>
        ensures { OnOk result (joined_assumptions assumptions.now self.new ≡ with_these strand given.now (joined_assumptions assumptions.now self.old)) }
    {
        add_missing(
            &given.non_originating,
            assumptions.non_originating(),
            &mut self.non_originating,
        )?;
        add_missing(
            &given.penetrator_non_originating,
            assumptions.penetrator_non_originating(),
            &mut self.penetrator_non_originating,
        )?;
        add_missing_uniques(
            strand,
            &given.uniquely_originating,
            assumptions.uniquely_originating(),
            &mut self.uniquely_originating,
        )
    }

    /// Appends what its role gives a strand and neither the assumptions have nor is there yet, in the order in which the
    /// role states it. The strand has this number.
    pub(crate) fn add_lacking(
        &mut self,
        alloc: Global,
        number: usize,
        strand: &Strand,
        assumptions: &Assumptions,
    ) -> Result<(), AllocError>
        ensures { OnOk result (joined_assumptions assumptions.now self.new
            ≡ with_given_from number (strand.now ∷ []) (joined_assumptions assumptions.now self.old)) }
    {
        if let Some(given) = strand.given() {
            return self.add(number, given, assumptions);
        }
        let given = strand.make_given(alloc)?;
        self.add(number, &given, assumptions)
    }
}

/// What its role gives a strand and the assumptions lack, each once. The strand has this number.
pub(crate) fn missing_on(
    alloc: Global,
    number: usize,
    strand: &Strand,
    assumptions: &Assumptions,
) -> Result<Missing, AllocError>
    ensures { IfOk result (λ more. (i : InstanceData) → strand.now ≡ instance_view i → AddsGiven i.role i.height (bindings_of i.values) number
        assumptions.now (joined_assumptions assumptions.now more)) }
{
    let mut missing = Missing::none(alloc);
    missing
        .add_lacking(alloc, number, strand, assumptions)
        .map(|_| missing)
}
