// Strands that are added to skeletons, and strands that grow.
ghost use Rattle.std.specs.Prelude.{◌≡◌, length, IfOk, OnOk, OnErr};
ghost use Rattle.cp_model.specs.Strand.{IsHeight};
ghost use Rattle.cp_model.specs.PrefixVariables.{prefix_variables, AreTermsFor};
ghost use Rattle.cp_model.specs.Extensions.{AddsListener, AddsStrand, CanExtend, Extends};

use crate::role_assumptions::missing_on;
use crate::skeleton::Skeleton;
use cp_strand::{Role, Strand, StrandShape, instance_of};
use cp_term::Term;
use std::alloc::{AllocError, Global};
use std::rc::Rc;

impl Skeleton {
    /// Appends a listener to the strands and returns its number. On an error nothing has changed.
    pub fn add_listener(&mut self, alloc: Global, message: Term) -> Result<usize, AllocError>
        ensures number { IfOk result (λ s. s ≡ length self.old.strands) }
        ensures changed { OnOk result (AddsListener message self.old self.new) }
        ensures unchanged { OnErr result (self.new ≡ self.old) }
        ensures variables { self.new.variables ≡ self.old.variables }
    {
        let listener = Strand::listener(alloc, message)?;
        let number = self.strands.len();
        self.strands.push(listener)?;
        Ok(number)
    }

    /// Appends an instance of a role to the strands and returns its number.
    ///
    /// The height must be from 1 to the length of the role's trace. There must be a value for each variable of the
    /// prefix, of the variable's sort, in the order of their declarations. What the role gives the instance is added to
    /// the assumptions. On an error nothing has changed.
    pub fn add_strand(
        &mut self,
        alloc: Global,
        role: &Rc<Role>,
        height: usize,
        values: &[Term],
    ) -> Result<usize, AllocError>
        requires height { IsHeight role.now.value height }
        requires values { AreTermsFor (prefix_variables role.now.value height) values.now }
        ensures number { IfOk result (λ s. s ≡ length self.old.strands) }
        ensures changed { OnOk result (AddsStrand role.now.value height values.now self.old self.new) }
        ensures unchanged { OnErr result (self.new ≡ self.old) }
        ensures variables { self.new.variables ≡ self.old.variables }
    {
        role.is_sound();
        let number = self.strands.len();
        let instance = instance_of(alloc, role, 0, height, &[], values)?;
        let strand = Strand::with_events(alloc, instance)?;
        let missing = missing_on(alloc, number, &strand, &self.assumptions)?;
        let assumptions = missing.behind(&self.assumptions)?;
        self.strands.push(strand)?;
        self.assumptions = assumptions;
        Ok(number)
    }

    /// Extends an instance to a height, which must be at least its own and at most the length of its role's trace.
    ///
    /// There must be a value for each variable that the longer prefix adds, of the variable's sort, in the order of
    /// their declarations. What the role then gives the instance is added to the assumptions. On an error nothing has
    /// changed.
    pub fn extend(
        &mut self,
        alloc: Global,
        strand: usize,
        height: usize,
        values: &[Term],
    ) -> Result<(), AllocError>
        requires { CanExtend self.old strand height values.now }
        ensures changed { OnOk result (Extends strand height values.now self.old self.new) }
        ensures unchanged { OnErr result (self.new ≡ self.old) }
        ensures variables { self.new.variables ≡ self.old.variables }
    {
        let StrandShape::Instance(old) = self.strands[strand].shape() else {
            unreachable!()
        };
        let instance = instance_of(
            alloc,
            old.role(),
            old.height(),
            height,
            old.values(),
            values,
        )?;
        let grown = Strand::with_events(alloc, instance)?;
        let missing = missing_on(alloc, strand, &grown, &self.assumptions)?;
        self.assumptions.append(missing.into_assumptions())?;
        self.strands[strand] = grown;
        Ok(())
    }
}
