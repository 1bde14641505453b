// What the roles of instances give them.
ghost use Rattle.std.specs.Prelude.{◌≡◌, ℕ, map, IfOk, IfSome};
ghost use Rattle.cp_model.specs.Bindings.{bindings_of};
ghost use Rattle.cp_model.specs.Given.{applying, applying_uniques};
ghost use Rattle.cp_strand.specs.Givens.{unique_on, IsGivenBy};
ghost use Rattle.cp_strand.specs.View.{instance_view};

use crate::atom::Atom;
use crate::events::applied_atom;
use crate::prefix_variables::all_occur_before;
use crate::protocol::Role;
use crate::strand::{Body, Instance, Strand, StrandShape};
use crate::term_origins::origin;
use std::alloc::{AllocError, Global};

/// A value that originates uniquely on an instance, with the index at which it originates there.
#[derive(Drop)]
pub struct IndexedUnique {
    pub value: Atom,
    pub index: usize,
}

/// What its role gives an instance: those of the role's assumptions that apply to it, under its terms.
pub struct Given {
    pub non_originating: Vec<Atom>,
    pub penetrator_non_originating: Vec<Atom>,
    pub uniquely_originating: Vec<IndexedUnique>,
}

// A value drops by one call of its own, wherever it is held.
impl Drop for Given {
    fn drop(self) {
        let Given {
            non_originating,
            penetrator_non_originating,
            uniquely_originating,
        } = self;
    }
}

/// Of these atoms of its role, those that apply to an instance, under its terms.
pub fn applying(
    alloc: Global,
    instance: &Instance,
    stated: &[Atom],
) -> Result<Vec<Atom>, AllocError>
    ensures { IfOk result (λ v. v.items
        ≡ applying instance.now.role instance.now.height (bindings_of instance.now.values) stated.now) }
{
    let role: &Role = instance.role();
    let height = instance.height();
    let mut values = Vec::new(alloc);
    for atom in stated {
        if !all_occur_before(role, atom, height) {
            continue;
        }
        values.push(applied_atom(alloc, instance.values(), atom)?)?;
    }
    Ok(values)
}

/// Of its role's uniquely originating atoms, those that originate on an instance, under its terms.
fn originating(alloc: Global, instance: &Instance) -> Result<Vec<IndexedUnique>, AllocError>
    ensures { IfOk result (λ v. (s : ℕ) → map (unique_on s) v.items ≡ applying_uniques instance.now.role
        instance.now.height (bindings_of instance.now.values) s instance.now.role.uniquely_originating) }
{
    let role = instance.role();
    let stated = role.uniquely_originating();
    let mut values = Vec::new(alloc);
    for atom in stated {
        let Some(index) = origin(role.trace(), atom.as_term()) else {
            continue;
        };
        if index >= instance.height() {
            continue;
        }
        let value = applied_atom(alloc, instance.values(), atom)?;
        values.push(IndexedUnique { value, index })?;
    }
    Ok(values)
}

/// What its role gives an instance.
pub(crate) fn given_to(alloc: Global, instance: &Instance) -> Result<Given, AllocError>
    ensures { IfOk result (λ g. IsGivenBy (instance_view instance.now) g) }
{
    let role = instance.role();
    let non_originating = applying(alloc, instance, role.non_originating())?;
    let penetrator_non_originating = applying(alloc, instance, role.penetrator_non_originating())?;
    let uniquely_originating = originating(alloc, instance)?;
    Ok(Given {
        non_originating,
        penetrator_non_originating,
        uniquely_originating,
    })
}

impl Strand {
    /// What its role gives the strand, if the strand keeps it.
    pub fn given(&self) -> Option<&Given>
        ensures { IfSome result (λ g. IsGivenBy self.now g.now) }
    {
        match self.body() {
            Body::Instance(_, Some(held)) => Some(&held.given),
            _ => None,
        }
    }

    /// What its role gives the strand. Nothing gives anything to a listener.
    pub fn make_given(&self, alloc: Global) -> Result<Given, AllocError>
        ensures { IfOk result (λ g. IsGivenBy self.now g) }
    {
        match self.shape() {
            StrandShape::Instance(instance) => given_to(alloc, instance),
            StrandShape::Listener(_) => Ok(Given {
                non_originating: Vec::new(alloc),
                penetrator_non_originating: Vec::new(alloc),
                uniquely_originating: Vec::new(alloc),
            }),
        }
    }
}
