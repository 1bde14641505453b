// Narrowing: the steps by which a skeleton comes to its normal forms.
ghost use Rattle.std.specs.Prelude.{Some, IfOk};
ghost use Rattle.cp_normal.specs.Branches.{IsSettled};
ghost use Rattle.cp_normal.specs.Candidates.{IsNormalFormOfSettled, NarrowsInto};
ghost use Rattle.cp_normal.specs.Findings.{IsNormalised};
ghost use Rattle.cp_normal.specs.NextSteps.{form_pairs, IsNextOf};

use crate::form::Form;
use crate::misplaced_values::{Misplaced, first_misplaced};
use crate::normal::{FormPairs, is_refuted, normal_pairs_among};
use crate::received_atoms::atoms_received;
use crate::rewriting::{Candidate, Rewriting};
use crate::unified_branches::branches;
use cp_skel::{Atom, ListedSkeleton, OrderPair, Skeleton};
use std::alloc::{AllocError, Global};

/// Rewrites a skeleton to its normal forms.
#[derive(Drop)]
pub(crate) struct Narrowing;

/// What narrowing makes of a skeleton next.
#[derive(Drop)]
pub(crate) enum Next {
    /// Nothing.
    Ends,
    /// The branches by a misplaced value and the atoms received before it.
    Branches(Misplaced, Vec<Atom>),
    /// The normal form, with these pairs.
    Settles(FormPairs),
}

/// What narrowing makes of the skeleton next.
fn next_among(alloc: Global, k: &ListedSkeleton<'_>) -> Result<Next, AllocError>
    ensures { IfOk result (λ next. IsNextOf k.now next) }
{
    if is_refuted(k) {
        return Ok(Next::Ends);
    }
    match first_misplaced(alloc, k)? {
        Some(misplaced) => {
            let atoms = atoms_received(alloc, k.events(), misplaced.node)?;
            Ok(Next::Branches(misplaced, atoms))
        }
        None => match normal_pairs_among(alloc, k)? {
            Some(pairs) => Ok(Next::Settles(pairs)),
            None => Ok(Next::Ends),
        },
    }
}

/// What narrowing makes of the skeleton next. The skeleton's events are listed only here.
pub(crate) fn next_of(alloc: Global, k: &Skeleton) -> Result<Next, AllocError>
    ensures { IfOk result (λ next. IsNextOf k.now next) }
{
    let listed = ListedSkeleton::of(alloc, k)?;
    next_among(alloc, &listed)
}

/// The form with these pairs, those of its normal form.
fn with_form_pairs(alloc: Global, form: Form, pairs: Vec<OrderPair>) -> Result<Form, AllocError>
    requires settled { IsSettled form.skeleton }
    requires normal { IsNormalised form.skeleton (Some pairs.items) }
    ensures { IfOk result (λ r. IsNormalFormOfSettled form r) }
{
    let Form {
        skeleton,
        substitution,
    } = form;
    skeleton.is_sound();
    let skeleton = skeleton.with_pairs(alloc, pairs)?;
    Ok(Form {
        skeleton,
        substitution,
    })
}

/// The normal form of a skeleton in which no unique value is misplaced, given the pairs of that form. If these are the skeleton's
/// own, it stays as it is.
pub(crate) fn settled(alloc: Global, form: Form, pairs: FormPairs) -> Result<Form, AllocError>
    requires settled { IsSettled form.skeleton }
    requires normal { IsNormalised form.skeleton (Some (form_pairs form.skeleton pairs)) }
    ensures { IfOk result (λ r. IsNormalFormOfSettled form r) }
{
    match pairs {
        FormPairs::Own => Ok(form),
        FormPairs::More(pairs) => with_form_pairs(alloc, form, pairs),
    }
}

impl Rewriting for Narrowing {
    type Item = Form;

    type Done = Form;

    ghost becomes = { λ _. NarrowsInto };

    /// Nothing if the assumptions contradict what the nodes carry; the branches if a unique value is misplaced; nothing if the
    /// pairs of the normal form close a cycle; otherwise the normal form.
    fn step(&self, alloc: Global, form: Form) -> Result<Vec<Candidate<Form, Form>>, AllocError> {
        match next_of(alloc, &form.skeleton)? {
            Next::Ends => Ok(Vec::new(alloc)),
            Next::Branches(misplaced, atoms) => branches(alloc, &form, &misplaced.value, &atoms),
            Next::Settles(pairs) => {
                let normal = settled(alloc, form, pairs)?;
                Ok(vec![in alloc; Candidate::Done(normal)]?)
            }
        }
    }
}
