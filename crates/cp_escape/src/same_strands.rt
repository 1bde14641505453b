// Compares strands of two skeletons.
ghost use Rattle.std.specs.Prelude.{◌≡◌, ◌↔◌, IsTrue, IfOk};
ghost use Rattle.cp_collapse.specs.SameSkeletons.{IsSameStrand, AreSameStrands};
ghost use Rattle.cp_model.specs.Homomorphism.{substitution_by};
ghost use Rattle.cp_model.specs.Strand.{variables_of_trace};
ghost use Rattle.cp_model.specs.Term.{AgreeOnTerms, apply_to};
ghost use Rattle.cp_strand.specs.View.{instance_view};

use cp_collapse::are_same_terms;
use cp_skel::{Event, Instance, Strand, StrandShape, applied, is_same_role, prefix_of};
use cp_term::Term;
use std::alloc::{AllocError, Global};

/// Whether the message of a role's event is the same under the values `a` and `b`.
fn is_same_message(
    alloc: Global,
    message: &Term,
    a: &[Term],
    b: &[Term],
) -> Result<bool, AllocError>
    ensures { IfOk result (λ answer. IsTrue answer ↔ (apply_to (substitution_by a.now) message.now ≡ apply_to (substitution_by b.now) message.now)) }
{
    let first = applied(alloc, a, message)?;
    applied(alloc, b, message).map(|second| first.same(&second))
}

/// Whether the values `a` and `b` agree on the variables of a role's events.
fn agree_on(alloc: Global, events: &[Event], a: &[Term], b: &[Term]) -> Result<bool, AllocError>
    ensures { IfOk result (λ answer. IsTrue answer ↔ AgreeOnTerms (variables_of_trace events.now) (substitution_by a.now) (substitution_by b.now)) }
{
    for event in events {
        if !is_same_message(alloc, event.payload(), a, b)? {
            return Ok(false);
        }
    }
    Ok(true)
}

/// Whether two instances say the same.
fn is_same_instance(alloc: Global, a: &Instance, b: &Instance) -> Result<bool, AllocError>
    ensures { IfOk result (λ answer. IsTrue answer ↔ IsSameStrand (instance_view a.now) (instance_view b.now)) }
{
    if a.height() != b.height() {
        return Ok(false);
    }
    if !is_same_role(a.role(), b.role()) {
        return Ok(false);
    }
    if are_same_terms(a.values(), b.values()) {
        return Ok(true);
    }
    let events = prefix_of(a.role(), a.height());
    agree_on(alloc, events, a.values(), b.values())
}

/// Whether two strands say the same.
fn is_same_strand(alloc: Global, a: &Strand, b: &Strand) -> Result<bool, AllocError>
    ensures { IfOk result (λ answer. IsTrue answer ↔ IsSameStrand a.now b.now) }
{
    match (a.shape(), b.shape()) {
        (StrandShape::Instance(first), StrandShape::Instance(second)) => {
            is_same_instance(alloc, first, second)
        }
        (StrandShape::Listener(first), StrandShape::Listener(second)) => Ok(first.same(second)),
        _ => Ok(false),
    }
}

/// Whether the two lists of strands say the same, place by place.
pub(crate) fn are_same_strands(
    alloc: Global,
    a: &[Strand],
    b: &[Strand],
) -> Result<bool, AllocError>
    ensures { IfOk result (λ answer. IsTrue answer ↔ AreSameStrands a.now b.now) }
{
    if a.len() != b.len() {
        return Ok(false);
    }
    for index in 0..a.len() {
        if !is_same_strand(alloc, &a[index], &b[index])? {
            return Ok(false);
        }
    }
    Ok(true)
}
