// The pattern that a child with an added strand contributes.
ghost use Rattle.std.specs.Prelude.{◌↔◌, [], IsTrue, IfOk, IfSome, IfNone};
ghost use Rattle.cp_theory.specs.Above.{encryptions_above};
ghost use Rattle.cp_model.specs.Term.{Term as PlainTerm};
ghost use Rattle.cp_model.specs.Tree.{Pattern as Plain};
ghost use Rattle.cp_escape.specs.Escape.{IsFirstWith};
ghost use Rattle.cp_escape.specs.WidenedPattern.{BindsNothing, EndsBySending, StaysClosed, WidensBy};

use crate::above::encryptions_above;
use crate::same_strands::are_same_strands;
use crate::used::new_variables;
use cp_collapse::are_same_terms;
use cp_skel::{Atom, Event, Skeleton, StrandShape, has_atom};
use cp_term::{Path, Pattern, Shape, Term, invert};
use std::alloc::{AllocError, Global};

/// Whether the child binds no variable of the skeleton: it has one strand more, and says the same of the other strands and of the
/// problem.
fn binds_nothing(alloc: Global, k: &Skeleton, child: &Skeleton) -> Result<bool, AllocError>
    ensures { IfOk result (λ answer. IsTrue answer ↔ BindsNothing k.now child.now) }
{
    let Some((_, old)) = child.strands().split_last() else {
        return Ok(false);
    };
    let (from, to) = (k.from_problem(), child.from_problem());
    if to.strands() != from.strands() {
        return Ok(false);
    }
    if !are_same_terms(to.values(), from.values()) {
        return Ok(false);
    }
    are_same_strands(alloc, k.strands(), old)
}

/// The message of the child's last strand, if that is an added one that ends with a transmission.
fn last_sent(alloc: Global, k: &Skeleton, child: &Skeleton) -> Result<Option<Term>, AllocError>
    ensures some { IfOk result (λ answer. IfSome answer (λ t. EndsBySending k.now child.now t)) }
    ensures none { IfOk result (λ answer. IfNone answer ((t : PlainTerm) → EndsBySending k.now child.now t → ⊥)) }
{
    let Some(strand) = child.strands().get(k.strands().len()) else {
        return Ok(None);
    };
    let StrandShape::Instance(instance) = strand.shape() else {
        return Ok(None);
    };
    let height = instance.height();
    if height == 0 {
        return Ok(None);
    }
    match strand.event(alloc, height - 1)? {
        Some(Event::Send(message)) => Ok(Some(message)),
        Some(Event::Receive(_)) => Ok(None),
        None => Ok(None),
    }
}

/// Whether an encryption stays closed wherever the skeleton stands.
fn stays_closed(alloc: Global, k: &Skeleton, term: &Term) -> Result<bool, AllocError>
    ensures { IfOk result (λ answer. IsTrue answer ↔ StaysClosed k.now term.now) }
{
    let Shape::Encryption(_, key) = term.shape() else {
        return Ok(false);
    };
    match Atom::new(invert(alloc, key)?) {
        Some(inverse) => Ok(has_atom(k.assumptions().non_originating(), &inverse)),
        None => Ok(false),
    }
}

/// The outermost encryption around the position that stays closed wherever the skeleton stands.
fn outermost_staying(
    alloc: Global,
    k: &Skeleton,
    message: &Term,
    path: &Path,
) -> Result<Option<Term>, AllocError>
    ensures some { IfOk result (λ answer. IfSome answer (λ e. IsFirstWith (StaysClosed k.now) (encryptions_above message.now path.now) e)) }
    ensures none { IfOk result (λ answer. IfNone answer ((e : PlainTerm) → IsFirstWith (StaysClosed k.now) (encryptions_above message.now path.now) e → ⊥)) }
{
    let encryptions = encryptions_above(alloc, message, path.as_slice())?;
    for encryption in &encryptions {
        if stays_closed(alloc, k, *encryption)? {
            return encryption.copy().map(Some);
        }
    }
    Ok(None)
}

/// The pattern that a child of a test contributes. The child's last strand releases the critical term at this position of its
/// last event. The pattern is the outermost encryption around the position whose key holds only variables of the skeleton and
/// whose inverse key is assumed non-originating by the skeleton. Its locals are the variables that the skeleton does not use.
///
/// `None` exactly if the child binds a variable of the skeleton, its last strand is not an added one that ends with a
/// transmission, or there is no such encryption.
pub fn widen(
    alloc: Global,
    k: &Skeleton,
    child: &Skeleton,
    path: &Path,
) -> Result<Option<Pattern>, AllocError>
    ensures some { IfOk result (λ answer. IfSome answer (λ p. WidensBy k.now child.now path.now p)) }
    ensures none { IfOk result (λ answer. IfNone answer ((p : Plain) → WidensBy k.now child.now path.now p → ⊥)) }
{
    let Some(message) = last_sent(alloc, k, child)? else {
        return Ok(None);
    };
    let Some(encryption) = outermost_staying(alloc, k, &message, path)? else {
        return Ok(None);
    };
    // This looks at all strands, and most children give no pattern anyway.
    if !binds_nothing(alloc, k, child)? {
        return Ok(None);
    }
    let locals = new_variables(alloc, k, &encryption)?;
    Ok(Some(Pattern::new(encryption, locals)))
}
