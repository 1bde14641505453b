// Finds the first component of a message that is not derivable.
ghost use Rattle.std.specs.Prelude.{◌≡◌, ◌↔◌, Some, IsNone, IfSome, IfOk};
ghost use Rattle.cp_model.specs.Positions.{term_at};
ghost use Rattle.cp_derive.specs.Given.{IsDerivable};
ghost use Rattle.cp_derive.specs.Components.{IsFirstUnderivable};
ghost use Rattle.cp_derive.specs.Walk.{FindsComponent};

use crate::component::Critical;
use crate::form::{Form, form_of};
use crate::knowledge::{Known, buildable};
use cp_term::{Path, Step, Term};
use std::alloc::{AllocError, Global};

/// Finds the first component of the whole that is not derivable, and extends the path to it.
fn find(known: &Known, whole: &Term, here: &mut Path) -> Result<Option<Term>, AllocError>
    ensures { IfOk result (λ found. FindsComponent known.now whole.now here.old here.new found) }
{
    let start = here.len();
    let mut rest = whole;
    loop {
        match form_of(rest) {
            Form::Pair(left, right) => {
                let level = here.len();
                here.push(Step::Left)?;
                if let Some(found) = find(known, left, here)? {
                    return Ok(Some(found));
                }
                here.truncate(level);
                here.push(Step::Right)?;
                rest = right;
            }
            _ => {
                if !buildable(known, rest) {
                    let term = rest.copy()?;
                    return Ok(Some(term));
                }
                here.truncate(start);
                return Ok(None);
            }
        }
    }
}

/// The critical term: the first component of the message, from left to right, that is not derivable. `None` exactly if the
/// message is derivable.
pub fn critical_in(alloc: Global, known: &Known, t: &Term) -> Result<Option<Critical>, AllocError>
    ensures none { IfOk result (λ found. IsNone found ↔ IsDerivable known.now t.now) }
    ensures first { IfOk result (λ found. IfSome found (λ c. IsFirstUnderivable (IsDerivable known.now) t.now c.path c.term)) }
    ensures place { IfOk result (λ found. IfSome found (λ c. term_at t.now c.path ≡ Some c.term)) }
{
    let mut path = Path::new(alloc);
    match find(known, t, &mut path)? {
        None => Ok(None),
        Some(term) => Ok(Some(Critical { path, term })),
    }
}
