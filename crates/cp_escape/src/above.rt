// The encryptions that enclose a position.
ghost use Rattle.std.specs.Prelude.{◌≡◌, map, IfOk};
ghost use Rattle.cp_theory.specs.Above.{encryptions_above};

use cp_term::{Shape, Step, Term};
use std::alloc::{AllocError, Global};

/// The encryptions that properly enclose a carried position, outermost first.
pub(crate) fn encryptions_above<'a>(
    alloc: Global,
    message: &'a Term,
    path: &[Step],
) -> Result<Vec<&'a Term>, AllocError>
    ensures { IfOk result (λ es. map (λ e. e.now) es.items ≡ encryptions_above message.now path.now) }
{
    let mut encryptions = Vec::new(alloc);
    let mut rest = message;
    for step in path {
        rest = match (*step, rest.shape()) {
            (Step::Left, Shape::Pair(left, _)) => left,
            (Step::Right, Shape::Pair(_, right)) => right,
            (Step::Plaintext, Shape::Encryption(body, _)) => {
                encryptions.push(rest)?;
                body
            }
            _ => return Ok(encryptions),
        };
    }
    Ok(encryptions)
}
