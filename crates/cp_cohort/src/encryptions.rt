// The encryptions that enclose a position.
ghost use Rattle.std.specs.Prelude.{◌≡◌, IfOk};
ghost use Rattle.cp_theory.specs.Above.{encryptions_above};

use cp_term::{Path, Shape, Step, Term};
use std::alloc::{AllocError, Global};

/// The encryptions that properly enclose a carried position, outermost first.
pub fn encryptions_above(alloc: Global, term: &Term, path: &Path) -> Result<Vec<Term>, AllocError>
    ensures { IfOk result (λ above. above.items ≡ encryptions_above term.now path.now) }
{
    let mut rest = term;
    let mut above = Vec::new(alloc);
    for step in path.as_slice() {
        match (*step, rest.shape()) {
            (Step::Left, Shape::Pair(left, _)) => rest = left,
            (Step::Right, Shape::Pair(_, right)) => rest = right,
            (Step::Plaintext, Shape::Encryption(body, _)) => {
                let encryption = rest.copy()?;
                above.push(encryption)?;
                rest = body;
            }
            _ => return Ok(above),
        }
    }
    Ok(above)
}
