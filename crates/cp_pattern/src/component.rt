// Components of messages.
ghost use Rattle.std.specs.Prelude.{◌↔◌, IsTrue};
ghost use Rattle.cp_theory.specs.Critical.{IsComponent};

use cp_term::{Shape, Term};

/// Whether `part` is a component of `whole`: a part of its pair tree that is not a pair itself.
pub(crate) fn is_component(part: &Term, whole: &Term) -> bool
    ensures { IsTrue result ↔ IsComponent part.now whole.now }
{
    let mut rest = whole;
    loop {
        match rest.shape() {
            Shape::Pair(left, right) => {
                if is_component(part, left) {
                    return true;
                }
                rest = right;
            }
            _ => return rest.same(part),
        }
    }
}
