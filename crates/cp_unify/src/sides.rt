// Two terms side by side, one level deep.
ghost use Rattle.cp_unify.specs.Sides.{AreSides};

use cp_term::{Parts, Term};

/// How two terms compare one level deep: both are pairs, with their left parts first, or both are encryptions, with
/// their keys first, and the other two parts last; or the first is a tag or of an atom sort; or the parts of the first
/// have no counterparts.
#[derive(Clone, Copy)]
pub(crate) enum Sides<'a> {
    Parts(&'a Term, &'a Term, &'a Term, &'a Term),
    Leaf,
    Apart,
}

/// How two terms compare one level deep.
pub(crate) fn beside<'a>(first: &'a Term, second: &'a Term) -> Sides<'a>
    ensures { AreSides result first.now second.now }
{
    match (first.parts(), second.parts()) {
        (Parts::Pair(a, c), Parts::Pair(b, d)) => Sides::Parts(a, b, c, d),
        (Parts::Encryption(c, a), Parts::Encryption(d, b)) => Sides::Parts(a, b, c, d),
        (Parts::Leaf, _) => Sides::Leaf,
        _ => Sides::Apart,
    }
}
