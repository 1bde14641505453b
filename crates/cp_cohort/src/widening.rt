// Patterns that children with an added strand give.
ghost use Rattle.std.specs.Prelude.{IfOk, IfNone, IfSome};
ghost use Rattle.cp_model.specs.Tree.{Pattern as PlainPattern};
ghost use Rattle.cp_cohort.specs.declared.child.Child.{Child as PlainChild};
ghost use Rattle.cp_cohort.specs.Widening.{FindsWidening, NoneGives};

use crate::child::Child;
use cp_term::Pattern;
use std::alloc::{AllocError, Global};

/// Tells which children give patterns.
pub trait GivesPatterns {
    /// The patterns that a child gives.
    ghost gives: { Self → PlainChild → PlainPattern → Type 0 };

    /// A pattern that a child gives. `None` exactly if it gives none.
    fn pattern_of(&self, alloc: Global, child: &Child) -> Result<Option<Pattern>, AllocError>
        ensures some { IfOk result (λ p. IfSome p (λ p. gives self.now child.now p)) }
        ensures none { IfOk result (λ p. IfNone p ((q : PlainPattern) → gives self.now child.now q → ⊥)) };
}

/// No child gives a pattern.
pub(crate) struct NoPatterns;

impl GivesPatterns for NoPatterns {
    ghost gives = { λ _ c p. ⊥ };

    fn pattern_of(&self, _alloc: Global, _child: &Child) -> Result<Option<Pattern>, AllocError> {
        Ok(None)
    }
}

/// A pattern, and the child that gives it.
#[derive(Drop)]
pub struct Widening {
    pub child: usize,
    pub pattern: Pattern,
}

/// The first of the children from this number on that gives a pattern.
pub(crate) fn first_widening<S: GivesPatterns>(
    alloc: Global,
    source: &S,
    children: &[Child],
    from: usize,
) -> Result<Option<Widening>, AllocError>
    ensures { IfOk result (λ found. NoneGives (S.gives source.now) children.now from → FindsWidening (S.gives source.now) children.now found) }
{
    for number in from..children.len() {
        if let Some(pattern) = source.pattern_of(alloc, &children[number])? {
            return Ok(Some(Widening {
                child: number,
                pattern,
            }));
        }
    }
    Ok(None)
}
