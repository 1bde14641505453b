// Children that widen a set of patterns.
ghost use Rattle.std.specs.Prelude.{◌≡◌, ◌↔◌, ◌<◌, length, true, IfOk, IfNone, IfSome};
ghost use Rattle.cp_model.specs.Tree.{Pattern as PlainPattern};
ghost use Rattle.cp_expansion.specs.Expansion.{most_patterns};
ghost use Rattle.cp_expansion.specs.Widened.{GivesPattern, GivesWhileOpen};

use cp_cohort::{Child, GivesPatterns};
use cp_escape::widen;
use cp_skel::{Operation, Skeleton};
use cp_term::Pattern;
use std::alloc::{AllocError, Global};

/// A set of patterns is widened only while it has fewer patterns than this.
const MOST_PATTERNS: usize = 32;

/// What may widen a set of patterns for a test of a skeleton, and whether the set may still be widened.
#[derive(Clone, Copy)]
pub(crate) struct Widenings<'a> {
    pub skeleton: &'a Skeleton,
    pub is_open: bool,
}

impl<'a> Widenings<'a> {
    /// What may widen this set of patterns for a test of a skeleton.
    pub(crate) fn of(k: &'a Skeleton, patterns: &[Pattern]) -> Widenings<'a>
        ensures skeleton { result.skeleton.now ≡ k.now }
        ensures open { (result.is_open ≡ true) ↔ (length patterns.now < most_patterns) }
    {
        Widenings {
            skeleton: k,
            is_open: patterns.len() < MOST_PATTERNS,
        }
    }
}

/// The pattern that a child gives, if the child adds a strand and gives one.
fn pattern_of(alloc: Global, k: &Skeleton, child: &Child) -> Result<Option<Pattern>, AllocError>
    ensures some { IfOk result (λ p. IfSome p (λ p. GivesPattern k.now child.now p)) }
    ensures none { IfOk result (λ p. IfNone p ((q : PlainPattern) → GivesPattern k.now child.now q → ⊥)) }
{
    match child.operation {
        Operation::AddedStrand(_) => widen(alloc, k, &child.skeleton, &child.path),
        _ => Ok(None),
    }
}

impl<'a> GivesPatterns for Widenings<'a> {
    ghost gives = { GivesWhileOpen };

    fn pattern_of(&self, alloc: Global, child: &Child) -> Result<Option<Pattern>, AllocError> {
        if !self.is_open {
            return Ok(None);
        }
        pattern_of(alloc, self.skeleton, child)
    }
}
