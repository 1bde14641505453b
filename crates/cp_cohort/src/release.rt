// Releases of a critical term, and partial solutions of them.
use cp_skel::{Node, Skeleton};
use cp_term::{Path, Pattern, Term};
use cp_unify::Subst;
use std::marker::Model;

/// A release of a critical term: the event at a node carries the term at a position, which must be outside the patterns. Patterns
/// and term are over the variables of the first skeleton.
#[derive(Drop)]
pub struct Release<'a> {
    pub patterns: &'a [Pattern],
    pub critical: &'a Term,
    pub node: Node,
    pub path: &'a Path,
}

impl<'a> Model for Release<'a> {
    ghost use Rattle.cp_cohort.specs.Releases.{Release};
    ghost use Rattle.cp_cohort.specs.Code.{coded_release};

    ghost Value = { Release };

    ghost coded = { coded_release };

    ghost view = { λ r. record { patterns = r.patterns.now; critical = r.critical.now; strand = r.node.strand; index = r.node.index; path = r.path.now } };
}

/// A partial solution of a release: a skeleton, and the substitution by which it comes from the first one.
#[derive(Drop)]
pub struct PartialSolution {
    pub skeleton: Skeleton,
    pub substitution: Subst,
}
