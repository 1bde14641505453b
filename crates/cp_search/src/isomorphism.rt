// Whether two labels are isomorphic. Equal ones are told without an embedding.
ghost use Rattle.std.specs.Prelude.{◌≡◌, ◌↔◌, IsTrue, IfOk};
ghost use Rattle.cp_fingerprint.specs.Isomorphic.{IsIsomorphic};
ghost use Rattle.cp_skel.specs.Tables.{DiffersInTable};
ghost use Rattle.cp_strand.specs.View.{instance_view};

use cp_collapse::are_same_terms;
use cp_hom::isomorphic;
use cp_skel::{
    Assumptions, FromProblem, Instance, OrderPair, Skeleton, Strand, StrandShape, is_same_role,
};
use cp_strand::are_same;
use std::alloc::{AllocError, Global};

/// Whether two instances have the same height, terms and role.
fn is_same_instance(a: &Instance, b: &Instance) -> bool
    ensures { IsTrue result → instance_view a.now ≡ instance_view b.now }
{
    a.height() == b.height()
        && are_same_terms(a.values(), b.values())
        && is_same_role(a.role(), b.role())
}

/// Whether two strands are found to be the same.
fn is_same_strand(a: &Strand, b: &Strand) -> bool
    ensures { IsTrue result → a.now ≡ b.now }
{
    match (a.shape(), b.shape()) {
        (StrandShape::Instance(first), StrandShape::Instance(second)) => {
            is_same_instance(first, second)
        }
        (StrandShape::Listener(first), StrandShape::Listener(second)) => first.same(second),
        _ => false,
    }
}

/// Whether the strands of two lists are found to be the same, place by place.
fn are_same_strands(a: &[Strand], b: &[Strand]) -> bool
    ensures { IsTrue result → a.now ≡ b.now }
{
    if a.len() != b.len() {
        return false;
    }
    for index in 0..a.len() {
        if !is_same_strand(&a[index], &b[index]) {
            return false;
        }
    }
    true
}

/// Whether the pairs are the same.
fn are_same_pairs(a: &[OrderPair], b: &[OrderPair]) -> bool
    ensures { IsTrue result → a.now ≡ b.now }
{
    a == b
}

/// Whether the assumptions are the same.
fn are_same_assumptions(a: &Assumptions, b: &Assumptions) -> bool
    ensures { IsTrue result → a.now ≡ b.now }
{
    are_same(a.non_originating(), b.non_originating())
        && are_same(
            a.penetrator_non_originating(),
            b.penetrator_non_originating(),
        )
        && are_same(a.uniquely_originating(), b.uniquely_originating())
}

/// Whether the maps from a problem are the same.
fn are_same_maps(a: &FromProblem, b: &FromProblem) -> bool
    ensures { IsTrue result → a.now ≡ b.now }
{
    a.strands() == b.strands()
        && are_same_terms(a.values(), b.values())
        && are_same_assumptions(a.assumptions(), b.assumptions())
        && are_same_pairs(a.pairs(), b.pairs())
}

/// Whether two skeletons differ at most in their tables of variables.
fn differ_in_tables_alone(a: &Skeleton, b: &Skeleton) -> bool
    ensures { IsTrue result → DiffersInTable a.now b.now }
{
    are_same_pairs(a.order().pairs(), b.order().pairs())
        && are_same_strands(a.strands(), b.strands())
        && are_same_maps(a.from_problem(), b.from_problem())
        && are_same_assumptions(a.assumptions(), b.assumptions())
}

/// Whether two skeletons are isomorphic. Embeddings are looked for only if more than their tables of variables differ.
pub(crate) fn are_isomorphic(alloc: Global, a: &Skeleton, b: &Skeleton) -> Result<bool, AllocError>
    ensures exact { IfOk result (λ same. IsTrue same ↔ IsIsomorphic a.now b.now) }
{
    if differ_in_tables_alone(a, b) {
        return Ok(true);
    }
    isomorphic(alloc, a, b)
}
