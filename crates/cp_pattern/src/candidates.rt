// Positions at which a critical term may stand.
ghost use Rattle.std.specs.Prelude.{◌≡◌, IfOk};
ghost use Rattle.cp_model.specs.Term.{tag_term};
ghost use Rattle.cp_model.specs.Positions.{positions_where};
ghost use Rattle.cp_pattern.specs.Candidates.{may_equal, carries_where};

use cp_term::{Path, Shape, Sort, Term, TermTest, is_of_sort, paths_where};
use std::alloc::{AllocError, Global};

/// Whether the term is the tag of this text.
fn is_tag(text: &str, term: &Term) -> bool
    ensures { result ≡ may_equal (tag_term text.now) term.now }
{
    match term.shape() {
        Shape::Tag(other) => text == other,
        _ => false,
    }
}

/// Whether values may make the two terms equal, as far as their forms and the sorts of their atoms tell. Right parts and
/// plaintexts are walked by a loop, since a term may be long.
fn is_candidate(critical: &Term, term: &Term) -> bool
    ensures { result ≡ may_equal critical.now term.now }
{
    let mut sought = critical;
    let mut there = term;
    'parts: loop {
        match sought.shape() {
            Shape::Tag(text) => return is_tag(text, there),
            Shape::Variable(_, sort) => return is_of_sort(there, sort),
            Shape::Inverse(_) => return is_of_sort(there, Sort::Akey),
            Shape::Pubk(..) => return is_of_sort(there, Sort::Akey),
            Shape::Ltk(..) => return is_of_sort(there, Sort::Skey),
            Shape::Pair(left, right) => {
                let Shape::Pair(left_there, right_there) = there.shape() else {
                    return false;
                };
                if !is_candidate(left, left_there) {
                    return false;
                }
                sought = right;
                there = right_there;
            }
            Shape::Encryption(body, key) => {
                let Shape::Encryption(body_there, key_there) = there.shape() else {
                    return false;
                };
                if !is_candidate(key, key_there) {
                    return false;
                }
                sought = body;
                there = body_there;
            }
        }
    }
}

/// Passes the terms that values may make equal to the critical one.
#[derive(Clone, Copy)]
struct MayEqual<'a> {
    critical: &'a Term,
}

impl TermTest for MayEqual<'_> {
    ghost passing = { λ t. may_equal t.critical.now };

    fn passes(&self, term: &Term) -> bool {
        is_candidate(self.critical, term)
    }
}

/// The positions at which the whole carries a term that may equal the critical one, in preorder, left before right.
pub fn positions_for(alloc: Global, whole: &Term, critical: &Term) -> Result<Vec<Path>, AllocError>
    ensures { IfOk result (λ v. v.items ≡ positions_where (may_equal critical.now) whole.now) }
{
    paths_where(alloc, whole, &MayEqual { critical })
}

/// Whether the whole carries a term that may equal the critical one.
pub fn may_carry(whole: &Term, critical: &Term) -> bool
    ensures { result ≡ carries_where (may_equal critical.now) whole.now }
{
    let mut rest = whole;
    'rest: loop {
        if is_candidate(critical, rest) {
            return true;
        }
        match rest.shape() {
            Shape::Pair(left, right) => {
                if may_carry(left, critical) {
                    return true;
                }
                rest = right;
            }
            Shape::Encryption(body, _) => rest = body,
            _ => return false,
        }
    }
}
