// Lists that hold each term once.
ghost use Rattle.std.specs.Prelude.{◌≡◌, ◌∷◌, [], OnOk};
ghost use Rattle.cp_cohort.specs.GatheredLists.{has_term, terms_onto};

use cp_term::Term;
use std::alloc::AllocError;

/// Whether the term is one of these.
fn has_term(terms: &[Term], term: &Term) -> bool
    ensures { result ≡ has_term terms.now term.now }
{
    for other in terms {
        if other.same(term) {
            return true;
        }
    }
    false
}

/// Appends a term unless it is listed already.
pub fn add_term(term: Term, terms: &mut Vec<Term>) -> Result<(), AllocError>
    ensures { OnOk result (terms.new.items ≡ terms_onto terms.old.items (term ∷ [])) }
{
    if has_term(terms, &term) {
        return Ok(());
    }
    terms.push(term).map_err(AllocError::from)
}
