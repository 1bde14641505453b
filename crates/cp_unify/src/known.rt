// Matches whose outcome the bindings already decide: those of variables, long-term keys and keys of names.
ghost use Rattle.std.specs.Prelude.{◌≡◌, true, false, Some, None, if◌then◌else◌, IfSome};
ghost use Rattle.std.specs.Option.{option_map};
ghost use Rattle.cp_model.specs.Term.{ltk_term, pubk_term, symmetric_term, asymmetric_term};
ghost use Rattle.cp_term.specs.Keys.{key_as_term};
ghost use Rattle.cp_term.specs.Variables.{variable_of_sort};
ghost use Rattle.cp_unify.specs.Beside.{MatchesBeside, NeverMatchesBeside};
ghost use Rattle.cp_unify.specs.Matched.{is_listed, matched, matched_names};

use crate::difference::is_same_purpose;
use crate::matcher::{is_bound_to, is_variable};
use crate::subst::Subst;
use cp_term::{Shape, Sort, Term, VarId, is_of_sort};

/// Whether a variable of this sort is bound to the term; `None` if it is not bound and has the term's sort.
fn known_variable(variable: VarId, sort: Sort, term: &Term, given: &Subst) -> Option<bool>
    ensures { IfSome result (λ same. matched (is_listed None) (variable_of_sort sort variable) term.now given.now ≡ (if same then Some given.now else None)) }
{
    if !is_of_sort(term, sort) {
        return Some(false);
    }
    is_bound_to(given, sort, variable, term)
}

/// Whether a name is bound to a name; `None` if it is not bound.
fn known_name(a: VarId, b: VarId, given: &Subst) -> Option<bool>
    ensures { IfSome result (λ same. matched_names (is_listed None) a b given.now ≡ (if same then Some given.now else None)) }
{
    let found = given.bound(Sort::Name, a)?;
    Some(is_variable(found, Sort::Name, b))
}

/// Whether the bindings make a long-term key of two names the term; `None` if that depends on a name that is not bound.
fn known_ltk(a: VarId, b: VarId, term: &Term, given: &Subst) -> Option<bool>
    ensures { IfSome result (λ same. matched (is_listed None) (key_as_term (symmetric_term (ltk_term a b))) term.now given.now ≡ (if same then Some given.now else None)) }
{
    let Shape::Ltk(c, d) = term.shape() else {
        return Some(false);
    };
    if known_name(a, c, given)? {
        known_name(b, d, given)
    } else {
        Some(false)
    }
}

/// Whether the bindings make a key of a name the term; `None` if that depends on the name, and it is not bound.
fn known_pubk(
    flag: bool,
    purpose: Option<&str>,
    a: VarId,
    term: &Term,
    given: &Subst,
) -> Option<bool>
    ensures { IfSome result (λ same. matched (is_listed None)
        (key_as_term (asymmetric_term flag (pubk_term (option_map (λ s. s.now) purpose.entry) a))) term.now given.now ≡ (if same then Some given.now else None)) }
{
    let Shape::Pubk(other, other_purpose, b) = term.shape() else {
        return Some(false);
    };
    if flag == other && is_same_purpose(purpose, other_purpose) {
        known_name(a, b, given)
    } else {
        Some(false)
    }
}

/// The outcome of a match, if no more bindings are needed to know it.
fn known(pattern: &Term, term: &Term, given: &Subst) -> Option<bool>
    ensures { IfSome result (λ same. matched (is_listed None) pattern.now term.now given.now ≡ (if same then Some given.now else None)) }
{
    match pattern.shape() {
        Shape::Variable(variable, sort) => known_variable(variable, sort, term, given),
        Shape::Ltk(a, b) => known_ltk(a, b, term, given),
        Shape::Pubk(flag, purpose, a) => known_pubk(flag, purpose, a, term, given),
        _ => None,
    }
}

/// The outcome of a match beside these bindings, if they decide it: `true` only if they make the pattern the term
/// already, `false` only if no substitution that agrees with them does. `None` if it depends on a variable that is not
/// bound, and for all patterns except variables, long-term keys and keys of names.
pub fn known_match(pattern: &Term, term: &Term, given: &Subst) -> Option<bool>
    ensures same { result ≡ Some true → MatchesBeside pattern.now term.now given.now given.now }
    ensures never { result ≡ Some false → NeverMatchesBeside pattern.now term.now given.now }
{
    known(pattern, term, given)
}
