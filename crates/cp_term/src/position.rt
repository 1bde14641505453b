// Carried positions in a term.
ghost use Rattle.std.specs.Prelude.{◌≡◌, ◌↔◌, ◌++◌, min, Bool, List, Some, IsTrue, IfOk, OnOk};
ghost use Rattle.std.specs.Option.{option_copied};
ghost use Rattle.cp_model.specs.Term.{Term as Plain, IsCarriedByTerm};
ghost use Rattle.cp_lists.specs.Lists.{IsIn};
ghost use Rattle.cp_model.specs.declared.step.Step.{Step as StepData};
ghost use Rattle.cp_term.specs.Preorder.{AreInPreorder};
ghost use Rattle.cp_model.specs.Positions.{depth_of, term_at, here_if, prefixed, positions_where};
ghost use Rattle.cp_model.specs.Same.{same_term};

use crate::path::Path;
use crate::term::{Node, Term};
use cp_model::Step;
use std::alloc::{AllocError, Global};

/// Whether the whole carries the part: it is the part, or a part of its pair or its plaintext carries it.
pub fn carries(whole: &Term, part: &Term) -> bool
    ensures { IsTrue result ↔ IsCarriedByTerm part.now whole.now }
{
    let mut rest = whole;
    loop {
        if rest.same(part) {
            return true;
        }
        match rest.node() {
            Node::Pair(left, right) => {
                if carries(left, part) {
                    return true;
                }
                rest = right;
            }
            Node::Encryption(body, _) => rest = body,
            _ => return false,
        }
    }
}

/// The term at a path; `None` if the path is no carried position.
pub fn at<'a>(whole: &'a Term, path: &Path) -> Option<&'a Term>
    ensures { option_copied result ≡ term_at whole.now path.now }
{
    let mut rest = whole;
    for step in path.as_slice() {
        rest = match (*step, rest.node()) {
            (Step::Left, Node::Pair(left, _)) => left,
            (Step::Right, Node::Pair(_, right)) => right,
            (Step::Plaintext, Node::Encryption(body, _)) => body,
            _ => return None,
        };
    }
    Some(rest)
}

/// A test of terms.
pub trait TermTest {
    /// Which terms pass.
    ghost passing: { Self → Plain → Bool };

    /// Whether the term passes.
    fn passes(&self, term: &Term) -> bool
        ensures { result ≡ passing self.now term.now };
}

/// A term passes itself alone.
impl TermTest for Term {
    ghost passing = { same_term };

    fn passes(&self, term: &Term) -> bool {
        self.same(term)
    }
}

/// Appends this path if the term passes the test.
fn add_here<T: TermTest>(
    term: &Term,
    test: &T,
    here: &Path,
    found: &mut Vec<Path>,
) -> Result<(), AllocError>
    ensures { OnOk result (found.new.items
        ≡ found.old.items ++ prefixed here.now (here_if (T.passing test.now term.now))) }
{
    if test.passes(term) {
        let path = here.copy()?;
        found.push(path)?;
    }
    Ok(())
}

/// Appends the paths at which the whole carries a term that passes the test, each after the steps to here.
fn add_paths<T: TermTest>(
    whole: &Term,
    test: &T,
    here: &mut Path,
    found: &mut Vec<Path>,
) -> Result<(), AllocError>
    ensures added { OnOk result (found.new.items
        ≡ found.old.items ++ prefixed here.old (positions_where (T.passing test.now) whole.now)) }
    ensures back { OnOk result (here.new ≡ here.old) }
{
    let start = here.len();
    let mut rest = whole;
    loop {
        add_here(rest, test, here, found)?;
        let level = here.len();
        match rest.node() {
            Node::Pair(left, right) => {
                here.push(Step::Left)?;
                add_paths(left, test, here, found)?;
                here.truncate(level);
                here.push(Step::Right)?;
                rest = right;
            }
            Node::Encryption(body, _) => {
                here.push(Step::Plaintext)?;
                rest = body;
            }
            _ => {
                here.truncate(start);
                return Ok(());
            }
        }
    }
}

/// The positions at which the whole carries a term that passes the test, in preorder, left before right.
pub fn paths_where<T: TermTest>(
    alloc: Global,
    whole: &Term,
    test: &T,
) -> Result<Vec<Path>, AllocError>
    ensures { IfOk result (λ v. v.items ≡ positions_where (T.passing test.now) whole.now) }
{
    let mut found = Vec::new(alloc);
    let mut here = Path::new(alloc);
    add_paths(whole, test, &mut here, &mut found)?;
    Ok(found)
}

/// The positions at which the whole carries the part, in preorder, left before right.
pub fn paths_of(alloc: Global, whole: &Term, part: &Term) -> Result<Vec<Path>, AllocError>
    ensures paths { IfOk result (λ v. v.items ≡ positions_where (same_term part.now) whole.now) }
    ensures found { IfOk result (λ v. (path : List StepData)
        → IsIn path v.items ↔ (term_at whole.now path ≡ Some part.now)) }
    ensures in_preorder { IfOk result (λ v. AreInPreorder v.items) }
{
    paths_where(alloc, whole, part)
}

/// The depth: 1 for a tag or an atom, otherwise one more than the greatest depth of the parts, but at most `u32::MAX`.
#[tactic(auto, using(crate::proofs::Depths::depth_positive))]
pub fn depth(term: &Term) -> u32
    ensures { result ≡ min (depth_of term.now) u32.MAX }
{
    let mut rest = term;
    // How many nodes lie above the rest, and the greatest depth that their left parts give.
    let mut above = 0u32;
    let mut greatest = 0u32;
    loop {
        match rest.node() {
            Node::Pair(left, right) => {
                above = above.saturating_add(1);
                greatest = greatest.max(depth(left).saturating_add(above));
                rest = right;
            }
            Node::Encryption(body, _) => {
                above = above.saturating_add(1);
                rest = body;
            }
            _ => return greatest.max(above.saturating_add(1)),
        }
    }
}
