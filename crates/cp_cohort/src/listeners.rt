// Children with an added listener, on a key or plaintext that may release the critical term, or on a key that opens a pattern.
ghost use Rattle.std.specs.Prelude.{◌≡◌, ◌∷◌, [], length, IfOk, OnOk};
ghost use Rattle.cp_cohort.specs.Cohort.{Listens, OpensPattern, AreListeners};
ghost use Rattle.cp_cohort.specs.Children.{AddsListenerBefore};
ghost use Rattle.cp_cohort.specs.HeardTerms.{FreesOnto, AreHeard};
ghost use Rattle.cp_cohort.specs.Views.{PutsChildren};

use crate::add_term;
use crate::child::{Child, Made};
use crate::contracted::put_forms;
use crate::guarded_test::GuardedTest;
use cp_derive::buildable;
use cp_skel::{Node, Skeleton};
use cp_term::{Path, Pattern, Shape, Term, invert};
use std::alloc::{AllocError, Global};

/// If the critical term is an encryption, appends the term that may release it: its key, if the key is not derivable at the node,
/// otherwise its plaintext.
fn add_freeing(guarded_test: &GuardedTest, terms: &mut Vec<Term>) -> Result<(), AllocError>
    ensures { OnOk result (FreesOnto guarded_test.now terms.old.items terms.new.items) }
{
    let Shape::Encryption(body, key) = guarded_test.critical.shape() else {
        return Ok(());
    };
    if buildable(guarded_test.at.known(), key) {
        let plaintext = body.copy()?;
        return add_term(plaintext, terms);
    }
    let key = key.copy()?;
    add_term(key, terms)
}

/// The inverse of a pattern's key, which opens the pattern.
fn opening(alloc: Global, pattern: &Pattern) -> Result<Term, AllocError>
    ensures { IfOk result (λ t. OpensPattern pattern.now (t ∷ [])) }
{
    match pattern.term().shape() {
        Shape::Encryption(_, key) => invert(alloc, key),
        _ => unreachable!(),
    }
}

/// The terms on which listeners are added, each once.
fn heard(alloc: Global, guarded_test: &GuardedTest) -> Result<Vec<Term>, AllocError>
    ensures { IfOk result (λ ts. AreHeard guarded_test.now ts.items) }
{
    let mut terms = Vec::new(alloc);
    add_freeing(guarded_test, &mut terms)?;
    let patterns = guarded_test.patterns;
    for pattern in patterns {
        let term = opening(alloc, pattern)?;
        add_term(term, &mut terms)?;
    }
    Ok(terms)
}

/// Adds a listener on the term to a copy of the test's skeleton, and puts the listener's transmission before the node.
/// Returns the new strand's number.
fn add_before(
    alloc: Global,
    guarded_test: &GuardedTest,
    term: &Term,
    k: &mut Skeleton,
) -> Result<usize, AllocError>
    requires copied { k.old ≡ guarded_test.now.skeleton }
    ensures number { IfOk result (λ s. s ≡ length guarded_test.now.skeleton.strands) }
    ensures put { IfOk result (λ s. AddsListenerBefore guarded_test.now term.now s k.new) }
{
    guarded_test.is_test();
    k.is_sound();
    let message = term.copy()?;
    let strand = k.add_listener(alloc, message)?;
    let sent = Node { strand, index: 1 };
    if !k.add_order(alloc, sent, guarded_test.node)? {
        unreachable!();
    }
    Ok(strand)
}

/// Appends the children for a listener on the term, built in this copy of the test's skeleton.
fn listen_in(
    alloc: Global,
    guarded_test: &GuardedTest,
    term: &Term,
    mut k: Skeleton,
    children: &mut Vec<Child>,
) -> Result<(), AllocError>
    requires copied { k ≡ guarded_test.now.skeleton }
    ensures { OnOk result (PutsChildren (Listens guarded_test.now term.now) children.old.items children.new.items) }
{
    guarded_test.is_test();
    let strand = add_before(alloc, guarded_test, term, &mut k)?;
    let path = Path::new(alloc);
    put_forms(alloc, k, Made::AddedListener(strand), &path, children)
}

/// Appends all children with an added listener.
pub(crate) fn listen(
    alloc: Global,
    guarded_test: &GuardedTest,
    children: &mut Vec<Child>,
) -> Result<(), AllocError>
    ensures { OnOk result (PutsChildren (AreListeners guarded_test.now) children.old.items children.new.items) }
{
    let terms = heard(alloc, guarded_test)?;
    for term in &terms {
        let k = guarded_test.skeleton.copy(alloc)?;
        listen_in(alloc, guarded_test, term, k, children)?;
    }
    Ok(())
}
