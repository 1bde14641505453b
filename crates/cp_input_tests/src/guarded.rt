// The test of a text that was sent under a key, and the pattern that guards it.
ghost use Rattle.std.specs.Prelude.{◌≡◌};
ghost use Rattle.cp_model.specs.declared.sort.Sort.TheVariants.{Text};

use crate::stated::{skeleton_of, text};
use cp_model::{Node, Variable};
use cp_pattern::{all_within, is_guarded, is_test};
use cp_skel::{Skeleton, StrandShape};
use cp_term::{Locals, Pattern, Sort, Term, VarId, enc, var};
use std::alloc::{AllocError, Global};
use std::test::Fail;

const SEALING: &str =
    "(defprotocol v basic (defrole s (vars (n text) (k skey)) (trace (send (enc n k)))))";

const HEARD: &str =
    "(defskeleton v (vars (n text) (k skey)) (defstrand s 1 (n n) (k k)) (deflistener n) \
    (precedes ((0 0) (1 0))) (non-orig k) (uniq-orig n))";

/// The variable of sort text with this number.
fn text_numbered(number: usize) -> Variable
    ensures { result ≡ record { sort = Text; number = number } }
{
    Variable {
        sort: Sort::Text,
        number,
    }
}

/// The pattern of any text under the key 1.
fn pattern(alloc: Global) -> Result<Pattern, AllocError> {
    let text = VarId::numbered(0);
    let mut locals = Locals::new(alloc);
    locals.push(text_numbered(0))?;
    let key = var(alloc, VarId::numbered(1), Sort::Skey)?;
    let term = enc(alloc, var(alloc, text, Sort::Text)?, key)?;
    Ok(Pattern::new(term, locals))
}

fn node(strand: usize, index: usize) -> Node {
    Node { strand, index }
}

/// Whether the text is a test at the listener's reception, and none at the strand's transmission.
fn is_tested(alloc: Global, k: &Skeleton, text: &Term) -> Result<bool, AllocError> {
    Ok(is_test(alloc, k, node(1, 0), text)? && !is_test(alloc, k, node(0, 0), text)?)
}

/// Whether these patterns guard the test of the text.
fn do_guard(
    alloc: Global,
    k: &Skeleton,
    text: &Term,
    patterns: &[Pattern],
) -> Result<bool, AllocError> {
    is_guarded(alloc, k, node(1, 0), text, patterns)
}

/// Whether the pattern guards the test of the text.
fn guards(alloc: Global, k: &Skeleton, text: &Term) -> Result<bool, AllocError> {
    let patterns = Vec::from_array(alloc, [pattern(alloc)?])?;
    do_guard(alloc, k, text, &patterns)
}

/// Whether the text is a test, which is guarded with the pattern and not without it.
fn is_tested_and_guarded(alloc: Global, k: &Skeleton) -> Result<bool, AllocError> {
    let text = text(alloc, 0)?;
    Ok(is_tested(alloc, k, &text)? && guards(alloc, k, &text)? && !do_guard(alloc, k, &text, &[])?)
}

/// Whether the text is one of these locals or occurs in the first strand's role.
fn is_within(k: &Skeleton, locals: &[Variable], text: &Term) -> bool {
    match k.strands().first() {
        Some(strand) => match strand.shape() {
            StrandShape::Instance(instance) => all_within(instance.role().trace(), locals, text),
            StrandShape::Listener(_) => false,
        },
        None => false,
    }
}

/// Whether the text 0 occurs in the role, and the text 2 only passes as a local.
fn are_within(alloc: Global, k: &Skeleton) -> Result<bool, AllocError> {
    let other = text(alloc, 2)?;
    Ok(
        is_within(k, &[], &text(alloc, 0)?)
            && !is_within(k, &[], &other)
            && is_within(k, &[text_numbered(2)], &other),
    )
}

#[test]
fn tests_and_guards(rt: HostRuntime) -> Result<(), Fail> {
    let k = skeleton_of(rt.alloc(), SEALING, HEARD)?;
    assert!(rt; is_tested_and_guarded(rt.alloc(), &k)? && are_within(rt.alloc(), &k)?);
    Ok(())
}
