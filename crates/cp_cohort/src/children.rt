// The cohort of a test.
ghost use Rattle.std.specs.Prelude.{◌≡◌, ◌++◌, [], map, IfOk};
ghost use Rattle.cp_theory.specs.Critical.{IsTest};
ghost use Rattle.cp_theory.specs.Guards.{Guards};
ghost use Rattle.cp_lists.specs.Lists.{IsIn};
ghost use Rattle.cp_model.specs.Bundle.{Bundle, IsBundle};
ghost use Rattle.cp_model.specs.Standing.{Standing, StandsIn, StandsApart};
ghost use Rattle.cp_theory.specs.NoneLeftOut.{IsComplete};
ghost use Rattle.cp_cohort.specs.CoveringChildren.{Child as PlainChild};
ghost use Rattle.cp_cohort.specs.Cohort.{IsCohort, guarded_test_of};
ghost use Rattle.cp_cohort.specs.Sound.{IsSoundChild};
ghost use Rattle.cp_cohort.specs.Released.{HasItsOperation};
ghost use Rattle.cp_cohort.specs.Through.{GoesThroughChild};
ghost use Rattle.cp_cohort.specs.Asked.{IsAskedOver};
ghost use Rattle.cp_cohort.specs.Widening.{IsCohortUntil};

use crate::added::add;
use crate::child::Child;
use crate::guarded_test::GuardedTest;
use crate::listeners::listen;
use crate::widening::{GivesPatterns, NoPatterns, Widening};
use crate::{children_are_sound, cohorts_cover, operations_are_true};
use cp_derive::AtTest;
use cp_skel::{Node, Protocol, Skeleton};
use cp_term::{Pattern, Term};
use std::alloc::{AllocError, Global};

/// The initial capacity for children: few tests have more, and a list that outgrows it is moved.
const ROOM: usize = 8;

/// The children of a test, unless one with an added strand gives a pattern: then the first children with an added strand, and the
/// first pattern.
#[derive(Drop)]
pub struct CohortUntil {
    pub children: Vec<Child>,
    pub widening: Option<Widening>,
}

/// The test with the patterns that guard it.
fn guarded<'a>(test: &'a AtTest<'_>, patterns: &'a [Pattern]) -> GuardedTest<'a>
    ensures { result ≡ guarded_test_of test.now.skeleton test.now.node test.now.critical patterns.now }
{
    test.is_test();
    let place = test.at();
    GuardedTest {
        skeleton: place.skeleton(),
        node: place.node(),
        at: place,
        critical: test.critical(),
        patterns,
    }
}

/// The second list behind the first.
fn joined(front: Vec<Child>, rest: Vec<Child>) -> Result<Vec<Child>, AllocError>
    ensures { IfOk result (λ cs. cs.items ≡ front.items ++ rest.items) }
{
    if front.is_empty() {
        return Ok(rest);
    }
    let mut all = front;
    let mut rest = rest;
    all.append(&mut rest)?;
    Ok(all)
}

/// The children of a test: contracted, displaced, with an added strand, with an added listener. Those with an added strand are
/// made first, until one of them gives a pattern.
fn children_until<S: GivesPatterns>(
    alloc: Global,
    protocol: &Protocol,
    guarded_test: &GuardedTest,
    source: &S,
) -> Result<CohortUntil, AllocError>
    ensures { IfOk result (λ r. IsCohortUntil (S.gives source.now) protocol.now guarded_test.now r.children.items r.widening) }
{
    let mut added = Vec::with_capacity(alloc, ROOM)?;
    if let Some(widening) = add(alloc, protocol, guarded_test, source, &mut added)? {
        return Ok(CohortUntil {
            children: added,
            widening: Some(widening),
        });
    }
    let mut front = Vec::new(alloc);
    guarded_test.contract(alloc, &mut front)?;
    guarded_test.displace(alloc, &mut front)?;
    let mut children = joined(front, added)?;
    listen(alloc, guarded_test, &mut children)?;
    Ok(CohortUntil {
        children,
        widening: None,
    })
}

/// The children of a test: contracted, displaced, with an added strand, with an added listener.
fn children_of(
    alloc: Global,
    protocol: &Protocol,
    guarded_test: &GuardedTest,
) -> Result<Vec<Child>, AllocError>
    ensures { IfOk result (λ cs. IsCohort protocol.now guarded_test.now cs.items) }
{
    children_until(alloc, protocol, guarded_test, &NoPatterns).map(|made| made.children)
}

/// The cohort of a test under patterns that guard it: all children, in this order: contracted, displaced, with an added strand,
/// with an added listener; within each kind by strand or role, then by event, then by position in preorder. Each child is in
/// normal form.
///
/// - Contracted: at a position outside the patterns, in a transmission of a role strand before the node, a term other than the
///   critical one is unified with the critical term.
/// - Displaced: a transmission of a role strand, on another strand and not before the node, is put before the node, unless that
///   closes a cycle; the strand is extended up to it if necessary. A term at a position of that transmission is unified with the
///   critical term. The position must be outside the patterns, and each earlier event of the strand must carry the critical term
///   inside the patterns alone.
/// - Added strand: the same with a new strand of each role, for each transmission of the role.
/// - Added listener: on the key of a critical encryption if that key is not derivable at the node, otherwise on the plaintext;
///   and on the inverse of each pattern's key. Each such term is heard once.
///
/// The children miss no execution. Let the skeleton be one over the protocol with declared variables. Whenever it stands apart in
/// a bundle over the protocol, some child does too, and the skeleton's standing factors through the child's along a homomorphism;
/// so there are no children only if the skeleton stands apart in no bundle. Each child is then a skeleton over the protocol that
/// keeps what the skeleton keeps of its problem, and what its operation says of it is true.
///
/// The patterns must guard the test.
pub fn cohort_at(
    alloc: Global,
    protocol: &Protocol,
    test: &AtTest<'_>,
    patterns: &[Pattern],
) -> Result<Vec<Child>, AllocError>
    requires guards { Guards patterns.now test.now.skeleton test.now.node test.now.critical }
    ensures exact { IfOk result (λ cs. IsCohort protocol.now (guarded_test_of test.now.skeleton test.now.node test.now.critical patterns.now) cs.items) }
    ensures leaves_none_out { IfOk result (λ cs. IsAskedOver protocol.now (guarded_test_of test.now.skeleton test.now.node test.now.critical patterns.now) → IsComplete protocol.now test.now.skeleton (map (λ (c : PlainChild). c.skeleton) cs.items)) }
    ensures through_a_child { IfOk result (λ cs. IsAskedOver protocol.now (guarded_test_of test.now.skeleton test.now.node test.now.critical patterns.now)
        → (b : Bundle) (h : Standing) → IsBundle protocol.now b → StandsIn test.now.skeleton b h → StandsApart test.now.skeleton h → GoesThroughChild (guarded_test_of test.now.skeleton test.now.node test.now.critical patterns.now) cs.items b h) }
    ensures none_only_nowhere { IfOk result (λ cs. cs.items ≡ [] → IsAskedOver protocol.now (guarded_test_of test.now.skeleton test.now.node test.now.critical patterns.now)
        → (b : Bundle) (h : Standing) → IsBundle protocol.now b → StandsIn test.now.skeleton b h → StandsApart test.now.skeleton h → ⊥) }
    ensures sound { IfOk result (λ cs. IsAskedOver protocol.now (guarded_test_of test.now.skeleton test.now.node test.now.critical patterns.now) → (c : PlainChild) → IsIn c cs.items → IsSoundChild protocol.now (guarded_test_of test.now.skeleton test.now.node test.now.critical patterns.now) c) }
    ensures as_said { IfOk result (λ cs. (c : PlainChild) → IsIn c cs.items → HasItsOperation (guarded_test_of test.now.skeleton test.now.node test.now.critical patterns.now) c) }
{
    cohorts_cover();
    children_are_sound();
    operations_are_true();
    protocol.is_sound();
    test.is_test();
    let guarded_test = guarded(test, patterns);
    children_of(alloc, protocol, &guarded_test)
}

/// The cohort of the test of a skeleton at this node, as [`cohort_at`] tells it. The node and the term must be a test of the
/// skeleton, and the patterns must guard it.
pub fn cohort(
    alloc: Global,
    protocol: &Protocol,
    k: &Skeleton,
    node: Node,
    critical: &Term,
    patterns: &[Pattern],
) -> Result<Vec<Child>, AllocError>
    requires test { IsTest k.now node critical.now }
    requires guards { Guards patterns.now k.now node critical.now }
    ensures exact { IfOk result (λ cs. IsCohort protocol.now (guarded_test_of k.now node critical.now patterns.now) cs.items) }
    ensures leaves_none_out { IfOk result (λ cs. IsAskedOver protocol.now (guarded_test_of k.now node critical.now patterns.now) → IsComplete protocol.now k.now (map (λ (c : PlainChild). c.skeleton) cs.items)) }
    ensures through_a_child { IfOk result (λ cs. IsAskedOver protocol.now (guarded_test_of k.now node critical.now patterns.now)
        → (b : Bundle) (h : Standing) → IsBundle protocol.now b → StandsIn k.now b h → StandsApart k.now h → GoesThroughChild (guarded_test_of k.now node critical.now patterns.now) cs.items b h) }
    ensures none_only_nowhere { IfOk result (λ cs. cs.items ≡ [] → IsAskedOver protocol.now (guarded_test_of k.now node critical.now patterns.now)
        → (b : Bundle) (h : Standing) → IsBundle protocol.now b → StandsIn k.now b h → StandsApart k.now h → ⊥) }
    ensures sound { IfOk result (λ cs. IsAskedOver protocol.now (guarded_test_of k.now node critical.now patterns.now) → (c : PlainChild) → IsIn c cs.items → IsSoundChild protocol.now (guarded_test_of k.now node critical.now patterns.now) c) }
    ensures as_said { IfOk result (λ cs. (c : PlainChild) → IsIn c cs.items → HasItsOperation (guarded_test_of k.now node critical.now patterns.now) c) }
{
    let test = AtTest::new(alloc, k, node, critical)?;
    cohort_at(alloc, protocol, &test, patterns)
}

/// The cohort of a test, as [`cohort_at`] tells it, unless one of the children with an added strand gives a pattern. These are made
/// first, and no other is made after the first pattern is found: then the children with an added strand up to those of the
/// position at which it is found are returned, with the pattern.
pub fn cohort_until<S: GivesPatterns>(
    alloc: Global,
    protocol: &Protocol,
    test: &AtTest<'_>,
    patterns: &[Pattern],
    source: &S,
) -> Result<CohortUntil, AllocError>
    requires guards { Guards patterns.now test.now.skeleton test.now.node test.now.critical }
    ensures exact { IfOk result (λ r. IsCohortUntil (S.gives source.now) protocol.now (guarded_test_of test.now.skeleton test.now.node test.now.critical patterns.now) r.children.items r.widening) }
    ensures sound { IfOk result (λ r. IsAskedOver protocol.now (guarded_test_of test.now.skeleton test.now.node test.now.critical patterns.now) → (c : PlainChild) → IsIn c r.children.items → IsSoundChild protocol.now (guarded_test_of test.now.skeleton test.now.node test.now.critical patterns.now) c) }
{
    protocol.is_sound();
    test.is_test();
    let guarded_test = guarded(test, patterns);
    children_until(alloc, protocol, &guarded_test, source)
}
