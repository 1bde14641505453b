// The escape set of a test.
ghost use Rattle.std.specs.Prelude.{◌≡◌, ◌↔◌, [], map, IfOk};
ghost use Rattle.cp_lists.specs.Lists.{IsIn};
ghost use Rattle.cp_model.specs.Pattern.{IsPattern};
ghost use Rattle.cp_model.specs.Term.{Term as Plain};
ghost use Rattle.cp_theory.specs.Critical.{IsTest};
ghost use Rattle.cp_theory.specs.Guards.{Guards};
ghost use Rattle.cp_escape.specs.ClosedEncryptions.{AreClosedBefore};
ghost use Rattle.cp_escape.specs.Escape.{whole_pattern, IsEscape};
ghost use Rattle.cp_escape.specs.Sent.{CarriesBefore};

use crate::closed_encryptions::add_closed;
use cp_cohort::is_sent_before;
use cp_derive::AtTest;
use cp_skel::{Node, Skeleton};
use cp_term::{Locals, Pattern, Term};
use std::alloc::{AllocError, Global};

/// The outermost closed encryptions around the critical term in the transmissions of role strands before the test's node, each
/// once.
fn closed_before(alloc: Global, test: &AtTest<'_>) -> Result<Vec<Term>, AllocError>
    ensures { IfOk result (λ es. AreClosedBefore test.now.skeleton test.now.node test.now.critical es.items) }
{
    test.is_test();
    let place = test.at();
    let known = place.known();
    let critical = test.critical();
    let occurrences = place.events();
    let mut encryptions = Vec::new(alloc);
    for occurrence in occurrences {
        if !is_sent_before(place, occurrence) {
            continue;
        }
        let message = occurrence.event().payload();
        add_closed(alloc, known, message, critical, &mut encryptions)?;
    }
    Ok(encryptions)
}

/// The encryptions, each as a pattern without locals.
fn whole_patterns(alloc: Global, encryptions: &[Term]) -> Result<Vec<Pattern>, AllocError>
    requires { (e : Plain) → IsIn e encryptions.now → IsPattern (whole_pattern e) }
    ensures { IfOk result (λ ps. ps.items ≡ map whole_pattern encryptions.now) }
{
    let mut patterns = Vec::new(alloc);
    for encryption in encryptions {
        let term = encryption.copy()?;
        patterns.push(Pattern::new(term, Locals::new(alloc)))?;
    }
    Ok(patterns)
}

/// The escape set of a test. For each occurrence of the critical term in the transmissions of role strands before the node, by
/// strand, then index, then position, it has the outermost enclosing encryption whose inverse key is not derivable at the node;
/// each encryption once, as a pattern without locals. The set guards the test. It is empty exactly if none of these transmissions
/// carries the critical term.
pub fn escape_at(alloc: Global, test: &AtTest<'_>) -> Result<Vec<Pattern>, AllocError>
    ensures exact { IfOk result (λ ps. IsEscape test.now.skeleton test.now.node test.now.critical ps.items) }
    ensures guards { IfOk result (λ ps. Guards ps.items test.now.skeleton test.now.node test.now.critical) }
    ensures empty { IfOk result (λ ps. (ps.items ≡ []) ↔ (CarriesBefore test.now.skeleton test.now.node test.now.critical → ⊥)) }
{
    test.is_test();
    let encryptions = closed_before(alloc, test)?;
    whole_patterns(alloc, &encryptions)
}

/// The escape set of the test of a skeleton at this node, as [`escape_at`] tells it. The node and the term must be a test of the
/// skeleton.
pub fn escape(
    alloc: Global,
    k: &Skeleton,
    node: Node,
    critical: &Term,
) -> Result<Vec<Pattern>, AllocError>
    requires test { IsTest k.now node critical.now }
    ensures exact { IfOk result (λ ps. IsEscape k.now node critical.now ps.items) }
    ensures guards { IfOk result (λ ps. Guards ps.items k.now node critical.now) }
    ensures empty { IfOk result (λ ps. (ps.items ≡ []) ↔ (CarriesBefore k.now node critical.now → ⊥)) }
{
    let test = AtTest::new(alloc, k, node, critical)?;
    escape_at(alloc, &test)
}
