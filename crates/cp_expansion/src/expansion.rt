// Expansions of unrealised skeletons.
ghost use Rattle.std.specs.Prelude.{◌≡◌, ◌↔◌, [], IfOk, IfSome, IsNone};
ghost use Rattle.cp_lists.specs.Lists.{IsIn};
ghost use Rattle.cp_theory.specs.Guards.{Guards};
ghost use Rattle.cp_model.specs.Skeleton.{IsSkeleton};
ghost use Rattle.cp_model.specs.PointOfView.{HasDeclaredVariables};
ghost use Rattle.cp_cohort.specs.declared.child.Child.{Child as PlainChild};
ghost use Rattle.cp_cohort.specs.Cohort.{guarded_test_of};
ghost use Rattle.cp_skel.specs.Tables.{DiffersInTable};
ghost use Rattle.cp_derive.specs.Unrealised.{ListsUnrealised};
ghost use Rattle.cp_expansion.specs.Expansion.{AreWidened, IsExpansionOf};
ghost use Rattle.cp_expansion.specs.ChosenTest.{IsTestOf};
ghost use Rattle.cp_expansion.specs.Views.{last_test, expansion_by};

use crate::chosen_test::test_of;
use crate::variable_tables::with_variables;
use crate::widening_child::Widenings;
use cp_cohort::{Child, CohortUntil, cohort_until};
use cp_derive::AtTest;
use cp_escape::{escape_at, widening_keeps_guards};
use cp_skel::{ListedSkeleton, Node, Protocol, Skeleton, Test};
use cp_term::Pattern;
use std::alloc::{AllocError, Global};

/// The expansion of a skeleton: the skeleton, with new variables for the patterns' locals; the patterns that guard its test; and
/// the children of the test under them.
#[derive(Drop)]
pub struct Expansion {
    pub skeleton: Skeleton,
    pub patterns: Vec<Pattern>,
    pub children: Vec<Child>,
}

/// Makes the children of a test under patterns that guard it, until one with an added strand widens the set of patterns; then
/// makes them anew under the widened set. Returns the test with its expansion.
fn widened(
    alloc: Global,
    protocol: &Protocol,
    test: AtTest<'_>,
    mut patterns: Vec<Pattern>,
) -> Result<(Test, Expansion), AllocError>
    requires skeleton { IsSkeleton protocol.now test.skeleton }
    requires declared { HasDeclaredVariables test.skeleton.variables test.skeleton }
    requires guards { Guards patterns.items test.skeleton test.node test.critical }
    ensures test { IfOk result (λ r. r.0 ≡ record { node = test.entry.node; critical = test.entry.critical }) }
    ensures widened { IfOk result (λ r. AreWidened protocol.now (guarded_test_of test.entry.skeleton test.entry.node test.entry.critical patterns.items) (last_test r.0 r.1) r.1.children.items) }
    ensures table { IfOk result (λ r. DiffersInTable test.entry.skeleton r.1.skeleton) }
    ensures sound { IfOk result (λ r. (c : PlainChild) → IsIn c r.1.children.items → IsSkeleton protocol.now c.skeleton × HasDeclaredVariables c.skeleton.variables c.skeleton) }
{
    widening_keeps_guards();
    test.is_test();
    let place = test.at();
    let k = place.skeleton();
    let source = Widenings::of(k, &patterns);
    let CohortUntil { children, widening } = cohort_until(
        alloc, protocol, &test, &patterns, &source,
    )?;
    let Some(widening) = widening else {
        let skeleton = k.copy(alloc)?;
        let expansion = Expansion {
            skeleton,
            patterns,
            children,
        };
        return Ok((test.into_test(), expansion));
    };
    let grown = with_variables(alloc, k, children[widening.child].skeleton.variables())?;
    patterns.push(widening.pattern)?;
    widened(alloc, protocol, test.in_table(&grown), patterns)
}

/// Expands a skeleton by its test. The test comes back.
fn expand_test(
    alloc: Global,
    protocol: &Protocol,
    test: AtTest<'_>,
) -> Result<(Test, Expansion), AllocError>
    requires skeleton { IsSkeleton protocol.now test.skeleton }
    requires declared { HasDeclaredVariables test.skeleton.variables test.skeleton }
    requires test { IsTestOf test.skeleton test.node test.critical }
    ensures test { IfOk result (λ r. r.0 ≡ record { node = test.entry.node; critical = test.entry.critical }) }
    ensures exact { IfOk result (λ r. IsExpansionOf protocol.now test.entry.skeleton (expansion_by r.0 r.1)) }
    ensures table { IfOk result (λ r. DiffersInTable test.entry.skeleton r.1.skeleton) }
    ensures sound { IfOk result (λ r. (c : PlainChild) → IsIn c r.1.children.items → IsSkeleton protocol.now c.skeleton × HasDeclaredVariables c.skeleton.variables c.skeleton) }
{
    let patterns = escape_at(alloc, &test)?;
    widened(alloc, protocol, test, patterns)
}

/// Expands a skeleton by its test, and returns the test with its expansion. The patterns start as the escape set. While there are
/// fewer than 32, the first child with an added strand that gives a pattern adds it, and the children are made anew. `None`
/// exactly if no reception is unrealised.
///
/// The skeleton must be one over the protocol, with declared variables, and `unrealised` its unrealised receptions. Its test, the
/// escape set and the children all use the events as they are listed.
pub fn expand(
    alloc: Global,
    protocol: &Protocol,
    k: &ListedSkeleton<'_>,
    unrealised: &[Node],
) -> Result<Option<(Test, Expansion)>, AllocError>
    requires skeleton { IsSkeleton protocol.now k.now }
    requires declared { HasDeclaredVariables k.now.variables k.now }
    requires listed { ListsUnrealised k.now unrealised.now }
    ensures exact { IfOk result (λ found. IfSome found (λ r. IsExpansionOf protocol.now k.now (expansion_by r.0 r.1))) }
    ensures table { IfOk result (λ found. IfSome found (λ r. DiffersInTable k.now r.1.skeleton)) }
    ensures sound { IfOk result (λ found. IfSome found (λ r. (c : PlainChild) → IsIn c r.1.children.items → IsSkeleton protocol.now c.skeleton × HasDeclaredVariables c.skeleton.variables c.skeleton)) }
    ensures none { IfOk result (λ found. IsNone found ↔ (unrealised.now ≡ [])) }
{
    let Some(test) = test_of(alloc, k, unrealised)? else {
        return Ok(None);
    };
    let expanded = expand_test(alloc, protocol, test)?;
    Ok(Some(expanded))
}
