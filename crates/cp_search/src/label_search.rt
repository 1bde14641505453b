// Resolves labels one after another.
ghost use Rattle.std.specs.Prelude.{◌≡◌, ◌≢◌, ◌<◌, ◌≤◌, ◌+◌, List, [], length, map, false, IfOk, OnOk, IfSome, IfNone, Some};
ghost use Rattle.cp_lists.specs.Lists.{item_at};
ghost use Rattle.cp_model.specs.Problem.{numbers_from};
ghost use Rattle.cp_model.specs.Strand.{Protocol as PlainProtocol};
ghost use Rattle.cp_tree.specs.Made as plain;
ghost use Rattle.cp_tree.specs.Made.{made_of_root};
ghost use Rattle.cp_tree.specs.Rules.{rule_of};
ghost use Rattle.cp_search.specs.declared.made.Made as program;
ghost use Rattle.cp_search.specs.declared.resolved.Resolved.TheVariants.{Leaf as leaf_as};
ghost use Rattle.cp_search.specs.MadeLabels.{AddMade};
ghost use Rattle.cp_skel.specs.Events.{events_of};
ghost use Rattle.cp_search.specs.ResolvedLabels.{facts_of, IsNextToExpand, ExpandsLabel, HasSearched, AreSoundMade, AreSoundRoots};
ghost use Rattle.cp_search.specs.WaitingRecords.{AreKept, NoneWaits, KeepsRecords};

use crate::children::make_children;
use crate::expanded::Expanded;
use crate::expanded_box::ExpandedBox;
use crate::general_labels::resolve_realised;
use crate::made::Made;
use crate::resolved::Resolved;
use crate::roots::make_roots;
use crate::waiting::{Queue, Waiting};
use cp_expansion::{Expansion, expand};
use cp_roots::Root;
use cp_skel::{Limits, ListedSkeleton, LocatedEvent, Mark, Numbers, Protocol, Test};
use cp_term::Patterns;
use cp_tree::{Rule, expansions_are_sound};
use std::alloc::{AllocError, Global};

/// The state of a search: the labels that were made, with what is kept of those that wait, how the first of them were resolved,
/// and the number of labels expanded so far.
#[derive(Drop)]
pub(crate) struct Search {
    pub queue: Queue,
    pub settled: Vec<Resolved>,
    pub expanded: usize,
}

/// What the rule says of this label when so many labels were expanded.
fn rule_of(label: &Made, limits: Limits, expanded: usize) -> Rule
    ensures { result ≡ rule_of limits expanded (facts_of label.now) }
{
    if label.dead {
        return Rule::Leaf(Mark::Dead);
    }
    if let Some(number) = label.seen_in {
        return Rule::Leaf(Mark::Seen(number));
    }
    if label.unrealised.as_slice().is_empty() {
        return Rule::Realised;
    }
    if label.skeleton.strands().len() > limits.strands as usize {
        return Rule::Leaf(Mark::LimitStrands);
    }
    if expanded >= limits.steps as usize {
        return Rule::Leaf(Mark::LimitSteps);
    }
    Rule::Tested
}

/// Resolves a label as a leaf with this mark, and lets its record go, if it waits.
fn resolve_leaf(queue: &mut Queue, number: usize, mark: Mark) -> Resolved
    requires there { number < length queue.old.made }
    ensures leaf { result ≡ leaf_as (Some mark) }
    ensures made { queue.new.made ≡ queue.old.made }
    ensures others { AreKept number queue.old → AreKept (number + 1) queue.new }
{
    queue.take(number);
    Resolved::Leaf(Some(mark))
}

/// Resolves labels up to the next one that is to be expanded, and returns the record of that one, if there is one.
fn resolve_leaves(
    alloc: Global,
    limits: Limits,
    search: &mut Search,
) -> Result<Option<Waiting>, AllocError>
    requires kept { AreKept (length search.old.settled.items) search.old.queue }
    ensures searched { OnOk result ((protocol : PlainProtocol) (made : List plain.Made) → HasSearched protocol limits made search.old → HasSearched protocol limits made search.new) }
    ensures next { IfOk result (λ found. IfSome found (IsNextToExpand limits search.new)) }
    ensures all { IfOk result (λ found. IfNone found (length search.old.settled.items ≤ length search.old.queue.made → length search.new.settled.items ≡ length search.new.queue.made)) }
    ensures kept { IfOk result (λ found. IfNone found (AreKept (length search.new.settled.items) search.new.queue)) }
    ensures expanded { search.new.expanded ≡ search.old.expanded }
{
    while search.settled.len() < search.queue.made.len() {
        let next = search.settled.len();
        let settled = match rule_of(search.queue.made.label(next), limits, search.expanded) {
            Rule::Leaf(mark) => resolve_leaf(&mut search.queue, next, mark),
            Rule::Realised => resolve_realised(alloc, &mut search.queue, next)?,
            Rule::Tested => return Ok(search.queue.take(next)),
        };
        search.settled.push(settled)?;
    }
    Ok(None)
}

/// Appends the labels of the expansion's children, and returns the expanded label.
fn expand_to(
    alloc: Global,
    queue: &mut Queue,
    number: usize,
    test: Test,
    expansion: Expansion,
) -> Result<ExpandedBox, AllocError>
    requires there { number < length queue.old.made }
    ensures kept { OnOk result (KeepsRecords queue.old queue.new) }
    ensures made { IfOk result (λ e. AddMade (map (plain.made_of_child number) expansion.children.items) queue.old.made queue.new.made × (e.children ≡ numbers_from (length queue.old.made) expansion.children.items) × (e.skeleton ≡ expansion.skeleton) × (e.test ≡ test) × (e.patterns ≡ expansion.patterns.items)) }
{
    let Expansion {
        skeleton,
        patterns,
        children,
    } = expansion;
    let children = make_children(alloc, queue, number, children)?;
    let label = Expanded {
        skeleton,
        test,
        patterns: Patterns::of(patterns),
        children: Numbers::of(children),
    };
    ExpandedBox::of(alloc, label)
}

/// Expands a label, of which these are the events: finds its test and appends the labels of that test's children.
fn expand_label(
    alloc: Global,
    protocol: &Protocol,
    queue: &mut Queue,
    number: usize,
    events: &[LocatedEvent<'_>],
) -> Result<ExpandedBox, AllocError>
    requires there { number < length queue.old.made }
    requires sound { AreSoundMade protocol.now queue.old.made }
    requires unrealised { (m : program.Made) → item_at queue.old.made number ≡ Some m → (m.dead ≡ false) × (m.unrealised ≢ []) }
    requires events { (m : program.Made) → item_at queue.old.made number ≡ Some m → events.now ≡ events_of m.skeleton }
    ensures kept { OnOk result (KeepsRecords queue.old queue.new) }
    ensures expanded { IfOk result (ExpandsLabel protocol.now number queue.old.made queue.new.made) }
{
    expansions_are_sound();
    protocol.is_sound();
    queue.made.are_found();
    let label = queue.made.label(number);
    let Some((test, expansion)) = expand(
        alloc,
        protocol,
        &ListedSkeleton::with_events(&label.skeleton, events),
        label.unrealised.as_slice(),
    )?
    else {
        unreachable!()
    };
    expand_to(alloc, queue, number, test, expansion)
}

/// Expands the next label, of which this is the record.
fn expand_next(
    alloc: Global,
    protocol: &Protocol,
    limits: Limits,
    search: &mut Search,
    waiting: Waiting,
) -> Result<(), AllocError>
    requires next { IsNextToExpand limits search.old waiting }
    requires sound { AreSoundMade protocol.now search.old.queue.made }
    ensures kept { OnOk result (AreKept (length search.new.settled.items) search.new.queue) }
    ensures searched { OnOk result ((made : List plain.Made) → HasSearched protocol.now limits made search.old → HasSearched protocol.now limits made search.new) }
    ensures expanded { OnOk result (search.new.expanded ≡ search.old.expanded + 1) }
{
    let number = waiting.label;
    let expanded = expand_label(alloc, protocol, &mut search.queue, number, &waiting.events)?;
    search.settled.push(Resolved::Expanded(expanded))?;
    search.expanded += 1;
    Ok(())
}

/// Makes the labels of the roots, then resolves all labels in ascending order.
pub(crate) fn search_from(
    alloc: Global,
    protocol: &Protocol,
    limits: Limits,
    roots: Vec<Root>,
) -> Result<Search, AllocError>
    requires sound { AreSoundRoots protocol.now roots.items }
    ensures searched { IfOk result (HasSearched protocol.now limits (map made_of_root roots.items)) }
    ensures all { IfOk result (λ s. length s.settled.items ≡ length s.queue.made) }
    ensures none_left { IfOk result (λ s. NoneWaits s.queue) }
{
    let queue = make_roots(alloc, roots)?;
    let mut search = Search {
        queue,
        settled: Vec::new(alloc),
        expanded: 0,
    };
    while let Some(waiting) = resolve_leaves(alloc, limits, &mut search)? {
        expand_next(alloc, protocol, limits, &mut search, waiting)?;
    }
    Ok(search)
}
