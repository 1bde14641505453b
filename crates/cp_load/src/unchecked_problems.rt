// What forms state while they are read, and what that becomes if the forms have no faults.
ghost use Rattle.std.specs.Prelude.{◌≡◌, map, option_map, IfOk};
ghost use Rattle.cp_skel.specs.Sound.{IsSound};
ghost use Rattle.cp_language.specs.Input.{stated};
ghost use Rattle.cp_load.specs.UncheckedProblems.{unchecked_view, unchecked_entry_view, IsSoundIfThere, HaveSoundSkeletons};
ghost use Rattle.cp_load.specs.Inputs.{problem_view, entry_view};

use crate::input::{Entry, Problem};
use cp_sexpr::Form;
use cp_skel::{Assumptions, FromProblem, Order, Protocol, Skeleton, Strand};
use cp_term::VarTable;
use std::alloc::{AllocError, Global};
use std::rc::Rc;

/// The parts of a problem's skeleton. If the form has faults, they may be those of no skeleton.
#[derive(Drop)]
pub struct UncheckedSkeleton {
    pub variables: VarTable,
    pub strands: Vec<Strand>,
    pub order: Order,
    pub assumptions: Assumptions,
    pub from_problem: FromProblem,
}

/// A problem while forms are read: its protocol, how many of its variables it declares, and the parts of its skeleton.
#[derive(Drop)]
pub struct UncheckedProblem {
    pub protocol: Rc<Protocol>,
    pub declared: usize,
    pub skeleton: UncheckedSkeleton,
}

/// A form with what it states, while forms are read: nothing, a protocol, or a problem.
#[derive(Drop)]
pub enum UncheckedEntry<'a> {
    Plain(&'a Form),
    Protocol(&'a Form, Rc<Protocol>),
    Problem(&'a Form, UncheckedProblem),
}

impl UncheckedEntry<'_> {
    /// The problem that the form states, if it states one.
    pub fn problem(&self) -> Option<&UncheckedProblem>
        ensures { option_map (λ d. unchecked_view d.now) result ≡ stated (unchecked_entry_view self.now) }
    {
        match self {
            UncheckedEntry::Plain(_) | UncheckedEntry::Protocol(..) => None,
            UncheckedEntry::Problem(_, problem) => Some(problem),
        }
    }
}

/// The problem that an unchecked one becomes, whose skeleton must be sound.
fn finished(unchecked: UncheckedProblem) -> Problem
    requires { IsSound (unchecked_view unchecked).skeleton }
    ensures { problem_view result ≡ unchecked_view unchecked }
{
    let UncheckedProblem {
        protocol,
        declared,
        skeleton,
    } = unchecked;
    let UncheckedSkeleton {
        variables,
        strands,
        order,
        assumptions,
        from_problem,
    } = skeleton;
    Problem {
        protocol,
        declared,
        skeleton: Skeleton::new(variables, strands, order, assumptions, from_problem),
    }
}

/// The entry that an unchecked one becomes. The skeleton of its problem, if it has one, must be sound.
fn finished_entry(unchecked: UncheckedEntry<'_>) -> Entry<'_>
    requires { IsSoundIfThere unchecked }
    ensures { entry_view result ≡ unchecked_entry_view unchecked.entry }
{
    match unchecked {
        UncheckedEntry::Plain(form) => Entry::Plain(form),
        UncheckedEntry::Protocol(form, protocol) => Entry::Protocol(form, protocol),
        UncheckedEntry::Problem(form, problem) => Entry::Problem(form, finished(problem)),
    }
}

/// The entries that unchecked ones become, each at its place. The skeletons of their problems must be sound.
pub fn all_finished(
    alloc: Global,
    unchecked_entries: Vec<UncheckedEntry<'_>>,
) -> Result<Vec<Entry<'_>>, AllocError>
    requires { HaveSoundSkeletons unchecked_entries.items }
    ensures { IfOk result (λ v. map entry_view v.items ≡ map unchecked_entry_view unchecked_entries.entry.items) }
{
    let mut entries = Vec::new(alloc);
    for unchecked in unchecked_entries {
        entries.push(finished_entry(unchecked))?;
    }
    Ok(entries)
}
