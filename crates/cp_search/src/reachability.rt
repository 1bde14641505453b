// Which labels each label reaches.
ghost use Rattle.std.specs.Prelude.{◌≡◌, ◌↔◌, ◌<◌, ◌++◌, ◌∷◌, [], ℕ, List, length, Some, IsTrue, IfSome, IfOk, OnOk};
ghost use Rattle.cp_lists.specs.Lists.{IsIn};
ghost use Rattle.cp_search.specs.MadeLabels.{AreFound};
ghost use Rattle.cp_search.specs.Reachability.{row_at, given_row, AreBelow, IsDistinct, AreTransposed, AddsToRows, Joins, ReachesLabel, IsReachability};
ghost use Rattle.cp_search.specs.declared.made.Made as program;

use crate::made::Made;
use std::alloc::{AllocError, Global};
use std::iter;

/// For each label the labels that it reaches and those that reach it, itself in both, along edges: they lead from a label to those
/// that are made from it, and to the one in which it is seen. A chain of labels makes quadratically many entries.
#[derive(Drop)]
pub(crate) struct Reachability {
    reaches: Vec<Vec<usize>>,
    reached_from: Vec<Vec<usize>>,
}

/// The row with this number, or an empty one if there is no number.
fn row_of(rows: &[Vec<usize>], row: Option<usize>) -> &[usize]
    requires { IfSome row (λ n. n < length rows.now) }
    ensures { result.now ≡ given_row rows.now row }
{
    match row {
        Some(row) => &rows[row],
        None => &[],
    }
}

/// Whether the number stands in the row that is given, if one is.
fn is_in_row(rows: &[Vec<usize>], row: Option<usize>, number: usize) -> bool
    requires { IfSome row (λ n. n < length rows.now) }
    ensures { IsTrue result ↔ IsIn number (given_row rows.now row) }
{
    row_of(rows, row).contains(&number)
}

/// The numbers in the row that is given, if one is, and one more behind them.
fn row_with(
    alloc: Global,
    rows: &[Vec<usize>],
    row: Option<usize>,
    number: usize,
) -> Result<Vec<usize>, AllocError>
    requires { IfSome row (λ n. n < length rows.now) }
    ensures { IfOk result (λ v. v.items ≡ given_row rows.now row ++ number ∷ []) }
{
    row_of(rows, row)
        .iter()
        .copied()
        .chain(iter::once(number))
        .collect(alloc)
}

/// Puts a number behind a row.
fn put(rows: &mut Vec<Vec<usize>>, row: usize, number: usize) -> Result<(), AllocError>
    requires within { row < length rows.old.items }
    requires apart { IsIn number (row_at rows.old.items row) → ⊥ }
    ensures { OnOk result (AddsToRows (λ n m. (row ≡ n) × (number ≡ m)) rows.old.items rows.new.items) }
{
    let row = &mut rows[row];
    row.push(number).map_err(AllocError::from)
}

/// Puts a number that stands in no row behind each of these.
fn put_each(rows: &mut Vec<Vec<usize>>, chosen: &[usize], number: usize) -> Result<(), AllocError>
    requires within { AreBelow (length rows.old.items) chosen.now }
    requires distinct { IsDistinct chosen.now }
    requires apart { (n : ℕ) → IsIn number (row_at rows.old.items n) → ⊥ }
    ensures { OnOk result (AddsToRows (λ n m. IsIn n chosen.now × IsIn m (number ∷ [])) rows.old.items rows.new.items) }
{
    for row in chosen {
        put(rows, *row, number)?;
    }
    Ok(())
}

impl Reachability {
    /// Whether the second label, if there is one, can be reached from the first.
    pub(crate) fn leads(&self, from: usize, to: Option<usize>) -> bool
        requires { IfSome to (λ n. n < length self.now.reached_from.items) }
        ensures { (ms : List program.Made) → IsReachability self.now ms → IsTrue result ↔ ((n : ℕ) × (to ≡ Some n) × ReachesLabel ms from n) }
    {
        is_in_row(&self.reached_from, to, from)
    }

    /// That of no labels.
    pub(crate) fn new(alloc: Global) -> Reachability
        ensures { IsReachability result [] }
    {
        Reachability {
            reaches: Vec::new(alloc),
            reached_from: Vec::new(alloc),
        }
    }

    /// Notes that one label reaches another, unless that is known.
    fn join(&mut self, from: usize, to: usize) -> Result<(), AllocError>
        requires transposed { AreTransposed self.old }
        requires from { from < length self.old.reaches.items }
        requires to { to < length self.old.reached_from.items }
        ensures { OnOk result (Joins (λ n m. (from ≡ n) × (to ≡ m)) self.old self.new) }
    {
        if is_in_row(&self.reached_from, Some(to), from) {
            return Ok(());
        }
        put(&mut self.reaches, from, to)?;
        put(&mut self.reached_from, to, from)
    }

    /// Notes that each of the first labels reaches each of the others.
    fn join_all(&mut self, sources: &[usize], targets: &[usize]) -> Result<(), AllocError>
        requires transposed { AreTransposed self.old }
        requires sources { AreBelow (length self.old.reaches.items) sources.now }
        requires targets { AreBelow (length self.old.reached_from.items) targets.now }
        ensures { OnOk result (Joins (λ n m. IsIn n sources.now × IsIn m targets.now) self.old self.new) }
    {
        for source in sources {
            for target in targets {
                self.join(*source, *target)?;
            }
        }
        Ok(())
    }

    /// Adds the label that comes after those made so far, of which the reachability is: whatever reaches its parent, and it itself,
    /// reaches it and whatever the label reaches in which it is seen. After an error it is of no use.
    pub(crate) fn add(&mut self, alloc: Global, made: &[Made], new: &Made) -> Result<(), AllocError>
        requires found { AreFound (made.now ++ new.now ∷ []) }
        requires reachability { IsReachability self.old made.now }
        ensures { OnOk result (IsReachability self.new (made.now ++ new.now ∷ [])) }
    {
        let number = made.len();
        let sources = row_with(alloc, &self.reached_from, new.parent, number)?;
        // Most labels are seen in no other, and so reach none.
        if new.seen_in.is_none() {
            self.reaches.push(Vec::new(alloc))?;
            put_each(&mut self.reaches, &sources, number)?;
            return self.reached_from.push(sources).map_err(AllocError::from);
        }
        let targets = row_with(alloc, &self.reaches, new.seen_in, number)?;
        self.reaches.push(Vec::new(alloc))?;
        self.reached_from.push(Vec::new(alloc))?;
        self.join_all(&sources, &targets)
    }
}
