// Keys of items, by which a list of many items is known to have none twice.
ghost use Rattle.std.specs.Prelude.{◌≡◌, false, IfOk, IsTrue, OnOk};
ghost use Rattle.cp_model.specs.GivenAssumptions.{IsEachOnce};
ghost use Rattle.cp_model.specs.Term.{Term as Plain};
ghost use Rattle.cp_skel.specs.KeyTable.{HasKey};

use crate::gathered::Gathered;
use cp_strand::has;
use cp_term::{Term, TermTable};
use std::alloc::{AllocError, Global};

/// So many items are compared with each other; where there are more, a table has their keys.
const FEW: usize = 32;

/// Whether the items are so many that a table of their keys is worth its while.
pub(crate) fn is_long<T>(items: &[T]) -> bool {
    items.len() > FEW
}

/// The keys of items, if there is a table of them.
#[derive(Drop)]
pub(crate) struct Keys {
    table: Option<TermTable>,
}

impl Keys {
    /// No keys, with a table or without.
    pub(crate) fn new(alloc: Global, with_table: bool) -> Keys
        ensures { with_table ≡ false → (t : Plain) → HasKey result t }
    {
        let table = if with_table {
            Some(TermTable::new(alloc))
        } else {
            None
        };
        Keys { table }
    }

    /// Puts a key in. Whether it is known not to have been there.
    pub(crate) fn put(&mut self, key: &Term) -> Result<bool, AllocError>
        ensures new { IfOk result (λ is_new. IsTrue is_new → HasKey self.old key.now → ⊥) }
        ensures there { OnOk result (HasKey self.new key.now) }
        ensures kept { OnOk result ((t : Plain) → HasKey self.old t → HasKey self.new t) }
    {
        let Some(table) = &mut self.table else {
            return Ok(false);
        };
        if table.find(key).is_some() {
            return Ok(false);
        }
        table.intern(key)?;
        Ok(true)
    }
}

/// Whether each item stands once, where they are few: each is compared with those before it.
fn are_few_distinct<T: Gathered>(items: &[T]) -> bool
    ensures { IsTrue result → IsEachOnce items.now }
{
    for index in 1..items.len() {
        let (before, _) = items.split_at(index);
        if has(before, &items[index]) {
            return false;
        }
    }
    true
}

/// Whether each item stands once, where they are many: a table has the keys of those before it. Without memory it may say
/// that one does not.
fn are_many_distinct<T: Gathered>(alloc: Global, items: &[T]) -> bool
    ensures { IsTrue result → IsEachOnce items.now }
{
    let mut keys = Keys::new(alloc, true);
    for index in 0..items.len() {
        let item = &items[index];
        let Ok(is_new) = keys.put(item.key()) else {
            return false;
        };
        let (before, _) = items.split_at(index);
        if !is_new && has(before, item) {
            return false;
        }
    }
    true
}

/// Whether each item stands once. Without memory it may say that one does not.
pub(crate) fn are_distinct<T: Gathered>(alloc: Global, items: &[T]) -> bool
    ensures { IsTrue result → IsEachOnce items.now }
{
    if is_long(items) {
        are_many_distinct(alloc, items)
    } else {
        are_few_distinct(items)
    }
}
