// Lists in which each item stands once.
ghost use Rattle.std.specs.Prelude.{◌≡◌, ◌↔◌, [], ◌∷◌, ◌++◌, List, Bool, IsTrue, IfOk, OnOk, OnErr};
ghost use Rattle.cp_lists.specs.Lists.{IsIn};
ghost use Rattle.cp_model.specs.Term.{Term as Plain, atom_term};
ghost use Rattle.cp_skel.specs.KeyTable.{HasKey};
ghost use Rattle.std.specs.List.{filter};
ghost use Rattle.cp_model.specs.Given.{has_atom, atoms_onto, has_unique, uniques_onto};
ghost use Rattle.cp_model.proofs.Gathered.{IsGathering, atoms, uniques};

use crate::assumptions::UniqueAt;
use crate::keys::{Keys, is_long};
use cp_strand::{Atom, Same, has};
use cp_term::Term;
use std::alloc::{AllocError, Global};

/// Items gathered into lists in which each stands once.
pub(crate) trait Gathered: Same + Clone {
    /// Whether an item is one of these.
    ghost among: { List Self → Self → Bool };

    /// The first items, then those of the second that are not there yet.
    ghost onto: { List Self → List Self → List Self };

    /// The term by which an item is looked up.
    ghost key: { Self → Plain };

    /// The term by which an item is looked up. The same items have the same one.
    fn key(&self) -> &Term
        ensures { result.now ≡ key self.now };

    /// A clone is the same.
    ghost same_clone: { (x y : Self) → Self.is_clone x y → y ≡ x };

    /// What is appended is what is not among the items.
    ghost gathers: { IsGathering among onto };
}

impl Gathered for Atom {
    ghost among = { has_atom };

    ghost onto = { atoms_onto };

    ghost same_clone = { λ _ _ e. e };

    ghost gathers = { atoms };

    ghost key = { atom_term };

    fn key(&self) -> &Term {
        self.as_term()
    }
}

impl Gathered for UniqueAt {
    ghost among = { has_unique };

    ghost onto = { uniques_onto };

    ghost same_clone = { λ _ _ e. e };

    ghost gathers = { uniques };

    ghost key = { λ u. atom_term u.value };

    fn key(&self) -> &Term {
        self.value().as_term()
    }
}

/// Appends an item, unless it is already in the list. On an error the list is unchanged.
pub(crate) fn add_once<T: Gathered + Drop>(items: &mut Vec<T>, item: T) -> Result<(), AllocError>
    ensures added { OnOk result (items.new.items ≡ T.onto items.old.items (item ∷ [])) }
    ensures unchanged { OnErr result (items.new.items ≡ items.old.items) }
{
    if has(items, &item) {
        return Ok(());
    }
    items.push(item).map_err(AllocError::from)
}

/// Whether an item is in one of the two lists.
fn is_there<T: Gathered>(item: &T, old: &[T], more: &[T]) -> bool
    ensures { IsTrue result ↔ IsIn item.now (old.now ++ more.now) }
{
    has(old, item) || has(more, item)
}

/// Appends an item to `more`, unless it is already there or in `old`.
pub(crate) fn push_missing<T: Gathered + Drop>(
    old: &[T],
    more: &mut Vec<T>,
    item: T,
) -> Result<(), AllocError>
    ensures { OnOk result (old.now ++ more.new.items ≡ T.onto (old.now ++ more.old.items) (item ∷ [])) }
{
    if has(old, &item) || has(more, &item) {
        return Ok(());
    }
    more.push(item).map_err(AllocError::from)
}

/// The keys of the items that are there, for putting these to them: in a table, if these are many and none is there yet.
fn keys_for<T: Gathered>(alloc: Global, given: &[T], old: &[T], more: &[T]) -> Keys
    ensures { (v : T) → IsIn v (old.now ++ more.now) → HasKey result (T.key v) }
{
    if !old.is_empty() {
        return Keys::new(alloc, false);
    }
    if !more.is_empty() {
        return Keys::new(alloc, false);
    }
    Keys::new(alloc, is_long(given))
}

/// Appends copies of these items to `more`, except those already there or in `old`. On an error some may have been added.
pub(crate) fn add_missing<T: Gathered + Drop>(
    given: &[T],
    old: &[T],
    more: &mut Vec<T>,
) -> Result<(), AllocError>
    ensures { OnOk result (old.now ++ more.new.items ≡ T.onto (old.now ++ more.old.items) given.now) }
{
    let mut keys = keys_for(*more.allocator(), given, old, more);
    for item in given {
        let is_new = keys.put(item.key())?;
        if is_new || !is_there(item, old, more) {
            more.push(item.clone()?)?;
        }
    }
    Ok(())
}

/// Appends copies of the stated items that are among the old ones to `listed`, except those already there. On an error some may
/// have been added.
fn add_stated<T: Gathered + Drop>(
    stated: &[T],
    old: &[T],
    listed: &mut Vec<T>,
) -> Result<(), AllocError>
    ensures { OnOk result (listed.new.items ≡ T.onto listed.old.items (filter (T.among old.now) stated.now)) }
{
    for item in stated {
        if has(old, item) {
            add_once(listed, item.clone()?)?;
        }
    }
    Ok(())
}

/// The stated items that are among the old ones, in two parts, then the other old ones, each once.
pub(crate) fn stated_first<T: Gathered + Drop>(
    alloc: Global,
    first: &[T],
    second: &[T],
    old: &[T],
) -> Result<Vec<T>, AllocError>
    ensures { IfOk result (λ v. v.items ≡ T.onto [] (filter (T.among old.now) (first.now ++ second.now) ++ old.now)) }
{
    let mut listed = Vec::new(alloc);
    add_stated(first, old, &mut listed)?;
    add_stated(second, old, &mut listed)?;
    add_missing(old, &[], &mut listed)?;
    Ok(listed)
}
