// An interner of keys, and their numbers.
ghost use Rattle.std.specs.Prelude.{◌≡◌, ◌<◌, true, [], length, slice_get, position, Some, IfSome, IfOk, OnOk, OnErr};
ghost use Rattle.std.specs.List.{position_or_len, IsDistinct};
ghost use Rattle.indexmap.specs.IndexSet.{insert_key};

use indexmap::IndexSet;
use std::alloc::{AllocError, Global};
use std::hash::Hash;
use std::marker::Model;

/// The number of a key: its place in the list of an interner's keys, counted from 0.
#[derive(Clone, Copy, Debug, PartialEq, Eq)]
pub struct Id {
    number: usize,
}

impl Model for Id {
    ghost use Rattle.std.specs.Prelude.{ℕ};

    ghost Value = { ℕ };

    ghost view = { λ id. id.number };

    ghost inverse = { λ n. record { number = n } };
}

impl Id {
    /// The place itself.
    pub fn number(self) -> usize
        ensures { result ≡ self }
    {
        self.number
    }
}

/// Keys, of which no two are equal, in the order in which they were first put in.
#[derive(Drop)]
pub struct Interner<K: Eq + Hash> {
    set: IndexSet<K>,
}

impl<K: Eq + Hash> Model for Interner<K> {
    ghost use Rattle.std.specs.Prelude.{List};
    ghost use Rattle.std.specs.Coded.{coded_list};

    ghost Value = { List K };

    ghost coded = { coded_list K.code };

    ghost view = { λ i. i.set.keys };
}

impl<K: Eq + Hash> Interner<K> {
    /// An interner without keys. It takes no memory until a key is put in.
    pub fn new(alloc: Global) -> Interner<K>
        ensures { result ≡ [] }
    {
        Interner {
            set: IndexSet::new(alloc),
        }
    }

    /// How many keys there are.
    pub fn len(&self) -> usize
        ensures { result ≡ length self.now }
    {
        self.set.len()
    }

    /// The number of this key. It is put behind the others if none of them is equal to it; so the others keep their
    /// numbers. On an error the interner is unchanged.
    pub fn put(&mut self, k: K) -> Result<Id, AllocError>
    where
        K: Drop,
        ensures id { IfOk result (λ id. id ≡ position_or_len (K.eq k) self.old) }
        ensures keys { OnOk result (self.new ≡ insert_key K.eq self.old k) }
        ensures there { IfOk result (λ id. (x : K) × (slice_get self.new id ≡ Some x) × (K.eq k x ≡ true)) }
        ensures unchanged { OnErr result (self.new ≡ self.old) }
    {
        let (number, _) = self.set.insert_full(k)?;
        Ok(Id { number })
    }

    /// The number of the key that is equal to this one, if there is one.
    pub fn find(&self, k: &K) -> Option<Id>
        ensures number { result ≡ position (K.eq k.now) self.now }
        ensures there { IfSome result (λ id. (x : K) × (slice_get self.now id ≡ Some x) × (K.eq k.now x ≡ true)) }
    {
        self.set.get_index_of(k).map(|number| Id { number })
    }

    /// The key with this number.
    pub fn get(&self, id: Id) -> &K
        requires { id < length self.now }
        ensures { slice_get self.now id ≡ Some result.now }
    {
        &self.set.as_slice()[id.number]
    }

    /// No two keys are equal.
    pub fn are_distinct(&self)
        ensures { IsDistinct K.eq self.now }
    {
        self.set.len();
    }
}
