// A list that is being made.
ghost use Rattle.std.specs.Prelude.{◌≡◌, [], ◌∷◌, true, false, IfOk, OnOk, OnErr};
ghost use Rattle.cp_base.specs.Growing.{Grows, growth};

use std::alloc::{AllocError, Global};
use std::marker::Model;
use std::mem;

/// A list that is being made. It remembers that memory ran out, and takes nothing more from then on; so appending returns
/// nothing, and the list is asked once, at its end.
#[derive(Drop)]
pub struct Growing<T> {
    items: Vec<T>,
    ran_out: bool,
}

impl<T> Model for Growing<T> {
    ghost use Rattle.cp_base.specs.Growing.{Growth, growth};

    ghost Value = { Growth T };

    ghost view = { λ g. growth g.items.items g.ran_out };
}

impl<T: Drop> Growing<T> {
    /// A list that goes on from these items.
    pub fn from_items(items: Vec<T>) -> Growing<T>
        ensures { result ≡ growth items.items false }
    {
        Growing {
            items,
            ran_out: false,
        }
    }

    /// An empty list with room for so many items.
    pub fn with_capacity(alloc: Global, capacity: usize) -> Growing<T>
        ensures { result.items ≡ [] }
    {
        match Vec::with_capacity(alloc, capacity) {
            Ok(items) => Growing::from_items(items),
            Err(_) => {
                let mut list = Growing::from_items(Vec::new(alloc));
                list.fail();
                list
            }
        }
    }

    /// Appends an item.
    #[tactic(auto, using(crate::proofs::Grown::grows_still, crate::proofs::Grown::grows_whole, crate::proofs::Grown::grows_failed))]
    pub fn push(&mut self, item: T)
        ensures { Grows self.old self.new (item ∷ []) }
    {
        if !self.ran_out {
            self.ran_out = self.items.push(item).is_err();
        }
    }

    /// Memory ran out when something was made that was to be appended.
    pub fn fail(&mut self)
        ensures { self.new ≡ growth self.old.items true }
    {
        self.ran_out = true;
    }

    /// Appends an item, unless memory ran out when it was made.
    pub fn push_made(&mut self, made: Result<T, AllocError>)
        ensures ok { IfOk made (λ item. Grows self.old self.new (item ∷ [])) }
        ensures err { OnErr made (self.new ≡ growth self.old.items true) }
    {
        match made {
            Ok(item) => self.push(item),
            Err(_) => self.fail(),
        }
    }

    /// The list; an error if memory ran out.
    pub fn finish(self) -> Result<Vec<T>, AllocError>
        ensures ok { IfOk result (λ v. growth v.items false ≡ self) }
        ensures err { OnErr result (self.ran_out ≡ true) }
    {
        let Growing { items, ran_out } = self;
        if ran_out {
            return Err(AllocError);
        }
        Ok(items)
    }

    /// Puts back what was appended; an error if memory ran out.
    pub fn put_back(self, list: &mut Vec<T>) -> Result<(), AllocError>
        ensures items { list.new.items ≡ self.items }
        ensures ok { OnOk result (self.ran_out ≡ false) }
        ensures err { OnErr result (self.ran_out ≡ true) }
    {
        let Growing { items, ran_out } = self;
        *list = items;
        if ran_out {
            return Err(AllocError);
        }
        Ok(())
    }
}

impl Growing<u8> {
    /// A text that goes on from these bytes, which are taken out of the list.
    pub fn taken(list: &mut Vec<u8>) -> Growing<u8>
        ensures { result ≡ growth list.old.items false }
    {
        let empty = Vec::new(*list.allocator());
        Growing::from_items(mem::replace(list, empty))
    }

    /// Appends bytes.
    #[tactic(auto, using(crate::proofs::Grown::grows_still, crate::proofs::Grown::grows_whole, crate::proofs::Grown::grows_failed))]
    pub fn append(&mut self, bytes: &[u8])
        ensures { Grows self.old self.new bytes.now }
    {
        if !self.ran_out {
            self.ran_out = self.items.extend_from_slice(bytes).is_err();
        }
    }
}
