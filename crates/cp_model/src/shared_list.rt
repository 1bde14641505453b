// Lists that copies share.
ghost use Rattle.std.specs.Prelude.{◌≡◌, ◌++◌, IfOk};

use std::alloc::{AllocError, Global};
use std::marker::Model;
use std::rc::Rc;

/// How the items of a list are held: by a handle that copies share; or, if there are none or there was no memory for a
/// handle, by the list alone.
#[derive(Drop)]
enum Held<T: Drop> {
    Shared(Rc<Vec<T>>),
    Own(Vec<T>),
}

/// Items, in order, that never change: copies share them. Contracts see their list.
#[derive(Drop)]
pub struct SharedList<T: Drop> {
    held: Held<T>,
}

impl<T: Drop> Model for SharedList<T> {
    ghost use Rattle.std.specs.Prelude.{List};
    ghost use Rattle.std.specs.Coded.{coded_list};

    ghost Value = { List T };

    ghost coded = { coded_list T.code };

    ghost use Rattle.cp_model.specs.SharedList.{held_items};

    ghost view = { λ s. held_items s.held };
}

impl<T: Drop> SharedList<T> {
    /// These items.
    pub fn of(items: Vec<T>) -> SharedList<T>
        ensures { result ≡ items.items }
    {
        if items.is_empty() {
            return SharedList {
                held: Held::Own(items),
            };
        }
        let held = match Rc::new(*items.allocator(), items) {
            Ok(items) => Held::Shared(items),
            Err(refused) => Held::Own(refused.value),
        };
        SharedList { held }
    }

    /// The list that holds them.
    fn items(&self) -> &Vec<T>
        ensures { result.now.items ≡ self.now }
    {
        match &self.held {
            Held::Shared(items) => items,
            Held::Own(items) => items,
        }
    }

    /// The items.
    pub fn as_slice(&self) -> &[T]
        ensures { result.now ≡ self.now }
    {
        self.items().as_slice()
    }
}

impl<T: Clone + Drop> SharedList<T> {
    /// The same items: another handle to them, or clones.
    pub fn copy(&self, alloc: Global) -> Result<SharedList<T>, AllocError>
        ensures { IfOk result (λ s. ((x y : T) → T.is_clone x y → y ≡ x) → s ≡ self.now) }
    {
        match &self.held {
            Held::Shared(items) => items.clone().map(|items| SharedList {
                held: Held::Shared(items),
            }),
            Held::Own(items) => Vec::from_clones(alloc, items).map(SharedList::of),
        }
    }

    /// These items, then others. If there are no others, these are shared.
    pub fn joined(&self, more: &[T]) -> Result<SharedList<T>, AllocError>
        ensures { IfOk result (λ s. ((x y : T) → T.is_clone x y → y ≡ x) → s ≡ self.now ++ more.now) }
    {
        let own = self.items();
        let alloc = *own.allocator();
        if more.is_empty() {
            return self.copy(alloc);
        }
        let mut items = Vec::with_capacity(alloc, own.len().saturating_add(more.len()))?;
        items.extend_with_clones(own)?;
        items.extend_with_clones(more)?;
        Ok(SharedList::of(items))
    }
}
