// Lists that contracts see as lists: of nodes, of numbers, and of whatever else a field holds several of.
ghost use Rattle.std.specs.Prelude.{◌≡◌, [], ◌∷◌, ◌++◌, option_map, IfOk, OnOk, OnErr};
ghost use Rattle.cp_lists.specs.Lists.{item_at};

use crate::node::Node;
use std::alloc::{AllocError, Global};
use std::marker::Model;

/// Items, in order. Contracts see their list.
#[derive(Drop)]
pub struct Sequence<T: Drop> {
    items: Vec<T>,
}

impl<T: Drop> Model for Sequence<T> {
    ghost use Rattle.std.specs.Prelude.{List};
    ghost use Rattle.std.specs.Coded.{coded_list};

    ghost Value = { List T };

    ghost coded = { coded_list T.code };

    ghost view = { λ s. s.items.items };
}

/// The item with this number, from 0, if there is one.
pub fn item_at<T>(items: &[T], number: usize) -> Option<&T>
    ensures { option_map (λ x. x.now) result ≡ item_at items.now number }
{
    items.get(number)
}

/// Nodes, in order.
pub type Nodes = Sequence<Node>;

/// Numbers of strands or of labels, in order.
pub type Numbers = Sequence<usize>;

impl<T: Drop> Sequence<T> {
    /// No items.
    pub fn new(alloc: Global) -> Sequence<T>
        ensures { result ≡ [] }
    {
        Sequence {
            items: Vec::new(alloc),
        }
    }

    /// These items.
    pub fn of(items: Vec<T>) -> Sequence<T>
        ensures { result ≡ items.items }
    {
        Sequence { items }
    }

    /// Appends an item. On an error nothing is added.
    pub fn push(&mut self, item: T) -> Result<(), AllocError>
        ensures ok { OnOk result (self.new ≡ self.old ++ item ∷ []) }
        ensures err { OnErr result (self.new ≡ self.old) }
    {
        self.items.push(item).map_err(AllocError::from)
    }

    /// The items.
    pub fn as_slice(&self) -> &[T]
        ensures { result.now ≡ self.now }
    {
        self.items.as_slice()
    }
}

impl<T: Copy + Drop> Sequence<T> {
    /// The same items.
    pub fn copy(&self) -> Result<Sequence<T>, AllocError>
        ensures { IfOk result (λ s. s ≡ self.now) }
    {
        Vec::from_slice(*self.items.allocator(), &self.items).map(Sequence::of)
    }
}
