// Items by their numbers.
ghost use Rattle.std.specs.Prelude.{◌≡◌};
ghost use Rattle.cp_lists.specs.Lists.{item_at};

use crate::items::Item;

/// The item with this number, if there is one.
pub(crate) fn item_at(items: &[Item], number: usize) -> Option<Item>
    ensures { result ≡ item_at items.now number }
{
    items.get(number).copied()
}
