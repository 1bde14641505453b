// Equality of items, and of lists of them.
ghost use Rattle.std.specs.Prelude.{◌≡◌, ◌↔◌, IsTrue};
ghost use Rattle.cp_lists.specs.Lists.{IsIn};

/// What can be tested for equality.
pub trait Same {
    /// Whether the two are the same.
    fn is_same(&self, other: &Self) -> bool
        ensures { IsTrue result ↔ (self.now ≡ other.now) };
}

/// Whether the item is one of these.
pub fn has<T: Same>(items: &[T], item: &T) -> bool
    ensures { IsTrue result ↔ IsIn item.now items.now }
{
    for other in items {
        if other.is_same(item) {
            return true;
        }
    }
    false
}

/// Whether the lists have the same items.
pub fn are_same<T: Same>(a: &[T], b: &[T]) -> bool
    ensures { IsTrue result ↔ (a.now ≡ b.now) }
{
    if a.len() != b.len() {
        return false;
    }
    for index in 0..a.len() {
        if !a[index].is_same(&b[index]) {
            return false;
        }
    }
    true
}
