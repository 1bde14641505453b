// Expanded labels, each in a box.
ghost use Rattle.std.specs.Prelude.{◌≡◌, IfOk};

use crate::expanded::Expanded;
use std::alloc::{AllocError, Global};
use std::marker::Model;

/// An expanded label in a box. Few labels are expanded, and the others need no room for one.
#[derive(Drop)]
pub(crate) struct ExpandedBox {
    inner: Box<Expanded>,
}

impl Model for ExpandedBox {
    ghost use Rattle.cp_search.specs.declared.expanded.Expanded as program;
    ghost use Rattle.cp_search.specs.contracts.expanded.Expanded as expanded;

    ghost Value = { program.Expanded };

    ghost coded = { expanded.the_row.coded };

    ghost view = { λ b. b.inner.value };
}

impl ExpandedBox {
    /// This label.
    pub(crate) fn of(alloc: Global, label: Expanded) -> Result<ExpandedBox, AllocError>
        ensures { IfOk result (λ b. b ≡ label) }
    {
        Box::new(alloc, label)
            .map(|inner| ExpandedBox { inner })
            .map_err(AllocError::from)
    }

    /// The label.
    pub(crate) fn into_inner(self) -> Expanded
        ensures { result ≡ self }
    {
        Box::into_inner(self.inner)
    }
}
