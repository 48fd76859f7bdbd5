//! The entries of a batch.

ghost use Rattle.std.specs.Prelude.{◌≡◌, IfOk};

use std::alloc::{AllocError, Global};
use std::marker::Model;

/// First words or items of one update.
///
/// A contract sees the list of them: two with equal lists are equal, whatever room lies after
/// either. The list is in a box, so that a batch makes no update larger than an item does: a trace
/// keeps many updates, and few of them are batches.
#[derive(Debug, Drop)]
pub struct Entries<T> {
    items: Box<Vec<T>>,
}

impl<T> Model for Entries<T> {
    ghost use Rattle.std.specs.Prelude.{List};

    ghost Value = { List T };

    ghost view = { λ e. e.items.value.items };
}

impl<T: Drop> Entries<T> {
    /// These entries.
    pub fn new(items: Vec<T>) -> Result<Self, AllocError>
        ensures { IfOk result (λ entries. entries ≡ items.items) }
    {
        let alloc = *items.allocator();
        Ok(Entries {
            items: Box::new(alloc, items)?,
        })
    }
}

impl<T> Entries<T> {
    /// The entries in order.
    pub fn as_slice(&self) -> &[T]
        ensures { result.now ≡ self.now }
    {
        self.items.as_slice()
    }
}

impl<T: PartialEq> PartialEq for Entries<T> {
    ghost use Rattle.std.specs.Cmp.Lexicographic.{pointwise, lists_per};

    ghost eq = { λ x y. pointwise T.eq x y };

    ghost laws = { lists_per T.laws };

    fn eq(&self, other: &Self) -> bool {
        self.as_slice() == other.as_slice()
    }
}

impl<T: Eq> Eq for Entries<T> {
    ghost use Rattle.std.specs.Cmp.Lexicographic.{lists_equiv};

    ghost laws = { lists_equiv T.Eq.laws };
}

impl<T: Copy> Entries<T> {
    /// These entries, copied.
    pub fn from_slice(alloc: Global, items: &[T]) -> Result<Self, AllocError>
        ensures { IfOk result (λ entries. entries ≡ items.now) }
    {
        Entries::new(Vec::from_slice(alloc, items)?)
    }

    /// A copy of these entries.
    pub fn copy(&self) -> Result<Self, AllocError>
        ensures { IfOk result (λ entries. entries ≡ self.now) }
    {
        Entries::from_slice(*self.items.allocator(), self.as_slice())
    }
}
