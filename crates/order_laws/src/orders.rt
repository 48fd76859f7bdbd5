//! Orders of items, and how a key compares with them.

ghost use Rattle.std.specs.Prelude.{◌≡◌, IsTrue};
ghost use Rattle.order_laws.specs.Orders.{Order, IsLawful, IsInLine};

use crate::items::Item;
use std::cmp::Ordering;

/// An order of items, with keys that lie below, in or above an item: `less` and `comp` of `struct
/// latch_tree_ops`.
///
/// `lawful` has what the functions owe each other on valid items that are apart. They return
/// something for any three words, even if no item has them, since a reader may load the words of
/// two items mixed. Nothing more is asked of an order; what it offers by [`TreeOrder::in_line`]
/// makes a table's own searches faster, and no answer different.
pub trait TreeOrder {
    /// What is looked up.
    type Key: Copy;

    /// What the functions return.
    ghost order: { Order Self.Key };

    /// A key that lies in the item.
    fn key_of(i: &Item) -> Self::Key
        ensures { result ≡ order.key_of i.now };

    /// Whether the item may be in a table.
    fn valid(i: &Item) -> bool
        ensures { result ≡ order.valid i.now };

    /// Whether two items may be in one table.
    fn apart(x: &Item, y: &Item) -> bool
        ensures { result ≡ order.apart x.now y.now };

    /// Whether `x` comes before `y`.
    fn less(x: &Item, y: &Item) -> bool
        ensures { result ≡ order.less x.now y.now };

    /// Whether the key lies below the item, in it or above it.
    fn comp(k: Self::Key, i: &Item) -> Ordering
        ensures { result ≡ order.comp k i.now };

    /// Whether first words rise along the order, and an item beyond a neighbour is apart, as ranges
    /// lie on a line.
    ///
    /// An order need not say so: if it does not, a table goes through all of its items to find a
    /// first word or an item that meets another.
    fn in_line() -> bool
        ensures { IsTrue result → IsInLine order }
    {
        false
    }

    ghost lawful: { IsLawful order };
}
