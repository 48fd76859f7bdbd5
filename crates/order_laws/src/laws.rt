//! What follows from an order's laws, as contracts of functions that do nothing; and plain slow
//! answers of a table for tests.

ghost use Rattle.std.specs.Prelude.{◌≡◌, ◌≢◌, ◌↔◌, ◌⊎◌, ℕ, List, Option, Contains};
ghost use Rattle.order_laws.specs.declared.items.Item.{Item};
ghost use Rattle.order_laws.specs.Tables.{IsTable, look, IsLook, with_item, without};

use crate::items::Item;
use crate::orders::TreeOrder;
use std::cmp::Ordering;

/// The item that a key is in is one alone: whatever is a lookup's answer is the one that `look`
/// computes.
pub fn look_is_one<O: TreeOrder>()
    ensures { (k : O.Key) (table : List Item) (found : Option Item) →
        IsTable O.order table → IsLook O.order k table found → found ≡ look O.order k table }
{}

/// What `look` computes is a lookup's answer, in any list of items.
pub fn look_is_an_answer<O: TreeOrder>()
    ensures { (k : O.Key) (table : List Item) → IsLook O.order k table (look O.order k table) }
{}

/// A table with one item more has that item and those it had.
pub fn with_item_adds_one<O: TreeOrder>()
    ensures { (i x : Item) (table : List Item) →
        Contains (with_item O.order i table) x ↔ ((x ≡ i) ⊎ Contains table x) }
{}

/// A table without a first word has the items that have another one.
pub fn without_leaves_the_others()
    ensures { (a : ℕ) (x : Item) (table : List Item) →
        Contains (without a table) x ↔ (Contains table x × (x.a ≢ a)) }
{}

/// Two tables with one set of items are one list, so a table says no more than the set of its
/// items.
pub fn a_table_is_its_items<O: TreeOrder>()
    ensures { (table other : List Item) → IsTable O.order table → IsTable O.order other →
        ((x : Item) → Contains table x ↔ Contains other x) → table ≡ other }
{}

/// The item of the table that the key is in, found by going through all of them.
pub fn look_through<O: TreeOrder>(table: &[Item], key: O::Key) -> Option<Item>
    ensures { result ≡ look O.order key table.now }
{
    for item in table {
        if O::comp(key, item) == Ordering::Equal {
            return Some(*item);
        }
    }
    None
}
