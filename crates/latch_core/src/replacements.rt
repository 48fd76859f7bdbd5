//! The items of a table replaced by others: which are to be erased, and which to be inserted.

ghost use Rattle.std.specs.Prelude.{◌≡◌, ◌<◌, [], ◌∷◌, true, false, List, IfOk};
ghost use Rattle.std.specs.Prelude.{OnOk};
ghost use Rattle.order_laws.specs.declared.items.Item.{Item};
ghost use Rattle.latch_core.specs.Replacements.{replacement, is_rising, update_found, Tells};
ghost use Rattle.latch_core.specs.Replacements.{StopsAt};

use order_laws::{Item, TreeOrder};
use std::alloc::{AllocError, Global};
use table_updates::{Entries, Update};

/// Whether each item is less than all that come after it.
pub fn rises<O: TreeOrder>(items: &[Item]) -> bool
    ensures { result ≡ is_rising O.order items.now }
{
    for place in 1..items.len() {
        if !O::less(&items[place - 1], &items[place]) {
            return false;
        }
    }
    true
}

/// What a table differs in from a list of items that rise, as far as the table was given.
///
/// The table is given item by item, in order, and each item of it and of the list is looked at
/// once. Memory is taken for what differs alone.
#[derive(Drop)]
pub struct Difference {
    place: usize,
    erase: Vec<u64>,
    insert: Vec<Item>,
}

impl Difference {
    /// The difference from a table before any of its items is given. Takes no memory.
    pub fn new(alloc: Global) -> Self
        ensures { (table items : List Item) → update_found result items table
            ≡ replacement table items }
    {
        Difference {
            place: 0,
            erase: Vec::new(alloc),
            insert: Vec::new(alloc),
        }
    }

    /// Takes the next item of the table, for this list.
    pub fn tell<O: TreeOrder>(&mut self, items: &[Item], item: Item) -> Result<(), AllocError>
        requires { is_rising O.order items.now ≡ true }
        ensures { OnOk result (Tells O.order items.now self.old (item ∷ []) self.new) }
    {
        self.pass_lesser::<O>(items, item)?;
        if self.place < items.len() && items[self.place] == item {
            self.place += 1;
            return Ok(());
        }
        Ok(self.erase.push(item.a)?)
    }

    // Goes over the items of the list that are less than the next one of the table: these are new.
    fn pass_lesser<O: TreeOrder>(&mut self, items: &[Item], item: Item) -> Result<(), AllocError>
        requires { is_rising O.order items.now ≡ true }
        ensures same { OnOk result ((more : List Item) → is_rising O.order (item ∷ more) ≡ true →
            update_found self.new items.now (item ∷ more)
            ≡ update_found self.old items.now (item ∷ more)) }
        ensures stops { OnOk result (StopsAt O.order items.now self.new item) }
    {
        while self.place < items.len() && O::less(&items[self.place], &item) {
            self.insert.push(items[self.place])?;
            self.place += 1;
        }
        Ok(())
    }

    /// The update, after the whole table was given.
    pub fn into_update(self, items: &[Item]) -> Result<Update, AllocError>
        ensures { IfOk result (λ u. u ≡ update_found self items.now []) }
    {
        let Difference {
            place,
            erase,
            mut insert,
        } = self;
        if place < items.len() {
            insert.extend_from_slice(&items[place..])?;
        }
        Ok(Update::Batch {
            erase: Entries::new(erase)?,
            insert: Entries::new(insert)?,
        })
    }
}
