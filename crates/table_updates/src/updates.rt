//! Changes of a table.

ghost use Rattle.std.specs.Prelude.{◌≡◌, IfOk, IfErr};

use crate::entries::Entries;
use order_laws::{Item, Refusal};
use std::alloc::{AllocError, Global};

/// One change of the table, which readers see whole or not at all.
#[derive(Debug, PartialEq, Eq, Drop)]
pub enum Update {
    /// Adds the item.
    Insert(Item),
    /// Takes out the item that has this first word.
    Erase(u64),
    /// Takes out the items that have these first words, and adds these items.
    Batch {
        erase: Entries<u64>,
        insert: Entries<Item>,
    },
}

impl Update {
    /// The batch of these first words and items.
    pub fn batch(alloc: Global, erase: &[u64], insert: &[Item]) -> Result<Update, AllocError>
        ensures { IfOk result (λ u. u ≡ Update.Batch erase.now insert.now) }
    {
        Ok(Update::Batch {
            erase: Entries::from_slice(alloc, erase)?,
            insert: Entries::from_slice(alloc, insert)?,
        })
    }

    /// A copy of this update. Refused by [`Refusal::OutOfMemory`] alone.
    pub fn copy(&self) -> Result<Update, Refusal>
        ensures same { IfOk result (λ u. u ≡ self.now) }
        ensures refusal { IfErr result (λ e. e ≡ Refusal.OutOfMemory) }
    {
        Ok(match self {
            Update::Insert(item) => Update::Insert(*item),
            Update::Erase(a) => Update::Erase(*a),
            Update::Batch { erase, insert } => Update::Batch {
                erase: erase.copy()?,
                insert: insert.copy()?,
            },
        })
    }
}
