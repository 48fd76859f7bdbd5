//! The stores that a writer makes, one after another.

ghost use Rattle.std.specs.Prelude.{◌∷◌, [], IfOk, IfErr, OnOk};
ghost use Rattle.word_layout.specs.Layouts.{capacity_of, limit_of};
ghost use Rattle.table_updates.specs.declared.updates.Update.{Update};
ghost use Rattle.latch_weak.specs.Works.{AreStoresOf};
ghost use Rattle.latch_core.specs.Writers.{IsRefusedBy};
ghost use Rattle.latch_weak.specs.Recordings.{AreStoresOfCore, Continues, HasCarriedOut};
ghost use Rattle.latch_weak.specs.Recordings.{RefusesRecording};

use latch_core::WriterCore;
use order_laws::{Refusal, TreeOrder};
use std::alloc::Global;
use table_updates::Update;
use word_layout::{Layout, Store};

/// The stores that a writer makes for these updates, one after another, from an empty table whose
/// sequence begins at `start`: those that a [`WriterCore`] hands out, to the end of each update.
///
/// Refused as the first update that is refused, as [`WriterCore::open`] if the sequence may not
/// begin there, and by [`Refusal::OutOfMemory`].
pub fn record<O: TreeOrder>(
    alloc: Global,
    l: Layout,
    start: u64,
    updates: &[Update],
) -> Result<Vec<Store>, Refusal>
    ensures stores { IfOk result (λ stores.
        AreStoresOf O.order (capacity_of l) (limit_of l) start updates.now stores.items) }
    ensures core { IfOk result (λ stores.
        AreStoresOfCore O.order l start updates.now stores.items) }
    ensures refused { IfErr result (RefusesRecording O.order l start updates.now) }
{
    let mut writer = WriterCore::<O>::open(alloc, l, start)?;
    let mut stores = Vec::new(alloc);
    for update in updates {
        carry_out(&mut writer, update, &mut stores)?;
    }
    Ok(stores)
}

/// Carries one update out, and adds its stores to those that the writer has made.
fn carry_out<O: TreeOrder>(
    writer: &mut WriterCore<O>,
    update: &Update,
    stores: &mut Vec<Store>,
) -> Result<(), Refusal>
    ensures made { OnOk result (Continues O.order stores.old.items writer.old
        (update.now ∷ []) stores.new.items writer.new) }
    ensures carried { OnOk result (HasCarriedOut O.order stores.old.items writer.old update.now
        stores.new.items writer.new) }
    ensures refused { IfErr result (IsRefusedBy O.order writer.old update.now) }
{
    writer.begin(update)?;
    while let Some(store) = writer.step() {
        stores.push(store)?;
    }
    Ok(())
}
