//! What C calls, of a writer's updates.

ghost use Rattle.std.specs.Prelude.{◌≡◌, ◌≢◌, IfOk, Option, map};
ghost use Rattle.order_laws.specs.Orders.{half_open};
ghost use Rattle.table_updates.specs.declared.updates.Update.TheVariants.{Batch, Erase, Insert};
ghost use Rattle.latch_table.specs.declared.writers.Did.{Did};
ghost use Rattle.latch_table.specs.Writers.{Begins, Finishes, Steps, WriterState};
ghost use Rattle.latchsym_ffi.specs.Updates.{RefusesAs, did_code, item_from};
ghost use Rattle.latchsym_ffi.specs.Handles.{HoldsWriter, RefusesOther, Stays, WriterGoes};
ghost use Rattle.latchsym_ffi.specs.Kinds.{writer_kind};

use crate::answers::{DONE, FLIP, STORE};
use crate::calls::with_writer;
use crate::handles::Handle;
use latch_table::{Did, Writer};
use order_laws::{HalfOpen, Item, Refusal};
use std::alloc::{AllocError, Global};
use table_updates::{Entries, Update};

/// An item: the addresses from `a` up to `b`, which is excluded, and a number of the caller's.
#[repr(C)]
#[derive(Clone, Copy, Drop)]
pub struct TableItem {
    pub a: u64,
    pub b: u64,
    pub tag: u64,
}

/// Begins an update, and leaves it there.
fn begin(writer: &mut Writer<HalfOpen>, update: Update) -> u32
    ensures begun { result ≡ 0 → Begins half_open writer.old update writer.new }
    ensures unchanged { result ≢ 0 → writer.new ≡ writer.old }
    ensures refused { result ≢ 0 → RefusesAs writer.old update result }
{
    match writer.begin(update) {
        Ok(pending) => {
            pending.leave();
            DONE
        }
        Err(refusal) => refusal.number(),
    }
}

/// Begins to insert an item.
#[unsafe(no_mangle)]
pub extern "C" fn latchsym_writer_begin_insert(
    _alloc: Global,
    writer: &mut Handle,
    item: &TableItem,
) -> u32
    ensures begun { let u = Insert (item_from item.now) in
        result ≡ 0 → WriterGoes (λ w w'. Begins half_open w u w') writer.old writer.new }
    ensures unchanged { result ≢ 0 → Stays writer.old writer.new }
    ensures refused { (w : WriterState) → HoldsWriter w writer.old → result ≢ 0
        → RefusesAs w (Insert (item_from item.now)) result }
    ensures other { writer.old.kind ≢ writer_kind → (result ≡ 101) × (writer.new ≡ writer.old) }
{
    let item = Item {
        a: item.a,
        b: item.b,
        tag: item.tag,
    };
    with_writer!(writer, |inner| begin(inner, Update::Insert(item)))
}

/// Begins to take out the item that begins at an address.
#[unsafe(no_mangle)]
pub extern "C" fn latchsym_writer_begin_erase(_alloc: Global, writer: &mut Handle, a: u64) -> u32
    ensures begun { result ≡ 0
        → WriterGoes (λ w w'. Begins half_open w (Erase a) w') writer.old writer.new }
    ensures unchanged { result ≢ 0 → Stays writer.old writer.new }
    ensures refused { (w : WriterState) → HoldsWriter w writer.old → result ≢ 0
        → RefusesAs w (Erase a) result }
    ensures other { writer.old.kind ≢ writer_kind → (result ≡ 101) × (writer.new ≡ writer.old) }
{
    with_writer!(writer, |inner| begin(inner, Update::Erase(a)))
}

/// The items as the table has them.
pub(crate) fn items_from(alloc: Global, items: &[TableItem]) -> Result<Vec<Item>, AllocError>
    ensures { IfOk result (λ v. v.items ≡ map item_from items.now) }
{
    items
        .iter()
        .map(|item| Item {
            a: item.a,
            b: item.b,
            tag: item.tag,
        })
        .collect(alloc)
}

/// The batch that takes out the items of these first addresses, and puts in these items.
fn batch_of(alloc: Global, erase: &[u64], insert: &[TableItem]) -> Result<Update, AllocError>
    ensures { IfOk result (λ u. u ≡ Batch erase.now (map item_from insert.now)) }
{
    Ok(Update::Batch {
        erase: Entries::from_slice(alloc, erase)?,
        insert: Entries::new(items_from(alloc, insert)?)?,
    })
}

/// Begins the batch, and leaves it there.
fn begin_batch(
    alloc: Global,
    writer: &mut Writer<HalfOpen>,
    erase: &[u64],
    insert: &[TableItem],
) -> u32
    ensures begun { result ≡ 0 → Begins half_open writer.old
        (Batch erase.now (map item_from insert.now)) writer.new }
    ensures unchanged { result ≢ 0 → writer.new ≡ writer.old }
    ensures refused { result ≢ 0 → result ≢ 7
        → RefusesAs writer.old (Batch erase.now (map item_from insert.now)) result }
{
    match batch_of(alloc, erase, insert) {
        Ok(update) => begin(writer, update),
        Err(_) => Refusal::OutOfMemory.number(),
    }
}

/// Begins to take out the items of these first addresses and to put in these items, in one update.
#[unsafe(no_mangle)]
pub extern "C" fn latchsym_writer_begin_batch_nonnull(
    alloc: Global,
    writer: &mut Handle,
    erase: &[u64],
    insert: &[TableItem],
) -> u32
    ensures begun { let u = Batch erase.now (map item_from insert.now) in
        result ≡ 0 → WriterGoes (λ w w'. Begins half_open w u w') writer.old writer.new }
    ensures unchanged { result ≢ 0 → Stays writer.old writer.new }
    ensures refused { (w : WriterState) → HoldsWriter w writer.old → result ≢ 0 → result ≢ 7
        → RefusesAs w (Batch erase.now (map item_from insert.now)) result }
    ensures other { writer.old.kind ≢ writer_kind → (result ≡ 101) × (writer.new ≡ writer.old) }
{
    with_writer!(writer, |inner| begin_batch(alloc, inner, erase, insert))
}

/// Makes one step, and returns its number.
fn step(writer: &mut Writer<HalfOpen>) -> u32
    ensures { (d : Option Did) × (result ≡ did_code d) × Steps writer.old writer.new d }
{
    match writer.step() {
        None => DONE,
        Some(Did::Flip) => FLIP,
        Some(Did::Store) => STORE,
    }
}

/// Makes one step of the pending update, and returns whether it was a flip of the sequence, a store
/// of another word, or none since the update is complete.
#[unsafe(no_mangle)]
pub extern "C" fn latchsym_writer_step(writer: &mut Handle) -> u32
    ensures step { WriterGoes
        (λ w w'. (d : Option Did) × (result ≡ did_code d) × Steps w w' d) writer.old writer.new }
    ensures other { writer.old.kind ≢ writer_kind → (result ≡ 101) × (writer.new ≡ writer.old) }
{
    with_writer!(writer, |inner| step(inner))
}

/// Makes the remaining steps of the pending update, if there is one, and writes the new generation.
#[unsafe(no_mangle)]
pub extern "C" fn latchsym_writer_finish(writer: &mut Handle, generation: &mut u64) -> u32
    ensures finished { WriterGoes
        (λ w w'. (result ≡ 0) × Finishes w w' generation.new) writer.old writer.new }
    ensures other { RefusesOther writer_kind writer.old writer.new generation.old generation.new
        result }
{
    with_writer!(writer, |inner| {
        *generation = inner.finish();
        DONE
    })
}

/// Closes a writer. Readers that are open go on with the table as it is.
#[unsafe(no_mangle)]
pub extern "C" fn latchsym_writer_close_nonnull(writer: &mut Handle)
    ensures { writer.new.kind ≡ 0 }
{
    writer.close();
}
