//! What C calls to replace the items of a table by the regions of a catalog, or by any others.

ghost use Rattle.std.specs.Prelude.{◌≡◌, ◌≢◌, length, map};
ghost use Rattle.order_laws.specs.Orders.{half_open};
ghost use Rattle.latch_table.specs.Replacing.{BeginsReplacing};
ghost use Rattle.latch_table.specs.Writers.{WriterState};
ghost use Rattle.modules.specs.Catalogs.{regions_of};
ghost use Rattle.latchsym_ffi.specs.HeldCatalogs.{HeldCatalog};
ghost use Rattle.latchsym_ffi.specs.Handles.{HoldsCatalog, HoldsWriter, Stays, WriterGoes};
ghost use Rattle.latchsym_ffi.specs.Kinds.{catalog_kind, writer_kind};
ghost use Rattle.latchsym_ffi.specs.Replacing.{RefusesReplacingAs, TellsItems, item_told};
ghost use Rattle.latchsym_ffi.specs.Updates.{item_from};

use crate::answers::{BAD_LENGTH, DONE};
use crate::calls::{with_catalog, with_writer};
use crate::handles::Handle;
use crate::updates::{TableItem, items_from};
use latch_table::Writer;
use modules::IndexedCatalog;
use order_laws::{HalfOpen, Item, Refusal};
use std::alloc::Global;

/// Writes these items, each into the room of its place.
fn put_items(items: &[Item], out: &mut [TableItem])
    requires { length out.old ≡ length items.now }
    ensures { out.new ≡ map item_told items.now }
{
    for place in 0..items.len() {
        let item = items[place];
        out[place] = TableItem {
            a: item.a,
            b: item.b,
            tag: item.tag,
        };
    }
}

/// Writes an item for each region of the catalog, if there is room for just as many.
fn write_items(catalog: &IndexedCatalog<'static>, out: &mut [TableItem]) -> u32
    ensures told { result ≡ 0 → TellsItems catalog.now out.new }
    ensures done { length out.old ≡ length (regions_of catalog.now) → result ≡ 0 }
    ensures room { length out.old ≢ length (regions_of catalog.now) → result ≡ 102 }
    ensures refused { result ≢ 0 → out.new ≡ out.old }
{
    let items = catalog.items();
    if out.len() != items.len() {
        return BAD_LENGTH;
    }
    put_items(items, out);
    DONE
}

/// Writes an item for each region of the catalog, by rising first address, with the number of its
/// module as the tag. The array has the number of regions that latchsym_catalog_sizes gives.
#[unsafe(no_mangle)]
pub extern "C" fn latchsym_catalog_items_nonnull(catalog: &mut Handle, out: &mut [TableItem]) -> u32
    ensures stays { Stays catalog.old catalog.new }
    ensures told { (c : HeldCatalog) → HoldsCatalog c catalog.old → result ≡ 0
        → TellsItems c.entries out.new }
    ensures done { (c : HeldCatalog) → HoldsCatalog c catalog.old
        → length out.old ≡ length (regions_of c.entries) → result ≡ 0 }
    ensures room { (c : HeldCatalog) → HoldsCatalog c catalog.old
        → length out.old ≢ length (regions_of c.entries) → result ≡ 102 }
    ensures refused { result ≢ 0 → out.new ≡ out.old }
    ensures other { catalog.old.kind ≢ catalog_kind → (result ≡ 101) × (catalog.new ≡ catalog.old) }
{
    with_catalog!(catalog, |open| write_items(open.indexed(), out))
}

/// Begins the update after which the table has just these items, and leaves it there.
fn begin_replace(alloc: Global, writer: &mut Writer<HalfOpen>, items: &[TableItem]) -> u32
    ensures begun { result ≡ 0
        → BeginsReplacing half_open writer.old (map item_from items.now) writer.new }
    ensures unchanged { result ≢ 0 → writer.new ≡ writer.old }
    ensures refused { result ≢ 0
        → RefusesReplacingAs writer.old (map item_from items.now) result }
{
    let Ok(list) = items_from(alloc, items) else {
        return Refusal::OutOfMemory.number();
    };
    match writer.begin_replace(list.as_slice()) {
        Ok(pending) => {
            pending.leave();
            DONE
        }
        Err(refusal) => refusal.number(),
    }
}

/// Begins the update after which the table has just these items, which have to rise. An item that
/// the table has already keeps its node.
#[unsafe(no_mangle)]
pub extern "C" fn latchsym_writer_begin_replace_nonnull(
    alloc: Global,
    writer: &mut Handle,
    items: &[TableItem],
) -> u32
    ensures begun { let list = map item_from items.now in
        result ≡ 0
        → WriterGoes (λ w w'. BeginsReplacing half_open w list w') writer.old writer.new }
    ensures unchanged { result ≢ 0 → Stays writer.old writer.new }
    ensures refused { (w : WriterState) → HoldsWriter w writer.old → result ≢ 0
        → RefusesReplacingAs w (map item_from items.now) result }
    ensures other { writer.old.kind ≢ writer_kind → (result ≡ 101) × (writer.new ≡ writer.old) }
{
    with_writer!(writer, |inner| begin_replace(alloc, inner, items))
}
