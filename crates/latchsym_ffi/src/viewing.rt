//! What C calls, of views: a catalog in memory of the caller's, for any number of threads at once.

ghost use Rattle.std.specs.Prelude.{◌≡◌, ◌≢◌, ◌↔◌, IsTrue};
ghost use Rattle.modules.specs.Entries.{CatalogEntries};
ghost use Rattle.latchsym_ffi.specs.Finding.{known_at, known_call};
ghost use Rattle.latchsym_ffi.specs.HeldCatalogs.{HeldCatalog};
ghost use Rattle.latchsym_ffi.specs.Handles.{HoldsCatalog, RefusesOther, Stays};
ghost use Rattle.latchsym_ffi.specs.Kinds.{catalog_kind};
ghost use Rattle.latchsym_ffi.specs.Named.{IsTold};
ghost use Rattle.latchsym_ffi.specs.Viewing.{AreRooms, TellsSizes};
ghost use Rattle.latchsym_ffi.specs.Views.{IsViewOf};

use crate::answers::{BAD_LENGTH, DONE};
use crate::calls::with_catalog;
use crate::finding::CatalogSymbol;
use crate::flattening::{flatten, symbols_in};
use crate::handles::Handle;
use crate::view_rows::{CatalogView, ViewRegion, ViewSymbol};
use crate::views::{seek, seek_call, tell};
use modules::Catalog;
use order_laws::Refusal;

/// How many rows a view of a catalog has: one for each region, and of each symbol one and its
/// address.
#[repr(C)]
#[derive(Clone, Copy, Drop)]
pub struct ViewSizes {
    pub regions: usize,
    pub symbols: usize,
}

/// Writes how many rows a view of the catalog has.
fn write_sizes(catalog: &Catalog<'static>, out: &mut ViewSizes) -> u32
    ensures { TellsSizes catalog.now result out.old out.new }
{
    match symbols_in(catalog) {
        Some(symbols) => {
            *out = ViewSizes {
                regions: catalog.regions(),
                symbols,
            };
            DONE
        }
        None => Refusal::OutOfMemory.number(),
    }
}

/// Whether the rooms have as many rows as a view of the catalog.
fn are_rooms(
    catalog: &Catalog<'static>,
    regions: &[ViewRegion<'_>],
    symbols: &[ViewSymbol],
    addresses: &[u64],
) -> bool
    ensures { IsTrue result ↔ AreRooms catalog.now regions.now symbols.now addresses.now }
{
    match symbols_in(catalog) {
        Some(count) => {
            regions.len() == catalog.regions() && symbols.len() == count && addresses.len() == count
        }
        None => false,
    }
}

/// Makes the view of the catalog in these rooms.
fn flatten_into<'c, 's>(
    catalog: &Catalog<'static>,
    regions: &'c mut [ViewRegion<'s>],
    symbols: &'s mut [ViewSymbol],
    addresses: &'s mut [u64],
    out: &mut CatalogView<'c, 's>,
) -> u32
    ensures flat { result ≡ 0 → IsViewOf catalog.now out.new.regions.now }
    ensures unchanged { result ≢ 0 → out.new ≡ out.old }
    ensures done { AreRooms catalog.now regions.old symbols.old addresses.old → result ≡ 0 }
    ensures room { (AreRooms catalog.now regions.old symbols.old addresses.old → ⊥)
        → result ≡ 102 }
{
    if !are_rooms(catalog, regions, symbols, addresses) {
        return BAD_LENGTH;
    }
    *out = flatten(catalog, regions, symbols, addresses);
    DONE
}

/// Writes how many rows a view of the catalog has.
#[unsafe(no_mangle)]
pub extern "C" fn latchsym_catalog_sizes(catalog: &mut Handle, out: &mut ViewSizes) -> u32
    ensures stays { Stays catalog.old catalog.new }
    ensures told { (c : HeldCatalog) → HoldsCatalog c catalog.old
        → TellsSizes c.entries result out.old out.new }
    ensures other { RefusesOther catalog_kind catalog.old catalog.new out.old out.new result }
{
    with_catalog!(catalog, |open| write_sizes(open.catalog(), out))
}

/// Makes a view of the catalog in rooms for its rows.
#[unsafe(no_mangle)]
pub extern "C" fn latchsym_catalog_flatten_nonnull<'c, 's>(
    catalog: &mut Handle,
    regions: &'c mut [ViewRegion<'s>],
    symbols: &'s mut [ViewSymbol],
    addresses: &'s mut [u64],
    out: &mut CatalogView<'c, 's>,
) -> u32
    ensures stays { Stays catalog.old catalog.new }
    ensures flat { (c : HeldCatalog) → HoldsCatalog c catalog.old → result ≡ 0
        → IsViewOf c.entries out.new.regions.now }
    ensures done { (c : HeldCatalog) → HoldsCatalog c catalog.old
        → AreRooms c.entries regions.old symbols.old addresses.old → result ≡ 0 }
    ensures room { (c : HeldCatalog) → HoldsCatalog c catalog.old
        → (AreRooms c.entries regions.old symbols.old addresses.old → ⊥) → result ≡ 102 }
    ensures unchanged { result ≢ 0 → out.new ≡ out.old }
    ensures other { catalog.old.kind ≢ catalog_kind → (result ≡ 101) × (catalog.new ≡ catalog.old) }
{
    with_catalog!(
        catalog,
        |open| flatten_into(open.catalog(), regions, symbols, addresses, out)
    )
}

/// Looks an address up; the names are places in the listings. Any number of threads may call it
/// with one view.
#[unsafe(no_mangle)]
pub extern "C" fn latchsym_view_find(view: &CatalogView, addr: u64, out: &mut CatalogSymbol) -> u32
    ensures { (c : CatalogEntries) → IsViewOf c view.now.regions.now
        → IsTold c (known_at c addr) result out.new }
{
    tell(seek(view, addr), out)
}

/// Looks a return address up: the call before it, with the offset of the address itself.
#[unsafe(no_mangle)]
pub extern "C" fn latchsym_view_find_caller(
    view: &CatalogView<'_, '_>,
    addr: u64,
    out: &mut CatalogSymbol,
) -> u32
    ensures { (c : CatalogEntries) → IsViewOf c view.now.regions.now
        → IsTold c (known_call c addr) result out.new }
{
    tell(seek_call(view, addr), out)
}
