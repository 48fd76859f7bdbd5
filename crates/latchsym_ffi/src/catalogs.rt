//! What C calls, of catalogs.

ghost use Rattle.std.specs.Prelude.{◌≡◌, ◌≢◌, true, false, IfOk, length, map};
ghost use Rattle.latchsym_ffi.specs.declared.contents.Content.TheVariants as content;
ghost use Rattle.latchsym_ffi.specs.Batches.{told_at};
ghost use Rattle.latchsym_ffi.specs.Catalogs.{OpensCatalog, RefusesCatalog};
ghost use Rattle.latchsym_ffi.specs.Finding.{answer_of, copied, known_at, known_code, owner_named};
ghost use Rattle.latchsym_ffi.specs.Finding.{known_call, symbol_named};
ghost use Rattle.latchsym_ffi.specs.HeldCatalogs.{HeldCatalog};
ghost use Rattle.latchsym_ffi.specs.Handles.{HoldsCatalog, RefusesOther, Stays};
ghost use Rattle.latchsym_ffi.specs.Kinds.{catalog_kind};
ghost use Rattle.latchsym_ffi.specs.Listings.{is_understood, texts_in};
ghost use Rattle.latchsym_ffi.specs.Named.{IsTold};
ghost use Rattle.latchsym_ffi.specs.Opening.{RefusesTexts};

use crate::answers::{BAD_HANDLE, BAD_LINE, BAD_LISTINGS, DONE};
use crate::batches::{CodedAnswer, answer_in_order};
use crate::calls::with_catalog;
use crate::contents::{CLOSED, Content};
use crate::finding::{CatalogAnswer, CatalogSymbol, copy_names, name_places, seek, seek_call};
use crate::handles::Handle;
use crate::listings::CatalogListings;
use crate::open_catalogs::OpenCatalog;
use crate::opening::{CatalogCounts, CatalogFault, open_content};
use order_laws::Refusal;
use std::alloc::{AllocError, Global};

/// Why a catalog was not opened, as a number, and the number of the bad line.
fn refusal(_given: &CatalogListings, fault: CatalogFault, bad_line: &mut u64) -> u32
    requires { RefusesTexts (texts_in _given.now) fault }
    ensures why { RefusesCatalog (texts_in _given.now) bad_line.new result }
    ensures told { result ≢ 15 → bad_line.new ≡ bad_line.old }
{
    match fault {
        CatalogFault::Refused(Refusal::TooManyRegions) => Refusal::TooManyRegions.number(),
        CatalogFault::Refused(_) => Refusal::OutOfMemory.number(),
        CatalogFault::BadLine(number) => {
            *bad_line = number;
            BAD_LINE
        }
    }
}

/// Opens the catalog of what is given in a closed handle.
fn open_in(
    alloc: Global,
    given: &CatalogListings,
    out: &mut Handle,
    counts: &mut CatalogCounts,
    bad_line: &mut u64,
) -> u32
    requires { out.old.kind ≡ 0 }
    ensures opened { result ≡ 0 → OpensCatalog given.now out.old out.new counts.new }
    ensures refused { result ≢ 0 → (out.new ≡ out.old) × (counts.new ≡ counts.old) }
    ensures why { result ≢ 0 → RefusesCatalog (texts_in given.now) bad_line.new result }
    ensures told { result ≢ 15 → bad_line.new ≡ bad_line.old }
{
    match open_content(alloc, given) {
        Ok((content, counted)) => {
            out.put(content);
            *counts = counted;
            DONE
        }
        Err(fault) => refusal(given, fault, bad_line),
    }
}

/// Opens a catalog of the listings, and writes how many lines were used or skipped.
#[unsafe(no_mangle)]
pub extern "C" fn latchsym_catalog_open_nonnull(
    alloc: Global,
    listings: &CatalogListings,
    out: &mut Handle,
    counts: &mut CatalogCounts,
    bad_line: &mut u64,
) -> u32
    ensures opened { result ≡ 0 → (is_understood listings.now ≡ true)
        × OpensCatalog listings.now out.old out.new counts.new }
    ensures refused { result ≢ 0 → (out.new ≡ out.old) × (counts.new ≡ counts.old) }
    ensures not_so { out.old.kind ≢ 0 → result ≡ 101 }
    ensures other { out.old.kind ≡ 0 → is_understood listings.now ≡ false → result ≡ 103 }
    ensures why { out.old.kind ≡ 0 → is_understood listings.now ≡ true → result ≢ 0
        → RefusesCatalog (texts_in listings.now) bad_line.new result }
    ensures told { result ≢ 15 → bad_line.new ≡ bad_line.old }
{
    if out.kind != CLOSED {
        return BAD_HANDLE;
    }
    if !listings.is_understood() {
        return BAD_LISTINGS;
    }
    open_in(alloc, listings, out, counts, bad_line)
}

/// Looks an address up; the names are places in the listings.
#[unsafe(no_mangle)]
pub extern "C" fn latchsym_catalog_find(
    catalog: &mut Handle,
    addr: u64,
    out: &mut CatalogSymbol,
) -> u32
    ensures stays { Stays catalog.old catalog.new }
    ensures told { (c : HeldCatalog) → HoldsCatalog c catalog.old
        → IsTold c.entries (known_at c.entries addr) result out.new }
    ensures other { RefusesOther catalog_kind catalog.old catalog.new out.old out.new result }
{
    with_catalog!(
        catalog,
        |open| name_places(open.catalog(), seek(open.indexed(), addr), out)
    )
}

/// Looks a return address up: the call before it, with the offset of the address itself.
#[unsafe(no_mangle)]
pub extern "C" fn latchsym_catalog_find_caller(
    catalog: &mut Handle,
    addr: u64,
    out: &mut CatalogSymbol,
) -> u32
    ensures stays { Stays catalog.old catalog.new }
    ensures told { (c : HeldCatalog) → HoldsCatalog c catalog.old
        → IsTold c.entries (known_call c.entries addr) result out.new }
    ensures other { RefusesOther catalog_kind catalog.old catalog.new out.old out.new result }
{
    with_catalog!(
        catalog,
        |open| name_places(open.catalog(), seek_call(open.indexed(), addr), out)
    )
}

/// Looks several addresses up, and writes each answer at its place.
#[unsafe(no_mangle)]
pub extern "C" fn latchsym_catalog_find_many_nonnull(
    catalog: &mut Handle,
    addrs: &[u64],
    out: &mut [CodedAnswer],
) -> u32
    ensures stays { Stays catalog.old catalog.new }
    ensures told { (c : HeldCatalog) → HoldsCatalog c catalog.old → result ≡ 0
        → out.new ≡ map (told_at c.entries) addrs.now }
    ensures done { (c : HeldCatalog) → HoldsCatalog c catalog.old
        → length out.old ≡ length addrs.now → result ≡ 0 }
    ensures room { (c : HeldCatalog) → HoldsCatalog c catalog.old
        → length out.old ≢ length addrs.now → result ≡ 102 }
    ensures refused { result ≢ 0 → out.new ≡ out.old }
    ensures other { catalog.old.kind ≢ catalog_kind → (result ≡ 101) × (catalog.new ≡ catalog.old) }
{
    with_catalog!(catalog, |open| answer_in_order(open.indexed(), addrs, out))
}

/// Looks an address up, and copies as much of the names as there is room for.
#[unsafe(no_mangle)]
pub extern "C" fn latchsym_catalog_name_nonnull(
    catalog: &mut Handle,
    addr: u64,
    out: &mut CatalogAnswer,
    name: &mut [u8],
    owner: &mut [u8],
) -> u32
    ensures stays { Stays catalog.old catalog.new }
    ensures code { (c : HeldCatalog) → HoldsCatalog c catalog.old
        → result ≡ known_code (known_at c.entries addr) }
    ensures answer { (c : HeldCatalog) → HoldsCatalog c catalog.old
        → out.new ≡ answer_of c.entries (known_at c.entries addr) }
    ensures name { (c : HeldCatalog) → HoldsCatalog c catalog.old
        → name.new ≡ copied (symbol_named (known_at c.entries addr)) name.old }
    ensures owner { (c : HeldCatalog) → HoldsCatalog c catalog.old
        → owner.new ≡ copied (owner_named c.entries (known_at c.entries addr)) owner.old }
    ensures other { catalog.old.kind ≢ catalog_kind → (result ≡ 101) × (catalog.new ≡ catalog.old)
        × (out.new ≡ out.old) × (name.new ≡ name.old) × (owner.new ≡ owner.old) }
{
    with_catalog!(
        catalog,
        |open| copy_names(open.catalog(), seek(open.indexed(), addr), out, name, owner)
    )
}

/// Another share of a catalog, in a box.
fn shared_in(alloc: Global, catalog: &OpenCatalog) -> Result<Box<Content, Global>, AllocError>
    ensures { IfOk result (λ shared. shared.value ≡ content.Catalog catalog.now) }
{
    Ok(Box::new(alloc, Content::Catalog(catalog.share()?))?)
}

/// Opens another handle of a catalog, for another thread.
#[unsafe(no_mangle)]
pub extern "C" fn latchsym_catalog_share(
    alloc: Global,
    catalog: &mut Handle,
    out: &mut Handle,
) -> u32
    ensures stays { Stays catalog.old catalog.new }
    ensures shared { result ≡ 0 → (catalog.old.kind ≡ catalog_kind) × (out.old.kind ≡ 0)
        × (out.new.pointer.content ≡ catalog.old.pointer.content) }
    ensures refused { result ≢ 0 → out.new ≡ out.old }
    ensures other { catalog.old.kind ≢ catalog_kind → (result ≡ 101) × (catalog.new ≡ catalog.old) }
    ensures not_so { out.old.kind ≢ 0 → (result ≡ 101) × (catalog.new ≡ catalog.old) }
    ensures why { catalog.old.kind ≡ catalog_kind → out.old.kind ≡ 0 → result ≢ 0 → result ≡ 7 }
{
    if out.kind != CLOSED {
        return BAD_HANDLE;
    }
    with_catalog!(catalog, |open| match shared_in(alloc, open) {
        Ok(shared) => {
            out.put(shared);
            DONE
        }
        Err(_) => Refusal::OutOfMemory.number(),
    })
}

/// Closes a handle. The catalog goes with its last handle.
#[unsafe(no_mangle)]
pub extern "C" fn latchsym_catalog_close_nonnull(catalog: &mut Handle)
    ensures { catalog.new.kind ≡ 0 }
{
    catalog.close();
}
