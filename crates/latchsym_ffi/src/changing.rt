//! What C calls to open what a change of a catalog's listing leaves.

ghost use Rattle.std.specs.Prelude.{◌≡◌, ◌≢◌, ◌⊎◌, ◌&&◌, true, false, IfErr, IfOk, IfSome, None, Some};
ghost use Rattle.std.specs.Prelude.{nat_eq};
ghost use Rattle.histories.specs.Changes.{bad_line_of};
ghost use Rattle.latchsym_ffi.specs.Changing.{Changes, IsChanged, RefusesChange};
ghost use Rattle.latchsym_ffi.specs.Handles.{HoldsCatalog, Stays};
ghost use Rattle.latchsym_ffi.specs.HeldCatalogs.{HeldCatalog};
ghost use Rattle.latchsym_ffi.specs.Kinds.{catalog_kind};
ghost use Rattle.latchsym_ffi.specs.Listings.{is_change};
ghost use Rattle.latchsym_ffi.specs.declared.contents.Content.TheVariants as content;

use crate::answers::{BAD_HANDLE, BAD_LINE, BAD_LISTINGS, DONE};
use crate::calls::with_catalog;
use crate::contents::{CLOSED, Content};
use crate::handles::Handle;
use crate::listings::CatalogListings;
use crate::open_catalogs::OpenCatalog;
use histories::{bad_line_of, names_in};
use listing::read_kallsyms;
use modules::laws::changed_parts_are_of_the_changed_listing;
use modules::{ExpectedLookups, IndexedCatalog, SharedListing};
use order_laws::Refusal;
use std::alloc::{AllocError, Global};

/// The catalog of what a change leaves of a listing.
fn changed(
    alloc: Global,
    listing: &SharedListing<'static>,
    change: &'static [u8],
) -> Result<OpenCatalog, AllocError>
    ensures { IfOk result (IsChanged change.now listing.now) }
{
    changed_parts_are_of_the_changed_listing();
    let named = names_in(alloc, change)?;
    let added = read_kallsyms(alloc, change, false)?;
    let listing = listing.changed(alloc, &named, added.lines, ExpectedLookups::Any)?;
    let (catalog, _counts) = listing.catalog(alloc, ExpectedLookups::Any)?;
    OpenCatalog::new(alloc, IndexedCatalog::new(alloc, catalog)?, Some(listing))
}

/// The catalog of what a change leaves, in a box.
fn changed_content(
    alloc: Global,
    listing: &SharedListing<'static>,
    change: &'static [u8],
) -> Result<Box<Content, Global>, AllocError>
    ensures { IfOk result (λ b. (c : HeldCatalog) × (b.value ≡ content.Catalog c)
        × IsChanged change.now listing.now c) }
{
    let catalog = changed(alloc, listing, change)?;
    Ok(Box::new(alloc, Content::Catalog(catalog))?)
}

/// Opens what a change leaves of a listing in a closed handle.
fn change_listing(
    alloc: Global,
    listing: &SharedListing<'static>,
    change: &'static [u8],
    out: &mut Handle,
    bad_line: &mut u64,
) -> u32
    requires { out.old.kind ≡ 0 }
    ensures changed { result ≡ 0 → (c : HeldCatalog) × HoldsCatalog c out.new
        × Changes change.now (Some listing.now) c }
    ensures refused { result ≢ 0 → out.new ≡ out.old }
    ensures why { result ≢ 0 → RefusesChange change.now (Some listing.now) bad_line.new result }
    ensures told { result ≢ 15 → bad_line.new ≡ bad_line.old }
{
    if let Some(number) = bad_line_of(change) {
        *bad_line = number;
        return BAD_LINE;
    }
    match changed_content(alloc, listing, change) {
        Ok(content) => {
            out.put(content);
            DONE
        }
        Err(_) => Refusal::OutOfMemory.number(),
    }
}

/// Opens what a change leaves of a catalog's listing of symbols in a closed handle.
fn change_in(
    alloc: Global,
    catalog: &OpenCatalog,
    change: &'static [u8],
    out: &mut Handle,
    bad_line: &mut u64,
) -> u32
    requires { out.old.kind ≡ 0 }
    ensures changed { result ≡ 0 → (c : HeldCatalog) × HoldsCatalog c out.new
        × Changes change.now catalog.now.listing c }
    ensures refused { result ≢ 0 → out.new ≡ out.old }
    ensures why { result ≢ 0
        → RefusesChange change.now catalog.now.listing bad_line.new result }
    ensures told { result ≢ 15 → bad_line.new ≡ bad_line.old }
{
    match catalog.listing() {
        Some(listing) => change_listing(alloc, listing, change, out, bad_line),
        None => BAD_HANDLE,
    }
}

/// Opens the catalog of what a change leaves of a catalog's listing of symbols, in a closed handle.
/// Both share what did not change.
#[unsafe(no_mangle)]
pub extern "C" fn latchsym_catalog_change_nonnull(
    alloc: Global,
    catalog: &mut Handle,
    change: &CatalogListings,
    out: &mut Handle,
    bad_line: &mut u64,
) -> u32
    ensures stays { Stays catalog.old catalog.new }
    ensures changed { (c : HeldCatalog) → HoldsCatalog c catalog.old → result ≡ 0
        → (out.old.kind ≡ 0) × ((d : HeldCatalog) × HoldsCatalog d out.new
        × Changes change.now.kallsyms.now c.listing d) }
    ensures held { result ≡ 0 → (catalog.old.kind ≡ catalog_kind)
        × (is_change change.now ≡ true) }
    ensures refused { result ≢ 0 → out.new ≡ out.old }
    ensures not_so { out.old.kind ≢ 0 → result ≡ 101 }
    ensures unread { out.old.kind ≡ 0 → is_change change.now ≡ false → result ≡ 103 }
    ensures other { out.old.kind ≡ 0 → is_change change.now ≡ true
        → catalog.old.kind ≢ catalog_kind → result ≡ 101 }
    ensures why { (c : HeldCatalog) → HoldsCatalog c catalog.old → out.old.kind ≡ 0
        → is_change change.now ≡ true → result ≢ 0
        → RefusesChange change.now.kallsyms.now c.listing bad_line.new result }
    ensures told { result ≢ 15 → bad_line.new ≡ bad_line.old }
{
    if out.kind != CLOSED {
        return BAD_HANDLE;
    }
    if !change.is_change() {
        return BAD_LISTINGS;
    }
    with_catalog!(
        catalog,
        |open| change_in(alloc, open, change.kallsyms, out, bad_line)
    )
}
