//! From the bytes of the listings to a catalog.

ghost use Rattle.std.specs.Prelude.{◌≡◌, IfErr, IfOk};
ghost use Rattle.std.specs.Option.{option_map};
ghost use Rattle.latchsym_ffi.specs.HeldCatalogs.{HeldCatalog};
ghost use Rattle.latchsym_ffi.specs.declared.contents.Content.TheVariants as content;
ghost use Rattle.latchsym_ffi.specs.Listings.{texts_in};
ghost use Rattle.latchsym_ffi.specs.Opening.{AreRead, IsListedFor, RefusesTexts, counts_of};
ghost use Rattle.latchsym_ffi.specs.Opening.{skipped_for};

use crate::answers::number_if_noted;
use crate::contents::Content;
use crate::listings::CatalogListings;
use crate::open_catalogs::OpenCatalog;
use listing::{ModuleCounts, OpenedCatalog, SkippedModule, SkippedSymbol, open};
use modules::{ExpectedLookups, IndexedCatalog};
use order_laws::Refusal;
use std::alloc::{AllocError, AllocFailed, Global};
use texts::LineFault;

/// How many lines of each listing were used, and how many were skipped for each cause, as `latchsym
/// lookup` prints them; and the number of each listing's note.
#[repr(C)]
#[derive(Clone, Copy, Drop)]
pub struct CatalogCounts {
    pub modules: u64,
    pub modules_hidden: u64,
    pub modules_empty: u64,
    pub modules_wraps: u64,
    pub modules_overlap: u64,
    pub modules_double: u64,
    pub modules_long: u64,
    pub modules_malformed: u64,
    pub symbols: u64,
    pub symbols_hidden: u64,
    pub symbols_stray: u64,
    pub symbols_long: u64,
    pub symbols_malformed: u64,
    pub regions: u64,
    pub regions_stray: u64,
    pub modules_note: u32,
    pub symbols_note: u32,
}

/// Why no catalog was opened.
#[derive(Drop)]
pub enum CatalogFault {
    /// A refusal of the build.
    Refused(Refusal),
    /// The number of the first line of the listing of regions that is not one.
    BadLine(u64),
}

impl From<Refusal> for CatalogFault {
    ghost use Rattle.latchsym_ffi.specs.declared.opening.CatalogFault.TheVariants.{Refused};

    ghost from_gives = { λ refusal fault. fault ≡ Refused refusal };

    fn from(refusal: Refusal) -> CatalogFault {
        CatalogFault::Refused(refusal)
    }
}

impl<T: Drop> From<AllocFailed<T>> for CatalogFault {
    ghost use Rattle.order_laws.specs.declared.refusals.Refusal.TheVariants.{OutOfMemory};
    ghost use Rattle.latchsym_ffi.specs.declared.opening.CatalogFault.TheVariants.{Refused};

    ghost from_gives = { λ _ fault. fault ≡ Refused OutOfMemory };

    fn from(_failed: AllocFailed<T>) -> CatalogFault {
        CatalogFault::Refused(Refusal::OutOfMemory)
    }
}

impl From<AllocError> for CatalogFault {
    ghost use Rattle.order_laws.specs.declared.refusals.Refusal.TheVariants.{OutOfMemory};
    ghost use Rattle.latchsym_ffi.specs.declared.opening.CatalogFault.TheVariants.{Refused};

    ghost from_gives = { λ _ fault. fault ≡ Refused OutOfMemory };

    fn from(_error: AllocError) -> CatalogFault {
        CatalogFault::Refused(Refusal::OutOfMemory)
    }
}

impl From<LineFault> for CatalogFault {
    ghost use Rattle.latchsym_ffi.specs.Opening.{fault_of};

    ghost from_gives = { λ unread fault. fault ≡ fault_of unread };

    fn from(unread: LineFault) -> CatalogFault {
        match unread {
            LineFault::BadLine(number) => CatalogFault::BadLine(number),
            LineFault::OutOfMemory | LineFault::Read => CatalogFault::Refused(Refusal::OutOfMemory),
        }
    }
}

/// How many lines of modules were skipped for this cause; none without a listing of them.
fn skipped(modules: &Option<ModuleCounts>, cause: SkippedModule) -> u64
    ensures { result ≡ skipped_for (option_map (λ k. k.by_place) modules.now) cause }
{
    match modules {
        Some(counts) => counts.count(cause),
        None => 0,
    }
}

/// The counts as C has them.
fn counts_of(opened: &OpenedCatalog) -> CatalogCounts
    ensures { result ≡ counts_of opened.now }
{
    let modules = &opened.skipped_modules;
    let symbols = &opened.skipped_symbols;
    let built = &opened.built;
    CatalogCounts {
        modules: built.modules,
        modules_hidden: skipped(modules, SkippedModule::Hidden),
        modules_empty: skipped(modules, SkippedModule::Empty),
        modules_wraps: skipped(modules, SkippedModule::Wraps),
        modules_overlap: built.overlap,
        modules_double: built.double,
        modules_long: skipped(modules, SkippedModule::Long),
        modules_malformed: skipped(modules, SkippedModule::Malformed),
        symbols: built.symbols,
        symbols_hidden: symbols.count(SkippedSymbol::Hidden),
        symbols_stray: built.stray,
        symbols_long: symbols.count(SkippedSymbol::Long),
        symbols_malformed: symbols.count(SkippedSymbol::Malformed),
        regions: built.regions,
        regions_stray: built.stray_regions,
        modules_note: number_if_noted(opened.notes.modules),
        symbols_note: number_if_noted(opened.notes.kallsyms),
    }
}

/// Reads the listings and builds their catalog, from the symbols alone if no listing of modules is
/// given. Mapping symbols are stray.
fn catalog_of(
    alloc: Global,
    given: &CatalogListings,
) -> Result<(OpenCatalog, CatalogCounts), CatalogFault>
    ensures opened { IfOk result (λ r. AreRead given.now r.0.entries r.1
        × IsListedFor given.now r.0.listing) }
    ensures fault { IfErr result (RefusesTexts (texts_in given.now)) }
{
    let listings = given.listings(alloc)?;
    let kernel = given.kernel();
    let opened = open(
        alloc,
        &listings,
        kernel.as_ref(),
        false,
        ExpectedLookups::Any,
    )?;
    let counts = counts_of(&opened);
    let catalog = IndexedCatalog::new(alloc, opened.catalog)?;
    Ok((OpenCatalog::new(alloc, catalog, opened.listing)?, counts))
}

/// The catalog of what is given, as a handle holds it.
pub(crate) fn open_content(
    alloc: Global,
    given: &CatalogListings,
) -> Result<(Box<Content, Global>, CatalogCounts), CatalogFault>
    ensures opened { IfOk result (λ r. (c : HeldCatalog)
        × (r.0.value ≡ content.Catalog c) × AreRead given.now c.entries r.1
        × IsListedFor given.now c.listing) }
    ensures fault { IfErr result (RefusesTexts (texts_in given.now)) }
{
    let (catalog, counts) = catalog_of(alloc, given)?;
    Ok((Box::new(alloc, Content::Catalog(catalog))?, counts))
}
