//! From the bytes of listings to the catalog that they say, and what is noted of them.
ghost use Rattle.std.specs.Prelude.{[], All, IfOk, IfSome, true, unwrap_or, ◌≡◌};
ghost use Rattle.std.specs.Option.{option_copied};
ghost use Rattle.listing.specs.Opening.{listed_in};
ghost use Rattle.modules.specs.Lines.{region_fits};
ghost use Rattle.command_parts.specs.HistoryFiles.{symbols_alone};
ghost use Rattle.command_parts.specs.OpenedCatalogs.{AreReadAs, OpensCatalog, known_given};
ghost use Rattle.command_parts.specs.OpenedCatalogs.{listing_failures, texts_in};

use crate::fault::Fault;
use crate::readings::{KALLSYMS_PLACE, MODULES_PLACE, REGIONS_PLACE, read_at, read_if_given};
use listing::{Listings, OpenedCatalog, open};
use modules::{ExpectedLookups, KernelBounds};
use std::alloc::Global;
use std::io::Read;
use texts::Counted;

/// The readers of listings, in the order in which they are read.
#[derive(Drop)]
pub struct ListingReaders<M, K, R> {
    /// The listing of modules, if there is one.
    pub modules: Option<Counted<M>>,
    /// The listing of symbols.
    pub kallsyms: Counted<K>,
    /// The listing of regions, if there is one.
    pub regions: Option<Counted<R>>,
}

/// The texts of the listings that are given.
#[derive(Drop)]
pub struct ListingTexts {
    pub modules: Option<Vec<u8>>,
    pub kallsyms: Vec<u8>,
    pub regions: Option<Vec<u8>>,
}

impl ListingTexts {
    ghost use Rattle.command_parts.specs.OpenedCatalogs.{GivesListings};

    /// A listing of symbols with this text, and no other listing.
    pub fn of_symbols(kallsyms: Vec<u8>) -> ListingTexts
        ensures { texts_in result ≡ symbols_alone kallsyms.items }
    {
        ListingTexts {
            modules: None,
            kallsyms,
            regions: None,
        }
    }

    /// The listings with these texts, with the lines of the listing of regions.
    pub fn listings(&self, alloc: Global) -> Result<Listings<'_>, Fault>
        ensures listings { GivesListings (texts_in self.now) result }
        ensures fit { IfOk result
            (λ l. All (λ r. region_fits r ≡ true) (unwrap_or (listed_in l).regions [])) }
    {
        let modules = self.modules.as_deref();
        let regions = self.regions.as_deref();
        match Listings::of(alloc, modules, &self.kallsyms, regions) {
            Ok(listings) => Ok(listings),
            Err(fault) => Err(Fault::of_lines(REGIONS_PLACE, fault)),
        }
    }
}

/// Reads the listings that are given.
pub fn read_given<M: Read, K: Read, R: Read>(
    alloc: Global,
    readers: &mut ListingReaders<M, K, R>,
) -> Result<ListingTexts, Fault>
    ensures bytes { IfOk result
        (λ texts. IfSome (known_given M.remaining K.remaining R.remaining readers.old)
        (λ known. texts_in texts ≡ known)) }
    ensures read { AreReadAs (listing_failures readers.old readers.new) result }
{
    let modules = read_if_given(alloc, &mut readers.modules, MODULES_PLACE)?;
    let kallsyms = read_at(alloc, &mut readers.kallsyms, KALLSYMS_PLACE)?;
    let regions = read_if_given(alloc, &mut readers.regions, REGIONS_PLACE)?;
    Ok(ListingTexts {
        modules,
        kallsyms,
        regions,
    })
}

/// Builds the catalog that listings with these texts say, without mapping symbols. The kernel
/// itself lies between the given names, or else in its usual regions. The addresses that will be
/// looked up are a hint for the build.
pub fn open_catalog<'a>(
    alloc: Global,
    texts: &'a ListingTexts,
    kernel: Option<&KernelBounds>,
    asked: ExpectedLookups<'_>,
) -> Result<OpenedCatalog<'a>, Fault>
    ensures { OpensCatalog (option_copied kernel.entry) (texts_in texts.now) result }
{
    let listings = texts.listings(alloc)?;
    Ok(open(alloc, &listings, kernel, false, asked)?)
}

/// Builds the catalog that a listing of symbols with this text says alone, as [`open_catalog`]
/// does.
pub fn open_symbols<'a>(
    alloc: Global,
    kallsyms: &'a [u8],
    kernel: Option<&KernelBounds>,
    asked: ExpectedLookups<'_>,
) -> Result<OpenedCatalog<'a>, Fault>
    ensures { OpensCatalog (option_copied kernel.entry) (symbols_alone kallsyms.now) result }
{
    let listings = Listings {
        modules: None,
        kallsyms,
        regions: None,
    };
    Ok(open(alloc, &listings, kernel, false, asked)?)
}
