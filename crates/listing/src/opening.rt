//! From listings to the catalog that they say, with how many of their lines are used and what is
//! noted of them: the one way in which the commands and the library open listings.
//!
//! ```text
//!     /proc/modules    regions    /proc/kallsyms              /proc/kallsyms alone
//!           |             |             |                              |
//!      read_modules  Listings::of  read_kallsyms                  read_kallsyms
//!           |             |             |                              |
//!           +--- Catalog::build --------+                       SharedListing::new
//!                         |                                            |
//!               catalog, counts, notes                  listing, and its catalog, counts, note
//! ```
ghost use Rattle.std.specs.Prelude.{◌≡◌, [], true, unwrap_or, All, IfErr, IfOk};
ghost use Rattle.std.specs.Option.{option_copied};
ghost use Rattle.texts.specs.Said.{GivesInGrammar};
ghost use Rattle.modules.specs.Catalogs.{IsBuildRefusal};
ghost use Rattle.modules.specs.Lines.{region_fits};
ghost use Rattle.listing.specs.Opening.{AreBuilt, IsOpened, lines_beside, listed_in, listings_of};
ghost use Rattle.listing.specs.Opening.{symbols_of};

use crate::listing_notes::{
    ListingNote, ListingNotes, ModuleFacts, SymbolFacts, note_of_kallsyms, note_of_modules,
};
use crate::looks::{are_modules_hidden, are_symbols_hidden};
use crate::module_listing::{ModuleCounts, read_modules};
use crate::owners::{Owner, unlisted_owner};
use crate::region_listing::read_regions;
use crate::symbol_listing::{SymbolCounts, read_kallsyms};
use modules::{
    BuildCounts, Catalog, ExpectedLookups, KernelBounds, RegionLine, SharedListing, SymbolLines,
};
use order_laws::Refusal;
use std::alloc::Global;
use texts::LineFault;

/// The listings that are given: the texts of the listings of modules and of symbols, and the lines
/// of the listing of regions.
#[derive(Drop)]
pub struct Listings<'a> {
    /// The text of the listing of modules; if there is none, the symbols give the modules' regions.
    pub modules: Option<&'a [u8]>,
    /// The text of the listing of symbols.
    pub kallsyms: &'a [u8],
    /// The lines of the listing of regions, if there is one. They count beside a listing of
    /// modules.
    pub regions: Option<Vec<RegionLine<'a>>>,
}

impl<'a> Listings<'a> {
    ghost use Rattle.listing.specs.Opening.{given, has_regions};

    /// The listings with these texts. Each line of the listing of regions has to be understood.
    pub fn of(
        alloc: Global,
        modules: Option<&'a [u8]>,
        kallsyms: &'a [u8],
        regions: Option<&'a [u8]>,
    ) -> Result<Listings<'a>, LineFault>
        ensures listings { GivesInGrammar listed_in result
            (listings_of (given (option_copied modules.entry) kallsyms.now
            (option_copied regions.entry))) }
        ensures fit { IfOk result
            (λ l. All (λ r. region_fits r ≡ true) (unwrap_or (listed_in l).regions [])) }
    {
        let regions = match regions {
            Some(text) => Some(read_regions(alloc, text)?),
            None => None,
        };
        Ok(Listings {
            modules,
            kallsyms,
            regions,
        })
    }

    /// Whether there are listings of regions and of modules.
    fn has_regions(&self) -> bool
        ensures { result ≡ has_regions (listed_in self.now) }
    {
        match (self.modules, &self.regions) {
            (Some(_), Some(_)) => true,
            (None, _) | (_, None) => false,
        }
    }
}

/// A catalog, how many lines of its listings are used, and what is noted of them.
#[derive(Drop)]
pub struct OpenedCatalog<'a> {
    pub catalog: Catalog<'a>,
    /// The listing of symbols in the parts that a change of it leaves, if no listing of modules is
    /// beside it.
    pub listing: Option<SharedListing<'a>>,
    /// How many lines are used, and how many are not, by cause.
    pub built: BuildCounts,
    /// How many lines of the listing of modules were skipped, if there is one.
    pub skipped_modules: Option<ModuleCounts>,
    /// How many lines of the listing of symbols were skipped.
    pub skipped_symbols: SymbolCounts,
    /// Whether there are listings of regions and of modules.
    pub has_regions: bool,
    /// There is a well-formed line of a listing of modules, and all of them are hidden.
    pub modules_hidden: bool,
    /// The owner of the first symbol that may be kept and whose owner the listing of modules lacks,
    /// if there is such a listing.
    pub unlisted: Option<Owner>,
    /// There is a well-formed line of the listing of symbols, and all of them are hidden.
    pub symbols_hidden: bool,
    /// The usual names of both bounds of the kernel, as far as the listing of symbols has them.
    pub usual: KernelBounds<'static>,
    /// What is noted of the listings.
    pub notes: ListingNotes,
}

/// A catalog, and what is known of the listing of modules, if there is one.
#[derive(Drop)]
struct BuiltCatalog<'a> {
    catalog: Catalog<'a>,
    listing: Option<SharedListing<'a>>,
    counts: BuildCounts,
    skipped: Option<ModuleCounts>,
    hidden: bool,
    unlisted: Option<Owner>,
    note: Option<ListingNote>,
}

/// The region lines; none without a listing of them.
fn lines_in<'i, 'a>(listings: &'i Listings<'a>) -> &'i [RegionLine<'a>]
    ensures { result.now ≡ unwrap_or (listed_in listings.now).regions [] }
{
    match &listings.regions {
        Some(lines) => lines,
        None => &[],
    }
}

/// Builds the catalog that the listings say, of whose symbols these may be kept, with mapping
/// symbols or without.
fn build<'a>(
    alloc: Global,
    listings: &Listings<'a>,
    kernel: Option<&KernelBounds>,
    symbols: SymbolLines<'a>,
    with_mapping: bool,
    asked: ExpectedLookups<'_>,
) -> Result<BuiltCatalog<'a>, Refusal>
    requires fit { All (λ r. region_fits r ≡ true)
        (unwrap_or (listed_in listings.now).regions []) }
    requires kept { symbols ≡ symbols_of with_mapping listings.now.kallsyms.now }
    ensures built { IfOk result (AreBuilt (option_copied kernel.entry) with_mapping
        (listed_in listings.now) symbols.entry) }
    ensures refusal { IfErr result (IsBuildRefusal (lines_beside (listed_in listings.now))) }
{
    let Some(text) = listings.modules else {
        let listing = SharedListing::new(alloc, kernel, symbols, asked)?;
        let (catalog, counts) = listing.catalog(alloc, asked)?;
        return Ok(BuiltCatalog {
            catalog,
            listing: Some(listing),
            counts,
            skipped: None,
            hidden: false,
            unlisted: None,
            note: None,
        });
    };
    let (lines, skipped) = read_modules(alloc, text)?;
    let facts = ModuleFacts {
        hidden: are_modules_hidden(lines.len(), &skipped),
        with_mapping,
        unlisted: unlisted_owner(text, &symbols),
    };
    let regions = lines_in(listings);
    let (catalog, counts) = Catalog::build(alloc, kernel, &lines, regions, symbols, asked)?;
    let note = note_of_modules(text, listings.kallsyms, facts, &catalog);
    Ok(BuiltCatalog {
        catalog,
        listing: None,
        counts,
        skipped: Some(skipped),
        hidden: facts.hidden,
        unlisted: facts.unlisted,
        note,
    })
}

/// Opens listings. The kernel itself lies between the given names, or else in its usual regions;
/// mapping symbols are kept or stray. The addresses that will be looked up are a hint for the
/// build. Refused if more than 7 region lines have one name, and when out of memory.
pub fn open<'a>(
    alloc: Global,
    listings: &Listings<'a>,
    kernel: Option<&KernelBounds>,
    with_mapping: bool,
    asked: ExpectedLookups<'_>,
) -> Result<OpenedCatalog<'a>, Refusal>
    requires { All (λ r. region_fits r ≡ true) (unwrap_or (listed_in listings.now).regions []) }
    ensures opened { IfOk result
        (IsOpened (option_copied kernel.entry) with_mapping (listed_in listings.now)) }
    ensures refusal { IfErr result (IsBuildRefusal (lines_beside (listed_in listings.now))) }
{
    let kallsyms = listings.kallsyms;
    let symbols = read_kallsyms(alloc, kallsyms, with_mapping)?;
    let usual = symbols.lines.usual_bounds();
    let names = kernel.unwrap_or(&usual);
    let has_kernel = symbols.lines.has_region(names);
    let built = build(alloc, listings, kernel, symbols.lines, with_mapping, asked)?;
    let counts = built.counts.of_listed(symbols.listed);
    let facts = SymbolFacts {
        is_alone: listings.modules.is_none(),
        hidden: are_symbols_hidden(symbols.listed, &symbols.skipped),
        kept: counts.symbols,
        has_kernel,
    };
    let notes = ListingNotes {
        modules: built.note,
        kallsyms: note_of_kallsyms(kallsyms, names, facts),
    };
    Ok(OpenedCatalog {
        catalog: built.catalog,
        listing: built.listing,
        built: counts,
        skipped_modules: built.skipped,
        skipped_symbols: symbols.skipped,
        has_regions: listings.has_regions(),
        modules_hidden: built.hidden,
        unlisted: built.unlisted,
        symbols_hidden: facts.hidden,
        usual,
        notes,
    })
}
