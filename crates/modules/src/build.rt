//! How a catalog is built, step by step.

ghost use Rattle.std.specs.Prelude.{◌≡◌, ◌+◌, ◌-◌, ◌^◌, ◌<◌, true, [], All, length};
ghost use Rattle.std.specs.Prelude.{IfOk, List, Option, count_by, sum_by};
ghost use Rattle.std.specs.Option.{option_copied};
ghost use Rattle.modules.specs.Accepted.{accepted_of, taken_regions};
ghost use Rattle.modules.specs.Admissions.{admission_view};
ghost use Rattle.modules.specs.Building.{AreModules, built_in_with};
ghost use Rattle.modules.specs.Catalogs.{catalog_of, catalog_with, counts_of, counts_with};
ghost use Rattle.modules.specs.Catalogs.{kept_counts};
ghost use Rattle.modules.specs.Kept.{is_used};
ghost use Rattle.modules.specs.Listed.{BoundNames, ListedSymbol};
ghost use Rattle.modules.specs.ListingParts.{parts_of};
ghost use Rattle.modules.specs.Lines.{fits, region_fits};
ghost use Rattle.modules.specs.Placed.{are_few, IsPlaced};
ghost use Rattle.modules.specs.PlacedModules.{AreSoundModules};
ghost use Rattle.modules.specs.Regions.{AreApart, lie_apart};

use crate::admission::{Admission, admit};
use crate::catalog::{BuildCounts, Catalog};
use crate::expected_lookups::ExpectedLookups;
use crate::gathering::gather;
use crate::lines::{KernelBounds, ModuleLine, RegionLine};
use crate::module::Module;
use crate::placed_modules::PlacedModules;
use crate::placing::{PlacedModule, RegionLines};
use crate::regions::Region;
use crate::shared_listings::SharedListing;
use crate::symbol_lines::SymbolLines;
use crate::symbol_tables::SharedSymbols;
use std::alloc::{AllocError, Global};

/// The kernel itself, if it has regions.
fn built_in_module<'a>(
    alloc: Global,
    regions: Vec<Region>,
    symbols: &SharedSymbols<'a>,
) -> Result<Option<Module<'a>>, AllocError>
    requires { All (λ r. r.0 < r.1) regions.items }
    ensures { IfOk result (λ m. m ≡ built_in_with regions.items symbols.now) }
{
    if regions.is_empty() {
        return Ok(None);
    }
    let placed = PlacedModule::kernel(alloc, regions)?;
    Ok(Some(Module::new(placed, symbols.share()?)))
}

/// The accepted modules, each with its symbols.
fn modules_from<'a>(
    alloc: Global,
    places: Vec<PlacedModule<'a>>,
    tables: Vec<SharedSymbols<'a>>,
) -> Result<Vec<Module<'a>>, AllocError>
    requires placed { All IsPlaced places.items }
    requires same { length tables.items ≡ length places.items }
    ensures { IfOk result (λ v. AreModules places.entry.items tables.entry.items v.items) }
{
    let mut modules = Vec::new(alloc);
    let mut rest = places.into_iter();
    for symbols in tables {
        if let Some(place) = rest.next() {
            modules.push(Module::new(place, symbols))?;
        }
    }
    Ok(modules)
}

/// How many regions the modules have, and how many symbols these and the kernel itself.
fn sizes_of(of_kernel: usize, modules: &[Module]) -> (usize, usize)
    requires regions { sum_by (λ m. length m.regions) modules.now < 2 ^ 64 }
    requires symbols { of_kernel + sum_by (λ m. length m.symbols) modules.now < 2 ^ 64 }
    ensures regions { result.0 ≡ sum_by (λ m. length m.regions) modules.now }
    ensures symbols { result.1 ≡ of_kernel + sum_by (λ m. length m.symbols) modules.now }
{
    let mut regions = 0;
    let mut symbols = of_kernel;
    for module in modules {
        regions += module.regions().len();
        symbols += module.symbols().len();
    }
    (regions, symbols)
}

/// Puts each symbol into the module that keeps it. Counts the modules, their regions and the
/// symbols.
pub(crate) fn catalog_with<'a>(
    alloc: Global,
    placed: PlacedModules<'a>,
    listing: &SharedListing<'a>,
    expected: ExpectedLookups<'_>,
) -> Result<(Catalog<'a>, BuildCounts), AllocError>
    requires sound { AreSoundModules placed }
    requires few { length (taken_regions placed) < 2 ^ 64 }
    requires kernel { placed.built_in ≡ listing.now.kernel }
    ensures { (names : Option BoundNames) (lines : List ListedSymbol)
        → listing.now ≡ parts_of names lines
        → IfOk result (λ r. (r.0 ≡ catalog_with placed.entry lines)
        × (r.1 ≡ kept_counts placed.entry lines)) }
{
    let listed = listing.len();
    let tables = gather(alloc, &placed, &listing.runs, expected)?;
    let of_kernel = placed.built_in.len();
    let first = listing.symbols.table().as_slice().len();
    let built_in = built_in_module(alloc, placed.built_in, &listing.symbols)?;
    let modules = modules_from(alloc, placed.modules, tables)?;
    let (regions, kept) = sizes_of(first, modules.as_slice());
    let counts = BuildCounts {
        modules: modules.len() as u64,
        double: 0,
        overlap: 0,
        regions: regions as u64,
        stray_regions: 0,
        symbols: kept as u64,
        stray: (listed - kept) as u64,
    };
    let catalog = Catalog {
        regions: of_kernel + regions,
        built_in,
        modules,
        names: placed.names,
    };
    Ok((catalog, counts))
}

/// Whether the line is one of an accepted module that has a core line.
fn is_used(accepted: &PlacedModules, regions: &RegionLines, line: &RegionLine) -> bool
    ensures { result ≡ is_used accepted.now regions.now line.now }
{
    accepted.has(line.name) && regions.has_core_of(line.name)
}

/// How many of the region lines are used.
fn used_in(accepted: &PlacedModules, regions: &RegionLines) -> usize
    ensures { result ≡ count_by (is_used accepted.now regions.now) regions.now }
{
    regions
        .listed
        .iter()
        .filter(|line| is_used(accepted, regions, line))
        .count()
}

/// How many lines of modules and of regions are used, and how many are not, by cause. No lines of
/// symbols are counted yet.
#[tactic(auto, using(crate::proofs::CountLemmas::either_counted))]
fn module_counts(admission: &Admission, regions: &RegionLines) -> BuildCounts
    ensures { result ≡ counts_with (admission_view admission.now) regions.now [] }
{
    let used = used_in(&admission.accepted, regions) as u64;
    BuildCounts {
        modules: admission.accepted.len() as u64,
        double: admission.double,
        overlap: admission.overlap,
        regions: used,
        stray_regions: regions.listed.len() as u64 - used,
        symbols: 0,
        stray: 0,
    }
}

/// Accepts module lines beside the kernel itself, which lies in these regions, and counts them and
/// the lines of regions.
fn accept_lines<'a>(
    alloc: Global,
    modules: &[ModuleLine<'a>],
    regions: &RegionLines<'_, 'a>,
    kernel: Vec<Region>,
) -> Result<(Admission<'a>, BuildCounts), AllocError>
    requires fit { All (λ l. fits l ≡ true) modules.now }
    requires regions_fit { All (λ l. region_fits l ≡ true) regions.now }
    requires few { are_few regions.now ≡ true }
    requires kernel { AreApart kernel.items }
    requires apart { lie_apart kernel.items ≡ true }
    ensures accepted { IfOk result (λ r. admission_view r.0
        ≡ accepted_of kernel.items regions.now modules.now) }
    ensures counted { IfOk result
        (λ r. r.1 ≡ counts_with (admission_view r.0) regions.now []) }
    ensures sound { IfOk result (λ r. AreSoundModules r.0.accepted) }
    ensures few { IfOk result (λ r. length (taken_regions r.0.accepted) < 2 ^ 64) }
{
    let admission = admit(alloc, kernel, regions, modules)?;
    let counts = module_counts(&admission, regions);
    Ok((admission, counts))
}

/// Accepts module lines, and makes the catalog of these modules.
pub(crate) fn assemble<'a>(
    alloc: Global,
    names: Option<&KernelBounds>,
    modules: &[ModuleLine<'a>],
    regions: &RegionLines<'_, 'a>,
    symbols: SymbolLines<'a>,
    expected: ExpectedLookups<'_>,
) -> Result<(Catalog<'a>, BuildCounts), AllocError>
    requires fit { All (λ l. fits l ≡ true) modules.now }
    requires regions_fit { All (λ l. region_fits l ≡ true) regions.now }
    requires few { are_few regions.now ≡ true }
    ensures built { IfOk result
        (λ r. r.0
        ≡ catalog_of (option_copied names.entry) modules.now regions.now symbols.entry) }
    ensures counted { IfOk result
        (λ r. r.1
        ≡ counts_of (option_copied names.entry) modules.now regions.now symbols.entry) }
{
    let listing = SharedListing::new(alloc, names, symbols, expected)?;
    let kernel = Vec::from_slice(alloc, &listing.kernel)?;
    let (admission, lines) = accept_lines(alloc, modules, regions, kernel)?;
    let (catalog, kept) = catalog_with(alloc, admission.accepted, &listing, expected)?;
    let counts = BuildCounts {
        symbols: kept.symbols,
        stray: kept.stray,
        ..lines
    };
    Ok((catalog, counts))
}
