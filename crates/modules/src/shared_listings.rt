//! A listing of symbols in the parts that catalogs share: the kernel itself, whose lines do not
//! change in a boot, and the lines of modules, in the runs in which they come.
//!
//! ```text
//! listing:  a b c   d e [ext4]   f g [nfs]        after a change that names nfs, and has h [nfs]:
//!
//! kernel:   a b c                                 a b c    the same table
//! runs:     ext4: d e   nfs: f g                  ext4: d e   nfs: h    that of ext4 the same
//! ```
//!
//! A catalog takes over the table of a run if it keeps all its symbols and the module has no other.

ghost use Rattle.std.specs.Prelude.{◌≡◌, ◌+◌, ◌++◌, ◌∷◌, [], IfOk, IfSome, OnOk, List, Option, filter};
ghost use Rattle.std.specs.Prelude.{is_none, length};
ghost use Rattle.std.specs.Option.{option_copied};
ghost use Rattle.modules.specs.Kept.{symbols_that};
ghost use Rattle.modules.specs.ListingParts.{changed_parts, is_unnamed, IsOfSymbols, module_lines};
ghost use Rattle.modules.specs.ListingParts.{parts_of};
ghost use Rattle.modules.specs.Listed.{BoundNames, ListedSymbol};
ghost use Rattle.modules.specs.Regions.{lies_in_any};
ghost use Rattle.modules.specs.Runs.{lines_of_all, lines_of_run};
ghost use Rattle.modules.specs.SharedRuns.{IsParted, lines_of_one, lines_of_shared};

use crate::build::catalog_with;
use crate::catalog::{BuildCounts, Catalog};
use crate::expected_lookups::ExpectedLookups;
use crate::from_symbols::modules_of;
use crate::lines::KernelBounds;
use crate::names::Names;
use crate::placed_modules::PlacedModules;
use crate::placing::lies_in_any;
use crate::regions::Region;
use crate::symbol_lines::{Run, SymbolLines};
use crate::symbol_tables::SharedSymbols;
use crate::symbols::Symbol;
use std::alloc::{AllocError, Global};
use std::marker::Model;

/// Lines of one module that lie side by side.
#[derive(Drop)]
pub(crate) struct SharedRun<'a> {
    /// The name of the module.
    pub(crate) module: &'a [u8],
    /// The symbol of each line.
    pub(crate) symbols: SharedSymbols<'a>,
}

/// A listing of symbols in its parts.
#[derive(Drop)]
pub struct SharedListing<'a> {
    /// The regions of the kernel itself.
    pub(crate) kernel: Vec<Region>,
    /// The kernel's symbols in these regions.
    pub(crate) symbols: SharedSymbols<'a>,
    /// How many lines have no module.
    kernel_lines: usize,
    /// The lines of modules.
    pub(crate) runs: Vec<SharedRun<'a>>,
    /// How many lines there are.
    count: usize,
}

impl<'a> Model for SharedListing<'a> {
    ghost use Rattle.modules.specs.ListingParts.{ListingParts};
    ghost use Rattle.modules.specs.SharedRuns.{listing_view, IsWholeListing};

    ghost Value = { ListingParts };

    ghost view = { listing_view };

    ghost invariant = { IsWholeListing };
}

/// The lines of a listing, parted.
#[derive(Drop)]
struct PartedLines<'a> {
    /// The symbols of the lines without a module.
    kernel: Vec<Symbol<'a>>,
    runs: Vec<SharedRun<'a>>,
}

impl<'a> PartedLines<'a> {
    /// Takes the lines of a run. If no symbols of the kernel itself are there, the run's list of
    /// them is taken over as it is.
    fn take(
        &mut self,
        alloc: Global,
        run: Run<'a>,
        expected: ExpectedLookups<'_>,
    ) -> Result<(), AllocError>
        ensures kernel { OnOk result (self.new.kernel.items ≡ self.old.kernel.items
            ++ symbols_that (λ l. is_none l.owner) (lines_of_run run.entry)) }
        ensures runs { OnOk result (lines_of_shared self.new.runs.items
            ≡ lines_of_shared self.old.runs.items ++ module_lines (lines_of_run run.entry)) }
    {
        let mut symbols = run.symbols;
        match run.module {
            Some(module) => self.runs.push(SharedRun {
                module,
                symbols: SharedSymbols::new(alloc, symbols, expected)?,
            })?,
            None if self.kernel.is_empty() => self.kernel = symbols,
            None => self.kernel.append(&mut symbols)?,
        }
        Ok(())
    }
}

/// Parts the lines of runs.
fn parted_runs<'a>(
    alloc: Global,
    runs: Vec<Run<'a>>,
    last: Run<'a>,
    expected: ExpectedLookups<'_>,
) -> Result<PartedLines<'a>, AllocError>
    ensures { IfOk result (IsParted (lines_of_all (runs.entry.items ++ last.entry ∷ []))) }
{
    let mut parted = PartedLines {
        kernel: Vec::new(alloc),
        runs: Vec::new(alloc),
    };
    for run in runs {
        parted.take(alloc, run, expected)?;
    }
    parted.take(alloc, last, expected)?;
    Ok(parted)
}

/// Parts the lines of a listing.
fn parted<'a>(
    alloc: Global,
    symbols: SymbolLines<'a>,
    expected: ExpectedLookups<'_>,
) -> Result<PartedLines<'a>, AllocError>
    ensures { IfOk result (IsParted symbols.entry) }
{
    let SymbolLines { runs, last, .. } = symbols;
    parted_runs(alloc, runs, last, expected)
}

/// The symbols that lie in one of the regions.
fn lying_in<'a>(regions: &[Region], symbols: Vec<Symbol<'a>>) -> Vec<Symbol<'a>>
    ensures { result.items
        ≡ filter (λ s. lies_in_any regions.now s.addr) symbols.entry.items }
{
    let mut symbols = symbols;
    symbols.retain(|symbol| lies_in_any(regions, symbol.addr));
    symbols
}

/// How many lines there are, if a `usize` has the number.
fn count_of(kernel_lines: usize, runs: &[SharedRun]) -> Option<usize>
    ensures { IfSome result (λ n. n ≡ kernel_lines + length (lines_of_shared runs.now)) }
{
    let mut count = kernel_lines;
    for run in runs {
        count = count.checked_add(run.symbols.table().as_slice().len())?;
    }
    Some(count)
}

/// Puts the runs of modules that are not named after others.
fn push_unnamed<'a>(
    runs: &mut Vec<SharedRun<'a>>,
    named: &Names,
    listed: &[SharedRun<'a>],
) -> Result<(), AllocError>
    ensures { OnOk result (lines_of_shared runs.new.items ≡ lines_of_shared runs.old.items
        ++ filter (is_unnamed named.now) (lines_of_shared listed.now)) }
{
    for run in listed {
        if !named.has(run.module) {
            runs.push(run.share()?)?;
        }
    }
    Ok(())
}

impl<'a> SharedRun<'a> {
    /// Another owner of its symbols.
    fn share(&self) -> Result<SharedRun<'a>, AllocError>
        ensures { IfOk result (λ r. lines_of_one r ≡ lines_of_one self.now) }
    {
        Ok(SharedRun {
            module: self.module,
            symbols: self.symbols.share()?,
        })
    }
}

impl<'a> SharedListing<'a> {
    /// The parts of a listing, made ready for what is asked of its symbols. The kernel itself lies
    /// as [`SymbolLines::kernel_regions`] says.
    pub fn new(
        alloc: Global,
        names: Option<&KernelBounds>,
        symbols: SymbolLines<'a>,
        expected: ExpectedLookups<'_>,
    ) -> Result<SharedListing<'a>, AllocError>
        ensures { IfOk result (λ l. l ≡ parts_of (option_copied names.entry) symbols.entry) }
    {
        let kernel = symbols.kernel_regions(alloc, names)?;
        let parted = parted(alloc, symbols, expected)?;
        let kernel_lines = parted.kernel.len();
        let symbols = lying_in(&kernel, parted.kernel);
        let count = count_of(kernel_lines, &parted.runs).ok_or(AllocError)?;
        Ok(SharedListing {
            kernel,
            symbols: SharedSymbols::new(alloc, symbols, expected)?,
            kernel_lines,
            runs: parted.runs,
            count,
        })
    }

    /// The number of lines.
    pub(crate) fn len(&self) -> usize
        ensures { result ≡ self.now.kernel_lines + length self.now.lines }
    {
        self.count
    }

    /// The listing after a change that names modules: without their lines, and with the lines of
    /// modules that are added after the others. It shares the kernel itself and the lines of each
    /// module that is not named.
    pub fn changed(
        &self,
        alloc: Global,
        named: &Names,
        added: SymbolLines<'a>,
        expected: ExpectedLookups<'_>,
    ) -> Result<SharedListing<'a>, AllocError>
        ensures { IfOk result (λ l. l ≡ changed_parts named.now added.entry self.now) }
    {
        let mut runs = Vec::new(alloc);
        push_unnamed(&mut runs, named, &self.runs)?;
        let mut added = parted(alloc, added, expected)?;
        runs.append(&mut added.runs)?;
        let count = count_of(self.kernel_lines, &runs).ok_or(AllocError)?;
        Ok(SharedListing {
            kernel: Vec::from_slice(alloc, &self.kernel)?,
            symbols: self.symbols.share()?,
            kernel_lines: self.kernel_lines,
            runs,
            count,
        })
    }

    /// The catalog of the listing, and how many of its lines are used.
    ///
    /// The lines that count are the lines without a module inside of the kernel's regions, and the
    /// lines of modules outside of them and below the greatest address. Of the nearest of these
    /// lines at or below an address the first listed is asked: if it is a module's, the address is
    /// that module's if it lies in the page of the line, or if the first listed of the nearest lines
    /// above is this module's, too, and less than 1048576 above the line. The regions of a module
    /// are the longest runs of addresses that are its own, by rising address, all of its core.
    ///
    /// A line of a module is kept if its own address is its module's, and one without a module
    /// if it lies in a region of the kernel; the rest are stray. The modules are those that have
    /// a kept line, in the order of their first ones.
    ///
    /// Refused only when out of memory.
    pub fn catalog(
        &self,
        alloc: Global,
        expected: ExpectedLookups<'_>,
    ) -> Result<(Catalog<'a>, BuildCounts), AllocError>
        ensures { (names : Option BoundNames) (lines : List ListedSymbol)
            → self.now ≡ parts_of names lines
            → IfOk result (λ r. IsOfSymbols names lines r.0 r.1) }
    {
        let modules = modules_of(alloc, self)?;
        let kernel = Vec::from_slice(alloc, &self.kernel)?;
        let placed = PlacedModules::of(alloc, kernel, modules)?;
        catalog_with(alloc, placed, self, expected)
    }
}
