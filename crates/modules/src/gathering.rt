//! Which symbol lines are kept, and in which module.
//!
//! The name of a module is looked up once for each run of lines. A line is then kept if its
//! address lies in a region of its run's module, and is stray otherwise:
//!
//! ```text
//! runs:    "ext4"     "nfs"      "bpf"
//! module:  place 0    place 1    none
//! lines:   in, out    in, in     any
//! kept:    in         in, in
//! tables:  a new one  the run's
//! ```
//!
//! A module whose one run is kept whole shares the table of the run; so no symbol is copied if the
//! lines of each module lie side by side and none is stray.

ghost use Rattle.std.specs.Prelude.{◌≡◌, ◌++◌, [], All, IfOk, OnOk, length, map, true};
ghost use Rattle.std.specs.List.{list_all};
ghost use Rattle.modules.specs.Accepted.{names_of};
ghost use Rattle.modules.specs.Gathering.{gathered_in, Gathers, kept_by, KeepsRun};
ghost use Rattle.modules.specs.Kept.{AreDistinctNames, lies_in};
ghost use Rattle.modules.specs.SharedRuns.{lines_of_shared};

use crate::expected_lookups::ExpectedLookups;
use crate::placed_modules::PlacedModules;
use crate::placing::PlacedModule;
use crate::shared_listings::SharedRun;
use crate::symbol_tables::SharedSymbols;
use crate::symbols::Symbol;
use std::alloc::{AllocError, Global};
use std::mem;

/// The symbols of a module that are kept so far, in the order listed.
#[derive(Drop)]
pub(crate) enum GatheredSymbols<'a> {
    /// No symbols.
    Nothing,
    /// The table of a run.
    Run(SharedSymbols<'a>),
    /// Copies of several runs' symbols, or of a part of them.
    Copies(Vec<Symbol<'a>>),
}

/// `count` lists with nothing in them.
pub(crate) fn empty_lists<T: Drop>(alloc: Global, count: usize) -> Result<Vec<Vec<T>>, AllocError>
    ensures { IfOk result
        (λ v. (length v.items ≡ count) × All (λ list. list.items ≡ []) v.items) }
{
    let mut lists = Vec::with_capacity(alloc, count)?;
    for _ in 0..count {
        lists.push(Vec::new(alloc))?;
    }
    Ok(lists)
}

/// Nothing for each of so many modules.
fn nothing_for<'a>(alloc: Global, count: usize) -> Result<Vec<GatheredSymbols<'a>>, AllocError>
    ensures { IfOk result
        (λ v. (length v.items ≡ count) × All (λ g. gathered_in g ≡ []) v.items) }
{
    let mut lists = Vec::with_capacity(alloc, count)?;
    for _ in 0..count {
        lists.push(GatheredSymbols::Nothing)?;
    }
    Ok(lists)
}

/// Whether all symbols lie in the module's regions.
fn are_kept(owner: &PlacedModule, symbols: &[Symbol]) -> bool
    ensures { result ≡ list_all (λ s. lies_in owner.now s.addr) symbols.now }
{
    symbols.iter().all(|symbol| owner.lies_at(symbol.addr))
}

/// Puts copies of the symbols that lie in the module's regions after others.
fn push_kept<'a>(
    list: &mut Vec<Symbol<'a>>,
    owner: &PlacedModule,
    symbols: &[Symbol<'a>],
) -> Result<(), AllocError>
    ensures { OnOk result
        (list.new.items ≡ list.old.items ++ kept_by owner.now symbols.now) }
{
    for symbol in symbols {
        if owner.lies_at(symbol.addr) {
            list.push(symbol.copied())?;
        }
    }
    Ok(())
}

/// Puts copies of symbols after others.
fn push_copies<'a>(list: &mut Vec<Symbol<'a>>, symbols: &[Symbol<'a>]) -> Result<(), AllocError>
    ensures { OnOk result (list.new.items ≡ list.old.items ++ symbols.now) }
{
    for symbol in symbols {
        list.push(symbol.copied())?;
    }
    Ok(())
}

impl<'a> GatheredSymbols<'a> {
    /// Whether there are no symbols yet.
    fn is_nothing(&self) -> bool
        ensures { result ≡ true → gathered_in self.now ≡ [] }
    {
        matches!(self, GatheredSymbols::Nothing)
    }

    /// The symbols in a list that may grow.
    fn into_list(self, alloc: Global) -> Result<Vec<Symbol<'a>>, AllocError>
        ensures { IfOk result (λ v. v.items ≡ gathered_in self.entry) }
    {
        match self {
            GatheredSymbols::Nothing => Ok(Vec::new(alloc)),
            GatheredSymbols::Run(symbols) => {
                let mut list = Vec::new(alloc);
                push_copies(&mut list, symbols.table().as_slice())?;
                Ok(list)
            }
            GatheredSymbols::Copies(list) => Ok(list),
        }
    }

    /// The symbols as a module has them.
    fn into_table(
        self,
        alloc: Global,
        expected: ExpectedLookups<'_>,
    ) -> Result<SharedSymbols<'a>, AllocError>
        ensures { IfOk result (λ s. s ≡ gathered_in self.entry) }
    {
        match self {
            GatheredSymbols::Nothing => SharedSymbols::new(alloc, Vec::new(alloc), expected),
            GatheredSymbols::Run(symbols) => Ok(symbols),
            GatheredSymbols::Copies(list) => SharedSymbols::new(alloc, list, expected),
        }
    }

    /// Puts the symbols of a run that the module keeps after these.
    fn put(
        &mut self,
        alloc: Global,
        owner: &PlacedModule,
        symbols: &SharedSymbols<'a>,
    ) -> Result<(), AllocError>
        ensures { OnOk result
            (gathered_in self.new ≡ gathered_in self.old ++ kept_by owner.now symbols.now) }
    {
        let listed = symbols.table().as_slice();
        if self.is_nothing() && are_kept(owner, listed) {
            *self = GatheredSymbols::Run(symbols.share()?);
            return Ok(());
        }
        let mut list = mem::replace(self, GatheredSymbols::Nothing).into_list(alloc)?;
        push_kept(&mut list, owner, listed)?;
        *self = GatheredSymbols::Copies(list);
        Ok(())
    }
}

/// Goes through the lines of a run.
fn keep_run<'a>(
    alloc: Global,
    lists: &mut Vec<GatheredSymbols<'a>>,
    placed: &PlacedModules,
    run: &SharedRun<'a>,
) -> Result<(), AllocError>
    requires { length lists.old.items ≡ length placed.now.modules }
    ensures { OnOk result (KeepsRun placed.now run.now lists.old.items lists.new.items) }
{
    match placed.place_of(run.module) {
        Some(place) => lists[place].put(alloc, &placed.modules[place], &run.symbols),
        None => Ok(()),
    }
}

/// Goes through the lines of runs in their order.
fn gather_runs<'a>(
    alloc: Global,
    placed: &PlacedModules,
    runs: &[SharedRun<'a>],
) -> Result<Vec<GatheredSymbols<'a>>, AllocError>
    requires { AreDistinctNames (names_of placed.now.modules) }
    ensures { IfOk result
        (λ v. Gathers placed.now (lines_of_shared runs.now) (map gathered_in v.items)) }
{
    let mut lists = nothing_for(alloc, placed.len())?;
    for run in runs {
        keep_run(alloc, &mut lists, placed, run)?;
    }
    Ok(lists)
}

/// Makes a table of each list.
fn tables_of<'a>(
    alloc: Global,
    lists: Vec<GatheredSymbols<'a>>,
    expected: ExpectedLookups<'_>,
) -> Result<Vec<SharedSymbols<'a>>, AllocError>
    ensures { IfOk result (λ v. v.items ≡ map gathered_in lists.entry.items) }
{
    let mut tables = Vec::with_capacity(alloc, lists.len())?;
    for list in lists {
        tables.push(list.into_table(alloc, expected)?)?;
    }
    Ok(tables)
}

/// The symbols of each module that are kept, by the lines of runs.
pub(crate) fn gather<'a>(
    alloc: Global,
    placed: &PlacedModules,
    runs: &[SharedRun<'a>],
    expected: ExpectedLookups<'_>,
) -> Result<Vec<SharedSymbols<'a>>, AllocError>
    requires { AreDistinctNames (names_of placed.now.modules) }
    ensures { IfOk result (λ v. Gathers placed.now (lines_of_shared runs.now) v.items) }
{
    let lists = gather_runs(alloc, placed, runs)?;
    tables_of(alloc, lists, expected)
}
