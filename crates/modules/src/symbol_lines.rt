//! The lines of a listing of symbols, in the runs in which they come.
//!
//! A listing has the lines of one module side by side, so the name of the module is kept once for
//! each such run of lines. The symbols of a run have a list of their own, which a catalog takes
//! over as it is:
//!
//! ```text
//! runs:     none: a b c   "ext4": d e   none: f
//! ```

ghost use Rattle.std.specs.Prelude.{◌≡◌, ◌++◌, ◌∷◌, [], length, find, is_some, IfOk, OnOk};
ghost use Rattle.std.specs.Prelude.{ℕ, Bool, List, OnErr, None};
ghost use Rattle.modules.specs.Lines.{first_address, first_owner, built_in_region, code_regions};
ghost use Rattle.modules.specs.Lines.{kernel_regions, usual_bounds_of, usual_end, with_apart};
ghost use Rattle.std.specs.Option.{option_copied, option_map, option_to_list};
ghost use Rattle.std.specs.Str.{bytes_eq};
ghost use Rattle.modules.specs.Runs.{line_of, lines_of_run, lines_of_all};

use crate::lines::{KernelBounds, SymbolLine};
use crate::regions::{Region, is_apart_from};
use crate::symbols::Symbol;
use std::alloc::{AllocError, Global};
use std::marker::Model;
use std::mem;

/// Lines of one module that lie side by side.
#[derive(Drop)]
pub(crate) struct Run<'a> {
    /// The name of the module; none for the kernel itself.
    pub(crate) module: Option<&'a [u8]>,
    /// The symbol of each line.
    pub(crate) symbols: Vec<Symbol<'a>>,
}

/// The lines of a listing of symbols, in their order. A contract sees the list of the lines.
#[derive(Drop)]
pub struct SymbolLines<'a> {
    /// The runs before the last one.
    pub(crate) runs: Vec<Run<'a>>,
    /// The last run. It has no lines only if there are none at all.
    pub(crate) last: Run<'a>,
    /// How many lines there are.
    count: usize,
}

impl<'a> Model for SymbolLines<'a> {
    ghost use Rattle.std.specs.Prelude.{◌≡◌, List, [], ◌∷◌, ◌++◌, length};
    ghost use Rattle.modules.specs.Listed.{ListedSymbol};

    ghost Value = { List ListedSymbol };

    ghost use Rattle.modules.specs.Runs.{lines_of_all};

    ghost view = { λ l. lines_of_all (l.runs.items ++ l.last ∷ []) };

    ghost invariant = { λ l. length (lines_of_all (l.runs.items ++ l.last ∷ [])) ≡ l.count };
}

/// Which names of modules pass.
pub trait NameTest {
    /// Whether a name does, as contracts see it.
    ghost passes: { Self → List ℕ → Bool };

    /// Whether a name does.
    fn passes(&self, name: &[u8]) -> bool
        ensures { result ≡ passes self.now name.now };
}

impl<'a> Run<'a> {
    /// A run of one line.
    fn of(alloc: Global, owner: Option<&'a [u8]>, symbol: Symbol<'a>) -> Result<Run<'a>, AllocError>
        ensures { IfOk result
            (λ r. lines_of_run r ≡ line_of (option_copied owner.entry) symbol.entry ∷ []) }
    {
        Ok(Run {
            module: owner,
            symbols: vec![in alloc; symbol]?,
        })
    }

    /// The address of its first symbol of this name, if it is of the kernel itself.
    fn first_address(&self, name: &[u8]) -> Option<u64>
        ensures { result ≡ first_address name.now (lines_of_run self.now) }
    {
        if self.module.is_some() {
            return None;
        }
        first_named(self.symbols.as_slice(), name)
    }

    /// The name of its module, if it has lines and the name passes.
    #[tactic(auto, using(crate::proofs::RunLemmas::owner_of_run))]
    fn owner_if<T: NameTest>(&self, test: &T) -> Option<&'a [u8]>
        ensures { option_copied result
            ≡ first_owner (T.passes test.now) (lines_of_run self.now) }
    {
        if self.symbols.is_empty() {
            return None;
        }
        let name = self.module?;
        if test.passes(name) { Some(name) } else { None }
    }
}

/// The address of the first symbol of this name.
fn first_named(symbols: &[Symbol], name: &[u8]) -> Option<u64>
    ensures { result ≡ option_map (λ s. s.addr) (find (λ s. bytes_eq s.name name.now) symbols.now) }
{
    symbols
        .iter()
        .find(|symbol| symbol.name() == name)
        .map(|symbol| symbol.addr)
}

/// Puts a symbol of this module after all runs. An error leaves the lines as they were.
#[inline(always)]
fn put_line<'a>(
    runs: &mut Vec<Run<'a>>,
    last: &mut Run<'a>,
    owner: Option<&'a [u8]>,
    symbol: Symbol<'a>,
) -> Result<(), AllocError>
    ensures pushed { OnOk result (lines_of_all (runs.new.items ++ last.new ∷ [])
        ≡ lines_of_all (runs.old.items ++ last.old ∷ [])
        ++ line_of (option_copied owner.entry) symbol.entry ∷ []) }
    ensures err { OnErr result (lines_of_all (runs.new.items ++ last.new ∷ [])
        ≡ lines_of_all (runs.old.items ++ last.old ∷ [])) }
{
    if last.module == owner {
        last.symbols.push(symbol)?;
        return Ok(());
    }
    let next = Run::of(*runs.allocator(), owner, symbol)?;
    runs.reserve(1)?;
    runs.push(mem::replace(last, next)).unwrap();
    Ok(())
}

impl<'a> SymbolLines<'a> {
    /// No lines.
    pub fn new(alloc: Global) -> SymbolLines<'a>
        ensures { result ≡ [] }
    {
        let last = Run {
            module: None,
            symbols: Vec::new(alloc),
        };
        SymbolLines {
            runs: Vec::new(alloc),
            last,
            count: 0,
        }
    }

    /// The number of lines.
    pub fn len(&self) -> usize
        ensures { result ≡ length self.now }
    {
        self.count
    }

    /// Puts a line after these. An error leaves these as they were.
    #[inline(always)]
    pub fn push(&mut self, line: SymbolLine<'a>) -> Result<(), AllocError>
        ensures pushed { OnOk result (self.new ≡ self.old ++ line.entry ∷ []) }
        ensures err { OnErr result (self.new ≡ self.old) }
    {
        let Some(count) = self.count.checked_add(1) else {
            return Err(AllocError);
        };
        let symbol = Symbol {
            addr: line.addr,
            text: line.text,
        };
        put_line(&mut self.runs, &mut self.last, line.module, symbol)?;
        self.count = count;
        Ok(())
    }

    /// The regions of the kernel itself: the one between these names, if both are listed in this
    /// order, or else the usual ones. These are the region from `_stext` up to `_end` or, if there
    /// is none, the regions of the kernel's code: `_stext` up to `_etext` and `_sinittext` up to
    /// `_einittext`, each if both are listed in this order, and the second only if it is apart from
    /// the first.
    pub fn kernel_regions(
        &self,
        alloc: Global,
        names: Option<&KernelBounds>,
    ) -> Result<Vec<Region>, AllocError>
        ensures { IfOk result
            (λ v. v.items ≡ kernel_regions (option_copied names.entry) self.now) }
    {
        match names {
            Some(names) => regions_with(alloc, built_in_region(self, names)),
            None => usual_regions(alloc, self),
        }
    }

    /// Whether both names are listed, the first below the second.
    pub fn has_region(&self, names: &KernelBounds) -> bool
        ensures { result ≡ is_some (built_in_region names.now self.now) }
    {
        built_in_region(self, names).is_some()
    }

    /// The module of the first line that is of one whose name passes. Of lines of one module that
    /// lie side by side only the first is looked at.
    #[tactic(auto, using(crate::proofs::RunLemmas::owner_by_run))]
    pub fn first_owner<T: NameTest>(&self, test: &T) -> Option<&'a [u8]>
        ensures { option_copied result ≡ first_owner (T.passes test.now) self.now }
    {
        match first_owner_in(self.runs.as_slice(), test) {
            None => self.last.owner_if(test),
            found => found,
        }
    }

    /// The names of both ends of the usual regions, though a listing may lack one of them:
    /// `_stext`, and `_end` if it is listed or else `_etext`.
    pub fn usual_bounds(&self) -> KernelBounds<'static>
        ensures { result ≡ usual_bounds_of self.now }
    {
        KernelBounds {
            start: b"_stext",
            end: usual_end(self),
        }
    }
}

/// The address of the first line without a module that has this name, of lines in runs.
#[tactic(auto, using(crate::proofs::RunLemmas::run_by_run))]
fn first_in_runs(runs: &[Run], name: &[u8]) -> Option<u64>
    ensures { result ≡ first_address name.now (lines_of_all runs.now) }
{
    for run in runs {
        if let Some(addr) = run.first_address(name) {
            return Some(addr);
        }
    }
    None
}

/// The module of the first line that is of one whose name passes, of lines in runs.
#[tactic(auto, using(crate::proofs::RunLemmas::owner_by_run))]
fn first_owner_in<'a, T: NameTest>(runs: &[Run<'a>], test: &T) -> Option<&'a [u8]>
    ensures { option_copied result ≡ first_owner (T.passes test.now) (lines_of_all runs.now) }
{
    for run in runs {
        if let Some(name) = run.owner_if(test) {
            return Some(name);
        }
    }
    None
}

/// The address of the first line without a module that has this name.
#[tactic(auto, using(crate::proofs::RunLemmas::first_in_runs))]
fn first_address(lines: &SymbolLines, name: &[u8]) -> Option<u64>
    ensures { result ≡ first_address name.now lines.now }
{
    match first_in_runs(lines.runs.as_slice(), name) {
        None => lines.last.first_address(name),
        found => found,
    }
}

/// The name of the symbol at which the usual regions end. Many kernels list no `_end`.
fn usual_end(lines: &SymbolLines) -> &'static [u8]
    ensures { result.now ≡ usual_end lines.now }
{
    if first_address(lines, b"_end").is_some() {
        b"_end"
    } else {
        b"_etext"
    }
}

/// The region of the kernel itself, from the symbol of the one name up to the other's.
pub(crate) fn built_in_region(lines: &SymbolLines, names: &KernelBounds) -> Option<Region>
    ensures { result ≡ built_in_region names.now lines.now }
{
    let start = first_address(lines, names.start)?;
    let end = first_address(lines, names.end)?;
    if start < end {
        Some(Region::new(start, end))
    } else {
        None
    }
}

/// A list of this region, if it is there.
fn regions_with(alloc: Global, region: Option<Region>) -> Result<Vec<Region>, AllocError>
    ensures { IfOk result (λ v. v.items ≡ option_to_list region) }
{
    let mut regions = Vec::new(alloc);
    if let Some(region) = region {
        regions.push(region)?;
    }
    Ok(regions)
}

/// Puts a region after others, if it is there and apart from them.
fn push_if_apart(regions: &mut Vec<Region>, region: Option<Region>) -> Result<(), AllocError>
    ensures { OnOk result (regions.new.items ≡ with_apart regions.old.items region) }
{
    if let Some(region) = region {
        if is_apart_from(region, regions.as_slice()) {
            regions.push(region)?;
        }
    }
    Ok(())
}

/// The regions of the kernel's code.
fn code_regions(alloc: Global, lines: &SymbolLines) -> Result<Vec<Region>, AllocError>
    ensures { IfOk result (λ v. v.items ≡ code_regions lines.now) }
{
    let mut regions = Vec::new(alloc);
    push_if_apart(
        &mut regions,
        built_in_region(lines, &KernelBounds::of_text()),
    )?;
    push_if_apart(
        &mut regions,
        built_in_region(lines, &KernelBounds::of_start()),
    )?;
    Ok(regions)
}

/// The regions that the usual names bound.
fn usual_regions(alloc: Global, lines: &SymbolLines) -> Result<Vec<Region>, AllocError>
    ensures { IfOk result (λ v. v.items ≡ kernel_regions None lines.now) }
{
    match built_in_region(lines, &KernelBounds::usual()) {
        Some(whole) => regions_with(alloc, Some(whole)),
        None => code_regions(alloc, lines),
    }
}
