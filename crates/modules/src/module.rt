//! A module: its name, its regions, and its symbols.

ghost use Rattle.std.specs.Prelude.{◌≡◌, [], position, Ok};
ghost use Rattle.std.specs.List.{list_any};
ghost use Rattle.modules.specs.AtAddress.{lists_symbol};
ghost use Rattle.modules.specs.Building.{module_with, placed_module_of};
ghost use Rattle.modules.specs.Loads.{GivesOrLacksMemory, is_erasing, update_of};
ghost use Rattle.modules.specs.Parts.{is_core, is_init};
ghost use Rattle.modules.specs.Placed.{IsPlaced};
ghost use Rattle.modules.specs.Starts.{first_start, start_at, start_where, starts_of};

use crate::lines::Part;
use crate::loads::{erasing, is_erasing};
use crate::placing::PlacedModule;
use crate::regions::Region;
use crate::symbol_tables::{SharedSymbols, SymbolTable};
use crate::symbols::Symbol;
use order_laws::Refusal;
use std::alloc::Global;
use std::marker::Model;
use table_updates::Update;

/// The greatest number of region lines of one module, as the kernel's `enum mod_mem_type` has seven
/// kinds of memory.
pub const MOST_REGIONS: usize = 7;

/// A module of the kernel, or the kernel itself.
#[derive(Drop)]
pub struct Module<'a> {
    name: &'a [u8],
    /// Its regions in their order.
    regions: Vec<Region>,
    /// The part that each of them is.
    parts: Vec<Part>,
    symbols: SharedSymbols<'a>,
}

impl<'a> Model for Module<'a> {
    ghost use Rattle.modules.specs.Entries.{ModuleEntry};

    ghost Value = { ModuleEntry };

    ghost use Rattle.modules.specs.Modules.{module_view, IsWholeModule};

    ghost view = { module_view };

    ghost invariant = { IsWholeModule };
}

/// The place of the first part of the core.
fn first_core(parts: &[Part]) -> Option<usize>
    ensures { result ≡ position is_core parts.now }
{
    parts.iter().position(|part| part.is_core())
}

/// The place of the first init part.
fn first_init(parts: &[Part]) -> Option<usize>
    ensures { result ≡ position is_init parts.now }
{
    parts.iter().position(|part| part.is_init())
}

/// The first address of the region at a place.
fn start_at(regions: &[Region], place: usize) -> Option<u64>
    ensures { result ≡ start_at regions.now place }
{
    regions.get(place).map(|region| region.start())
}

fn core_start(regions: &[Region], parts: &[Part]) -> Option<u64>
    ensures { result ≡ start_where is_core regions.now parts.now }
{
    let place = first_core(parts)?;
    start_at(regions, place)
}

fn init_start(regions: &[Region], parts: &[Part]) -> Option<u64>
    ensures { result ≡ start_where is_init regions.now parts.now }
{
    let place = first_init(parts)?;
    start_at(regions, place)
}

impl<'a> Module<'a> {
    /// The module in this place with these symbols.
    pub(crate) fn new(placed: PlacedModule<'a>, symbols: SharedSymbols<'a>) -> Module<'a>
        requires { IsPlaced placed }
        ensures { result ≡ module_with placed.entry symbols.entry }
    {
        Module {
            name: placed.name,
            regions: placed.regions,
            parts: placed.parts,
            symbols,
        }
    }

    /// The module's name; `-` for the kernel itself.
    pub fn name(&self) -> &'a [u8]
        ensures { result.now ≡ self.now.name }
    {
        self.name
    }

    /// Its regions, in order: at least one.
    pub fn regions(&self) -> &[Region]
        ensures regions { result.now ≡ self.now.regions }
        ensures placed { IsPlaced (placed_module_of self.now) }
    {
        self.regions.as_slice()
    }

    /// The part that each of its regions is, for callers that list a catalog.
    pub fn parts(&self) -> &[Part]
        ensures { result.now ≡ self.now.parts }
    {
        self.parts.as_slice()
    }

    /// The first address of its first region of the core, and of its first init region, if it has
    /// one.
    pub fn starts(&self) -> (u64, Option<u64>)
        ensures core { Some result.0 ≡ first_start is_core self.now }
        ensures init { result.1 ≡ first_start is_init self.now }
    {
        let Some(core) = core_start(self.regions.as_slice(), self.parts.as_slice()) else {
            unreachable!();
        };
        (
            core,
            init_start(self.regions.as_slice(), self.parts.as_slice()),
        )
    }

    /// The update that takes out its core regions, if `core` asks for them, and its init
    /// regions, if `init` does.
    pub(crate) fn erasing(&self, alloc: Global, core: bool, init: bool) -> Result<Update, Refusal>
        ensures { GivesOrLacksMemory
            (Ok (update_of (starts_of core init self.now.regions self.now.parts) [])) result }
    {
        erasing(
            alloc,
            self.regions.as_slice(),
            self.parts.as_slice(),
            core,
            init,
        )
    }

    /// Whether the update is this one.
    pub(crate) fn is_erasing(&self, core: bool, init: bool, update: &Update) -> bool
        ensures { result
            ≡ is_erasing (starts_of core init self.now.regions self.now.parts) update.now }
    {
        is_erasing(
            self.regions.as_slice(),
            self.parts.as_slice(),
            core,
            init,
            update,
        )
    }

    /// Whether it has init regions.
    pub(crate) fn has_init(&self) -> bool
        ensures { result ≡ list_any is_init self.now.parts }
    {
        self.parts.iter().any(|part| part.is_init())
    }

    /// The symbols that lie in the regions, in the order listed, for callers that list a catalog.
    pub fn symbols(&self) -> &[Symbol<'a>]
        ensures { result.now ≡ self.now.symbols }
    {
        self.symbols.table().as_slice()
    }

    /// Whether one of the symbols has this address and this name. If they rise, or have copies
    /// that do, only those at the address are gone through.
    pub fn lists(&self, addr: u64, name: &[u8]) -> bool
        ensures { result ≡ lists_symbol self.now.symbols addr name.now }
    {
        self.symbols.table().lists(addr, name)
    }

    /// The symbols as they are searched.
    #[inline(always)]
    pub(crate) fn table(&self) -> &SymbolTable<'a>
        ensures { result.now ≡ self.now.symbols }
    {
        self.symbols.table()
    }
}
