//! The modules that may be loaded, and what a load or an unload changes.

ghost use Rattle.std.specs.Prelude.{◌≡◌, ◌↔◌, IsTrue, true, All, length, IfOk};
ghost use Rattle.std.specs.Prelude.{IfErr};
ghost use Rattle.std.specs.Option.{option_copied};
ghost use Rattle.modules.specs.Lines.{fits, region_fits};
ghost use Rattle.modules.specs.Catalogs.{catalog_of, counts_of, IsBuildRefusal};
ghost use Rattle.modules.specs.Catalogs.{build_of_listed, module_of};
ghost use Rattle.modules.specs.Catalogs.{module_number_of, number_for, regions_of, IsNoneAbsent};
ghost use Rattle.modules.specs.Catalogs.{IsSoundCatalog};
ghost use Rattle.modules.specs.Loads.{drop_init_of, GivesOrLacksMemory, GivesSome, load_of};
ghost use Rattle.modules.specs.Loads.{unload_of};
ghost use Rattle.modules.specs.Placed.{are_few};

use crate::build::assemble;
use crate::expected_lookups::ExpectedLookups;
use crate::lines::{KernelBounds, ModuleLine, RegionLine};
use crate::loads::{inserting, is_inserting};
use crate::module::Module;
use crate::names::Names;
use crate::placing::RegionLines;
use crate::symbol_lines::SymbolLines;
use order_laws::Refusal;
use std::alloc::Global;
use std::marker::Model;
use table_updates::Update;

/// The number of a module that a catalog lacks. No module has it if there are
/// fewer regions, as in every catalog that a table can hold.
pub const ABSENT_MODULE: u64 = 4294967295;

/// How many lines are used, and how many are not, by cause. Each line of a listing is counted once.
#[derive(Clone, Copy, Debug, PartialEq, Eq, Drop)]
pub struct BuildCounts {
    /// Accepted lines of the listing of modules; the modules if symbols alone are listed.
    pub modules: u64,
    /// Lines with the name of a line that was accepted before.
    pub double: u64,
    /// Other lines of modules whose regions are not all apart from each other, from the region of
    /// the kernel itself and from the regions of the modules accepted before.
    pub overlap: u64,
    /// Lines of the listing of regions that an accepted module has its regions from; the regions of
    /// the modules if symbols alone are listed.
    pub regions: u64,
    /// Lines of the listing of regions that no module has a region from.
    pub stray_regions: u64,
    /// Kept lines of the listing of symbols.
    pub symbols: u64,
    /// Lines of the listing of symbols that are not kept.
    pub stray: u64,
}

impl BuildCounts {
    /// These counts if `listed` symbols are listed, some of them left out before: the symbols that
    /// are not kept are stray.
    pub fn of_listed(self, listed: usize) -> BuildCounts
        ensures { result ≡ build_of_listed listed self }
    {
        BuildCounts {
            stray: (listed as u64).saturating_sub(self.symbols),
            ..self
        }
    }
}

/// What of a module a table holds.
#[derive(Clone, Copy, Debug, PartialEq, Eq, Drop)]
pub struct Held {
    /// Whether it holds the first address of the module's first region of its core.
    pub core: bool,
    /// Whether it holds the first address of the module's first init region; not if it has none.
    pub init: bool,
}

/// The kernel itself as number 0, if the listing of symbols has regions of it, and the accepted
/// modules from number 1 on in the order of their lines; modules of symbols alone in the order of
/// their first kept lines. Their regions lie apart and no two of the modules have one name. It does
/// not change.
#[derive(Drop)]
pub struct Catalog<'a> {
    pub(crate) built_in: Option<Module<'a>>,
    pub(crate) modules: Vec<Module<'a>>,
    pub(crate) names: Names<'a>,
    /// How many regions all of them have.
    pub(crate) regions: usize,
}

impl<'a> Model for Catalog<'a> {
    ghost use Rattle.modules.specs.Entries.{CatalogEntries};

    ghost Value = { CatalogEntries };

    ghost use Rattle.modules.specs.Sound.{catalog_view, IsWholeCatalog};

    ghost view = { catalog_view };

    ghost invariant = { IsWholeCatalog };
}

impl<'a> Catalog<'a> {
    /// Builds the catalog of three listings. Each module line and each region line must have a
    /// region ([`ModuleLine::fits`], [`RegionLine::fits`]).
    ///
    /// A module lies in the regions of the region lines of its name, in their order, if one of them
    /// is of its core, and else in the region of its own line. A module line is skipped as double
    /// if a line accepted before has its name, else as overlap if its regions are not all
    /// apart from each other, from the kernel's own and from the regions of the modules accepted
    /// before. The kernel's region is between the two symbols of `names`, or else its regions are
    /// the usual ones ([`SymbolLines::kernel_regions`]). A symbol is kept if it lies in a region
    /// of its module, or of the kernel itself if it has none, and is stray otherwise. A region line
    /// is stray if its module is not accepted, or has no line of a core region.
    ///
    /// What is asked of it changes nothing but how long building and searching take.
    ///
    /// Refused by [`Refusal::TooManyRegions`] if more than 7 region lines have one name, and by
    /// [`Refusal::OutOfMemory`].
    pub fn build(
        alloc: Global,
        names: Option<&KernelBounds>,
        modules: &[ModuleLine<'a>],
        regions: &[RegionLine<'a>],
        symbols: SymbolLines<'a>,
        expected: ExpectedLookups<'_>,
    ) -> Result<(Catalog<'a>, BuildCounts), Refusal>
        requires fit { All (λ l. fits l ≡ true) modules.now }
        requires regions_fit { All (λ l. region_fits l ≡ true) regions.now }
        ensures built { IfOk result
            (λ r. r.0
            ≡ catalog_of (option_copied names.entry) modules.now regions.now symbols.entry) }
        ensures counted { IfOk result
            (λ r. r.1
            ≡ counts_of (option_copied names.entry) modules.now regions.now symbols.entry) }
        ensures few { IfOk result (λ _. are_few regions.now ≡ true) }
        ensures refused { IfErr result (IsBuildRefusal regions.now) }
    {
        let regions = RegionLines::new(alloc, regions)?;
        if !regions.are_few() {
            return Err(Refusal::TooManyRegions);
        }
        Ok(assemble(alloc, names, modules, &regions, symbols, expected)?)
    }

    /// The module of a number.
    pub fn module(&self, number: u64) -> Option<&Module<'a>>
        ensures { option_copied result ≡ module_of self.now number }
    {
        if number == 0 {
            self.built_in.as_ref()
        } else {
            self.modules.get((number - 1) as usize)
        }
    }

    /// The number of the module of this name. The name `-` is the kernel's alone, even if a module
    /// has it.
    pub fn number_of(&self, name: &[u8]) -> Option<u64>
        ensures { result ≡ module_number_of self.now name.now }
    {
        if name == b"-".as_slice() {
            return self.built_in.as_ref().map(|_| 0);
        }
        let place = self.names.place_of(name)?;
        Some(place as u64 + 1)
    }

    /// The number of the module of this name, and [`ABSENT_MODULE`] if there is none.
    #[tactic(auto, using(crate::proofs::AbsentLemmas::none_absent))]
    pub fn number_for(&self, name: &[u8]) -> u64
        ensures number { result ≡ number_for self.now name.now }
        ensures absent { IsNoneAbsent self.now }
    {
        self.stays_sound();
        self.number_of(name).unwrap_or(ABSENT_MODULE)
    }

    /// What every catalog keeps, for a caller that reasons about it: its modules have regions,
    /// which lie apart, and names of their own. Does nothing.
    #[inline(always)]
    pub fn stays_sound(&self)
        ensures { IsSoundCatalog self.now }
    {
        let _ = &self.modules;
    }

    /// How many modules there are, the kernel itself not counted: they have the numbers from 1 on.
    pub fn len(&self) -> u64
        ensures { result ≡ length self.now.modules }
    {
        self.modules.len() as u64
    }

    /// The number of all regions, the kernel's own among them.
    pub fn regions(&self) -> usize
        ensures { result ≡ length (regions_of self.now) }
    {
        self.regions
    }

    /// The update that loads a module: all its regions are put in, with its number as the tag.
    ///
    /// Refused by [`Refusal::UnknownModule`], else by [`Refusal::AlreadyLoaded`] if its core is
    /// held, else by [`Refusal::OutOfMemory`]. A module of one region takes no memory.
    pub fn load(&self, number: u64, held: Held) -> Result<Update, Refusal>
        ensures { GivesOrLacksMemory (load_of self.now number held) result }
    {
        let Some(module) = self.module(number) else {
            return Err(Refusal::UnknownModule);
        };
        if held.core {
            return Err(Refusal::AlreadyLoaded);
        }
        inserting(*self.modules.allocator(), module.regions(), number)
    }

    /// The update that unloads a module: its core regions are taken out, and its init regions if
    /// they are held.
    ///
    /// Refused by [`Refusal::UnknownModule`], else by [`Refusal::NotLoaded`] if its core is not
    /// held, else by [`Refusal::OutOfMemory`]. One region takes no memory.
    pub fn unload(&self, number: u64, held: Held) -> Result<Update, Refusal>
        ensures { GivesOrLacksMemory (unload_of self.now number held) result }
    {
        let Some(module) = self.module(number) else {
            return Err(Refusal::UnknownModule);
        };
        if !held.core {
            return Err(Refusal::NotLoaded);
        }
        module.erasing(*self.modules.allocator(), true, held.init)
    }

    /// The update that ends a module's start: its init regions are taken out.
    ///
    /// Refused by [`Refusal::UnknownModule`], else by [`Refusal::NotLoaded`] if its core is not
    /// held, else by [`Refusal::NoInit`] if no init region of it is, else by
    /// [`Refusal::OutOfMemory`]. One region takes no memory.
    pub fn drop_init(&self, number: u64, held: Held) -> Result<Update, Refusal>
        ensures { GivesOrLacksMemory (drop_init_of self.now number held) result }
    {
        let Some(module) = self.module(number) else {
            return Err(Refusal::UnknownModule);
        };
        if !held.core {
            return Err(Refusal::NotLoaded);
        }
        if !(held.init && module.has_init()) {
            return Err(Refusal::NoInit);
        }
        module.erasing(*self.modules.allocator(), false, true)
    }

    /// Whether [`Catalog::load`] gives this update, whatever is held. It takes no memory.
    #[tactic(auto, using(crate::proofs::LoadLemmas::load_answers))]
    pub fn gives_load(&self, number: u64, update: &Update) -> bool
        ensures { IsTrue result ↔ GivesSome (load_of self.now number) update.now }
    {
        let Some(module) = self.module(number) else {
            return false;
        };
        is_inserting(module.regions(), number, update)
    }

    /// Whether [`Catalog::unload`] gives this update, whatever is held. It takes no memory.
    #[tactic(auto, using(crate::proofs::LoadLemmas::unload_either))]
    pub fn gives_unload(&self, number: u64, update: &Update) -> bool
        ensures { IsTrue result ↔ GivesSome (unload_of self.now number) update.now }
    {
        let Some(module) = self.module(number) else {
            return false;
        };
        module.is_erasing(true, false, update) || module.is_erasing(true, true, update)
    }

    /// Whether [`Catalog::drop_init`] gives this update, whatever is held. It takes no memory.
    #[tactic(auto, using(crate::proofs::LoadLemmas::drop_answers))]
    pub fn gives_drop_init(&self, number: u64, update: &Update) -> bool
        ensures { IsTrue result ↔ GivesSome (drop_init_of self.now number) update.now }
    {
        let Some(module) = self.module(number) else {
            return false;
        };
        module.has_init() && module.is_erasing(false, true, update)
    }
}
