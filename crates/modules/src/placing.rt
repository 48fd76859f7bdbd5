//! The regions of the modules of a listing.
//!
//! The region lines are sorted by name once, so that the lines of a module lie side by side. A
//! module has up to seven regions there, in the order of its lines. One of symbols alone may have
//! many, but they rise, and then a binary search finds whether an address lies in one.

ghost use Rattle.std.specs.Prelude.{◌≡◌, ◌<◌, nat_le, true, [], ◌∷◌, length, All, IfOk, map};
ghost use Rattle.std.specs.List.{list_any};
ghost use Rattle.modules.specs.Building.{kernel_at};
ghost use Rattle.modules.specs.Grouped.{lines_at};
ghost use Rattle.modules.specs.Kept.{lies_in};
ghost use Rattle.modules.specs.Lines.{region_line_region, fits, region_fits};
ghost use Rattle.modules.specs.Parts.{is_core};
ghost use Rattle.modules.specs.Placed.{are_few, has_core, lines_named, placed_line};
ghost use Rattle.modules.specs.Regions.{AreRising, lies_in_any};
ghost use Rattle.modules.specs.declared.lines.Part.TheVariants.{Core};

use crate::buckets::split_of;
use crate::by_name::{Named, all_named, sort_by_name};
use crate::lines::{ModuleLine, Part, RegionLine};
use crate::module::MOST_REGIONS;
use crate::regions::Region;
use std::alloc::{AllocError, Global};
use std::marker::Model;

/// A module and its regions.
#[derive(Drop)]
pub(crate) struct PlacedModule<'a> {
    pub(crate) name: &'a [u8],
    /// Its regions in their order.
    pub(crate) regions: Vec<Region>,
    /// The part that each of them is.
    pub(crate) parts: Vec<Part>,
    /// Whether the regions are known to rise, so that they can be searched.
    rising: bool,
}

impl<'a> Model for PlacedModule<'a> {
    ghost use Rattle.std.specs.Prelude.{◌≡◌, true};
    ghost use Rattle.modules.specs.Placed.{PlacedModule};
    ghost use Rattle.modules.specs.Regions.{AreRising};

    ghost Value = { PlacedModule };

    ghost view = { λ p. record {
      name = p.name.now;
      regions = p.regions.items;
      parts = p.parts.items;
    } };

    ghost invariant = { λ p. p.rising ≡ true → AreRising p.regions.items };
}

/// Whether the address lies in one of the regions, which rise.
#[tactic(auto, using(crate::proofs::RisingRegionLemmas::rising_search))]
fn lies_in_rising(regions: &[Region], addr: u64) -> bool
    requires { AreRising regions.now }
    ensures { result ≡ lies_in_any regions.now addr }
{
    let split = split_of(regions, addr);
    split > 0 && regions[split - 1].holds(addr)
}

/// Whether the address lies in one of the regions.
pub(crate) fn lies_in_any(regions: &[Region], addr: u64) -> bool
    ensures { result ≡ lies_in_any regions.now addr }
{
    regions.iter().any(|region| region.holds(addr))
}

/// A part of the core for each region.
fn core_parts(alloc: Global, regions: &[Region]) -> Result<Vec<Part>, AllocError>
    ensures { IfOk result (λ v. v.items ≡ map (λ _. Core) regions.now) }
{
    regions.iter().map(|_| Part::Core).collect(alloc)
}

impl<'a> PlacedModule<'a> {
    /// The kernel itself, in its regions.
    pub(crate) fn kernel(
        alloc: Global,
        regions: Vec<Region>,
    ) -> Result<PlacedModule<'static>, AllocError>
        ensures { IfOk result (λ p. p ≡ kernel_at regions.items) }
    {
        let parts = core_parts(alloc, &regions)?;
        Ok(PlacedModule {
            name: b"-",
            regions,
            parts,
            rising: false,
        })
    }

    /// Whether the address lies in one of its regions.
    pub(crate) fn lies_at(&self, addr: u64) -> bool
        ensures { result ≡ lies_in self.now addr }
    {
        let regions = self.regions.as_slice();
        if self.rising {
            lies_in_rising(regions, addr)
        } else {
            lies_in_any(regions, addr)
        }
    }

    /// A module with one region, of its core.
    fn in_one(alloc: Global, name: &'a [u8], region: Region) -> Result<PlacedModule<'a>, AllocError>
        ensures { IfOk result
            (λ p. p ≡ record { name = name.now; regions = region ∷ []; parts = Core ∷ [] }) }
    {
        Ok(PlacedModule {
            name,
            regions: vec![in alloc; region]?,
            parts: vec![in alloc; Part::Core]?,
            rising: false,
        })
    }

    /// A module whose regions rise, all of its core.
    pub(crate) fn in_rising(
        alloc: Global,
        name: &'a [u8],
        regions: Vec<Region>,
    ) -> Result<PlacedModule<'a>, AllocError>
        requires { AreRising regions.items }
        ensures { IfOk result (λ p. p ≡ record {
          name = name.now;
          regions = regions.items;
          parts = map (λ _. Core) regions.items;
        }) }
    {
        let parts = core_parts(alloc, &regions)?;
        Ok(PlacedModule {
            name,
            regions,
            parts,
            rising: true,
        })
    }

    /// A module in the regions of these lines.
    fn in_lines(
        alloc: Global,
        name: &'a [u8],
        lines: &[&RegionLine],
    ) -> Result<PlacedModule<'a>, AllocError>
        requires { All (λ l. region_fits l.now ≡ true) lines.now }
        ensures { IfOk result (λ p. p ≡ record {
          name = name.now;
          regions = map region_line_region (lines_at lines.now);
          parts = map (λ l. l.part) (lines_at lines.now);
        }) }
    {
        let mut regions = Vec::with_capacity(alloc, lines.len())?;
        let mut parts = Vec::with_capacity(alloc, lines.len())?;
        for line in lines {
            regions.push(line.region())?;
            parts.push(line.part)?;
        }
        Ok(PlacedModule {
            name,
            regions,
            parts,
            rising: false,
        })
    }
}

impl<'l, 'a> Named for &'l RegionLine<'a> {
    ghost name_of = { λ l. l.now.name };

    fn name(&self) -> &[u8] {
        self.name
    }
}

/// Whether one of the lines that are referred to is of a core region.
fn any_core(lines: &[&RegionLine]) -> bool
    ensures { result ≡ list_any (λ l. is_core l.now.part) lines.now }
{
    lines.iter().any(|line| line.part.is_core())
}

/// Whether one of the lines is of a core region.
#[tactic(auto, using(crate::proofs::ByNameLemmas::any_mapped))]
fn has_core(lines: &[&RegionLine]) -> bool
    ensures { result ≡ has_core (lines_at lines.now) }
{
    any_core(lines)
}

/// The lines of a listing of regions, by name. A contract sees the list of the lines, as it was
/// given.
#[derive(Drop)]
pub(crate) struct RegionLines<'l, 'a> {
    pub(crate) listed: &'l [RegionLine<'a>],
    by_name: Vec<&'l RegionLine<'a>>,
}

impl<'l, 'a> Model for RegionLines<'l, 'a> {
    ghost use Rattle.std.specs.Prelude.{List};
    ghost use Rattle.modules.specs.Grouped.{IsGrouped};
    ghost use Rattle.modules.specs.Listed.{ListedRegion};

    ghost Value = { List ListedRegion };

    ghost view = { λ r. r.listed.now };

    ghost invariant = { λ r. IsGrouped r.listed.now r.by_name.items };
}

impl<'l, 'a> RegionLines<'l, 'a> {
    pub(crate) fn new(
        alloc: Global,
        listed: &'l [RegionLine<'a>],
    ) -> Result<RegionLines<'l, 'a>, AllocError>
        ensures { IfOk result (λ r. r ≡ listed.now) }
    {
        let mut by_name: Vec<&RegionLine> = listed.iter().collect(alloc)?;
        sort_by_name(&mut by_name)?;
        Ok(RegionLines { listed, by_name })
    }

    /// The lines of this name, in the order listed.
    #[tactic(auto, using(crate::proofs::ByNameLemmas::lines_by_name))]
    pub(crate) fn named(&self, name: &[u8]) -> &[&'l RegionLine<'a>]
        ensures { lines_at result.now ≡ lines_named name.now self.now }
    {
        all_named(self.by_name.as_slice(), name)
    }

    /// Whether no more lines have the name of this one than a module has regions.
    #[tactic(auto, using(crate::proofs::ByNameLemmas::lines_by_name))]
    fn are_few_of(&self, line: &RegionLine) -> bool
        ensures { result ≡ nat_le (length (lines_named line.now.name self.now)) 7 }
    {
        self.named(line.name).len() <= MOST_REGIONS
    }

    /// Whether no more lines have one name than a module has regions.
    pub(crate) fn are_few(&self) -> bool
        ensures { result ≡ are_few self.now }
    {
        self.listed.iter().all(|line| self.are_few_of(line))
    }

    /// Whether a line of this name is of a core region.
    pub(crate) fn has_core_of(&self, name: &[u8]) -> bool
        ensures { result ≡ has_core (lines_named name.now self.now) }
    {
        has_core(self.named(name))
    }

    /// A module with its regions: the regions of its lines if one of them is of its core, or else
    /// the region of its own line.
    pub(crate) fn place(
        &self,
        alloc: Global,
        line: &ModuleLine<'a>,
    ) -> Result<PlacedModule<'a>, AllocError>
        requires region_fits { All (λ l. region_fits l ≡ true) self.now }
        requires fits { fits line.now ≡ true }
        ensures { IfOk result (λ p. p ≡ placed_line self.now line.now) }
    {
        let lines = self.named(line.name);
        if has_core(lines) {
            PlacedModule::in_lines(alloc, line.name, lines)
        } else {
            PlacedModule::in_one(alloc, line.name, line.region())
        }
    }
}
