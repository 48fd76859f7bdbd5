//! The region that an address lies in, among all regions of a catalog.
//!
//! The regions are one list by rising first address. They lie apart, so an address can lie
//! only in the last region that begins at or below it, which a binary search finds:
//!
//! ```text
//!      | region |      | region  |   | region |
//!                        ^ addr        the last that begins at or below it, if it ends above it
//! ```
ghost use Rattle.std.specs.Prelude.{◌≡◌, ◌≤◌, ◌<◌, ◌++◌, map};
ghost use Rattle.std.specs.Prelude.{IfOk, IfSome};
ghost use Rattle.order_laws.specs.declared.items.Item.{Item};
ghost use Rattle.modules.specs.Items.{items_at, items_of};
ghost use Rattle.modules.specs.Loads.{item_of};
ghost use Rattle.modules.specs.RegionIndexes.{IsIndexOf};
ghost use Rattle.modules.specs.Items.{item_of_address};

use crate::buckets::{Addressed, Buckets, split_at};
use crate::catalog::Catalog;
use crate::loads::item_of;
use crate::module::Module;
use crate::regions::Region;
use order_laws::Item;
use std::alloc::{AllocError, Global};
use std::marker::Model;

/// A catalog, with all its regions by rising first address.
#[derive(Drop)]
pub struct IndexedCatalog<'a> {
    catalog: Catalog<'a>,
    items: Vec<Item>,
    buckets: Buckets,
}

impl Addressed for Item {
    ghost addr_of = { λ i. i.a };

    fn addr(&self) -> u64 {
        self.a
    }
}

impl<'a> Model for IndexedCatalog<'a> {
    ghost use Rattle.modules.specs.Entries.{CatalogEntries};

    ghost Value = { CatalogEntries };

    ghost use Rattle.modules.specs.RegionIndexes.{IsWholeIndex};

    ghost view = { λ c. c.catalog };

    ghost invariant = { IsWholeIndex };
}

/// Puts the items of a module's regions after the others.
fn push_regions(items: &mut Vec<Item>, regions: &[Region], number: u64) -> Result<(), AllocError>
    ensures { IfOk result
        (λ _. items.new.items ≡ items.old.items ++ map (item_of number) regions.now) }
{
    for region in regions {
        items.push(item_of(*region, number))?;
    }
    Ok(())
}

/// Puts the items of the module of this number after the others, if there is one.
fn push_items(items: &mut Vec<Item>, catalog: &Catalog, number: u64) -> Result<(), AllocError>
    ensures { IfOk result (λ _. items.new.items ≡ items.old.items ++ items_at catalog.now number) }
{
    match catalog.module(number) {
        Some(module) => push_regions(items, module.regions(), number),
        None => Ok(()),
    }
}

/// The items of all regions, in the order of the catalog.
#[tactic(auto, using(crate::proofs::ItemLemmas::one_number_more))]
fn items_of(alloc: Global, catalog: &Catalog) -> Result<Vec<Item>, AllocError>
    ensures { IfOk result (λ v. v.items ≡ items_of catalog.now) }
{
    let modules = catalog.len();
    let mut items = Vec::new(alloc);
    for number in 0..=modules {
        push_items(&mut items, catalog, number)?;
    }
    Ok(items)
}

impl<'a> IndexedCatalog<'a> {
    /// Indexes the regions of a catalog. Refused only when out of memory.
    pub fn new(alloc: Global, catalog: Catalog<'a>) -> Result<IndexedCatalog<'a>, AllocError>
        ensures { IfOk result (λ c. c ≡ catalog.entry) }
    {
        catalog.stays_sound();
        let mut items = items_of(alloc, &catalog)?;
        items.sort_unstable_by_key(|item| item.a);
        let buckets = Buckets::of(alloc, &items)?;
        Ok(IndexedCatalog {
            catalog,
            items,
            buckets,
        })
    }

    /// The catalog.
    pub fn catalog(&self) -> &Catalog<'a>
        ensures { result.now ≡ self.now }
    {
        &self.catalog
    }

    /// An item for each region, by rising first address, with the number of its module as the tag.
    pub fn items(&self) -> &[Item]
        ensures { IsIndexOf self.now result.now }
    {
        &self.items
    }

    /// The region that an address lies in, with the number of its module as the tag. The first is
    /// tried first: it is mostly the kernel's own, and has most addresses.
    pub fn find(&self, addr: u64) -> Option<Item>
        ensures is { result ≡ item_of_address self.now addr }
        ensures holds { IfSome result (λ i. (i.a ≤ addr) × (addr < i.b)) }
    {
        self.find_near(self.region_near(0, addr), addr)
    }

    /// As [`IndexedCatalog::find`]. The place `near` by rising address is tried first.
    #[tactic(auto, using(crate::proofs::RegionIndexLemmas::found_by_split))]
    pub(crate) fn find_near(&self, near: usize, addr: u64) -> Option<Item>
        ensures is { result ≡ item_of_address self.now addr }
        ensures holds { IfSome result (λ i. (i.a ≤ addr) × (addr < i.b)) }
    {
        let split = split_at(&self.items, near.saturating_add(1), addr);
        if split == 0 {
            return None;
        }
        let item = self.items[split - 1];
        if addr < item.b { Some(item) } else { None }
    }

    /// The place of the region that an address may lie in.
    #[inline(never)]
    fn region_of(&self, addr: u64) -> usize {
        self.buckets.place_of(&self.items, addr).saturating_sub(1)
    }

    /// The place of the region that an address may lie in. The place `near` is tried first.
    #[inline(always)]
    pub(crate) fn region_near(&self, near: usize, addr: u64) -> usize {
        match self.items.get(near) {
            Some(item) if item.a <= addr && addr < item.b => near,
            _ => self.region_of(addr),
        }
    }

    /// The module of the region at a place, if there is one.
    pub(crate) fn module_at(&self, region: usize) -> Option<&Module<'a>> {
        self.catalog.module(self.items.get(region)?.tag)
    }
}
