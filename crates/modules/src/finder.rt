//! Addresses that are sought one after another, if it is known which come next.

ghost use Rattle.std.specs.Prelude.{◌≡◌, ◌≤◌, ◌<◌, Some, IfSome};
ghost use Rattle.std.specs.Option.{option_copied, option_map};
ghost use Rattle.modules.specs.Catalogs.{module_of};
ghost use Rattle.modules.specs.Found.{symbol_at};
ghost use Rattle.modules.specs.Items.{item_of_address};
ghost use Rattle.modules.specs.Again.{IsRegionOf, IsSameWithin};

use crate::found_symbols::{FoundSymbol, symbol_around};
use crate::guesses::{Guesses, TURNS};
use crate::module::Module;
use crate::region_index::IndexedCatalog;
use crate::symbols::Symbol;
use order_laws::Item;
use std::marker::Model;

/// How many addresses a finder is told at once, at most. It passes over more.
pub const MOST_EXPECTED: usize = TURNS;

/// The region that addresses were found in last, and its module.
#[derive(Clone, Copy, Drop)]
struct LastRegion<'c, 'a> {
    item: Item,
    owner: &'c Module<'a>,
}

/// The region and the symbol that were found last. The addresses from `from` up to `to` belong to
/// the symbol.
#[derive(Clone, Copy, Drop)]
struct LastFound<'c, 'a> {
    item: Item,
    symbol: &'c Symbol<'a>,
    size: u64,
    from: u64,
    to: u64,
}

/// The module of the region that an address lies in, if there is one.
#[tactic(auto, using(crate::proofs::AgainLemmas::item_again))]
#[inline(always)]
fn owner_of<'c, 'a>(
    catalog: &'c IndexedCatalog<'a>,
    item: Item,
    addr: u64,
) -> Option<&'c Module<'a>>
    requires { item_of_address catalog.now addr ≡ Some item }
    ensures owner { option_copied result ≡ module_of catalog.now item.tag }
    ensures region { IfSome result (λ m. IsRegionOf catalog.now item m.now) }
{
    let catalog = catalog.catalog();
    catalog.stays_sound();
    catalog.module(item.tag)
}

/// What was found for an address, with the addresses that belong to the symbol, too.
fn same_within<'c, 'a>(
    catalog: &'c IndexedCatalog<'a>,
    addr: u64,
    region: &LastRegion<'c, 'a>,
    found: &FoundSymbol<'c, 'a>,
) -> LastFound<'c, 'a>
    requires region { IsRegionOf catalog.now region.now.item region.now.owner.now }
    requires from { region.now.item.a ≤ addr }
    requires below { addr < region.now.item.b }
    requires symbol { symbol_at catalog.now region.now.item addr ≡ Some found.now }
    ensures { IsSameWithin catalog.now result }
{
    let item = region.item;
    let symbol = found.symbol;
    let start = symbol.addr;
    LastFound {
        item,
        symbol,
        size: found.size,
        from: start.max(item.a),
        to: start.saturating_add(found.size).min(item.b),
    }
}

/// Finds what addresses lie in and belong to, as [`IndexedCatalog::find`] and [`symbol_of`] do, in
/// less time for many of them. A contract sees the catalog.
///
/// [`symbol_of`]: crate::symbol_of
#[derive(Drop)]
pub struct Finder<'c, 'a> {
    catalog: &'c IndexedCatalog<'a>,
    guesses: Guesses,
    region: Option<LastRegion<'c, 'a>>,
    last: Option<LastFound<'c, 'a>>,
}

impl<'c, 'a> Model for Finder<'c, 'a> {
    ghost use Rattle.modules.specs.Entries.{CatalogEntries};

    ghost Value = { CatalogEntries };

    ghost use Rattle.modules.specs.Again.{IsWholeFinder};

    ghost view = { λ f. f.catalog.now };

    ghost invariant = { IsWholeFinder };
}

impl<'c, 'a> Finder<'c, 'a> {
    /// Finds addresses in a catalog.
    pub fn new(catalog: &'c IndexedCatalog<'a>) -> Finder<'c, 'a>
        ensures { result ≡ catalog.now }
    {
        Finder {
            catalog,
            guesses: Guesses::none(),
            region: None,
            last: None,
        }
    }

    /// Makes ready for the addresses that come next, for [`MOST_EXPECTED`] of them at most. Call it
    /// again after these.
    #[inline(never)]
    pub fn expect(&mut self, addrs: &[u64])
        ensures { self.new ≡ self.old }
    {
        self.guesses.renew(self.catalog, addrs);
    }

    /// The region that an address lies in, and the symbol that it belongs to, if there is one.
    pub fn find(&mut self, addr: u64) -> Option<(Item, Option<FoundSymbol<'c, 'a>>)>
        ensures stays { self.new ≡ self.old }
        ensures found { result
            ≡ option_map (λ i. (i, symbol_at self.old i addr)) (item_of_address self.old addr) }
    {
        if let Some(last) = self.last {
            if last.from <= addr && addr < last.to {
                self.guesses.pass();
                let symbol = last.symbol;
                let found = FoundSymbol {
                    symbol,
                    offset: addr - symbol.addr,
                    size: last.size,
                };
                return Some((last.item, Some(found)));
            }
        }
        if let Some(region) = self.region {
            if region.item.a <= addr && addr < region.item.b {
                let place = self.guesses.next_in(region.owner, addr);
                return Some((region.item, self.find_in(&region, place, addr)));
            }
        }
        self.seek(addr)
    }

    /// The symbol of an address in a region. The place `near` by rising address is tried first. The
    /// symbol is kept if the next address may lie near.
    #[inline(always)]
    fn find_in(
        &mut self,
        region: &LastRegion<'c, 'a>,
        near: usize,
        addr: u64,
    ) -> Option<FoundSymbol<'c, 'a>>
        requires region { IsRegionOf self.old region.now.item region.now.owner.now }
        requires from { region.now.item.a ≤ addr }
        requires below { addr < region.now.item.b }
        ensures stays { self.new ≡ self.old }
        ensures found { result ≡ symbol_at self.old region.now.item addr }
    {
        let found = symbol_around(region.owner, near, region.item.a, region.item.b, addr);
        if self.guesses.are_rising() {
            if let Some(found) = &found {
                self.last = Some(same_within(self.catalog, addr, region, found));
            }
        }
        found
    }

    /// The region and the symbol of an address that is not in the region found last.
    fn seek(&mut self, addr: u64) -> Option<(Item, Option<FoundSymbol<'c, 'a>>)>
        ensures stays { self.new ≡ self.old }
        ensures found { result
            ≡ option_map (λ i. (i, symbol_at self.old i addr)) (item_of_address self.old addr) }
    {
        let catalog = self.catalog;
        let guess = self.guesses.next(catalog, addr);
        let item = catalog.find_near(guess.region, addr)?;
        let Some(owner) = owner_of(catalog, item, addr) else {
            return Some((item, None));
        };
        let region = LastRegion { item, owner };
        self.region = Some(region);
        Some((item, self.find_in(&region, guess.place, addr)))
    }
}
