//! From a catalog to a view of it, in memory of the caller's.

ghost use Rattle.std.specs.Prelude.{◌≡◌, ◌+◌, ◌^◌, ◌≤◌, ◌<◌, MatchOption, Some, length, map, take};
ghost use Rattle.modules.specs.Catalogs.{module_of};
ghost use Rattle.modules.specs.Entries.{CatalogEntries};
ghost use Rattle.modules.specs.Items.{items_at, items_below, items_of};
ghost use Rattle.latchsym_ffi.specs.Flattening.{AreListed, AreRowsBelow};
ghost use Rattle.latchsym_ffi.specs.Views.{AreRowsOf, IsViewOf, symbols_at};
ghost use Rattle.latchsym_ffi.specs.Views.{symbols_of};

use crate::view_rows::{CatalogView, ModuleRows, ViewRegion, ViewSymbol};
use modules::{Catalog, Module, Symbol};

/// The rooms that are left, and how many regions have rows.
#[derive(Drop)]
struct Rooms<'s> {
    symbols: &'s mut [ViewSymbol],
    addresses: &'s mut [u64],
    place: usize,
}

/// How many symbols the module of a number has, if there is one.
fn symbols_at(catalog: &Catalog<'static>, number: u64) -> usize
    ensures { result ≡ length (symbols_at catalog.now number) }
{
    match catalog.module(number) {
        Some(module) => module.symbols().len(),
        None => 0,
    }
}

/// How many symbols all modules have together, unless they are more than a number can say.
pub(crate) fn symbols_in(catalog: &Catalog<'static>) -> Option<usize>
    ensures { MatchOption result (2 ^ 64 ≤ length (symbols_of catalog.now))
        (λ n. n ≡ length (symbols_of catalog.now)) }
{
    let mut count = 0usize;
    for number in 0..=catalog.len() {
        count = count.checked_add(symbols_at(catalog, number))?;
    }
    Some(count)
}

/// Puts the symbols into rows, in the order listed.
fn list(symbols: &[Symbol<'static>], rows: &mut [ViewSymbol])
    requires { length rows.old ≡ length symbols.now }
    ensures listed { AreListed symbols.now rows.new }
    ensures count { length rows.new ≡ length rows.old }
{
    for place in 0..symbols.len() {
        let symbol = &symbols[place];
        rows[place] = ViewSymbol {
            addr: symbol.addr,
            place,
            name: symbol.name(),
        };
    }
}

/// Puts the addresses of the rows into their room.
fn list_addresses(rows: &[ViewSymbol], addresses: &mut [u64])
    requires { length addresses.old ≡ length rows.now }
    ensures { addresses.new ≡ map (λ r. r.addr) rows.now }
{
    for place in 0..rows.len() {
        addresses[place] = rows[place].addr;
    }
}

/// Puts the symbols into rows by rising address.
fn lay_out(symbols: &[Symbol<'static>], rows: &mut [ViewSymbol], addresses: &mut [u64])
    requires rows { length rows.old ≡ length symbols.now }
    requires addresses { length addresses.old ≡ length symbols.now }
    ensures { AreRowsOf symbols.now rows.new addresses.new }
{
    list(symbols, rows);
    rows.sort_unstable_by(|x, y| x.addr.cmp(&y.addr).then(y.place.cmp(&x.place)));
    list_addresses(rows, addresses);
}

/// The rows of a module's symbols, in these rooms.
fn rows_of<'s>(
    owner: &Module<'static>,
    symbols: &'s mut [ViewSymbol],
    addresses: &'s mut [u64],
) -> ModuleRows<'s>
    requires symbols { length symbols.now ≡ length owner.now.symbols }
    requires addresses { length addresses.now ≡ length owner.now.symbols }
    ensures { AreRowsOf owner.now.symbols result.symbols.now result.addresses.now }
{
    lay_out(owner.symbols(), symbols, addresses);
    ModuleRows { symbols, addresses }
}

/// Puts the regions of a module at the places from `from` on, and returns the place after them.
fn put_regions<'s>(
    owner: &Module<'static>,
    number: u64,
    rows: ModuleRows<'s>,
    regions: &mut [ViewRegion<'s>],
    from: usize,
) -> usize
    requires { from + length owner.now.regions ≤ length regions.old }
    ensures count { length regions.new ≡ length regions.old }
    ensures place { result ≡ from + length owner.now.regions }
    ensures put { (c : CatalogEntries) → module_of c number ≡ Some owner.now
        → AreRowsOf owner.now.symbols rows.entry.symbols.now rows.entry.addresses.now
        → AreRowsBelow c number (take from regions.old)
        → AreRowsBelow c (number + 1) (take result regions.new) }
{
    let mut place = from;
    for region in owner.regions() {
        regions[place] = ViewRegion {
            a: region.start(),
            b: region.end(),
            module_number: number,
            module: owner.name(),
            symbols: rows.symbols,
            addresses: rows.addresses,
        };
        place += 1;
    }
    place
}

/// Puts the module of a number into the rooms, if there is one, and leaves the rest of them.
fn put_module<'s>(
    catalog: &Catalog<'static>,
    number: u64,
    rooms: Rooms<'s>,
    regions: &mut [ViewRegion<'s>],
) -> Rooms<'s>
    requires place { rooms.place ≡ length (items_below catalog.now number) }
    requires regions { rooms.place + length (items_at catalog.now number) ≤ length regions.old }
    requires symbols { length (symbols_at catalog.now number) ≤ length rooms.symbols.now }
    requires addresses { length (symbols_at catalog.now number) ≤ length rooms.addresses.now }
    ensures count { length regions.new ≡ length regions.old }
    ensures place { result.place ≡ length (items_below catalog.now (number + 1)) }
    ensures symbols { length result.symbols.now + length (symbols_at catalog.now number)
        ≡ length rooms.entry.symbols.now }
    ensures addresses { length result.addresses.now + length (symbols_at catalog.now number)
        ≡ length rooms.entry.addresses.now }
    ensures put { AreRowsBelow catalog.now number (take rooms.entry.place regions.old)
        → AreRowsBelow catalog.now (number + 1) (take result.place regions.new) }
{
    let Some(module) = catalog.module(number) else {
        return rooms;
    };
    let Rooms {
        symbols,
        addresses,
        place,
    } = rooms;
    let count = module.symbols().len();
    let (mine, symbols) = symbols.split_at_mut(count);
    let (starts, addresses) = addresses.split_at_mut(count);
    let rows = rows_of(module, mine, starts);
    let place = put_regions(module, number, rows, regions, place);
    Rooms {
        symbols,
        addresses,
        place,
    }
}

/// Puts all modules into the rooms.
fn put_all<'s>(catalog: &Catalog<'static>, rooms: Rooms<'s>, regions: &mut [ViewRegion<'s>])
    requires place { rooms.place ≡ 0 }
    requires regions { length regions.old ≡ length (items_of catalog.now) }
    requires symbols { length rooms.symbols.now ≡ length (symbols_of catalog.now) }
    requires addresses { length rooms.addresses.now ≡ length (symbols_of catalog.now) }
    ensures { AreRowsBelow catalog.now (length catalog.now.modules + 1) regions.new }
{
    let mut rooms = rooms;
    for number in 0..=catalog.len() {
        rooms = put_module(catalog, number, rooms, regions);
    }
}

/// The view of a catalog, in rooms for as many rows as it has.
pub(crate) fn flatten<'c, 's>(
    catalog: &Catalog<'static>,
    regions: &'c mut [ViewRegion<'s>],
    symbols: &'s mut [ViewSymbol],
    addresses: &'s mut [u64],
) -> CatalogView<'c, 's>
    requires regions { length regions.now ≡ length (items_of catalog.now) }
    requires symbols { length symbols.now ≡ length (symbols_of catalog.now) }
    requires addresses { length addresses.now ≡ length (symbols_of catalog.now) }
    ensures { IsViewOf catalog.now result.regions.now }
{
    catalog.stays_sound();
    let rooms = Rooms {
        symbols,
        addresses,
        place: 0,
    };
    put_all(catalog, rooms, regions);
    regions.sort_unstable_by_key(|region| region.a);
    CatalogView { regions }
}
