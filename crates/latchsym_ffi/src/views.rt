//! What is known of an address, by a view.

ghost use Rattle.std.specs.Prelude.{◌≡◌, ◌≤◌, ◌<◌, ◌+◌, ◌^◌, IfSome, List, Contains, slice_get};
ghost use Rattle.std.specs.List.Sorted.{IsNonDecreasingBy};
ghost use Rattle.std.specs.Option.{option_copied, option_map};
ghost use Rattle.modules.specs.Around.{address_above, symbol_below};
ghost use Rattle.modules.specs.Entries.{CatalogEntries, SymbolEntry};
ghost use Rattle.modules.specs.Found.{found_in, symbols_from};
ghost use Rattle.modules.specs.Index.{IsSplitBy};
ghost use Rattle.modules.specs.Items.{item_of_address};
ghost use Rattle.listing.specs.Answers.{farther};
ghost use Rattle.latchsym_ffi.specs.Finding.{known_at, known_call, known_code};
ghost use Rattle.latchsym_ffi.specs.Named.{IsNamed};
ghost use Rattle.latchsym_ffi.specs.Views.{AreRowsOf, IsRegionRow, IsViewOf, item_of_row};
ghost use Rattle.latchsym_ffi.specs.Views.{known_row, shown_row, symbol_of_row};
ghost use Rattle.latchsym_ffi.specs.Views.{found_without_letter, known_without_letter};
ghost use Rattle.latchsym_ffi.specs.Views.{without_letter};

use crate::answers::{DONE, NO_SYMBOL, NOTHING};
use crate::finding::CatalogSymbol;
use crate::view_rows::{CatalogView, ViewRegion, ViewSymbol};

/// The symbol that an address belongs to, how many bytes the address lies above it, and how many it
/// reaches.
#[derive(Drop)]
pub struct FoundRow<'s> {
    symbol: &'s ViewSymbol,
    offset: u64,
    size: u64,
}

/// The region that an address lies in, and the symbol that it belongs to, if there is one.
#[derive(Drop)]
pub struct SeenRow<'c, 's> {
    region: &'c ViewRegion<'s>,
    found: Option<FoundRow<'s>>,
}

/// How many regions, by rising first address, begin at or below the address.
fn regions_below(regions: &[ViewRegion<'_>], addr: u64) -> usize
    requires { IsNonDecreasingBy (λ r. r.a) regions.now }
    ensures { IsSplitBy (λ r. r.a) regions.now addr result }
{
    regions.partition_point(|region| region.a <= addr)
}

/// How many of rising addresses are not above the address.
fn addresses_below(addresses: &[u64], addr: u64) -> usize
    requires { IsNonDecreasingBy (λ a. a) addresses.now }
    ensures { IsSplitBy (λ a. a) addresses.now addr result }
{
    addresses.partition_point(|start| *start <= addr)
}

/// The row at a place, if there is one.
fn row_at<'s>(symbols: &'s [ViewSymbol], place: usize) -> Option<&'s ViewSymbol>
    ensures { option_copied result ≡ slice_get symbols.now place }
{
    symbols.get(place)
}

/// The address at a place, if there is one.
fn address_at(addresses: &[u64], place: usize) -> Option<u64>
    ensures { result ≡ slice_get addresses.now place }
{
    addresses.get(place).copied()
}

/// The region that the address lies in.
fn region_at<'c, 's>(view: &CatalogView<'c, 's>, addr: u64) -> Option<&'c ViewRegion<'s>>
    ensures is { (c : CatalogEntries) → IsViewOf c view.now.regions.now
        → option_map item_of_row (option_copied result) ≡ item_of_address c addr }
    ensures listed { IfSome result (λ r. Contains view.now.regions.now r.now) }
    ensures holds { IfSome result (λ r. (r.now.a ≤ addr) × (addr < r.now.b)) }
{
    let split = regions_below(view.regions, addr);
    if split == 0 {
        return None;
    }
    let region = &view.regions[split - 1];
    if addr < region.b { Some(region) } else { None }
}

/// The symbol of the region's module that is nearest at or below the address, the first listed of
/// those at one address; and the least address of a symbol above.
fn around<'s>(region: &ViewRegion<'s>, addr: u64) -> (Option<&'s ViewSymbol>, Option<u64>)
    ensures below { (symbols : List SymbolEntry)
        → AreRowsOf symbols region.now.symbols.now region.now.addresses.now
        → option_map symbol_of_row (option_copied result.0)
        ≡ option_map without_letter (symbol_below symbols addr) }
    ensures above { (symbols : List SymbolEntry)
        → AreRowsOf symbols region.now.symbols.now region.now.addresses.now
        → result.1 ≡ address_above symbols addr }
{
    let split = addresses_below(region.addresses, addr);
    let above = address_at(region.addresses, split);
    if split == 0 {
        return (None, above);
    }
    (row_at(region.symbols, split - 1), above)
}

/// Of the symbols of the region, the one that the address belongs to.
fn symbol_in_rows<'s>(region: &ViewRegion<'s>, addr: u64) -> Option<FoundRow<'s>>
    requires from { region.now.a ≤ addr }
    requires below { addr < region.now.b }
    ensures found { (symbols : List SymbolEntry)
        → AreRowsOf symbols region.now.symbols.now region.now.addresses.now
        → option_map shown_row result
        ≡ option_map found_without_letter
        (found_in (symbols_from symbols region.now.a region.now.b) region.now.b addr) }
    ensures low { IfSome result (λ f. f.offset ≤ addr) }
{
    let (below, above) = around(region, addr);
    let symbol = below?;
    if symbol.addr < region.a {
        return None;
    }
    let end = above.unwrap_or(region.b).min(region.b);
    Some(FoundRow {
        symbol,
        offset: addr.saturating_sub(symbol.addr),
        size: end.saturating_sub(symbol.addr),
    })
}

/// The region that the address lies in, and the symbol, the offset and the size if there is one.
pub(crate) fn seek<'c, 's>(view: &CatalogView<'c, 's>, addr: u64) -> Option<SeenRow<'c, 's>>
    ensures known { (c : CatalogEntries) → IsViewOf c view.now.regions.now
        → option_map known_row result ≡ known_without_letter (known_at c addr) }
    ensures listed { IfSome result (λ s. Contains view.now.regions.now s.region.now) }
    ensures low { IfSome result (λ s. IfSome s.found (λ f. f.offset ≤ addr)) }
{
    let region = region_at(view, addr)?;
    Some(SeenRow {
        region,
        found: symbol_in_rows(region, addr),
    })
}

/// The symbol as it is written for the address after the one that was looked up.
fn farther<'s>(found: FoundRow<'s>) -> FoundRow<'s>
    requires { found.offset + 1 < 2 ^ 64 }
    ensures { shown_row result ≡ farther 1 (shown_row found.entry) }
{
    FoundRow {
        symbol: found.symbol,
        offset: found.offset + 1,
        size: found.size,
    }
}

/// The region of the address one byte lower, and its symbol, with the offset of the return address
/// itself.
pub(crate) fn seek_call<'c, 's>(view: &CatalogView<'c, 's>, addr: u64) -> Option<SeenRow<'c, 's>>
    ensures known { (c : CatalogEntries) → IsViewOf c view.now.regions.now
        → option_map known_row result ≡ known_without_letter (known_call c addr) }
    ensures listed { IfSome result (λ s. Contains view.now.regions.now s.region.now) }
{
    let SeenRow { region, found } = seek(view, addr.checked_sub(1)?)?;
    let found = match found {
        Some(found) => Some(farther(found)),
        None => None,
    };
    Some(SeenRow { region, found })
}

/// Writes what was found, as a search of the catalog does.
pub(crate) fn tell(seen: Option<SeenRow<'_, '_>>, out: &mut CatalogSymbol) -> u32
    ensures code { result ≡ known_code (option_map known_row seen.entry) }
    ensures symbol { (c : CatalogEntries) → IfSome seen.entry (λ s. IsRegionRow c s.region.now)
        → IsNamed c (option_map known_row seen.entry) out.new }
{
    let Some(SeenRow { region, found }) = seen else {
        *out = CatalogSymbol {
            module_number: 0,
            offset: 0,
            size: 0,
            name: &[],
            module: &[],
        };
        return NOTHING;
    };
    let (code, name, offset, size) = match found {
        Some(found) => (DONE, found.symbol.name, found.offset, found.size),
        None => (NO_SYMBOL, b"".as_slice(), 0, 0),
    };
    *out = CatalogSymbol {
        module_number: region.module_number,
        offset,
        size,
        name,
        module: region.module,
    };
    code
}
