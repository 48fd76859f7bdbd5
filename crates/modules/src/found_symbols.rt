//! The symbol that an address belongs to.

ghost use Rattle.std.specs.Prelude.{◌≡◌, ◌≤◌, ◌<◌};
ghost use Rattle.modules.specs.Found.{found_in, symbol_at, symbols_from};

use crate::{Catalog, Module, Symbol};
use order_laws::Item;
use std::marker::Model;

/// The symbol that an address belongs to. A contract sees the symbol without its place in memory.
#[derive(Drop)]
pub struct FoundSymbol<'c, 'a> {
    pub symbol: &'c Symbol<'a>,
    /// How many bytes the address lies above the symbol.
    pub offset: u64,
    /// How many bytes the symbol reaches.
    pub size: u64,
}

impl<'c, 'a> Model for FoundSymbol<'c, 'a> {
    ghost use Rattle.modules.specs.Found.{Found};

    ghost Value = { Found };

    ghost view = { λ f. record { symbol = f.symbol.now; offset = f.offset; size = f.size } };
}

/// Of the symbols of a module from `start` up to `end`, the one at an address, which reaches to the
/// next address of a symbol or to `end`. Of symbols at one address it is the one listed first.
///
/// Like [`symbol_of`] it is compiled into its callers: handed on through memory its answer was
/// stored by words and loaded by pairs of them, which waits.
#[inline(always)]
pub fn symbol_in<'c, 'a>(
    owner: &'c Module<'a>,
    start: u64,
    end: u64,
    addr: u64,
) -> Option<FoundSymbol<'c, 'a>>
    requires from { start ≤ addr }
    requires below { addr < end }
    ensures { result ≡ found_in (symbols_from owner.now.symbols start end) end addr }
{
    symbol_around(owner, owner.table().place_of(addr), start, end, addr)
}

/// As [`symbol_in`]. The place `near` by rising address is tried first.
#[inline(always)]
#[tactic(auto, using(crate::proofs::NearestLemmas::found_around))]
pub(crate) fn symbol_around<'c, 'a>(
    owner: &'c Module<'a>,
    near: usize,
    start: u64,
    end: u64,
    addr: u64,
) -> Option<FoundSymbol<'c, 'a>>
    requires from { start ≤ addr }
    requires below { addr < end }
    ensures { result ≡ found_in (symbols_from owner.now.symbols start end) end addr }
{
    let (below, above) = owner.table().around_near(near, addr);
    let symbol = below?;
    if symbol.addr < start {
        return None;
    }
    let end = above.unwrap_or(end).min(end);
    Some(FoundSymbol {
        symbol,
        offset: addr - symbol.addr,
        size: end - symbol.addr,
    })
}

/// The symbol that an address of the item belongs to.
///
/// It is, of the kept symbols of the item's module that lie in the item, the one with the greatest
/// address that is not above `addr`, the first listed among equal addresses. Its size reaches to
/// the next greater address of such a symbol, or to the item's end. There is none if no such
/// symbol is at or below the address, or if the item's tag is the number of no module.
#[inline(always)]
pub fn symbol_of<'c, 'a>(
    catalog: &'c Catalog<'a>,
    item: Item,
    addr: u64,
) -> Option<FoundSymbol<'c, 'a>>
    requires from { item.a ≤ addr }
    requires below { addr < item.b }
    ensures { result ≡ symbol_at catalog.now item addr }
{
    symbol_in(catalog.module(item.tag)?, item.a, item.b, addr)
}
