//! The symbols of a listing that its catalog keeps, in the order listed.
ghost use Rattle.std.specs.Prelude.{◌≡◌, ◌+◌, ◌-◌, ◌<◌, ◌≤◌, ℕ, List, IfOk, OnOk, map, ◌++◌, []};
ghost use Rattle.std.specs.Option.{option_copied, option_to_list};
ghost use Rattle.memchr.specs.Find.{IsFirstByte, is_byte};
ghost use Rattle.order_laws.specs.declared.items.Item.{Item};
ghost use Rattle.command_listings.specs.AddressTexts.{size_of};
ghost use Rattle.command_listings.specs.KeptSymbols.{IsSought, Kept, is_owner, kept_in};
ghost use Rattle.command_listings.specs.KeptSymbols.{kept_at_its_address, kept_line, kept_symbol};
ghost use Rattle.command_listings.specs.KeptSymbols.{kept_symbols};
ghost use Rattle.listing.specs.SymbolListing.{symbols_in};
ghost use Rattle.texts.specs.Lines.{lines_of};

use crate::asked_names::symbol_asked;
use listing::{cut_tabbed_line, is_mapping, symbol_of_line};
use modules::{Catalog, IndexedCatalog, SymbolLine, symbol_of};
use order_laws::Item;
use std::alloc::{AllocError, Global};
use std::collections::BTreeMap;
use std::marker::Model;

/// A symbol of a listing that a catalog keeps.
#[derive(Debug, Drop)]
pub struct KeptSymbol<'a> {
    pub addr: u64,
    /// The next address that is not its own.
    pub end: u64,
    pub name: &'a [u8],
    /// The name of its module; none for a symbol of the kernel itself.
    pub owner: Option<&'a [u8]>,
}

impl<'a> Model for KeptSymbol<'a> {
    ghost use Rattle.std.specs.Option.{option_copied};
    ghost use Rattle.command_listings.specs.KeptSymbols.{Kept};

    ghost Value = { Kept };

    ghost view = { λ k. record {
      addr = k.addr;
      end = k.end;
      name = k.name.now;
      owner = option_copied k.owner;
    } };
}

impl KeptSymbol<'_> {
    /// How many bytes it reaches.
    pub fn size(&self) -> u64
        ensures { result ≡ size_of self.now }
    {
        self.end.saturating_sub(self.addr)
    }
}

/// The kept symbols of each name that is sought, in the order listed.
pub type SoughtSymbols<'n, 'a> = BTreeMap<&'n [u8], Vec<KeptSymbol<'a>>>;

/// The kept symbols, in this listing, of the names that these words ask for.
pub fn symbols_sought<'n, 'a>(
    alloc: Global,
    index: &IndexedCatalog<'_>,
    kallsyms: &'a [u8],
    words: &[&'n str],
) -> Result<SoughtSymbols<'n, 'a>, AllocError>
    ensures { IfOk result
        (IsSought (map (λ w. w.now) words.now)
        (kept_symbols index.now (symbols_in (lines_of kallsyms.now)))) }
{
    let mut sought = names_sought(alloc, words)?;
    let mut rest = kallsyms;
    while !rest.is_empty() {
        let (line, tab, after) = cut_tabbed_line(rest);
        take_line(&mut sought, index, line, tab)?;
        rest = after;
    }
    Ok(sought)
}

/// The names that these words ask for, with no symbols yet.
fn names_sought<'n, 'a>(
    alloc: Global,
    words: &[&'n str],
) -> Result<SoughtSymbols<'n, 'a>, AllocError>
    ensures { IfOk result (IsSought (map (λ w. w.now) words.now) []) }
{
    let mut sought = BTreeMap::new(alloc);
    for word in words {
        let name = symbol_asked(word.as_bytes());
        sought.insert(name, Vec::new(alloc))?;
    }
    Ok(sought)
}

/// Appends the symbol of a line, whose first tab is at this place, to the symbols of its name, if
/// that is sought and the symbol is kept.
fn take_line<'a>(
    sought: &mut SoughtSymbols<'_, 'a>,
    index: &IndexedCatalog<'_>,
    line: &'a [u8],
    tab: Option<usize>,
) -> Result<(), AllocError>
    requires { IsFirstByte (is_byte 9) line.now tab }
    ensures { (words : List (List ℕ)) (kept : List Kept) → IsSought words kept sought.old
        → OnOk result
        (IsSought words (kept ++ option_to_list (kept_line index.now line.now)) sought.new) }
{
    let Ok(symbol) = symbol_of_line(line, tab) else {
        return Ok(());
    };
    let Some(found) = sought.get_mut(symbol.name()) else {
        return Ok(());
    };
    let Some(kept) = kept_symbol(index, &symbol) else {
        return Ok(());
    };
    found.push(kept)?;
    Ok(())
}

/// The symbol as the catalog keeps it, which it does not if it is a mapping symbol.
fn kept_symbol<'a>(index: &IndexedCatalog<'_>, symbol: &SymbolLine<'a>) -> Option<KeptSymbol<'a>>
    ensures { result ≡ kept_symbol index.now symbol.now }
{
    if is_mapping(symbol.name()) {
        None
    } else {
        kept_at_its_address(index, symbol)
    }
}

/// The symbol if the region that holds its address is one of its module.
fn kept_at_its_address<'a>(
    index: &IndexedCatalog<'_>,
    symbol: &SymbolLine<'a>,
) -> Option<KeptSymbol<'a>>
    ensures { result ≡ kept_at_its_address index.now symbol.now }
{
    let item = index.find(symbol.addr)?;
    kept_in(index.catalog(), symbol, item)
}

fn kept_in<'a>(catalog: &Catalog<'_>, symbol: &SymbolLine<'a>, item: Item) -> Option<KeptSymbol<'a>>
    requires from { item.a ≤ symbol.now.addr }
    requires below { symbol.now.addr < item.b }
    ensures { result ≡ kept_in catalog.now symbol.now item }
{
    if !is_owner(catalog, item.tag, symbol.module) {
        return None;
    }
    let found = symbol_of(catalog, item, symbol.addr)?;
    let at = found.symbol;
    Some(KeptSymbol {
        addr: symbol.addr,
        end: at.addr + found.size,
        name: symbol.name(),
        owner: symbol.module,
    })
}

/// Whether the module of a number has this name; the kernel itself has none.
fn is_owner(catalog: &Catalog<'_>, number: u64, owner: Option<&[u8]>) -> bool
    ensures { result ≡ is_owner catalog.now number (option_copied owner.entry) }
{
    let Some(name) = owner else {
        return number == 0;
    };
    match catalog.module(number) {
        Some(module) => number != 0 && module.name() == name,
        None => false,
    }
}
