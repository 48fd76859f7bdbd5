//! The symbols of the kernel itself by their names, for the sizes of functions that a log says.
//!
//! Each name has a number, and the symbols of a number are linked, from the last one back to the
//! first. A link is the place after a symbol, or 0 if there is none:
//!
//! ```text
//!     place      0        1        2          3
//!     symbol     do_one   do_two   do_alias   do_six
//!     number     3        7        3          11
//!     before     0        0        1          0         do_one comes before do_alias
//!
//!     number     3   7   11
//!     last       3   2   4                              do_one (3): do_alias, then do_one
//! ```
ghost use Rattle.std.specs.Prelude.{◌≡◌, IfOk};
ghost use Rattle.std.specs.List.{list_any};
ghost use Rattle.command_listings.specs.KernelNames.{AreLinked};
ghost use Rattle.command_listings.specs.Sizes.{has_name, has_size_among, has_size_at, is_sized};

use crate::name_filter::{NUMBERS, number_of};
use modules::{IndexedCatalog, Symbol, symbol_of};
use std::alloc::{AllocError, Global};
use std::marker::Model;

/// The links of symbols by the numbers of their names.
#[derive(Drop)]
pub(crate) struct KernelNames {
    /// For each number, the place after the last symbol whose name has it, or 0.
    last: Vec<usize>,
    /// For each symbol, the place after the last one before it whose name has its number, or 0.
    before: Vec<usize>,
}

impl Model for KernelNames {
    ghost use Rattle.command_listings.specs.KernelNames.{Links};

    ghost Value = { Links };

    ghost view = { λ k. record { last = k.last.items; before = k.before.items } };
}

impl KernelNames {
    /// The links of these symbols.
    pub(crate) fn of(alloc: Global, symbols: &[Symbol]) -> Result<KernelNames, AllocError>
        ensures { IfOk result (AreLinked symbols.now) }
    {
        let mut last = Vec::new(alloc);
        last.resize(NUMBERS, 0)?;
        let mut before = Vec::with_capacity(alloc, symbols.len())?;
        for place in 0..symbols.len() {
            let number = number_of(symbols[place].name());
            before.push(last[number])?;
            last[number] = place + 1;
        }
        Ok(KernelNames { last, before })
    }

    /// Whether one of the symbols with this name has this size, if there is one with this name.
    pub(crate) fn has_size(
        &self,
        index: &IndexedCatalog<'_>,
        symbols: &[Symbol],
        name: &[u8],
        size: u64,
    ) -> Option<bool>
        requires { AreLinked symbols.now self.now }
        ensures { result ≡ has_size_among index.now symbols.now name.now size }
    {
        let mut has_name = false;
        let mut end = self.last[number_of(name)];
        while end > 0 {
            let symbol = &symbols[end - 1];
            if symbol.name() == name {
                if has_size_at(index, size, symbol.addr) {
                    return Some(true);
                }
                has_name = true;
            }
            end = self.before[end - 1];
        }
        if has_name { Some(false) } else { None }
    }
}

/// Whether one of the symbols with this name has this size, if there is one with this name: each is
/// looked at.
pub(crate) fn has_size_among(
    index: &IndexedCatalog<'_>,
    symbols: &[Symbol],
    name: &[u8],
    size: u64,
) -> Option<bool>
    ensures { result ≡ has_size_among index.now symbols.now name.now size }
{
    if is_named(symbols, name) {
        Some(has_sized(index, symbols, name, size))
    } else {
        None
    }
}

/// Whether one of the symbols has this name.
fn is_named(symbols: &[Symbol], name: &[u8]) -> bool
    ensures { result ≡ list_any (has_name name.now) symbols.now }
{
    symbols.iter().any(|symbol| has_name(symbol, name))
}

/// Whether one of the symbols has this name and this size.
fn has_sized(index: &IndexedCatalog<'_>, symbols: &[Symbol], name: &[u8], size: u64) -> bool
    ensures { result ≡ list_any (is_sized index.now name.now size) symbols.now }
{
    symbols
        .iter()
        .any(|symbol| is_sized(index, symbol, name, size))
}

/// Whether a symbol has this name.
fn has_name(symbol: &Symbol, name: &[u8]) -> bool
    ensures { result ≡ has_name name.now symbol.now }
{
    symbol.name() == name
}

/// Whether a symbol has this name and this size.
fn is_sized(index: &IndexedCatalog<'_>, symbol: &Symbol, name: &[u8], size: u64) -> bool
    ensures { result ≡ is_sized index.now name.now size symbol.now }
{
    has_name(symbol, name) && has_size_at(index, size, symbol.addr)
}

/// Whether the symbol that an address belongs to has this size.
fn has_size_at(index: &IndexedCatalog<'_>, size: u64, addr: u64) -> bool
    ensures { result ≡ has_size_at index.now size addr }
{
    let Some(item) = index.find(addr) else {
        return false;
    };
    match symbol_of(index.catalog(), item, addr) {
        Some(found) => found.size == size,
        None => false,
    }
}
