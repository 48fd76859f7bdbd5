//! The symbols of a module, or of lines of one that lie side by side, made ready for searches.
//!
//! A table does not change, so catalogs share it: the catalog of a listing, and that of the listing
//! after a change, have one table of the kernel itself and of each module that stays.

ghost use Rattle.std.specs.Prelude.{◌≡◌, IfOk};
ghost use Rattle.std.specs.Option.{option_copied};
ghost use Rattle.modules.specs.Around.{symbol_below, address_above};
ghost use Rattle.modules.specs.AtAddress.{lists_symbol};
ghost use Rattle.modules.specs.Index.{HasOrdered};

use crate::at_address::{lists_in_any_order, lists_in_order};
use crate::buckets::{Buckets, place_near};
use crate::expected_lookups::ExpectedLookups;
use crate::symbols::{Symbol, around_in_list, around_in_order, is_rising, ordered};
use std::alloc::{AllocError, Global};
use std::marker::Model;
use std::sync::Arc;

/// Among how many symbols the one of the next of many rising addresses mostly is: with 4 a quarter
/// of them were sought from anew in the kernel itself, and to count 8 takes longer.
const MOST_NEXT: usize = 6;

/// Symbols, and in which order they are searched. A contract sees the symbols in the order listed.
#[derive(Drop)]
pub(crate) struct SymbolTable<'a> {
    symbols: Vec<Symbol<'a>>,
    /// Whether the symbols are known to be listed by rising address.
    rising: bool,
    /// Copies of them by rising address, if they do not rise and it pays.
    by_address: Option<Vec<Symbol<'a>>>,
    /// The buckets of the copies, or else of the symbols.
    buckets: Buckets,
}

impl<'a> Model for SymbolTable<'a> {
    ghost use Rattle.std.specs.Prelude.{List};
    ghost use Rattle.modules.specs.Entries.{SymbolEntry};

    ghost Value = { List SymbolEntry };

    ghost use Rattle.modules.specs.SymbolTables.{IsWholeTable};

    ghost view = { λ t. t.symbols.items };

    ghost invariant = { IsWholeTable };
}

/// The buckets of symbols by rising address, if they pay for what is asked.
fn buckets_of(
    alloc: Global,
    symbols: &[Symbol],
    expected: ExpectedLookups<'_>,
) -> Result<Buckets, AllocError> {
    if expected.pays_buckets(symbols.len()) {
        Buckets::of(alloc, symbols)
    } else {
        Ok(Buckets::none(alloc))
    }
}

/// Copies of the symbols by rising address, if they do not rise and it pays for what is
/// asked; and the buckets of the copies, or else of the symbols.
fn order_of<'a>(
    alloc: Global,
    symbols: &[Symbol<'a>],
    rising: bool,
    expected: ExpectedLookups<'_>,
) -> Result<(Option<Vec<Symbol<'a>>>, Buckets), AllocError>
    ensures { IfOk result (λ r. HasOrdered symbols.now r.0) }
{
    if rising {
        return Ok((None, buckets_of(alloc, symbols, expected)?));
    }
    if !expected.pays_copies(symbols) {
        return Ok((None, Buckets::none(alloc)));
    }
    let (copies, buckets) = ordered(alloc, symbols)?;
    Ok((Some(copies), buckets))
}

impl<'a> SymbolTable<'a> {
    /// The table of these symbols, made ready for what is asked of them.
    fn new(
        alloc: Global,
        symbols: Vec<Symbol<'a>>,
        expected: ExpectedLookups<'_>,
    ) -> Result<SymbolTable<'a>, AllocError>
        ensures { IfOk result (λ t. t ≡ symbols.entry.items) }
    {
        let rising = is_rising(&symbols);
        let (by_address, buckets) = order_of(alloc, &symbols, rising, expected)?;
        Ok(SymbolTable {
            symbols,
            rising,
            by_address,
            buckets,
        })
    }

    /// The symbols in the order listed.
    pub(crate) fn as_slice(&self) -> &[Symbol<'a>]
        ensures { result.now ≡ self.now }
    {
        self.symbols.as_slice()
    }

    /// Whether one of the symbols has this address and this name. If they rise, or have copies
    /// that do, only those at the address are gone through.
    pub(crate) fn lists(&self, addr: u64, name: &[u8]) -> bool
        ensures { result ≡ lists_symbol self.now addr name.now }
    {
        match &self.by_address {
            Some(ordered) => lists_in_order(ordered.as_slice(), self.place_of(addr), addr, name),
            None if self.rising => {
                lists_in_order(self.symbols.as_slice(), self.place_of(addr), addr, name)
            }
            None => lists_in_any_order(self.symbols.as_slice(), addr, name),
        }
    }

    /// The symbol of the greatest address that is not above `addr`, the first listed among equal
    /// addresses; and the least address of a symbol above `addr`. The place `near` by rising
    /// address is tried first.
    #[inline(always)]
    pub(crate) fn around_near(&self, near: usize, addr: u64) -> (Option<&Symbol<'a>>, Option<u64>)
        ensures below { option_copied result.0 ≡ symbol_below self.now addr }
        ensures above { result.1 ≡ address_above self.now addr }
    {
        match &self.by_address {
            None => around_in_list(self.symbols.as_slice(), self.rising, near, addr),
            Some(ordered) => around_in_order(ordered.as_slice(), near, addr),
        }
    }

    /// The symbols by rising address, if they rise or have copies that do.
    #[inline(always)]
    fn by_address(&self) -> &[Symbol<'a>] {
        match &self.by_address {
            Some(copies) => copies.as_slice(),
            None => self.symbols.as_slice(),
        }
    }

    /// How many symbols by rising address may be not above the address.
    #[inline(always)]
    pub(crate) fn place_of(&self, addr: u64) -> usize {
        self.buckets.place_of(self.by_address(), addr)
    }

    /// As [`SymbolTable::place_of`], if the first symbol above the address is to be sought from this
    /// place on.
    #[inline(always)]
    pub(crate) fn place_from(&self, from: usize, addr: u64) -> usize {
        self.buckets.place_from(self.by_address(), from, addr)
    }

    /// As [`SymbolTable::place_of`], if the symbols below a place are not above the address. The
    /// next few symbols are tried first.
    #[inline(always)]
    pub(crate) fn next_place(&self, from: usize, addr: u64) -> usize {
        match place_near::<Symbol<'a>, MOST_NEXT>(self.by_address(), from, addr) {
            Some(place) => place,
            None => self.place_of(addr),
        }
    }

    /// From which place on the first symbol above the address is to be sought.
    #[inline(always)]
    pub(crate) fn start_of(&self, addr: u64) -> usize {
        self.buckets.start_of(addr)
    }
}

/// A table of symbols that several owners share. A contract sees the symbols in the order listed.
#[derive(Drop)]
pub(crate) struct SharedSymbols<'a> {
    shared: Arc<SymbolTable<'a>, Global>,
}

impl<'a> Model for SharedSymbols<'a> {
    ghost use Rattle.std.specs.Prelude.{List};
    ghost use Rattle.std.specs.Arc.{arc_value};
    ghost use Rattle.modules.specs.Entries.{SymbolEntry};

    ghost Value = { List SymbolEntry };

    ghost view = { λ s. arc_value s.shared };
}

impl<'a> SharedSymbols<'a> {
    /// The table of these symbols, made ready for what is asked of them.
    pub(crate) fn new(
        alloc: Global,
        symbols: Vec<Symbol<'a>>,
        expected: ExpectedLookups<'_>,
    ) -> Result<SharedSymbols<'a>, AllocError>
        ensures { IfOk result (λ s. s ≡ symbols.entry.items) }
    {
        let table = SymbolTable::new(alloc, symbols, expected)?;
        Ok(SharedSymbols {
            shared: Arc::new(alloc, table)?,
        })
    }

    /// One owner more of these symbols.
    pub(crate) fn share(&self) -> Result<SharedSymbols<'a>, AllocError>
        ensures { IfOk result (λ s. s ≡ self.now) }
    {
        Ok(SharedSymbols {
            shared: Arc::try_clone(&self.shared)?,
        })
    }

    /// The table.
    #[inline(always)]
    pub(crate) fn table(&self) -> &SymbolTable<'a>
        ensures { result.now ≡ self.now }
    {
        &self.shared
    }
}
