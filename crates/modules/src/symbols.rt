//! Symbols in the order of a listing, and how one is found by its address.
//!
//! A listing mostly has the symbols of the kernel itself by rising address, and then they are
//! searched as they are. The symbols of a module come in the order of its symbol table, and get an
//! index, in which of equal addresses the one that is listed first comes last. It gives the order
//! of a copy of the symbols, which is searched, so that neighbours by address lie side by side:
//!
//! ```text
//! symbols:  40 c    10 a    10 b    20 d
//! index:    10 at 2, 10 at 1, 20 at 3, 40 at 0
//! ordered:  10 b    10 a    20 d    40 c
//! ```
//!
//! So the last of the copy that is not above an address is the symbol to be found.
//!
//! To order them costs as much as to go through the symbols some times. So if few addresses are
//! asked of a module, it has no such copy, and its symbols are gone through for each.

ghost use Rattle.std.specs.Prelude.{◌≡◌, ◌<◌, ◌++◌, ◌∷◌, [], true, IfOk, List, length, map, slice_get};
ghost use Rattle.std.specs.Prelude.{slice_index_or};
ghost use Rattle.std.specs.Option.{option_copied};
ghost use Rattle.modules.specs.Around.{symbol_below, address_above};
ghost use Rattle.modules.specs.Entries.{SymbolEntry};
ghost use Rattle.modules.specs.Index.{index_entries_of, IsIndex, IsRising, IsFirstOf};
ghost use Rattle.modules.specs.Index.{IsOrdered, symbol_of_entry};

use crate::buckets::{Addressed, Buckets, address_at, is_first, split_at};
use crate::presort::presort;
use crate::symbol_texts::{letter_in, name_in};
use std::alloc::{AllocError, Global};
use std::marker::Model;

/// An address that has a name. Its letter and its name are kept as one part of the listing, so that
/// the letter takes no memory of its own.
#[derive(Debug, Drop)]
pub struct Symbol<'a> {
    /// The first address of the symbol.
    pub addr: u64,
    /// What the listing says of the symbol after its address: a letter, a blank, and the name.
    pub(crate) text: &'a [u8],
}

impl<'a> Model for Symbol<'a> {
    ghost use Rattle.modules.specs.Entries.{SymbolEntry};
    ghost use Rattle.modules.specs.SymbolTexts.{letter_in, name_in};

    ghost Value = { SymbolEntry };

    ghost view = { λ s. record {
      addr = s.addr;
      letter = letter_in s.text.now;
      name = name_in s.text.now;
    } };
}

impl<'a> Symbol<'a> {
    /// The letter of its kind, as nm and /proc/kallsyms write it.
    #[inline(always)]
    pub fn letter(&self) -> u8
        ensures { result ≡ self.now.letter }
    {
        letter_in(self.text)
    }

    /// Its name, any bytes.
    #[inline(always)]
    pub fn name(&self) -> &'a [u8]
        ensures { result.now ≡ self.now.name }
    {
        name_in(self.text)
    }

    /// The same symbol.
    pub(crate) fn copied(&self) -> Symbol<'a>
        ensures { result ≡ self.now }
    {
        Symbol {
            addr: self.addr,
            text: self.text,
        }
    }
}

impl<'a> Addressed for Symbol<'a> {
    ghost addr_of = { λ s. s.addr };

    fn addr(&self) -> u64 {
        self.addr
    }
}

/// An entry of an index of symbols. Contracts speak of it.
#[derive(Clone, Copy, Debug, Drop)]
pub struct IndexEntry {
    /// The first address of the symbol.
    pub addr: u64,
    /// Its place in the order of the listing.
    pub place: usize,
}

impl Addressed for IndexEntry {
    ghost addr_of = { λ e. e.addr };

    fn addr(&self) -> u64 {
        self.addr
    }
}

/// The address and the place of each symbol, in the order listed.
fn listed_entries(alloc: Global, symbols: &[Symbol]) -> Result<Vec<IndexEntry>, AllocError>
    ensures { IfOk result (λ v. v.items ≡ index_entries_of symbols.now) }
{
    symbols
        .iter()
        .enumerate()
        .map(|(place, symbol)| IndexEntry {
            addr: symbol.addr,
            place,
        })
        .collect(alloc)
}

/// The entries of the symbols by rising address, and their buckets. Of equal addresses the one that
/// is listed first comes last, so that the last entry that is not above an address is the entry of
/// the symbol to be found.
fn by_address(alloc: Global, symbols: &[Symbol]) -> Result<(Vec<IndexEntry>, Buckets), AllocError>
    ensures { IfOk result (λ r. IsIndex symbols.now r.0.items) }
{
    let mut entries = listed_entries(alloc, symbols)?;
    let buckets = presort(alloc, entries.as_mut_slice())?;
    entries.sort_unstable_by(|x, y| x.addr.cmp(&y.addr).then(y.place.cmp(&x.place)));
    Ok((entries, buckets))
}

/// A copy of the symbol of an entry.
fn copy_of<'a>(symbols: &[Symbol<'a>], entry: &IndexEntry) -> Symbol<'a>
    requires { entry.now.place < length symbols.now }
    ensures { result ≡ symbol_of_entry symbols.now entry.now }
{
    symbols[entry.place].copied()
}

/// Copies of the symbols in the order of an index of them.
fn in_order_of<'a>(
    alloc: Global,
    symbols: &[Symbol<'a>],
    index: &[IndexEntry],
) -> Result<Vec<Symbol<'a>>, AllocError>
    requires { IsIndex symbols.now index.now }
    ensures { IfOk result (λ v. v.items ≡ map (symbol_of_entry symbols.now) index.now) }
{
    index
        .iter()
        .map(|entry| copy_of(symbols, entry))
        .collect(alloc)
}

/// Copies of the symbols by rising address, and their buckets. The last that is not above an
/// address is the one to be found.
pub(crate) fn ordered<'a>(
    alloc: Global,
    symbols: &[Symbol<'a>],
) -> Result<(Vec<Symbol<'a>>, Buckets), AllocError>
    ensures { IfOk result (λ r. IsOrdered symbols.now r.0.items) }
{
    let (index, buckets) = by_address(alloc, symbols)?;
    let ordered = in_order_of(alloc, symbols, index.as_slice())?;
    Ok((ordered, buckets))
}

/// The symbol at a place, if there is one.
fn symbol_at<'s, 'a>(symbols: &'s [Symbol<'a>], place: usize) -> Option<&'s Symbol<'a>>
    ensures { option_copied result ≡ slice_get symbols.now place }
{
    symbols.get(place)
}

/// The symbols around an address, by copies of them in order.
#[tactic(auto, using(crate::proofs::OrderedLemmas::around_ordered))]
#[inline(always)]
pub(crate) fn around_in_order<'s, 'a>(
    ordered: &'s [Symbol<'a>],
    near: usize,
    addr: u64,
) -> (Option<&'s Symbol<'a>>, Option<u64>)
    requires { IsRising ordered.now }
    ensures below { (symbols : List SymbolEntry) → IsOrdered symbols ordered.now
        → option_copied result.0 ≡ symbol_below symbols addr }
    ensures above { (symbols : List SymbolEntry) → IsOrdered symbols ordered.now
        → result.1 ≡ address_above symbols addr }
{
    let split = split_at(ordered, near, addr);
    let above = address_at(ordered, split);
    if split == 0 {
        return (None, above);
    }
    (symbol_at(ordered, split - 1), above)
}

/// How many symbols of a list by rising address are below the address.
#[cold]
#[inline(never)]
fn listed_below(symbols: &[Symbol], addr: u64) -> usize
    requires { IsRising symbols.now }
    ensures { IsFirstOf symbols.now addr result }
{
    symbols.partition_point(|symbol| symbol.addr < addr)
}

/// As [`listed_below`]. The place `near` is tried first.
fn first_near(symbols: &[Symbol], near: usize, addr: u64) -> usize
    requires { IsRising symbols.now }
    ensures { IsFirstOf symbols.now addr result }
{
    if is_first(symbols, near, addr) {
        near
    } else {
        listed_below(symbols, addr)
    }
}

/// Over how many symbols of one address `back_from` goes: more of them are passed by halves.
const MOST_EQUAL: usize = 8;

/// Goes back from a place over symbols that are not below the address.
fn back_from(symbols: &[Symbol], place: usize, addr: u64) -> usize {
    let mut first = place;
    for _ in 0..MOST_EQUAL {
        match first.checked_sub(1) {
            Some(before) if symbols.get(before).is_some_and(|s| addr <= s.addr) => first = before,
            _ => return first,
        }
    }
    first
}

/// How many symbols are below the address, if the one at a place has it and another before it.
#[cold]
#[inline(never)]
fn first_far(symbols: &[Symbol], place: usize, addr: u64) -> usize
    requires { IsRising symbols.now }
    ensures { IsFirstOf symbols.now addr result }
{
    let near = back_from(symbols, place, addr);
    first_near(symbols, near, addr)
}

/// How many symbols are below the address, if the one at a place has it, and mostly none before it
/// or just one.
#[inline(always)]
pub(crate) fn first_back(symbols: &[Symbol], place: usize, addr: u64) -> usize
    requires { IsRising symbols.now }
    ensures { IsFirstOf symbols.now addr result }
{
    if is_first(symbols, place, addr) {
        return place;
    }
    let before = place.saturating_sub(1);
    if is_first(symbols, before, addr) {
        return before;
    }
    first_far(symbols, place, addr)
}

/// The place of the first symbol that has the address of the one at a place.
#[inline(always)]
#[tactic(auto, using(std::proofs::lemmas::List::get_or_default))]
fn first_of_equal(symbols: &[Symbol], place: usize) -> usize
    requires rising { IsRising symbols.now }
    requires within { place < length symbols.now }
    ensures { (d : SymbolEntry)
        → IsFirstOf symbols.now (slice_index_or symbols.now place d).addr result }
{
    let symbol = &symbols[place];
    first_back(symbols, place, symbol.addr)
}

/// The symbols around an address, if they rise.
#[inline(always)]
fn around_as_listed<'s, 'a>(
    symbols: &'s [Symbol<'a>],
    near: usize,
    addr: u64,
) -> (Option<&'s Symbol<'a>>, Option<u64>)
    requires { IsRising symbols.now }
    ensures below { option_copied result.0 ≡ symbol_below symbols.now addr }
    ensures above { result.1 ≡ address_above symbols.now addr }
{
    let split = split_at(symbols, near, addr);
    let above = address_at(symbols, split);
    if split == 0 {
        return (None, above);
    }
    let first = first_of_equal(symbols, split - 1);
    (symbol_at(symbols, first), above)
}

/// The symbol below an address if one symbol more is listed; `first` is the answer without it.
#[tactic(auto, using(crate::proofs::AnyOrderLemmas::one_more_below))]
fn higher<'s, 'a>(
    first: Option<&'s Symbol<'a>>,
    second: &'s Symbol<'a>,
    addr: u64,
) -> Option<&'s Symbol<'a>>
    ensures { (symbols : List SymbolEntry)
        → option_copied first.entry ≡ symbol_below symbols addr
        → option_copied result ≡ symbol_below (symbols ++ second.now ∷ []) addr }
{
    match first {
        _ if addr < second.addr => first,
        Some(it) if second.addr <= it.addr => first,
        _ => Some(second),
    }
}

/// The least address above an address if one symbol more is listed; `first` is the answer without
/// it.
#[tactic(auto, using(crate::proofs::AnyOrderLemmas::one_more_above))]
fn lower(first: Option<u64>, second: &Symbol, addr: u64) -> Option<u64>
    ensures { (symbols : List SymbolEntry) → first ≡ address_above symbols addr
        → result ≡ address_above (symbols ++ second.now ∷ []) addr }
{
    match first {
        _ if second.addr <= addr => first,
        Some(it) if it <= second.addr => first,
        _ => Some(second.addr),
    }
}

/// The symbols around an address, in any order.
fn around_in_any_order<'s, 'a>(
    symbols: &'s [Symbol<'a>],
    addr: u64,
) -> (Option<&'s Symbol<'a>>, Option<u64>)
    ensures below { option_copied result.0 ≡ symbol_below symbols.now addr }
    ensures above { result.1 ≡ address_above symbols.now addr }
{
    let mut below = None;
    let mut above = None;
    for symbol in symbols {
        below = higher(below, symbol, addr);
        above = lower(above, symbol, addr);
    }
    (below, above)
}

/// The symbols around an address, which rise if that is said.
#[inline(always)]
pub(crate) fn around_in_list<'s, 'a>(
    symbols: &'s [Symbol<'a>],
    rising: bool,
    near: usize,
    addr: u64,
) -> (Option<&'s Symbol<'a>>, Option<u64>)
    requires { rising ≡ true → IsRising symbols.now }
    ensures below { option_copied result.0 ≡ symbol_below symbols.now addr }
    ensures above { result.1 ≡ address_above symbols.now addr }
{
    if rising {
        around_as_listed(symbols, near, addr)
    } else {
        around_in_any_order(symbols, addr)
    }
}

/// Whether the symbols rise by address.
pub fn is_rising(symbols: &[Symbol]) -> bool
    ensures { result ≡ true → IsRising symbols.now }
{
    symbols.is_sorted_by(|x, y| x.addr <= y.addr)
}
