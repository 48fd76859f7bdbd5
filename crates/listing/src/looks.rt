//! Why no line of a listing is of use: it is compressed or in UTF-16, hidden from its reader, a
//! listing of the other kind, or its lines end as another system ends them.
ghost use Rattle.std.specs.Prelude.{◌≡◌, ◌&&◌, ◌||◌, List, ℕ, find, length, nat_lt, not};
ghost use Rattle.std.specs.Prelude.{option_map};
ghost use Rattle.std.specs.Char.{is_digit};
ghost use Rattle.std.specs.List.{list_all};
ghost use Rattle.texts.specs.Lines.{lines_of};
ghost use Rattle.listing.specs.Looks.{AreKernelSymbols, are_modules_hidden, are_symbols_hidden};
ghost use Rattle.listing.specs.Looks.{begins_wide, first_ends_in_cr, is_gzip, is_kernel_symbol};
ghost use Rattle.listing.specs.Looks.{is_module_line, is_narrow, is_of_kernel, is_symbol_line};
ghost use Rattle.listing.specs.Looks.{is_utf_16, lacks_lines, looks_like_modules};
ghost use Rattle.listing.specs.Looks.{looks_like_symbols};
ghost use Rattle.listing.specs.ModuleListing.{module_counts, modules_in};
ghost use Rattle.listing.specs.SymbolListing.{symbol_counts, symbols_in};

use crate::module_listing::{ModuleCounts, SkippedModule, module_in};
use crate::symbol_listing::{SkippedSymbol, SymbolCounts, cut_tabbed_line, symbol_of_line};
use memchr::memchr;
use modules::{KernelBounds, SymbolLine};
use texts::{cut_line, digit_of};

/// Whether the first two bytes are as in a file that gzip made.
pub fn is_gzip(text: &[u8]) -> bool
    ensures { result ≡ is_gzip text.now }
{
    text.starts_with(b"\x1f\x8b")
}

/// Whether the first two bytes are as in a text in UTF-16.
pub fn is_utf_16(text: &[u8]) -> bool
    ensures { result ≡ is_utf_16 text.now }
{
    text.starts_with(b"\xff\xfe") || text.starts_with(b"\xfe\xff")
}

/// Whether there is a first line and it ends in a carriage return.
pub fn first_line_ends_in_cr(text: &[u8]) -> bool
    ensures { result ≡ first_ends_in_cr (lines_of text.now) }
{
    if text.is_empty() {
        return false;
    }
    let (line, _) = cut_line(text);
    line.ends_with(b"\r")
}

/// Whether a listing of modules has well-formed lines and all are hidden, if `listed` lines are
/// modules and the others were skipped for these causes.
#[tactic(auto, using(crate::proofs::LookLemmas::modules_hidden))]
pub fn are_modules_hidden(listed: usize, skipped: &ModuleCounts) -> bool
    ensures { (lines : List (List ℕ)) → listed ≡ length (modules_in lines)
        → skipped.now.by_place ≡ module_counts lines → result ≡ are_modules_hidden lines }
{
    let hidden = skipped.count(SkippedModule::Hidden);
    let empty = skipped.count(SkippedModule::Empty);
    let wraps = skipped.count(SkippedModule::Wraps);
    hides_all(hidden, listed, empty, wraps)
}

/// Whether lines are hidden and none is shown: neither one that is listed, nor an empty one, nor
/// one that wraps.
fn hides_all(hidden: u64, listed: usize, empty: u64, wraps: u64) -> bool
    ensures { result ≡ (nat_lt 0 hidden
        && not (nat_lt 0 listed || (nat_lt 0 empty || nat_lt 0 wraps))) }
{
    hidden > 0 && listed == 0 && empty == 0 && wraps == 0
}

/// Whether a listing of symbols has well-formed lines and all are hidden, if `listed` lines are
/// symbols and the others were skipped for these causes.
#[tactic(auto, using(crate::proofs::LookLemmas::symbols_hidden))]
pub fn are_symbols_hidden(listed: usize, skipped: &SymbolCounts) -> bool
    ensures { (lines : List (List ℕ)) → listed ≡ length (symbols_in lines)
        → skipped.now.by_place ≡ symbol_counts lines → result ≡ are_symbols_hidden lines }
{
    let hidden = skipped.count(SkippedSymbol::Hidden);
    hides_all(hidden, listed, 0, 0)
}

/// Whether a line is well formed in a listing of modules.
pub(crate) fn is_module_line(line: &[u8]) -> bool
    ensures { result ≡ is_module_line line.now }
{
    match module_in(line) {
        Ok(_) => true,
        Err(SkippedModule::Hidden | SkippedModule::Empty | SkippedModule::Wraps) => true,
        Err(SkippedModule::Long | SkippedModule::Malformed) => false,
    }
}

/// Whether a line is well formed in a listing of symbols.
fn is_symbol_line(line: &[u8]) -> bool
    ensures { result ≡ is_symbol_line line.now }
{
    match symbol_of_line(line, memchr(b'\t', line)) {
        Ok(_) | Err(SkippedSymbol::Hidden) => true,
        Err(SkippedSymbol::Long | SkippedSymbol::Malformed) => false,
    }
}

/// The most digits that a 32-bit kernel writes of an address.
const NARROW_DIGITS: usize = 8;

/// Whether a listing of symbols is a 32-bit kernel's: it has a well-formed line, and none whose
/// address is written with more than 8 digits. It is read up to the first that is.
pub fn is_narrow(text: &[u8]) -> bool
    ensures { result ≡ is_narrow (lines_of text.now) }
{
    let mut any = false;
    let mut rest = text;
    while !rest.is_empty() {
        let (line, after) = cut_line(rest);
        if is_symbol_line(line) {
            if begins_wide(line) {
                return false;
            }
            any = true;
        }
        rest = after;
    }
    any
}

/// Whether the line begins with more than 8 hexadecimal digits.
fn begins_wide(line: &[u8]) -> bool
    ensures { result ≡ begins_wide line.now }
{
    line.len() > NARROW_DIGITS && are_digits(&line[..NARROW_DIGITS + 1])
}

/// Whether all of the bytes are hexadecimal digits.
fn are_digits(bytes: &[u8]) -> bool
    ensures { result ≡ list_all (λ b. is_digit b 16) bytes.now }
{
    bytes.iter().all(|byte| digit_of(*byte) < 16)
}

/// The first line that is well formed in a listing of either kind.
pub(crate) fn first_formed_line(text: &[u8]) -> Option<&[u8]>
    ensures { option_map (λ l. l.now) result
        ≡ find (λ l. is_module_line l || is_symbol_line l) (lines_of text.now) }
{
    let mut rest = text;
    while !rest.is_empty() {
        let (line, after) = cut_line(rest);
        if is_module_line(line) || is_symbol_line(line) {
            return Some(line);
        }
        rest = after;
    }
    None
}

/// Whether the first line that is well formed in a listing of either kind is one of the listing of
/// modules.
pub fn looks_like_modules(text: &[u8]) -> bool
    ensures { result ≡ looks_like_modules (lines_of text.now) }
{
    match first_formed_line(text) {
        Some(line) => is_module_line(line),
        None => false,
    }
}

/// Whether the first line that is well formed in a listing of either kind is one of the listing of
/// symbols.
pub fn looks_like_symbols(text: &[u8]) -> bool
    ensures { result ≡ looks_like_symbols (lines_of text.now) }
{
    match first_formed_line(text) {
        Some(line) => is_symbol_line(line),
        None => false,
    }
}

/// Whether there are bytes, and no line of them is well formed in a listing of modules.
pub(crate) fn lacks_module_lines(text: &[u8]) -> bool
    ensures { result ≡ lacks_lines is_module_line text.now }
{
    let mut rest = text;
    while !rest.is_empty() {
        let (line, after) = cut_line(rest);
        if is_module_line(line) {
            return false;
        }
        rest = after;
    }
    !text.is_empty()
}

/// Whether there are bytes, and no line of them is well formed in a listing of symbols.
pub(crate) fn lacks_symbol_lines(text: &[u8]) -> bool
    ensures { result ≡ lacks_lines is_symbol_line text.now }
{
    let mut rest = text;
    while !rest.is_empty() {
        let (line, after) = cut_line(rest);
        if is_symbol_line(line) {
            return false;
        }
        rest = after;
    }
    !text.is_empty()
}

/// Which symbols of the kernel itself a listing shows.
#[derive(Clone, Copy, Debug, PartialEq, Eq, Drop)]
pub struct KernelSymbols {
    /// There is one at all.
    pub any: bool,
    /// One has the name of the symbol at the kernel's first address.
    pub start: bool,
    /// One has the name of the symbol at its end.
    pub end: bool,
}

impl KernelSymbols {
    /// These, and this symbol too.
    fn with(self, symbol: &SymbolLine, names: &KernelBounds) -> KernelSymbols
        ensures any { result.any ≡ (self.any || is_of_kernel symbol.now) }
        ensures start { result.start
            ≡ (self.start || is_kernel_symbol names.now.start symbol.now) }
        ensures end { result.end ≡ (self.end || is_kernel_symbol names.now.end symbol.now) }
    {
        if symbol.module.is_some() {
            return self;
        }
        KernelSymbols {
            any: true,
            start: self.start || symbol.name() == names.start,
            end: self.end || symbol.name() == names.end,
        }
    }
}

/// Which symbols of the kernel itself a listing of symbols shows, if these names bound it.
pub fn kernel_symbols(text: &[u8], names: &KernelBounds) -> KernelSymbols
    ensures { AreKernelSymbols names.now (symbols_in (lines_of text.now)) result }
{
    let mut found = KernelSymbols {
        any: false,
        start: false,
        end: false,
    };
    let mut rest = text;
    while !rest.is_empty() {
        let (line, tab, after) = cut_tabbed_line(rest);
        if let Ok(symbol) = symbol_of_line(line, tab) {
            found = found.with(&symbol, names);
        }
        rest = after;
    }
    found
}
