//! Listings of symbols, in the form of /proc/kallsyms.
//!
//! Each line is a symbol, or is skipped for the first cause that holds of it:
//!
//! ```text
//! ffffffff81000000 T _stext
//! ffffffffc0c00010 t ext4_a<tab>[ext4]
//! ADDRESS          L NAME        MODULE
//! ```
//!
//! The parts have exactly one blank between them, and names any bytes but a tab.
ghost use Rattle.std.specs.Prelude.{◌≡◌, ◌<◌, ◌∷◌, ◌++◌, [], refl, IfOk, OnOk, length, unwrap_or};
ghost use Rattle.memchr.specs.Find.{IsFirst, IsFirstByte, Passes, is_byte};
ghost use Rattle.std.specs.Option.{option_copied, option_map};
ghost use Rattle.texts.specs.Lines.{lines_of};
ghost use Rattle.listing.specs.SymbolListing.{address_in, bracketed, cut_at, is_mapping};
ghost use Rattle.listing.specs.SymbolListing.{owner_in_line, symbol_before, symbol_cause_name, symbol_causes};
ghost use Rattle.listing.specs.SymbolListing.{symbol_counts, symbol_of, symbol_of_text};
ghost use Rattle.listing.specs.SymbolListing.{symbol_place, symbols_in, symbols_with};
ghost use Rattle.listing.specs.declared.symbol_listing.SkippedSymbol.TheVariants.{Hidden, Long};
ghost use Rattle.listing.specs.declared.symbol_listing.SkippedSymbol.TheVariants.{Malformed};

use crate::causes::{Cause, Counts, HIDDEN, LONG, MALFORMED};
use memchr::{memchr, memchr2};
use modules::{SymbolLine, SymbolLines};
use std::alloc::{AllocError, Global};
use texts::{LONGEST_LINE, hexadecimal, sixteen_digits};

/// Why a line of a listing of symbols is skipped. The causes are in the order in which their
/// counts are written, and a line is skipped for the first that holds of it in the order long,
/// malformed, hidden.
#[derive(Clone, Copy, Debug, PartialEq, Eq, Drop)]
pub enum SkippedSymbol {
    /// Its address is 0, as it is shown to a reader without privileges.
    Hidden,
    /// It has more than 4096 bytes.
    Long,
    /// It is not of the form.
    Malformed,
}

const ALL: [SkippedSymbol; 3] = [
    SkippedSymbol::Hidden,
    SkippedSymbol::Long,
    SkippedSymbol::Malformed,
];

impl Cause<3> for SkippedSymbol {
    ghost causes = { symbol_causes };

    ghost place_of = { symbol_place };

    ghost name_of = { symbol_cause_name };

    fn all() -> &'static [SkippedSymbol] {
        &ALL
    }

    fn place(self) -> usize {
        self as usize
    }

    fn name(self) -> &'static str {
        match self {
            SkippedSymbol::Hidden => HIDDEN,
            SkippedSymbol::Long => LONG,
            SkippedSymbol::Malformed => MALFORMED,
        }
    }

    ghost at_place = { elim [ Hidden ↦ refl | Long ↦ refl | Malformed ↦ refl ] };

    ghost in_order = { refl };
}

/// How many lines of a listing of symbols were skipped, by cause.
pub type SymbolCounts = Counts<SkippedSymbol, 3>;

/// The places of the first line's first tab and of its end, each if there is one. Both are sought
/// at once, since a search pays off in a long text, and most lines have no tab.
#[inline(always)]
fn tab_and_end(bytes: &[u8]) -> (Option<usize>, Option<usize>)
    ensures tab { IsFirst (Passes (is_byte 9) bytes.now) 0
        (unwrap_or result.1 (length bytes.now)) result.0 }
    ensures end { IsFirstByte (is_byte 10) bytes.now result.1 }
{
    let Some(place) = memchr2(b'\n', b'\t', bytes) else {
        return (None, None);
    };
    if bytes[place] == b'\n' {
        return (None, Some(place));
    }
    match memchr(b'\n', &bytes[place + 1..]) {
        Some(more) => (Some(place), Some(place + 1 + more)),
        None => (Some(place), None),
    }
}

/// Cuts off the first line of the bytes. The place is its first tab's, if it has one.
#[tactic(auto, using(crate::proofs::SymbolLineLemmas::cut_lines))]
#[inline(always)]
pub fn cut_tabbed_line(bytes: &[u8]) -> (&[u8], Option<usize>, &[u8])
    requires { 0 < length bytes.now }
    ensures line { lines_of bytes.now ≡ result.0.now ∷ lines_of result.2.now }
    ensures tab { IsFirstByte (is_byte 9) result.0.now result.1 }
    ensures shorter { length result.2.now < length bytes.now }
{
    let (tab, end) = tab_and_end(bytes);
    match end {
        Some(end) => (&bytes[..end], tab, &bytes[end + 1..]),
        None => (bytes, tab, &[]),
    }
}

/// What is before the first such byte, and what is after it.
#[tactic(auto, using(crate::proofs::SymbolLineLemmas::cut_texts))]
#[inline(always)]
pub fn cut(text: &[u8], byte: u8) -> Option<(&[u8], &[u8])>
    ensures { option_map (λ p. (p.0.now, p.1.now)) result ≡ cut_at byte text.now }
{
    let end = memchr(byte, text)?;
    Some((&text[..end], &text[end + 1..]))
}

/// The name in `[NAME]`.
fn name_in_brackets(text: &[u8]) -> Option<&[u8]>
    ensures { option_copied result ≡ bracketed text.now }
{
    if text.len() < 3 || text[0] != b'[' || text[text.len() - 1] != b']' {
        return None;
    }
    let name = &text[1..text.len() - 1];
    if name.contains(&b'\t') {
        None
    } else {
        Some(name)
    }
}

/// The address that a text begins with, and what follows the blank that ends it. Most
/// addresses have all sixteen digits, and then the blank need not be sought.
#[inline(always)]
fn cut_address(text: &[u8]) -> Option<(u64, &[u8])>
    ensures { option_map (λ p. (p.0, p.1.now)) result ≡ address_in text.now }
{
    if text.len() > 16 && text[16] == b' ' {
        if let Some(addr) = sixteen_digits(&text[..16]) {
            return Some((addr, &text[17..]));
        }
    }
    let (digits, rest) = cut(text, b' ')?;
    Some((hexadecimal(digits)?, rest))
}

/// The symbol that `ADDRESS LETTER NAME` is.
#[inline(always)]
fn named_symbol<'a>(text: &'a [u8], owner: Option<&'a [u8]>) -> Option<SymbolLine<'a>>
    ensures { result ≡ symbol_of_text (option_copied owner.entry) text.now }
{
    let (addr, rest) = cut_address(text)?;
    match rest {
        [letter, b' ', _, ..] if *letter != b' ' && *letter != b'\t' => {
            Some(SymbolLine {
                addr,
                text: rest,
                module: owner,
            })
        }
        _ => None,
    }
}

/// The symbol that a line is whose first tab is at this place, if it is of the form.
#[inline(always)]
fn symbol_in_form<'a>(line: &'a [u8], tab: Option<usize>) -> Option<SymbolLine<'a>>
    requires { IsFirstByte (is_byte 9) line.now tab }
    ensures { result ≡ symbol_before (cut_at 9 line.now) line.now }
{
    match tab {
        None => named_symbol(line, None),
        Some(tab) => named_symbol(&line[..tab], Some(name_in_brackets(&line[tab + 1..])?)),
    }
}

/// The symbol that a line is whose first tab is at this place, or the first cause for which it
/// is skipped.
#[inline(always)]
pub fn symbol_of_line<'a>(
    line: &'a [u8],
    tab: Option<usize>,
) -> Result<SymbolLine<'a>, SkippedSymbol>
    requires { IsFirstByte (is_byte 9) line.now tab }
    ensures { result ≡ symbol_of line.now }
{
    if line.len() > LONGEST_LINE {
        return Err(SkippedSymbol::Long);
    }
    let Some(symbol) = symbol_in_form(line, tab) else {
        return Err(SkippedSymbol::Malformed);
    };
    if symbol.addr == 0 {
        Err(SkippedSymbol::Hidden)
    } else {
        Ok(symbol)
    }
}

/// The module of a line whose first tab is at this place, or none if it is a line of the kernel
/// itself; of a line that is well formed, with its address shown or hidden.
pub fn module_of_line<'a>(line: &'a [u8], tab: Option<usize>) -> Option<Option<&'a [u8]>>
    requires { IsFirstByte (is_byte 9) line.now tab }
    ensures { option_map (λ m. option_copied m) result ≡ owner_in_line line.now }
{
    if line.len() <= LONGEST_LINE {
        Some(symbol_in_form(line, tab)?.module)
    } else {
        None
    }
}

/// The symbols of a listing.
#[derive(Drop)]
pub struct ListedSymbols<'a> {
    /// The lines that are symbols, in their order, with mapping symbols or without.
    pub lines: SymbolLines<'a>,
    /// How many lines are symbols, mapping symbols among them.
    pub listed: usize,
    /// How many lines were skipped.
    pub skipped: SymbolCounts,
}

/// Whether a name is a mapping symbol's, which marks code or data within a function: the
/// listings of arm64, arm and riscv are full of them, and the kernel never answers with one.
pub fn is_mapping(name: &[u8]) -> bool
    ensures { result ≡ is_mapping name.now }
{
    name.starts_with(b"$") || name.starts_with(b".L") || name.starts_with(b"L0")
}

/// Puts a symbol after these lines, unless it is a mapping symbol and these are left out.
#[inline(always)]
fn put_symbol<'a>(
    lines: &mut SymbolLines<'a>,
    symbol: SymbolLine<'a>,
    with_mapping: bool,
) -> Result<(), AllocError>
    ensures { OnOk result
        (lines.new ≡ lines.old ++ symbols_with with_mapping (symbol.entry ∷ [])) }
{
    if with_mapping || !is_mapping(symbol.name()) {
        lines.push(symbol)?;
    }
    Ok(())
}

/// The symbols of a listing in the form of /proc/kallsyms, with mapping symbols or without, and how
/// many of its lines were skipped.
///
/// A line is 1 to 16 hexadecimal digits, a blank, a letter, a blank and a name, and if the
/// symbol is one of a module, a tab and the module's name in brackets. A line is skipped as long
/// if it has more than [`LONGEST_LINE`](texts::LONGEST_LINE) bytes, else as malformed if it
/// is not of that form, else as hidden if its address is 0. The names are parts of the text.
pub fn read_kallsyms<'a>(
    alloc: Global,
    text: &'a [u8],
    with_mapping: bool,
) -> Result<ListedSymbols<'a>, AllocError>
    ensures lines { IfOk result
        (λ r. r.lines ≡ symbols_with with_mapping (symbols_in (lines_of text.now))) }
    ensures listed { IfOk result (λ r. r.listed ≡ length (symbols_in (lines_of text.now))) }
    ensures skipped { IfOk result
        (λ r. r.skipped.by_place ≡ symbol_counts (lines_of text.now)) }
{
    let mut lines = SymbolLines::new(alloc);
    let mut listed = 0;
    let mut skipped = SymbolCounts::new();
    let mut rest = text;
    while !rest.is_empty() {
        let (line, tab, after) = cut_tabbed_line(rest);
        match symbol_of_line(line, tab) {
            Ok(symbol) => {
                put_symbol(&mut lines, symbol, with_mapping)?;
                listed += 1;
            }
            Err(cause) => skipped.add(cause),
        }
        rest = after;
    }
    Ok(ListedSymbols {
        lines,
        listed,
        skipped,
    })
}
