//! What the text of a listing of symbols shows, the kernel's base by it, and the kernel's own
//! lines.
ghost use Rattle.std.specs.Prelude.{◌≡◌, ◌∷◌, [], IfOk};
ghost use Rattle.memchr.specs.Find.{IsFirstByte, is_byte};
ghost use Rattle.texts.specs.Lines.{lines_of};
ghost use Rattle.modules.specs.Lines.{first_address};
ghost use Rattle.listing.specs.KernelLines.{is_of_module, kernel_base, shows_symbol};
ghost use Rattle.listing.specs.KernelLines.{without_modules};
ghost use Rattle.listing.specs.Looks.{is_shown_symbol};
ghost use Rattle.listing.specs.SymbolListing.{symbol_of, symbols_in};

use crate::symbol_listing::{cut_tabbed_line, symbol_of_line};
use std::alloc::{AllocError, Global};

// the symbols that may be at the kernel's first address
const TEXT: &[u8] = b"_text";

const STEXT: &[u8] = b"_stext";

/// Whether a listing has a symbol whose address is not hidden. It is read up to the first.
pub fn shows_symbol(text: &[u8]) -> bool
    ensures { result ≡ shows_symbol (lines_of text.now) }
{
    let mut rest = text;
    while !rest.is_empty() {
        let (line, tab, after) = cut_tabbed_line(rest);
        if is_shown(line, tab) {
            return true;
        }
        rest = after;
    }
    false
}

/// Whether a line whose first tab is at this place is a symbol that is not hidden.
fn is_shown(line: &[u8], tab: Option<usize>) -> bool
    requires { IsFirstByte (is_byte 9) line.now tab }
    ensures { result ≡ is_shown_symbol (symbol_of line.now) }
{
    symbol_of_line(line, tab).is_ok()
}

/// The kernel's base: the address of its first symbol that is called `_text`, or else `_stext`.
pub fn kernel_base(text: &[u8]) -> Option<u64>
    ensures { result ≡ kernel_base (lines_of text.now) }
{
    match first_address(text, TEXT) {
        Some(addr) => Some(addr),
        None => first_address(text, STEXT),
    }
}

/// The address of the first symbol of the kernel itself that has this name.
fn first_address(text: &[u8], name: &[u8]) -> Option<u64>
    ensures { result ≡ first_address name.now (symbols_in (lines_of text.now)) }
{
    let mut rest = text;
    while !rest.is_empty() {
        let (line, tab, after) = cut_tabbed_line(rest);
        if let Some(addr) = address_if_named(line, tab, name) {
            return Some(addr);
        }
        rest = after;
    }
    None
}

/// The address of the symbol that a line is, if it is one of the kernel itself and has this name.
fn address_if_named(line: &[u8], tab: Option<usize>, name: &[u8]) -> Option<u64>
    requires { IsFirstByte (is_byte 9) line.now tab }
    ensures { result ≡ first_address name.now (symbols_in (line.now ∷ [])) }
{
    match symbol_of_line(line, tab) {
        Ok(symbol) if symbol.module.is_none() && symbol.name() == name => Some(symbol.addr),
        _ => None,
    }
}

/// The text of a listing without the symbols of modules.
pub fn without_modules(alloc: Global, text: &[u8]) -> Result<Vec<u8>, AllocError>
    ensures { IfOk result (λ kept. kept.items ≡ without_modules (lines_of text.now)) }
{
    let mut kept = Vec::new(alloc);
    let mut rest = text;
    while !rest.is_empty() {
        let (line, tab, after) = cut_tabbed_line(rest);
        if !is_of_module(line, tab) {
            kept.extend_from_slice(line)?;
            kept.push(b'\n')?;
        }
        rest = after;
    }
    Ok(kept)
}

/// Whether a line whose first tab is at this place is a symbol of a module.
fn is_of_module(line: &[u8], tab: Option<usize>) -> bool
    requires { IsFirstByte (is_byte 9) line.now tab }
    ensures { result ≡ is_of_module (symbol_of line.now) }
{
    match symbol_of_line(line, tab) {
        Ok(symbol) => symbol.module.is_some(),
        Err(_) => false,
    }
}
