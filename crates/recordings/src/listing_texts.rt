//! What a history may have of a listing.
//!
//! Each line of it has its end, and none begins as a header of a history does: such a line is no
//! symbol, and would be read as a header.
ghost use Rattle.std.specs.Prelude.{◌≡◌, ◌++◌, IfOk, OnOk};
ghost use Rattle.texts.specs.Lines.{lines_of};
ghost use Rattle.memchr.specs.Find.{IsFirstByte, is_byte};
ghost use Rattle.histories.specs.Grammar.{is_first_word, is_reserved};
ghost use Rattle.logs.specs.Lines.{lines};
ghost use Rattle.listing.specs.Looks.{are_symbols_hidden, is_hidden_symbol};
ghost use Rattle.listing.specs.SymbolListing.{symbol_of};
ghost use Rattle.recordings.specs.ListingTexts.{recorded_line, recorded_text, has_hidden};

use crate::lines::{first_line, without_end};
use crate::module_lines::{ModuleLines, modules_in};
use listing::{SkippedSymbol, cut_tabbed_line, shows_symbol, symbol_of_line};
use std::alloc::{AllocError, Global};
use std::marker::Model;

/// A listing as a history has it. A contract sees its bytes.
#[derive(Drop)]
pub struct RecordedListing {
    pub(crate) text: Vec<u8>,
    pub(crate) modules: Vec<ModuleLines>,
}

impl Model for RecordedListing {
    ghost use Rattle.std.specs.Prelude.{◌≡◌, List, ℕ};
    ghost use Rattle.logs.specs.Lines.{lines};
    ghost use Rattle.recordings.specs.ModuleLines.{modules_in};

    ghost Value = { List ℕ };

    ghost view = { λ l. l.text.items };

    ghost invariant = { λ l. l.modules.items ≡ modules_in (lines l.text.items) };
}

impl RecordedListing {
    /// What a history may have of a listing with this text.
    pub(crate) fn of(alloc: Global, text: &[u8]) -> Result<RecordedListing, AllocError>
        ensures { IfOk result (λ l. l ≡ recorded_text (lines text.now)) }
    {
        let text = recorded_text(alloc, text)?;
        let modules = modules_in(alloc, &text)?;
        Ok(RecordedListing { text, modules })
    }
}

/// Whether this is the first word of the line.
fn begins_with(line: &[u8], word: &[u8]) -> bool
    ensures { result ≡ is_first_word word.now line.now }
{
    if !line.starts_with(word) {
        return false;
    }
    match &line[word.len()..] {
        [] => true,
        [byte, ..] => *byte == b' ' || *byte == b'\t',
    }
}

/// Whether a line of a history that begins so is none of a listing.
fn is_reserved(line: &[u8]) -> bool
    ensures { result ≡ is_reserved line.now }
{
    begins_with(line, b"listing") || begins_with(line, b"change") || begins_with(line, b"gone")
}

/// Puts a line of a listing with its end, unless a history may not have it.
fn put_line(out: &mut Vec<u8>, line: &[u8]) -> Result<(), AllocError>
    ensures { OnOk result (out.new.items ≡ out.old.items ++ recorded_line line.now) }
{
    let text = without_end(line);
    if is_reserved(text) {
        return Ok(());
    }
    out.extend_from_slice(text)?;
    out.push(b'\n')?;
    Ok(())
}

/// The lines of a listing that a history may have.
fn recorded_text(alloc: Global, text: &[u8]) -> Result<Vec<u8>, AllocError>
    ensures { IfOk result (λ kept. kept.items ≡ recorded_text (lines text.now)) }
{
    let mut kept = Vec::with_capacity(alloc, text.len())?;
    let mut rest = text;
    while !rest.is_empty() {
        let (line, more) = first_line(rest);
        put_line(&mut kept, line)?;
        rest = more;
    }
    Ok(kept)
}

/// Whether a listing has symbols and shows the address of none.
pub(crate) fn is_hidden(text: &[u8]) -> bool
    ensures { result ≡ are_symbols_hidden (lines_of text.now) }
{
    !shows_symbol(text) && has_hidden(text)
}

/// Whether a listing has a symbol whose address is hidden.
fn has_hidden(text: &[u8]) -> bool
    ensures { result ≡ has_hidden (lines_of text.now) }
{
    let mut rest = text;
    while !rest.is_empty() {
        let (line, tab, after) = cut_tabbed_line(rest);
        if is_hidden_line(line, tab) {
            return true;
        }
        rest = after;
    }
    false
}

/// Whether a line whose first tab is at this place is a symbol whose address is hidden.
fn is_hidden_line(line: &[u8], tab: Option<usize>) -> bool
    requires { IsFirstByte (is_byte 9) line.now tab }
    ensures { result ≡ is_hidden_symbol (symbol_of line.now) }
{
    match symbol_of_line(line, tab) {
        Err(SkippedSymbol::Hidden) => true,
        Ok(_) | Err(SkippedSymbol::Long | SkippedSymbol::Malformed) => false,
    }
}
