//! The lines that are written as JSON, byte for byte, without taking memory: the lines of a lookup,
//! and the members that lines of names share with them.
ghost use Rattle.std.specs.Prelude.{[], flat_map};
ghost use Rattle.std.specs.Option.{option_copied, option_map_or};
ghost use Rattle.texts.specs.Output.{Says};
ghost use Rattle.command_parts.specs.JsonTexts.{address_member, answer_members, found_members};
ghost use Rattle.command_parts.specs.JsonTexts.{json_count, json_counts, json_line, named_module};
ghost use Rattle.command_parts.specs.JsonTexts.{offset_members, row_member};
ghost use Rattle.command_parts.specs.JsonTexts.{symbol_members, tally_member};

use crate::json::{put_json_number, put_json_string};
use listing::{LineTallies, LineTally, Row, SymbolAnswer};
use modules::FoundSymbol;
use std::io::Write;
use texts::Output;

// the names of members
const ADDRESS: &[u8] = b"{\"address\":\"";

const SIZE: &[u8] = b",\"size\":";

const SYMBOL: &[u8] = b"\"symbol\":";

const OFFSET: &[u8] = b",\"offset\":";

const MODULE: &[u8] = b",\"module\":";

const KEPT: &[u8] = b"\":{\"kept\":";

/// Writes the object of an address with this answer.
#[tactic(auto, unfolding(crate::specs::JsonTexts::json_line))]
pub fn put_json_line<W: Write>(writer: &mut Output<W>, addr: u64, answer: &SymbolAnswer)
    ensures { Says W.contents writer.old writer.new (json_line addr answer.now) }
{
    put_address_member(writer, addr);
    put_answer_members(writer, answer);
    writer.put(b"}\n");
}

/// Writes what is known of an address: the symbol and the module, as far as they are.
fn put_answer_members<W: Write>(writer: &mut Output<W>, answer: &SymbolAnswer)
    ensures { Says W.contents writer.old writer.new (answer_members answer.now) }
{
    if let Some(found) = &answer.found {
        put_found_members(writer, found);
    }
    put_owner(writer, answer.owner);
}

/// Writes the name of a module, if it is there.
fn put_owner<W: Write>(writer: &mut Output<W>, owner: Option<&[u8]>)
    ensures { Says W.contents writer.old writer.new
        (option_map_or named_module (option_copied owner.entry) []) }
{
    if let Some(name) = owner {
        put_named_module(writer, name);
    }
}

/// Writes the address, with which an object begins.
pub fn put_address_member<W: Write>(writer: &mut Output<W>, addr: u64)
    ensures { Says W.contents writer.old writer.new (address_member addr) }
{
    writer.put(ADDRESS);
    writer.put_hexadecimal(addr);
    writer.put(b"\"");
}

/// Writes the symbol that an address belongs to.
fn put_found_members<W: Write>(writer: &mut Output<W>, found: &FoundSymbol)
    ensures { Says W.contents writer.old writer.new (found_members found.now) }
{
    let symbol = found.symbol;
    put_symbol_members(writer, symbol.name(), found.offset, found.size);
}

/// Writes a symbol, how far an address lies above it, and how far it reaches.
#[tactic(auto, unfolding(crate::specs::JsonTexts::symbol_members))]
pub fn put_symbol_members<W: Write>(writer: &mut Output<W>, name: &[u8], offset: u64, size: u64)
    ensures { Says W.contents writer.old writer.new
        (symbol_members name.now offset size) }
{
    writer.put(b",");
    put_offset_members(writer, name, offset);
    writer.put(SIZE);
    put_json_number(writer, size);
}

/// Writes a symbol, and how far an address lies above it.
#[tactic(auto, unfolding(crate::specs::JsonTexts::offset_members))]
pub fn put_offset_members<W: Write>(writer: &mut Output<W>, name: &[u8], offset: u64)
    ensures { Says W.contents writer.old writer.new (offset_members name.now offset) }
{
    writer.put(SYMBOL);
    put_json_string(writer, name);
    writer.put(OFFSET);
    put_json_number(writer, offset);
}

/// Writes the name of a module.
pub fn put_named_module<W: Write>(writer: &mut Output<W>, name: &[u8])
    ensures { Says W.contents writer.old writer.new (named_module name.now) }
{
    writer.put(MODULE);
    put_json_string(writer, name);
}

/// Writes the object of the counts of listings.
#[tactic(auto, unfolding(crate::specs::JsonTexts::json_counts))]
pub fn put_json_counts<W: Write>(writer: &mut Output<W>, tallies: &LineTallies)
    ensures { Says W.contents writer.old writer.new (json_counts tallies.now) }
{
    put_tally(writer, b"{", &tallies.modules);
    put_tally(writer, b",", &tallies.symbols);
    if let Some(regions) = &tallies.regions {
        put_tally(writer, b",", regions);
    }
    writer.put(b"}\n");
}

/// Writes the object of the counts of a listing under its title, after this text.
#[tactic(auto, unfolding(crate::specs::JsonTexts::tally_member))]
fn put_tally<W: Write>(writer: &mut Output<W>, before: &[u8], tally: &LineTally)
    ensures { Says W.contents writer.old writer.new (tally_member before.now tally.now) }
{
    writer.put(before);
    writer.put(b"\"");
    writer.put(tally.title.as_bytes());
    put_json_count(writer, KEPT, tally.kept);
    put_rows(writer, &tally.rows);
    writer.put(b"}");
}

/// Writes `,"NAME":COUNT` for each row.
fn put_rows<W: Write>(writer: &mut Output<W>, rows: &[Row])
    ensures { Says W.contents writer.old writer.new (flat_map row_member rows.now) }
{
    for row in rows {
        put_row(writer, row);
    }
}

#[tactic(auto, unfolding(crate::specs::JsonTexts::row_member))]
fn put_row<W: Write>(writer: &mut Output<W>, row: &Row)
    ensures { Says W.contents writer.old writer.new (row_member row.now) }
{
    writer.put(b",\"");
    writer.put(row.name.as_bytes());
    put_json_count(writer, b"\":", row.count);
}

/// Writes the text before a count, and the count. Inlined, since a text of known length costs less.
#[inline(always)]
pub fn put_json_count<W: Write>(writer: &mut Output<W>, before: &[u8], count: u64)
    ensures { Says W.contents writer.old writer.new (json_count before.now count) }
{
    writer.put(before);
    put_json_number(writer, count);
}
