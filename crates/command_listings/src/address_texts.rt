//! The lines that are written for names, as text or as objects of JSON, byte for byte, with no
//! memory taken.
ghost use Rattle.std.specs.Prelude.{◌≡◌, ◌+◌, ◌^◌, true, nat_lt, [], map, unwrap_or};
ghost use Rattle.std.specs.List.{list_any};
ghost use Rattle.std.specs.Option.{option_copied};
ghost use Rattle.texts.specs.Output.{Says};
ghost use Rattle.command_listings.specs.AddressTexts.{address_line, address_object, asked_member};
ghost use Rattle.command_listings.specs.AddressTexts.{asked_object, is_of, is_told, no_address};
ghost use Rattle.command_listings.specs.AddressTexts.{is_within, owner_member, owner_text};
ghost use Rattle.command_listings.specs.AddressTexts.{symbols_text, told_address, told_line};
ghost use Rattle.command_listings.specs.AddressTexts.{told_lines, untold_line, word_text};
ghost use Rattle.command_listings.specs.AddressTexts.{has_any_line, has_line, words_text};
ghost use Rattle.command_listings.specs.KeptSymbols.{found_by};
ghost use Rattle.command_listings.specs.NoteTexts.{line_where};

use crate::asked_names::{AskedName, Distance, asked_name};
use crate::kept_symbols::{KeptSymbol, SoughtSymbols};
use command_parts::{put_address_member, put_named_module, put_offset_members, put_symbol_members};
use std::io::Write;
use texts::Output;

const NO_ADDRESS: &[u8] = b" -\n";

/// How the addresses of names are written.
#[derive(Clone, Copy, Debug, Drop)]
pub struct AddressOptions {
    /// Objects of JSON are written, in place of lines of text.
    pub json: bool,
    /// How many bytes higher than the listings have them.
    pub higher: u64,
}

/// A word, what it asks for, and how that is written.
#[derive(Drop)]
struct AskedWord<'a> {
    form: AddressOptions,
    word: &'a [u8],
    asked: AskedName<'a>,
}

/// Writes the lines of each word, in order, as objects of JSON or as text.
pub fn put_words<W: Write>(
    writer: &mut Output<W>,
    form: AddressOptions,
    sought: &SoughtSymbols<'_, '_>,
    words: &[&str],
)
    ensures { Says W.contents writer.old writer.new (words_text form
        (λ name. unwrap_or (found_by sought.now name) []) (map (λ w. w.now) words.now)) }
{
    for word in words {
        put_word(writer, form, sought, word.as_bytes());
    }
}

/// Whether one of the words has a line.
pub fn has_any_line(form: AddressOptions, sought: &SoughtSymbols<'_, '_>, words: &[&str]) -> bool
    ensures { result ≡ has_any_line form (λ name. unwrap_or (found_by sought.now name) [])
        (map (λ w. w.now) words.now) }
{
    for word in words {
        if has_line(form, sought, word.as_bytes()) {
            return true;
        }
    }
    false
}

/// Whether a word has a line.
fn has_line(form: AddressOptions, sought: &SoughtSymbols<'_, '_>, word: &[u8]) -> bool
    ensures { result
        ≡ has_line form (λ name. unwrap_or (found_by sought.now name) []) word.now }
{
    let asked = asked_name(word);
    let symbols = sought.get(asked.symbol);
    let it = AskedWord { form, word, asked };
    match symbols {
        Some(symbols) => is_any_told(&it, symbols),
        None => false,
    }
}

/// Writes the lines of a word.
fn put_word<W: Write>(
    writer: &mut Output<W>,
    form: AddressOptions,
    sought: &SoughtSymbols<'_, '_>,
    word: &[u8],
)
    ensures { Says W.contents writer.old writer.new
        (word_text form (λ name. unwrap_or (found_by sought.now name) []) word.now) }
{
    let asked = asked_name(word);
    let symbols = sought.get(asked.symbol);
    let it = AskedWord { form, word, asked };
    match symbols {
        Some(symbols) => put_symbols(writer, &it, symbols),
        None => put_untold(writer, &it),
    }
}

/// Writes the lines of a word, the symbols of whose name are these.
fn put_symbols<W: Write>(writer: &mut Output<W>, it: &AskedWord<'_>, symbols: &[KeptSymbol])
    ensures { Says W.contents writer.old writer.new
        (symbols_text it.now.form it.now.word.now it.now.asked symbols.now) }
{
    if is_any_told(it, symbols) {
        put_all_told(writer, it, symbols)
    } else {
        put_untold(writer, it)
    }
}

/// Whether one of these symbols is written.
fn is_any_told(it: &AskedWord<'_>, symbols: &[KeptSymbol]) -> bool
    ensures { result ≡ list_any (is_told it.now.form it.now.asked) symbols.now }
{
    symbols.iter().any(|symbol| is_told(it, symbol))
}

/// Writes the line of a word without a symbol.
#[tactic(auto, unfolding(crate::specs::AddressTexts::untold_line))]
fn put_untold<W: Write>(writer: &mut Output<W>, it: &AskedWord<'_>)
    ensures { Says W.contents writer.old writer.new
        (untold_line it.now.form it.now.word.now it.now.asked) }
{
    if it.form.json {
        put_asked_object(writer, &it.asked)
    } else {
        put_no_address(writer, it.word)
    }
}

/// Writes `NAME -`.
fn put_no_address<W: Write>(writer: &mut Output<W>, word: &[u8])
    ensures { Says W.contents writer.old writer.new (no_address word.now) }
{
    writer.put(word);
    writer.put(NO_ADDRESS);
}

/// Writes the object of what is asked for, without an address.
#[tactic(auto, unfolding(crate::specs::AddressTexts::asked_object))]
fn put_asked_object<W: Write>(writer: &mut Output<W>, asked: &AskedName<'_>)
    ensures { Says W.contents writer.old writer.new (asked_object asked.now) }
{
    writer.put(b"{");
    put_offset_members(writer, asked.symbol, asked.above.offset);
    put_asked_member(writer, asked.owner);
    writer.put(b"}\n");
}

/// Writes the module that is asked for, or nothing for the kernel itself or if none is named.
fn put_asked_member<W: Write>(writer: &mut Output<W>, asked: Option<&[u8]>)
    ensures { Says W.contents writer.old writer.new
        (asked_member (option_copied asked.entry)) }
{
    match asked {
        Some(name) if name != b"-".as_slice() => put_named_module(writer, name),
        _ => {}
    }
}

/// Writes a line for each of these symbols that has one.
fn put_all_told<W: Write>(writer: &mut Output<W>, it: &AskedWord<'_>, symbols: &[KeptSymbol])
    ensures { Says W.contents writer.old writer.new
        (told_lines it.now.form it.now.word.now it.now.asked symbols.now) }
{
    for symbol in symbols {
        put_if_told(writer, it, symbol);
    }
}

fn put_if_told<W: Write>(writer: &mut Output<W>, it: &AskedWord<'_>, symbol: &KeptSymbol)
    ensures { Says W.contents writer.old writer.new
        (line_where (is_told it.now.form it.now.asked symbol.now)
        (told_line it.now.form it.now.word.now it.now.asked symbol.now)) }
{
    if is_told(it, symbol) {
        put_told(writer, it, symbol)
    }
}

/// Writes the line of a symbol that has one.
#[tactic(auto, unfolding(crate::specs::AddressTexts::told_line))]
fn put_told<W: Write>(writer: &mut Output<W>, it: &AskedWord<'_>, symbol: &KeptSymbol)
    requires { is_told it.now.form it.now.asked symbol.now ≡ true }
    ensures { Says W.contents writer.old writer.new
        (told_line it.now.form it.now.word.now it.now.asked symbol.now) }
{
    if it.form.json {
        put_address_object(writer, it, symbol)
    } else {
        put_address(writer, it, symbol)
    }
}

/// Writes the object of the address that lies above the symbol as it is asked for.
fn put_address_object<W: Write>(writer: &mut Output<W>, it: &AskedWord<'_>, symbol: &KeptSymbol)
    requires { is_told it.now.form it.now.asked symbol.now ≡ true }
    ensures { Says W.contents writer.old writer.new
        (address_object it.now.form it.now.asked symbol.now) }
{
    put_address_member(writer, told_address(it, symbol));
    put_symbol_members(writer, symbol.name, it.asked.above.offset, symbol.size());
    put_owner_member(writer, symbol.owner);
    writer.put(b"}\n");
}

/// Writes the module of a symbol, or nothing for the kernel itself.
fn put_owner_member<W: Write>(writer: &mut Output<W>, owner: Option<&[u8]>)
    ensures { Says W.contents writer.old writer.new
        (owner_member (option_copied owner.entry)) }
{
    match owner {
        Some(name) => put_named_module(writer, name),
        None => {}
    }
}

/// Writes `NAME 0xADDRESS 0xSIZE [MODULE]`.
fn put_address<W: Write>(writer: &mut Output<W>, it: &AskedWord<'_>, symbol: &KeptSymbol)
    requires { is_told it.now.form it.now.asked symbol.now ≡ true }
    ensures { Says W.contents writer.old writer.new
        (address_line it.now.form it.now.word.now it.now.asked symbol.now) }
{
    let addr = told_address(it, symbol);
    writer.put(it.word);
    writer.put(b" ");
    writer.put_hexadecimal(addr);
    writer.put(b" ");
    writer.put_hexadecimal(symbol.size());
    put_owner(writer, symbol.owner);
    writer.put(b"\n");
}

/// Writes ` [MODULE]`, or nothing for the kernel itself.
fn put_owner<W: Write>(writer: &mut Output<W>, owner: Option<&[u8]>)
    ensures { Says W.contents writer.old writer.new
        (owner_text (option_copied owner.entry)) }
{
    let Some(name) = owner else {
        return;
    };
    writer.put(b" [");
    writer.put(name);
    writer.put(b"]");
}

/// The address that is written for a symbol.
fn told_address(it: &AskedWord<'_>, symbol: &KeptSymbol) -> u64
    requires { is_told it.now.form it.now.asked symbol.now ≡ true }
    ensures { result ≡ told_address it.now.form it.now.asked symbol.now }
{
    symbol.addr + it.asked.above.offset + it.form.higher
}

/// Whether the symbol is asked for, the offset lies within it, and the sum is an address.
fn is_told(it: &AskedWord<'_>, symbol: &KeptSymbol) -> bool
    ensures { result ≡ is_told it.now.form it.now.asked symbol.now }
{
    is_of(it.asked.owner, symbol.owner)
        && is_within(it.asked.above, symbol.size())
        && is_address(symbol.addr, it.asked.above.offset, it.form.higher)
}

/// Whether the offset is below the size, or the size is the one that is said and the offset not
/// above it.
fn is_within(above: Distance, size: u64) -> bool
    ensures { result ≡ is_within above size }
{
    match above.size {
        Some(said) => said == size && above.offset <= size,
        None => above.offset < size,
    }
}

/// Whether an address that lies this much higher is one of 64 bits.
fn is_address(addr: u64, offset: u64, higher: u64) -> bool
    ensures { result ≡ nat_lt (addr + offset + higher) (2 ^ 64) }
{
    match addr.checked_add(offset) {
        Some(addr) => addr.checked_add(higher).is_some(),
        None => false,
    }
}

/// Whether a symbol of this module is asked for, if one is named: `-` is the kernel itself
/// alone.
fn is_of(asked: Option<&[u8]>, owner: Option<&[u8]>) -> bool
    ensures { result ≡ is_of (option_copied asked.entry) (option_copied owner.entry) }
{
    let Some(name) = asked else {
        return true;
    };
    let is_kernel = name == b"-".as_slice();
    match owner {
        None => is_kernel,
        Some(owner) => !is_kernel && owner == name,
    }
}
