//! What the NAMEs of a command line ask for.
//!
//! ```text
//! ext4:ext4_a+0x18            ext4_a+0x18/0x30 [ext4]
//! MODULE SYMBOL OFFSET        SYMBOL OFFSET SIZE MODULE
//! ```
ghost use Rattle.std.specs.Prelude.{◌≡◌, option_map};
ghost use Rattle.std.specs.Option.{option_copied};
ghost use Rattle.command_listings.specs.AskedNames.{asked_in, asked_of, distance_in};
ghost use Rattle.command_listings.specs.AskedNames.{name_and_module, offset_in};
ghost use Rattle.command_listings.specs.AskedNames.{symbol_and_distance, without_last};

use listing::cut;
use memchr::memrchr;
use std::marker::Model;
use texts::number;

/// How far above a symbol an address lies.
#[derive(Clone, Copy, Debug, PartialEq, Eq, Drop)]
pub struct Distance {
    /// How many bytes above it.
    pub offset: u64,
    /// How many bytes the symbol has, if that is said.
    pub size: Option<u64>,
}

impl Distance {
    /// At the symbol itself, of any length.
    const NONE: Distance = Distance {
        offset: 0,
        size: None,
    };
}

/// The symbols of one name, and how far above them.
#[derive(Debug, Drop)]
pub struct AskedName<'a> {
    /// The name of their module, `-` for the kernel itself; none if any will do.
    pub owner: Option<&'a [u8]>,
    /// Their name.
    pub symbol: &'a [u8],
    /// How far above each of them.
    pub above: Distance,
}

impl<'a> Model for AskedName<'a> {
    ghost use Rattle.std.specs.Option.{option_copied};
    ghost use Rattle.command_listings.specs.AskedNames.{AskedSymbols};

    ghost Value = { AskedSymbols };

    ghost view = { λ a. record {
      owner = option_copied a.owner;
      symbol = a.symbol.now;
      above = a.above;
    } };
}

/// What a NAME asks for: `SYMBOL`, `SYMBOL+0xOFFSET` or `SYMBOL+0xOFFSET/0xSIZE`, with `MODULE:` in
/// front or ` [MODULE]` after it or neither.
pub fn asked_name(word: &[u8]) -> AskedName<'_>
    ensures { result ≡ asked_of word.now }
{
    if let Some((name, owner)) = name_and_module(word) {
        return asked_in(Some(owner), name);
    }
    match cut(word, b':') {
        Some((owner, rest)) => asked_in(Some(owner), rest),
        None => asked_in(None, word),
    }
}

/// The name of the symbols that a NAME asks for.
pub fn symbol_asked(word: &[u8]) -> &[u8]
    ensures { result.now ≡ (asked_of word.now).symbol }
{
    asked_name(word).symbol
}

/// The two parts of `NAME [MODULE]`.
fn name_and_module(word: &[u8]) -> Option<(&[u8], &[u8])>
    ensures { option_map (λ p. (p.0.now, p.1.now)) result ≡ name_and_module word.now }
{
    let open = memrchr(b'[', word)?;
    let name = without_last(b' ', &word[..open])?;
    let owner = without_last(b']', &word[open + 1..])?;
    Some((name, owner))
}

/// The text without this last byte, if it ends in it.
fn without_last(byte: u8, text: &[u8]) -> Option<&[u8]>
    ensures { option_map (λ t. t.now) result ≡ without_last byte text.now }
{
    if text.ends_with(&[byte]) {
        Some(&text[..text.len() - 1])
    } else {
        None
    }
}

/// What `SYMBOL`, or such a text with an offset, asks for in a module. Without an offset at its
/// end, all of it is the name of a symbol.
fn asked_in<'a>(owner: Option<&'a [u8]>, text: &'a [u8]) -> AskedName<'a>
    ensures { result ≡ asked_in (option_copied owner.entry) text.now }
{
    match symbol_and_distance(text) {
        Some((symbol, above)) => AskedName {
            owner,
            symbol,
            above,
        },
        None => AskedName {
            owner,
            symbol: text,
            above: Distance::NONE,
        },
    }
}

/// The two parts of `SYMBOL+0xOFFSET`, with `/0xSIZE` or without.
fn symbol_and_distance(text: &[u8]) -> Option<(&[u8], Distance)>
    ensures { option_map (λ p. (p.0.now, p.1)) result ≡ symbol_and_distance text.now }
{
    let plus = memrchr(b'+', text)?;
    let above = distance_in(&text[plus + 1..])?;
    Some((&text[..plus], above))
}

/// The distance that `0xOFFSET` or `0xOFFSET/0xSIZE` says.
fn distance_in(word: &[u8]) -> Option<Distance>
    ensures { result ≡ distance_in word.now }
{
    match cut(word, b'/') {
        None => Some(Distance {
            offset: offset_in(word)?,
            size: None,
        }),
        Some((offset, size)) => Some(Distance {
            offset: offset_in(offset)?,
            size: Some(offset_in(size)?),
        }),
    }
}

/// The number that `0x` and 1 to 16 hexadecimal digits write.
fn offset_in(word: &[u8]) -> Option<u64>
    ensures { result ≡ offset_in word.now }
{
    if word.starts_with(b"0x") {
        number(word)
    } else {
        None
    }
}
