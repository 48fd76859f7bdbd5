//! What a log says itself of an address, after it: a name, perhaps with its offset and its size.
//!
//! ```text
//! [<ffffffff81000108>] ? do_one+0x8/0x1f00
//!                        ~~~~~~^^^^^^^^^^^
//! [<ffffffff81000108>] (do_one) from        a name alone
//! [<ffffffff81000108>] do_one+0x8, r3       a text of another form: no name
//! ```
ghost use Rattle.std.specs.Prelude.{◌≡◌};
ghost use Rattle.logs.specs.SaidNames.{are_digits, distance_at, distance_from, distance_in};
ghost use Rattle.logs.specs.SaidNames.{ends_text, has_size_at, name_at, name_said, without_doubt};

use crate::places::{ByteClass, first_of};
use crate::words::digits_between;
use std::marker::Model;

/// How far above a name an address lies, as a log says it.
#[derive(Clone, Copy, Debug, Drop)]
pub(crate) struct SaidDistance {
    /// How many bytes above it, if that is said.
    pub(crate) offset: Option<u64>,
    /// Whether its size is said too.
    pub(crate) has_size: bool,
}

/// A name that a log says of an address.
#[derive(Debug, Drop)]
pub(crate) struct SaidName<'a> {
    pub(crate) name: &'a [u8],
    pub(crate) distance: SaidDistance,
}

impl<'a> Model for SaidName<'a> {
    ghost use Rattle.logs.specs.SaidNames.{NameAndDistance};

    ghost Value = { NameAndDistance };

    ghost view = { λ s. record { name = s.name.now; distance = s.distance } };
}

/// The name that a log says at these bytes, which follow an address and its closers: after a blank
/// and perhaps `? ` or `(`.
pub(crate) fn name_said(rest: &[u8]) -> Option<SaidName<'_>>
    ensures { result ≡ name_said rest.now }
{
    match rest {
        [b' ', text @ ..] => name_at(without_doubt(text)),
        _ => None,
    }
}

/// The text without a `? ` or `(` that it begins with.
fn without_doubt(text: &[u8]) -> &[u8]
    ensures { result.now ≡ without_doubt text.now }
{
    if text.starts_with(b"? ") {
        &text[2..]
    } else if text.starts_with(b"(") {
        &text[1..]
    } else {
        text
    }
}

/// The name that begins a text, if the text is one of such a form up to its end.
fn name_at(text: &[u8]) -> Option<SaidName<'_>>
    ensures { result ≡ name_at text.now }
{
    let count = first_of(ByteClass::Name, text);
    if count == 0 {
        return None;
    }
    let distance = distance_at(&text[count..])?;
    let name = &text[..count];
    Some(SaidName { name, distance })
}

/// The distance that the bytes after a name say: nothing, `+0xOFF`, or `+0xOFF/0xSIZE`.
fn distance_at(text: &[u8]) -> Option<SaidDistance>
    ensures { result ≡ distance_at text.now }
{
    if ends_text(text) {
        return Some(SaidDistance {
            offset: None,
            has_size: false,
        });
    }
    if text.starts_with(b"+0x") {
        distance_in(&text[3..])
    } else {
        None
    }
}

/// The distance that begins with the digits of an offset.
fn distance_in(digits: &[u8]) -> Option<SaidDistance>
    ensures { result ≡ distance_in digits.now }
{
    let count = first_of(ByteClass::Hexadecimal, digits);
    let offset = digits_between(1, 16, &digits[..count])?;
    distance_from(offset, &digits[count..])
}

/// The distance of this offset, which these bytes follow.
fn distance_from(offset: u64, text: &[u8]) -> Option<SaidDistance>
    ensures { result ≡ distance_from offset text.now }
{
    let has_size = has_size_at(text)?;
    Some(SaidDistance {
        offset: Some(offset),
        has_size,
    })
}

/// Whether the bytes after an offset are a size; they may be nothing else but the end of the text.
fn has_size_at(text: &[u8]) -> Option<bool>
    ensures { result ≡ has_size_at text.now }
{
    if ends_text(text) {
        return Some(false);
    }
    if text.starts_with(b"/0x") && are_digits(&text[3..]) {
        Some(true)
    } else {
        None
    }
}

/// Whether the text is hexadecimal digits up to its end.
fn are_digits(text: &[u8]) -> bool
    ensures { result ≡ are_digits text.now }
{
    let count = first_of(ByteClass::Hexadecimal, text);
    count > 0 && ends_text(&text[count..])
}

/// Whether what the log says ends before these bytes: at a blank, a control byte or a parenthesis.
fn ends_text(bytes: &[u8]) -> bool
    ensures { result ≡ ends_text bytes.now }
{
    match bytes {
        [] => true,
        [byte, ..] => !ByteClass::Said.has(*byte),
    }
}
