//! Values of JSON (RFC 8259), byte for byte, with no memory taken.
ghost use Rattle.std.specs.Prelude.{◌≡◌, ◌<◌, ◌++◌, codes, decimal, flat_map};
ghost use Rattle.texts.specs.Output.{Says};
ghost use Rattle.command_parts.specs.Json.{escaped, hexadecimal_digit, json_number, json_string};
ghost use Rattle.command_parts.specs.Json.{text_of};

use std::io::Write;
use texts::Output;

// bytes that a string has otherwise
const QUOTE: &[u8] = b"\\\"";

const BACKSLASH: &[u8] = b"\\\\";

const BY_NUMBER: &[u8] = b"\\u00";

/// U+FFFD, in place of a byte that is no part of UTF-8.
const REPLACEMENT: &[u8] = b"\xef\xbf\xbd";

/// The least number that a reader of JSON may round.
pub const FIRST_TO_ROUND: u64 = 1 << 53;

/// Writes bytes as a string: each quote, backslash and control character escaped, and U+FFFD for
/// each byte that is no part of UTF-8.
#[tactic(auto, unfolding(crate::specs::Json::json_string))]
pub fn put_json_string<W: Write>(writer: &mut Output<W>, bytes: &[u8])
    ensures { Says W.contents writer.old writer.new (json_string bytes.now) }
{
    writer.put(b"\"");
    put_text(writer, bytes);
    writer.put(b"\"");
}

/// Writes the text that bytes are, as it would be in a string.
fn put_text<W: Write>(writer: &mut Output<W>, bytes: &[u8])
    ensures { Says W.contents writer.old writer.new
        (flat_map escaped (text_of bytes.now)) }
{
    let mut rest = bytes;
    while let Err(fault) = str::from_utf8(rest) {
        let (text, others) = rest.split_at(fault.valid_up_to());
        put_escaped(writer, text);
        writer.put(REPLACEMENT);
        rest = &others[1..];
    }
    put_escaped(writer, rest);
}

/// Writes characters as they would be in a string.
fn put_escaped<W: Write>(writer: &mut Output<W>, text: &[u8])
    ensures { Says W.contents writer.old writer.new (flat_map escaped text.now) }
{
    for byte in text {
        put_byte(writer, *byte);
    }
}

/// Writes a byte as it would be in a string.
fn put_byte<W: Write>(writer: &mut Output<W>, byte: u8)
    ensures { Says W.contents writer.old writer.new (escaped byte) }
{
    match byte {
        b'"' => writer.put(QUOTE),
        b'\\' => writer.put(BACKSLASH),
        0..32 => {
            writer.put(BY_NUMBER);
            writer.put(&[digit(byte / 16), digit(byte % 16)])
        }
        _ => writer.put(&[byte]),
    }
}

/// The hexadecimal digit of a number below 16, in lower case.
pub fn digit(n: u8) -> u8
    requires { n < 16 }
    ensures { result ≡ hexadecimal_digit n }
{
    if n < 10 { b'0' + n } else { b'a' - 10 + n }
}

/// Writes a number, as a text if a reader may round it.
#[inline(always)]
#[tactic(auto, unfolding(crate::specs::Json::json_number))]
pub fn put_json_number<W: Write>(writer: &mut Output<W>, n: u64)
    ensures { Says W.contents writer.old writer.new (json_number n) }
{
    if n < FIRST_TO_ROUND {
        writer.put_decimal(n);
    } else {
        put_quoted(writer, n);
    }
}

fn put_quoted<W: Write>(writer: &mut Output<W>, n: u64)
    ensures { Says W.contents writer.old writer.new (codes "\"" ++ decimal n ++ codes "\"") }
{
    writer.put(b"\"");
    writer.put_decimal(n);
    writer.put(b"\"");
}
