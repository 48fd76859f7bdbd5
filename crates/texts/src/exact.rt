//! The digits of a number, with no memory taken.
ghost use Rattle.std.specs.Prelude.{◌≡◌, ◌<◌, ◌≤◌, drop, false};
ghost use Rattle.std.specs.Fmt.{digits, digit_glyph};
ghost use Rattle.texts.specs.Exact.{hexadecimal};

/// The most bytes that an address takes: `0x` and a digit for every four bits.
pub(crate) const LONGEST_HEXADECIMAL: usize = 18;

/// Writes `0x` and the hexadecimal digits of a number at the end of the buffer, and returns their
/// place.
#[tactic(auto, using(crate::proofs::HexadecimalLemmas::prefixed))]
pub(crate) fn write_hexadecimal(n: u64, buffer: &mut [u8; LONGEST_HEXADECIMAL]) -> usize
    ensures start { result < 16 }
    ensures written { drop result buffer.new ≡ hexadecimal n }
{
    let start = write_digits(n, buffer);
    buffer[start - 1] = b'x';
    buffer[start - 2] = b'0';
    start - 2
}

/// Writes the hexadecimal digits of a number at the end of the buffer, and returns their
/// place. Room for two more is left before them.
fn write_digits(n: u64, buffer: &mut [u8; LONGEST_HEXADECIMAL]) -> usize
    ensures room { 2 ≤ result }
    ensures start { result < 18 }
    ensures written { drop result buffer.new ≡ digits 16 false n }
{
    let mut start = LONGEST_HEXADECIMAL;
    let mut left = n;
    while start > 3 && left >= 16 {
        start -= 1;
        buffer[start] = digit(left % 16);
        left /= 16;
    }
    start -= 1;
    buffer[start] = digit(left % 16);
    start
}

fn digit(n: u64) -> u8
    requires { n < 16 }
    ensures { result ≡ digit_glyph false n }
{
    b"0123456789abcdef"[n as usize]
}
