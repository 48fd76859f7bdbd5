//! The numbers that words are.
ghost use Rattle.std.specs.Prelude.{◌≡◌, ◌<◌, length, nat_lt};
ghost use Rattle.std.specs.Char.{digit_value, is_digit};
ghost use Rattle.std.specs.List.{list_all};
ghost use Rattle.std.specs.Str.Parse.{digits_value};
ghost use Rattle.texts.specs.Numbers.{between, numeral, number_of, short_number_of, count_of};

/// The number that a word is: 1 to 20 decimal digits, or `0x` and 1 to 16 hexadecimal digits of
/// either case, with a value of at most the greatest `u64`. Leading zeros are allowed.
pub fn number(word: &[u8]) -> Option<u64>
    ensures { result ≡ number_of word.now }
{
    if word.starts_with(b"0x") {
        hexadecimal(&word[2..])
    } else {
        decimal(word)
    }
}

/// The number that a word is, if it fits 32 bits.
pub fn short_number(word: &[u8]) -> Option<u32>
    ensures { result ≡ short_number_of word.now }
{
    u32::try_from(number(word)?).ok()
}

/// The number from 1 on that a word is, if it fits 32 bits.
pub fn count(word: &[u8]) -> Option<u32>
    ensures { result ≡ count_of word.now }
{
    match short_number(word) {
        Some(0) | None => None,
        Some(count) => Some(count),
    }
}

/// The NUMBER from 1 up to the greatest that a word is (as [`number`] reads it).
pub fn number_up_to(word: &[u8], greatest: u32) -> Option<u32>
    ensures { result ≡ between 1 greatest (number_of word.now) }
{
    match number(word) {
        Some(number) if number >= 1 && number <= u64::from(greatest) => Some(number as u32),
        _ => None,
    }
}

/// The most digits of a decimal number.
const DECIMAL_DIGITS: usize = 20;

/// The most digits of a hexadecimal number. Sixteen fit 64 bits, whatever they are.
const HEXADECIMAL_DIGITS: usize = 16;

/// The number that 1 to 20 decimal digits write, if it is below 2 ^ 64.
pub fn decimal(text: &[u8]) -> Option<u64>
    ensures { result ≡ numeral 10 20 text.now }
{
    if text.is_empty() || text.len() > DECIMAL_DIGITS {
        return None;
    }
    let mut value = 0u64;
    for byte in text {
        let digit = digit_of(*byte);
        if digit >= 10 {
            return None;
        }
        value = value.checked_mul(10)?.checked_add(digit)?;
    }
    Some(value)
}

/// The number that 1 to 16 hexadecimal digits of either case write.
pub fn hexadecimal(text: &[u8]) -> Option<u64>
    ensures { result ≡ numeral 16 16 text.now }
{
    if text.len() == HEXADECIMAL_DIGITS {
        return sixteen_digits(text);
    }
    if text.is_empty() || text.len() > HEXADECIMAL_DIGITS {
        return None;
    }
    let mut value = 0u64;
    for byte in text {
        let digit = digit_of(*byte);
        if digit >= 16 {
            return None;
        }
        value = value * 16 + digit;
    }
    Some(value)
}

/// The number that 16 hexadecimal digits write: two halves, and one test for all of the digits.
#[inline]
pub fn sixteen_digits(text: &[u8]) -> Option<u64>
    requires { length text.now ≡ 16 }
    ensures { result ≡ numeral 16 16 text.now }
{
    let (high, low) = text.split_at(8);
    let (high, bits_high) = upper_digits(high);
    let (low, bits_low) = eight_digits(low);
    if bits_high.max(bits_low) >= 16 {
        return None;
    }
    Some(high * 0x1_0000_0000 + low)
}

/// What the first eight of sixteen digits write, and their bits as `eight_digits` gives them. Those
/// of an address of the kernel are mostly `f`, which costs one comparison.
#[inline]
fn upper_digits(text: &[u8]) -> (u64, u64)
    requires { length text.now ≡ 8 }
    ensures value { result.0 ≡ digits_value 16 text.now }
    ensures digits { nat_lt result.1 16 ≡ list_all (λ c. is_digit c 16) text.now }
{
    if text.starts_with(b"ffffffff") {
        (0xffff_ffff, 0xf)
    } else {
        eight_digits(text)
    }
}

/// What eight bytes write as hexadecimal digits, and the bits of all of the digits, which are 16 or
/// more if a byte is no such digit. No eight of them pass 64 bits.
#[inline]
fn eight_digits(text: &[u8]) -> (u64, u64)
    requires { length text.now ≡ 8 }
    ensures value { result.0 ≡ digits_value 16 text.now }
    ensures digits { nat_lt result.1 16 ≡ list_all (λ c. is_digit c 16) text.now }
{
    let mut value = 0u64;
    let mut bits = 0u64;
    for byte in text {
        let digit = digit_of(*byte);
        bits |= digit;
        value = value * 16 + digit;
    }
    (value, bits)
}

/// The digit that each byte is, with 36 for a byte that is none.
static DIGITS: [u8; 256] = [
    36, 36, 36, 36, 36, 36, 36, 36, 36, 36, 36, 36, 36, 36, 36, 36, 36, 36, 36, 36, 36, 36, 36, 36,
    36, 36, 36, 36, 36, 36, 36, 36, 36, 36, 36, 36, 36, 36, 36, 36, 36, 36, 36, 36, 36, 36, 36, 36,
    0, 1, 2, 3, 4, 5, 6, 7, 8, 9, 36, 36, 36, 36, 36, 36, 36, 10, 11, 12, 13, 14, 15, 16, 17, 18,
    19, 20, 21, 22, 23, 24, 25, 26, 27, 28, 29, 30, 31, 32, 33, 34, 35, 36, 36, 36, 36, 36, 36, 10,
    11, 12, 13, 14, 15, 16, 17, 18, 19, 20, 21, 22, 23, 24, 25, 26, 27, 28, 29, 30, 31, 32, 33, 34,
    35, 36, 36, 36, 36, 36, 36, 36, 36, 36, 36, 36, 36, 36, 36, 36, 36, 36, 36, 36, 36, 36, 36, 36,
    36, 36, 36, 36, 36, 36, 36, 36, 36, 36, 36, 36, 36, 36, 36, 36, 36, 36, 36, 36, 36, 36, 36, 36,
    36, 36, 36, 36, 36, 36, 36, 36, 36, 36, 36, 36, 36, 36, 36, 36, 36, 36, 36, 36, 36, 36, 36, 36,
    36, 36, 36, 36, 36, 36, 36, 36, 36, 36, 36, 36, 36, 36, 36, 36, 36, 36, 36, 36, 36, 36, 36, 36,
    36, 36, 36, 36, 36, 36, 36, 36, 36, 36, 36, 36, 36, 36, 36, 36, 36, 36, 36, 36, 36, 36, 36, 36,
    36, 36, 36, 36, 36, 36, 36, 36, 36, 36, 36, 36, 36, 36,
];

/// The digit that a byte is in a radix of up to 36, or 36.
///
/// A table costs less than comparisons, since the digits and letters of an address come in no order
/// that a processor could guess.
#[inline]
pub fn digit_of(byte: u8) -> u64
    ensures value { result ≡ digit_value byte }
    ensures small { result < 256 }
{
    u64::from(DIGITS[usize::from(byte)])
}
