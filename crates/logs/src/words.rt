//! The words of a line.
//!
//! An address word has eleven bytes at least (eight in a log of a 32-bit kernel), and each is a
//! hexadecimal digit or an `x`. So the bytes are passed in leaps of eleven: the last of them that
//! is neither says that no address word has one before it, and the next leap begins after it:
//!
//! ```text
//!     at 3 of 77 pages [<ffffffff81000108>] ? do_one
//!      |---------|                                      up to the `p`
//!                 |-----|                               up to the `<`
//!                        |--------------|==             the word, and the closers after it
//! ```
//!
//! A match that begins inside a word does not count.
ghost use Rattle.std.specs.Prelude.{◌≡◌, ◌≤◌, ◌<◌, ◌+◌, ◌++◌, ◌∷◌, [], false, true, length, drop};
ghost use Rattle.std.specs.Prelude.{nat_eq, slice_index_or};
ghost use Rattle.std.specs.List.{starts_with};
ghost use Rattle.std.specs.Prelude.{IfNone, IfSome, MatchOption};
ghost use Rattle.logs.specs.AnnotatedLogs.{SameAddresses, fewest, is_address_byte, is_begun};
ghost use Rattle.logs.specs.Words.{address_of_word, digits_between, has_prefix};
ghost use Rattle.logs.specs.Words.{is_closer, is_word_byte, run_of, words_behind};

use crate::places::{ByteClass, first_of};
use texts::{digit_of, hexadecimal};

/// The beginning and the end of a word in its line.
#[derive(Clone, Copy, Debug, Drop)]
pub struct Word {
    pub start: usize,
    pub end: usize,
}

/// Whether the byte is a letter, a digit or `_`.
#[inline]
pub(crate) fn is_word_byte(byte: u8) -> bool
    ensures { result ≡ is_word_byte byte }
{
    digit_of(byte) < 36 || byte == b'_'
}

/// Whether the byte is a hexadecimal digit, or `x` or `X`, which are the digit 33.
#[inline]
fn is_address_byte(byte: u8) -> bool
    ensures { result ≡ is_address_byte byte }
{
    let digit = digit_of(byte);
    digit < 16 || digit == 33
}

/// Whether the byte is `)`, `>` or `]`.
#[inline]
pub(crate) fn is_closer(byte: u8) -> bool
    ensures { result ≡ is_closer byte }
{
    byte == b')' || byte == b'>' || byte == b']'
}

/// The fewest bytes of an address word.
pub(crate) fn fewest(narrow: bool) -> usize
    ensures { result ≡ fewest narrow }
{
    if narrow { 8 } else { 11 }
}

/// The next word that may be an address, from a place on at which no word goes on.
pub(crate) fn next_candidate(narrow: bool, line: &[u8], at: usize) -> Option<Word>
    requires { at ≤ length line.now }
    ensures words { MatchOption result
        (SameAddresses narrow line.now (words_behind line.now at) [])
        (λ w. SameAddresses narrow line.now (words_behind line.now at)
        (w ∷ words_behind line.now w.end)) }
    ensures from { IfSome result (λ w. at ≤ w.start) }
    ensures some { IfSome result (λ w. w.start < w.end) }
    ensures within { IfSome result (λ w. w.end ≤ length line.now) }
{
    let fewest = fewest(narrow);
    let mut from = at;
    let mut start = at;
    while line.len() - start >= fewest {
        match last_other(line, start, start + fewest) {
            Some(place) => start = place + 1,
            None => {
                let end = behind_word(line, start);
                if !is_begun(line, from, start) {
                    return Some(Word { start, end });
                }
                from = end;
                start = end;
            }
        }
    }
    None
}

/// Whether a place is the first at which a word goes on.
fn is_begun(line: &[u8], from: usize, start: usize) -> bool
    requires { start ≤ length line.now }
    ensures { result ≡ is_begun line.now from start }
{
    start > from && is_word_byte(line[start - 1])
}

/// The last of the places from `start` up to `stop` that holds no byte of an address word.
#[inline]
fn last_other(line: &[u8], start: usize, stop: usize) -> Option<usize>
    requires order { start ≤ stop }
    requires within { stop ≤ length line.now }
    ensures from { IfSome result (λ p. start ≤ p) }
    ensures below { IfSome result (λ p. p < stop) }
    ensures other { IfSome result
        (λ p. is_address_byte (slice_index_or line.now p 0) ≡ false) }
    ensures none { IfNone result (start < stop
        → is_address_byte (slice_index_or line.now start 0) ≡ true) }
{
    let mut place = stop;
    while place > start {
        if !is_address_byte(line[place - 1]) {
            return Some(place - 1);
        }
        place -= 1;
    }
    None
}

/// The end of the word that begins at a place.
fn behind_word(line: &[u8], start: usize) -> usize
    requires within { start < length line.now }
    requires word { is_word_byte (slice_index_or line.now start 0) ≡ true }
    ensures from { start < result }
    ensures within { result ≤ length line.now }
    ensures words { words_behind line.now start
        ≡ record { start = start; end = result } ∷ words_behind line.now result }
{
    start + first_of(ByteClass::Word, &line[start..])
}

/// The end of the closers at a place.
pub(crate) fn behind_closers(line: &[u8], end: usize) -> usize
    requires { end ≤ length line.now }
    ensures is { result ≡ end + run_of is_closer (drop end line.now) }
    ensures from { end ≤ result }
    ensures within { result ≤ length line.now }
    ensures gap { words_behind line.now end ≡ words_behind line.now result }
{
    let mut i = end;
    while i < line.len() {
        if !is_closer(line[i]) {
            return i;
        }
        i += 1;
    }
    i
}

/// The address that a word is: `0x` or `0X` and 9 to 16 hexadecimal digits, or just 16 of them.
/// In a log of a 32-bit kernel it has just 8, with the prefix or without it.
pub(crate) fn address_of_word(is_narrow: bool, word: &[u8]) -> Option<u64>
    ensures { result ≡ address_of_word is_narrow word.now }
{
    match (is_narrow, has_prefix(word)) {
        (true, true) => digits_between(8, 8, &word[2..]),
        (true, false) => digits_between(8, 8, word),
        (false, true) => digits_between(9, 16, &word[2..]),
        (false, false) => digits_between(16, 16, word),
    }
}

/// Whether the word begins with `0x` or `0X`.
pub(crate) fn has_prefix(word: &[u8]) -> bool
    ensures { result ≡ has_prefix word.now }
{
    word.starts_with(b"0x") || word.starts_with(b"0X")
}

/// The number that hexadecimal digits write, if there are as many as asked for.
pub(crate) fn digits_between(least: usize, most: usize, digits: &[u8]) -> Option<u64>
    ensures { result ≡ digits_between least most digits.now }
{
    if digits.len() < least || digits.len() > most {
        return None;
    }
    hexadecimal(digits)
}

/// Whether the bytes begin with these, one after the other.
#[tactic(auto, using(crate::proofs::TextLemmas::starts_with_both, std::proofs::lemmas::List::take_rest))]
pub(crate) fn begins_with(bytes: &[u8], first: &[u8], second: &[u8]) -> bool
    ensures { result ≡ starts_with nat_eq bytes.now (first.now ++ second.now) }
{
    bytes.starts_with(first) && bytes[first.len()..].starts_with(second)
}
