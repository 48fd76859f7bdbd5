//! The lines of a text and the words of a line.
ghost use Rattle.std.specs.Prelude.{◌≡◌, ◌<◌, ◌∷◌, [], length, map, IfSome, IfNone, MatchOption};
ghost use Rattle.texts.specs.Lines.{lines_of, words_of};

use arrayvec::ArrayVec;
use memchr::memchr;

/// The most bytes that a line may have, without its end.
pub const LONGEST_LINE: usize = 4096;

/// Cuts off the first line of the bytes.
pub fn cut_line(bytes: &[u8]) -> (&[u8], &[u8])
    requires { 0 < length bytes.now }
    ensures line { lines_of bytes.now ≡ result.0.now ∷ lines_of result.1.now }
    ensures shorter { length result.1.now < length bytes.now }
{
    match memchr(b'\n', bytes) {
        Some(end) => (&bytes[..end], &bytes[end + 1..]),
        None => (bytes, &[]),
    }
}

/// Cuts off the first word of a line, and gives what comes after the blank that ends it.
pub fn cut_word(line: &[u8]) -> (&[u8], Option<&[u8]>)
    ensures cut { MatchOption result.1 (words_of line.now ≡ result.0.now ∷ [])
        (λ rest. words_of line.now ≡ result.0.now ∷ words_of rest.now) }
    ensures shorter { IfSome result.1 (λ rest. length rest.now < length line.now) }
{
    match memchr(b' ', line) {
        Some(end) => (&line[..end], Some(&line[end + 1..])),
        None => (line, None),
    }
}

/// The words of a line that has at most `N` of them.
#[tactic(auto, using(crate::proofs::LineCutLemmas::some_word))]
pub fn words_in<'a, const N: usize>(line: &'a [u8]) -> Option<ArrayVec<&'a [u8], N>>
    ensures some { IfSome result (λ words. map (λ w. w.now) words.items ≡ words_of line.now) }
    ensures none { IfNone result (N < length (words_of line.now)) }
{
    let mut words = ArrayVec::new();
    let mut rest = line;
    for _ in 0..N {
        let (word, after) = cut_word(rest);
        words.push(word);
        match after {
            None => return Some(words),
            Some(more) => rest = more,
        }
    }
    None
}
