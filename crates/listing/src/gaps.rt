//! Words that blanks and tabs part, any number of them.
ghost use Rattle.std.specs.Prelude.{◌≡◌, ◌<◌, ◌∷◌, [], length, map, take, IfSome, MatchOption};
ghost use Rattle.std.specs.List.{slice_split};
ghost use Rattle.listing.specs.ModuleListing.{is_gap, runs_of};

use arrayvec::ArrayVec;
use memchr::memchr2;

/// Cuts the line at its first blank or tab, and returns what comes before and after it.
#[tactic(auto, using(crate::proofs::SymbolLineLemmas::cut_lines))]
fn cut_at_gap(line: &[u8]) -> (&[u8], Option<&[u8]>)
    ensures cut { MatchOption result.1 (slice_split is_gap line.now ≡ result.0.now ∷ [])
        (λ rest. slice_split is_gap line.now ≡ result.0.now ∷ slice_split is_gap rest.now) }
    ensures shorter { IfSome result.1 (λ rest. length rest.now < length line.now) }
{
    match memchr2(b' ', b'\t', line) {
        Some(end) => (&line[..end], Some(&line[end + 1..])),
        None => (line, None),
    }
}

/// The first word of a line, and what follows it.
fn next_word(line: &[u8]) -> Option<(&[u8], &[u8])>
    ensures { MatchOption result (runs_of line.now ≡ [])
        (λ p. runs_of line.now ≡ p.0.now ∷ runs_of p.1.now) }
{
    let mut rest = line;
    loop {
        let (word, after) = cut_at_gap(rest);
        let Some(more) = after else {
            return if word.is_empty() {
                None
            } else {
                Some((word, &[]))
            };
        };
        if !word.is_empty() {
            return Some((word, more));
        }
        rest = more;
    }
}

/// The first words of a line, at most `N` of them.
pub(crate) fn first_words<'a, const N: usize>(line: &'a [u8]) -> ArrayVec<&'a [u8], N>
    ensures { map (λ w. w.now) result.items ≡ take N (runs_of line.now) }
{
    let mut words = ArrayVec::new();
    let mut rest = line;
    for _ in 0..N {
        let Some((word, after)) = next_word(rest) else {
            return words;
        };
        words.push(word);
        rest = after;
    }
    words
}
