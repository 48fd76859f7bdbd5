//! Lines with their ends, one after the other.
ghost use Rattle.std.specs.Prelude.{◌≡◌, ◌<◌, ◌∷◌, length};
ghost use Rattle.logs.specs.Lines.{lines};
ghost use Rattle.histories.specs.ListingLines.{without_end};

use logs::cut_line;

/// The first line with its end, if it has one, and what follows it.
#[tactic(auto, using(crate::proofs::LineLemmas::cut_off, crate::proofs::LineLemmas::open_line))]
pub(crate) fn first_line(bytes: &[u8]) -> (&[u8], &[u8])
    requires { 0 < length bytes.now }
    ensures line { lines bytes.now ≡ result.0.now ∷ lines result.1.now }
    ensures shorter { length result.1.now < length bytes.now }
{
    match cut_line(bytes) {
        Some(cut) => cut,
        None => (bytes, &[]),
    }
}

/// A line without its end.
pub(crate) fn without_end(line: &[u8]) -> &[u8]
    ensures { result.now ≡ without_end line.now }
{
    match line {
        [front @ .., b'\n'] => front,
        _ => line,
    }
}
