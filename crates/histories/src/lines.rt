//! Lines with their ends, so that the bytes of several lines are a slice of their text.
ghost use Rattle.std.specs.Prelude.{◌≡◌, ◌∷◌, ◌<◌, ◌≤◌, length, take, drop};
ghost use Rattle.logs.specs.Lines.{lines};
ghost use Rattle.histories.specs.ListingLines.{without_end};

use memchr::memchr;

/// How many bytes the first line has, with its end.
#[tactic(auto, using(crate::proofs::LineLemmas::first_line, crate::proofs::LineLemmas::sole_line))]
pub(crate) fn line_length(bytes: &[u8]) -> usize
    requires { 0 < length bytes.now }
    ensures line { lines bytes.now ≡ take result bytes.now ∷ lines (drop result bytes.now) }
    ensures some { 0 < result }
    ensures within { result ≤ length bytes.now }
{
    match memchr(b'\n', bytes) {
        Some(end) => end + 1,
        None => bytes.len(),
    }
}

/// A line without its end.
pub(crate) fn without_end(line: &[u8]) -> &[u8]
    ensures { result.now ≡ without_end line.now }
{
    if line.ends_with(b"\n") {
        &line[..line.len() - 1]
    } else {
        line
    }
}
