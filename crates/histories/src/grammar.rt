//! What the lines of a history say, each alone and after the header before it.
//!
//! ```text
//!     before any header     listing TIME
//!     in a listing          listing TIME   change TIME               lines of a listing
//!     in a change           listing TIME   change TIME   gone NAME   lines of modules
//! ```
//!
//! No TIME is below the one before. A line that is not well formed passes as a line of a listing,
//! and is counted as skipped when the listing is read.
ghost use Rattle.std.specs.Prelude.{◌≡◌};
ghost use Rattle.std.specs.Option.{option_copied};
ghost use Rattle.histories.specs.Grammar.{begins_gap, gone_of, header_at, header_of};
ghost use Rattle.histories.specs.Grammar.{is_first_word, is_reserved};
ghost use Rattle.histories.specs.Grammar.{is_understood_after, may_follow, may_be_reserved};
ghost use Rattle.histories.specs.Grammar.{time_text};
ghost use Rattle.histories.specs.Times.{time_of};

use crate::listing_lines::is_of_kernel;
use crate::times::time_of;
use listing::cut;

/// A line `listing TIME` or `change TIME`.
#[derive(Clone, Copy, Debug, Drop)]
pub struct Header {
    pub is_change: bool,
    /// The time from which on it holds, in nanoseconds.
    pub time: u64,
}

/// Whether the bytes are nothing, or begin with a blank or tab.
fn begins_gap(bytes: &[u8]) -> bool
    ensures { result ≡ begins_gap bytes.now }
{
    match bytes {
        [] => true,
        [byte, ..] => *byte == b' ' || *byte == b'\t',
    }
}

/// Whether this is the first word of the line.
fn is_first_word(word: &[u8], line: &[u8]) -> bool
    ensures { result ≡ is_first_word word.now line.now }
{
    line.starts_with(word) && begins_gap(&line[word.len()..])
}

/// Whether the first word of the line can be one of a history, by its first byte. Most lines begin
/// with an address, and are read no further.
fn may_be_reserved(line: &[u8]) -> bool
    ensures { result ≡ may_be_reserved line.now }
{
    match line {
        [] => false,
        [byte, ..] => *byte == b'l' || *byte == b'c' || *byte == b'g',
    }
}

/// Whether the first word of the line is one of a history.
#[tactic(auto, using(crate::proofs::WordLemmas::no_reserved))]
fn is_reserved(line: &[u8]) -> bool
    ensures { result ≡ is_reserved line.now }
{
    if !may_be_reserved(line) {
        return false;
    }
    is_first_word(b"listing", line)
        || is_first_word(b"change", line)
        || is_first_word(b"gone", line)
}

/// The header of this kind, if the text is a TIME.
fn header_at(is_change: bool, text: &[u8]) -> Option<Header>
    ensures { result ≡ header_at is_change (time_of text.now) }
{
    let time = time_of(text)?;
    Some(Header { is_change, time })
}

/// The header that a line is, if it is one, by its first word.
fn header_by_word(line: &[u8]) -> Option<Header>
    ensures { result ≡ header_of line.now }
{
    if line.starts_with(b"listing ") {
        return header_at(false, &line[8..]);
    }
    if line.starts_with(b"change ") {
        return header_at(true, &line[7..]);
    }
    None
}

/// The header that a line is, if it is one.
#[tactic(auto, using(crate::proofs::WordLemmas::no_header))]
pub(crate) fn header_in(line: &[u8]) -> Option<Header>
    ensures { result ≡ header_of line.now }
{
    if may_be_reserved(line) {
        header_by_word(line)
    } else {
        None
    }
}

/// The TIME of a header as it is written: what follows its first blank.
pub(crate) fn time_text(header: &[u8]) -> &[u8]
    ensures { result.now ≡ time_text header.now }
{
    match cut(header, b' ') {
        Some((_, text)) => text,
        None => &[],
    }
}

/// The module that `gone NAME` names, by the first word.
fn gone_by_word(line: &[u8]) -> Option<&[u8]>
    ensures { option_copied result ≡ gone_of line.now }
{
    if !line.starts_with(b"gone ") {
        return None;
    }
    let name = &line[5..];
    if name.is_empty() || name.contains(&b' ') || name.contains(&b'\t') {
        None
    } else {
        Some(name)
    }
}

/// The module that `gone NAME` names.
#[tactic(auto, using(crate::proofs::WordLemmas::no_gone))]
pub(crate) fn gone_in(line: &[u8]) -> Option<&[u8]>
    ensures { option_copied result ≡ gone_of line.now }
{
    if may_be_reserved(line) {
        gone_by_word(line)
    } else {
        None
    }
}

/// Whether a header may follow this one, or be the first.
pub(crate) fn may_follow(before: Option<Header>, header: Header) -> bool
    ensures { result ≡ may_follow before header }
{
    match before {
        None => !header.is_change,
        Some(before) => before.time <= header.time,
    }
}

/// Whether a line that is no header is understood after this header.
pub(crate) fn is_understood_after(header: Header, line: &[u8]) -> bool
    ensures { result ≡ is_understood_after header line.now }
{
    if gone_in(line).is_some() {
        header.is_change
    } else {
        !is_reserved(line) && !(header.is_change && is_of_kernel(line))
    }
}
