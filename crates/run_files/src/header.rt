//! The header of a trace.
ghost use Rattle.std.specs.Prelude.{◌≡◌, map};
ghost use Rattle.run_files.specs.Header.{has_batches, header_of, header_of_words, header_with};
ghost use Rattle.run_files.specs.Header.{is_closed_of, is_wide, version_of};

use texts::{is_too_long, number, short_number, words_in};

/// The version of a trace's format.
#[derive(Clone, Copy, Debug, PartialEq, Eq)]
pub enum Version {
    /// Insertions and erasures of one item, and the sequence of a narrow table.
    First,
    /// The first, and the line `batch`.
    Second,
    /// The second, and the sequence of a wide table.
    Third,
}

impl Version {
    /// Whether a trace of this version may have lines `batch`.
    pub fn has_batches(self) -> bool
        ensures { result ≡ has_batches self }
    {
        match self {
            Version::First => false,
            Version::Second | Version::Third => true,
        }
    }

    /// Whether a trace of this version is run on a table whose sequence may go up to the wide
    /// limit.
    pub fn is_wide(self) -> bool
        ensures { result ≡ is_wide self }
    {
        match self {
            Version::First | Version::Second => false,
            Version::Third => true,
        }
    }
}

/// What the first line of a trace says.
#[derive(Clone, Copy, Debug, PartialEq, Eq)]
pub struct Header {
    /// The version of the format.
    pub version: Version,
    /// Whether the second word of an item still belongs to its range.
    pub closed: bool,
    /// How many items the table can hold.
    pub capacity: u32,
    /// The sequence at the opening.
    pub start: u64,
}

/// The header that a line is: `latchtrace VERSION ORDER CAPACITY`, and START after it or not.
#[tactic(auto, using(crate::proofs::FormLemmas::header_too_long))]
pub(crate) fn header_in(line: &[u8]) -> Option<Header>
    ensures { result ≡ header_of line.now }
{
    if is_too_long(line) {
        return None;
    }
    header_in_words(&words_in::<5>(line)?)
}

#[tactic(auto, using(crate::proofs::FormLemmas::header_other))]
fn header_in_words(words: &[&[u8]]) -> Option<Header>
    ensures { result ≡ header_of_words (map (λ w. w.now) words.now) }
{
    match words {
        [name, version, order, capacity] => make_header(name, version, order, capacity, Some(0)),
        [name, version, order, capacity, start] => {
            make_header(name, version, order, capacity, number(start))
        }
        _ => None,
    }
}

/// The header of these words and this start, if each of them is one.
fn make_header(
    name: &[u8],
    version: &[u8],
    order: &[u8],
    capacity: &[u8],
    start: Option<u64>,
) -> Option<Header>
    ensures { result ≡ header_with name.now version.now order.now capacity.now start }
{
    if name != b"latchtrace".as_slice() {
        return None;
    }
    Some(Header {
        version: version_named(version)?,
        closed: is_closed(order)?,
        capacity: short_number(capacity)?,
        start: start?,
    })
}

/// The version that a word names.
fn version_named(word: &[u8]) -> Option<Version>
    ensures { result ≡ version_of word.now }
{
    if word == b"1".as_slice() {
        Some(Version::First)
    } else if word == b"2".as_slice() {
        Some(Version::Second)
    } else if word == b"3".as_slice() {
        Some(Version::Third)
    } else {
        None
    }
}

/// Whether the named order of items is the closed one.
fn is_closed(order: &[u8]) -> Option<bool>
    ensures { result ≡ is_closed_of order.now }
{
    if order == b"closed".as_slice() {
        Some(true)
    } else if order == b"halfopen".as_slice() {
        Some(false)
    } else {
        None
    }
}
