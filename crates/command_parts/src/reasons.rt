//! What the system says of an error.
use arrayvec::ArrayString;
use std::fmt::Write as _;
use std::io;

/// The most bytes that are written of what the system says.
pub const LONGEST_WORDS: usize = 256;

/// What the system says of an error, as `No space left on device`, without its number.
pub fn words_of(error: &io::Error) -> ArrayString<LONGEST_WORDS> {
    let mut words = ArrayString::new();
    let _ = write!(words, "{error}");
    if let Some(end) = words.find(" (os error ") {
        words.truncate(end);
    }
    words
}
