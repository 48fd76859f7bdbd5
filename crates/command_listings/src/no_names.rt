//! Why listings that are read again give no names.
ghost use Rattle.std.specs.Prelude.{◌≡◌, List, ℕ};
ghost use Rattle.texts.specs.Output.{Says};
ghost use Rattle.command_listings.specs.NoNames.{AreWords, TellsUnread, bad_line_words};
ghost use Rattle.command_listings.specs.NoNames.{file_at, place_of};

use crate::note_texts::put_note_head;
use crate::sources::ListingFiles;
use command_parts::{KALLSYMS_PLACE, MODULES_PLACE, REGIONS_PLACE, words_of};
use std::io;
use std::io::Write;
use texts::Output;

// what the note says beside the name of the file
const UNREAD_AGAIN: &[u8] = b"cannot be read again (";

const UNTIL_IT_CAN: &[u8] = b"); lines have no names until it can\n";

const NO_SYMBOL: &[u8] = b"no symbol";

const CROWDED: &[u8] = b"a module has more than 7 regions";

const LINE: &[u8] = b"line ";

const NOT_UNDERSTOOD: &[u8] = b" is not understood";

/// Why listings give no names.
#[derive(Clone, Copy, Debug, Drop)]
pub enum NoNames {
    /// The file at this place cannot be read, for which the system may have said why.
    Unread {
        place: u64,
        error: Option<io::Error>,
    },
    /// No symbol is shown.
    NoSymbol,
    /// A line of the file at this place is not understood.
    BadLine {
        place: u64,
        line: u64,
    },
    /// A module has more regions than one may have.
    TooManyRegions,
}

impl NoNames {
    /// The place of the file that it is about.
    fn place(&self) -> u64
        ensures { result ≡ place_of self.now }
    {
        match self {
            NoNames::Unread { place, .. } | NoNames::BadLine { place, .. } => *place,
            NoNames::NoSymbol => KALLSYMS_PLACE,
            NoNames::TooManyRegions => REGIONS_PLACE,
        }
    }
}

/// The file of the listings that is read at a place, or an empty name.
fn file_at<'a>(files: &ListingFiles<'a>, place: u64) -> &'a [u8]
    ensures { result.now ≡ file_at files.now place }
{
    let file = match place {
        MODULES_PLACE => files.modules,
        KALLSYMS_PLACE => Some(files.kallsyms),
        _ => files.regions,
    };
    file.unwrap_or("").as_bytes()
}

/// Writes that the listings in these files cannot be read again, and why.
pub(crate) fn put_unread<W: Write>(writer: &mut Output<W>, files: &ListingFiles<'_>, why: &NoNames)
    ensures { (note : List ℕ) × TellsUnread files.now why.now note
        × Says W.contents writer.old writer.new note }
{
    put_note_head(writer, file_at(files, why.place()));
    writer.put(UNREAD_AGAIN);
    put_words(writer, why);
    writer.put(UNTIL_IT_CAN);
}

/// Writes the words that say why.
fn put_words<W: Write>(writer: &mut Output<W>, why: &NoNames)
    ensures { (words : List ℕ) × AreWords why.now words
        × Says W.contents writer.old writer.new words }
{
    match why {
        NoNames::Unread {
            error: Some(error),
            ..
        } => writer.put(words_of(error).as_bytes()),
        NoNames::Unread { error: None, .. } => writer.put(b"no reason is known"),
        NoNames::NoSymbol => writer.put(NO_SYMBOL),
        NoNames::BadLine { line, .. } => put_bad_line(writer, *line),
        NoNames::TooManyRegions => writer.put(CROWDED),
    }
}

/// Writes that a line is not understood.
fn put_bad_line<W: Write>(writer: &mut Output<W>, line: u64)
    ensures { Says W.contents writer.old writer.new (bad_line_words line) }
{
    writer.put(LINE);
    writer.put_decimal(line);
    writer.put(NOT_UNDERSTOOD);
}
