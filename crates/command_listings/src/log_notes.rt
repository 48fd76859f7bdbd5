//! What is noted of a log after its end: the first that applies.
//!
//! ```text
//!     packed, or UTF-16                      its first two bytes
//!     by a history, but no line has a time   the listing of no time but the first is asked
//!     functions of another size              the listing is of another build
//!     its kernel lay elsewhere               moved from the listing's place, or of another boot
//!     its own names are others               the listing is of another boot
//!     no address has a name
//! ```
//!
//! The most certain comes first: a size says more than a place, and a place more than names.
ghost use Rattle.std.specs.Prelude.{◌≡◌};
ghost use Rattle.texts.specs.Output.{Says};
ghost use Rattle.command_listings.specs.LogNotes.{differs, kernel_note, listed_place, log_line};
ghost use Rattle.command_listings.specs.LogNotes.{log_message, log_name, names_note, note_of_head};
ghost use Rattle.command_listings.specs.LogNotes.{note_of_log, note_of_timed_log, offset_to_give};
ghost use Rattle.command_listings.specs.LogNotes.{other_boot_line};
ghost use Rattle.command_listings.specs.LogNotes.{IsLogNoted, moved_line, other_build_line};
ghost use Rattle.command_listings.specs.LogNotes.{other_names_line, place_note, unnamed_line};

use crate::line_runs::LogTimes;
use crate::note_texts::{put_note_head, put_plain_note};
use crate::timed_logs::TimedEnd;
use listing::{ListingNote, is_gzip, is_utf_16};
use logs::{Findings, KernelOffset, KernelReport, LogNames};
use std::io::Write;
use texts::Output;

const NONE_OF: &[u8] = b"none of its ";

const HAVE_NAMES: &[u8] = b" addresses has a name in the listing\n";

const DISAGREE: &[u8] = b"its own names disagree with the listing (";

const OF: &[u8] = b" of ";

const THIS_BOOT: &[u8] = b"); is the listing of this boot?\n";

const STANDARD_INPUT: &[u8] = b"standard input";

const ANOTHER_BUILD: &[u8] =
    b" functions in it have another size in the listing; the listing is of another build\n";

const MOVED: &[u8] = b"its kernel was moved by ";

const GIVE_OFFSET: &[u8] = b"; give --offset ";

const LAY_AT: &[u8] = b"its kernel lay at ";

const LISTED_AT: &[u8] = b", that of the listing at ";

const NO_TIME: &[u8] = b"no line has a time; only the kernel itself has names\n";

const ANOTHER_BOOT: &[u8] = b"; the listing is of another boot\n";

/// By how many bytes, or a multiple of them, kernels are moved at boot.
const KERNEL_STEP: u64 = 0x20_0000;

/// The place of a listing's kernel, and by how many bytes the addresses of a log are looked up
/// lower.
#[derive(Clone, Copy, Debug, Drop)]
pub struct ListedKernel {
    /// The address of its beginning, if the listing says it.
    pub base: Option<u64>,
    pub offset: u64,
}

/// What is noted of a log.
#[derive(Clone, Copy, Debug, Drop)]
pub enum LogNote {
    /// It is packed, or in UTF-16.
    Form(ListingNote),
    /// Functions of its kernel have another size in the listing.
    OtherBuild(KernelReport),
    /// Its kernel was moved from the place of the listing's.
    Moved {
        /// By how many bytes.
        by: u64,
        /// The offset by which the listing names its addresses.
        offset: u64,
    },
    /// Its kernel lay elsewhere.
    OtherPlace {
        /// The address at which it lay.
        place: u64,
        /// The address at which the listing's lies.
        listed: u64,
    },
    /// Its own names are others than the listing's.
    OtherNames(LogNames),
    /// None of its addresses has a name.
    Unnamed(LogNames),
    /// None of its lines has a time, by which a history would name them.
    Untimed,
}

/// Writes what is noted of the log in this file, if something is, if this was found of it.
pub fn note_log<W: Write>(found: &Findings, log: &str, kernel: ListedKernel, writer: &mut Output<W>)
    ensures { IsLogNoted W.contents writer.old writer.new log.now
        (note_of_log found.now.head.items found.now.names kernel) }
{
    match note_of_log(found.head.as_slice(), found.names, kernel) {
        Some(note) => put_log_note(writer, log, note),
        None => {}
    }
}

/// Writes what is noted of the log in this file, if something is, if it was named by a history and
/// this was found of it.
pub(crate) fn note_timed_log<W: Write>(
    end: &TimedEnd,
    log: &str,
    kernel: ListedKernel,
    writer: &mut Output<W>,
)
    ensures { IsLogNoted W.contents writer.old writer.new log.now
        (note_of_timed_log end.now.found.head.items end.now.times end.now.found.names kernel) }
{
    let found = &end.found;
    match note_of_timed_log(found.head.as_slice(), end.times, found.names, kernel) {
        Some(note) => put_log_note(writer, log, note),
        None => {}
    }
}

/// What is noted of a log that was named by a history, if something is.
fn note_of_timed_log(
    head: &[u8],
    times: LogTimes,
    names: LogNames,
    kernel: ListedKernel,
) -> Option<LogNote>
    ensures { result ≡ note_of_timed_log head.now times names kernel }
{
    match note_of_head(head) {
        Some(note) => Some(LogNote::Form(note)),
        None if times.is_untimed() => Some(LogNote::Untimed),
        None => note_of_log(head, names, kernel),
    }
}

/// What is noted of a log with these first two bytes and these names, if something is.
fn note_of_log(head: &[u8], names: LogNames, kernel: ListedKernel) -> Option<LogNote>
    ensures { result ≡ note_of_log head.now names kernel }
{
    match note_of_head(head) {
        Some(note) => Some(LogNote::Form(note)),
        None => match kernel_note(names.kernel, kernel) {
            None => names_note(names),
            note => note,
        },
    }
}

/// What the first two bytes of a log say of its form.
fn note_of_head(head: &[u8]) -> Option<ListingNote>
    ensures { result ≡ note_of_head head.now }
{
    if is_gzip(head) {
        Some(ListingNote::Gzip)
    } else if is_utf_16(head) {
        Some(ListingNote::Utf16)
    } else {
        None
    }
}

/// What a log says of its kernel that is not so of the listing's.
fn kernel_note(report: KernelReport, kernel: ListedKernel) -> Option<LogNote>
    ensures { result ≡ kernel_note report kernel }
{
    if report.is_of_another_build() {
        return Some(LogNote::OtherBuild(report));
    }
    let offset = report.offset?;
    let listed = listed_place(kernel)?;
    place_note(offset, listed, kernel.offset)
}

/// The address at which the kernel of a listing lies for the log, modulo 2^64.
fn listed_place(kernel: ListedKernel) -> Option<u64>
    ensures { result ≡ listed_place kernel }
{
    let base = kernel.base?;
    Some(base.wrapping_add(kernel.offset))
}

/// What is noted if a kernel lay so, and the listing's at an address, with this offset.
fn place_note(lay: KernelOffset, listed: u64, offset: u64) -> Option<LogNote>
    ensures { result ≡ place_note lay listed offset }
{
    let place = lay.place();
    if !differs(place, listed) {
        None
    } else if listed == lay.from {
        Some(LogNote::Moved {
            by: lay.offset,
            offset: offset_to_give(lay, offset),
        })
    } else {
        Some(LogNote::OtherPlace { place, listed })
    }
}

/// The offset that gives names, in place of this one, modulo 2^64.
fn offset_to_give(lay: KernelOffset, offset: u64) -> u64
    ensures { result ≡ offset_to_give lay offset }
{
    lay.offset.wrapping_add(offset)
}

/// Whether two addresses of a kernel differ as kernels are moved: if they do not, the log counts
/// from elsewhere.
fn differs(place: u64, listed: u64) -> bool
    ensures { result ≡ differs place listed }
{
    place != listed && place.wrapping_sub(listed) % KERNEL_STEP == 0
}

/// What is noted if the names of a log are others than the listing's, or there are none.
fn names_note(names: LogNames) -> Option<LogNote>
    ensures { result ≡ names_note names }
{
    if names.is_of_another_boot() {
        Some(LogNote::OtherNames(names))
    } else if names.is_unnamed() {
        Some(LogNote::Unnamed(names))
    } else {
        None
    }
}

/// Writes the line of a note on the log in this file.
fn put_log_note<W: Write>(writer: &mut Output<W>, log: &str, note: LogNote)
    ensures { Says W.contents writer.old writer.new (log_line log.now note) }
{
    put_note_head(writer, log_name(log));
    put_log_message(writer, note);
}

/// What notes call the log in this file.
fn log_name(log: &str) -> &[u8]
    ensures { result.now ≡ log_name log.now }
{
    if log == "-" {
        STANDARD_INPUT
    } else {
        log.as_bytes()
    }
}

/// Writes what a note says, and a line's end.
fn put_log_message<W: Write>(writer: &mut Output<W>, note: LogNote)
    ensures { Says W.contents writer.old writer.new (log_message note) }
{
    match note {
        LogNote::Form(note) => put_plain_note(writer, note),
        LogNote::OtherBuild(report) => put_other_build(writer, report),
        LogNote::Moved { by, offset } => put_moved(writer, by, offset),
        LogNote::OtherPlace { place, listed } => put_other_place(writer, place, listed),
        LogNote::OtherNames(names) => put_other_names(writer, names),
        LogNote::Unnamed(names) => put_unnamed(writer, names),
        LogNote::Untimed => writer.put(NO_TIME),
    }
}

/// Writes how many functions have another size.
fn put_other_build<W: Write>(writer: &mut Output<W>, report: KernelReport)
    ensures { Says W.contents writer.old writer.new (other_build_line report) }
{
    writer.put_decimal(report.resized);
    writer.put(OF);
    writer.put_decimal(report.functions);
    writer.put(ANOTHER_BUILD);
}

/// Writes how far the kernel was moved, and which offset to give.
fn put_moved<W: Write>(writer: &mut Output<W>, by: u64, offset: u64)
    ensures { Says W.contents writer.old writer.new (moved_line by offset) }
{
    writer.put(MOVED);
    writer.put_hexadecimal(by);
    writer.put(GIVE_OFFSET);
    writer.put_hexadecimal(offset);
    writer.put(b"\n");
}

/// Writes the places of both kernels.
fn put_other_place<W: Write>(writer: &mut Output<W>, place: u64, listed: u64)
    ensures { Says W.contents writer.old writer.new (other_boot_line place listed) }
{
    writer.put(LAY_AT);
    writer.put_hexadecimal(place);
    writer.put(LISTED_AT);
    writer.put_hexadecimal(listed);
    writer.put(ANOTHER_BOOT);
}

/// Writes that no address of the log has a name.
fn put_unnamed<W: Write>(writer: &mut Output<W>, names: LogNames)
    ensures { Says W.contents writer.old writer.new (unnamed_line names) }
{
    writer.put(NONE_OF);
    writer.put_decimal(names.addresses);
    writer.put(HAVE_NAMES);
}

/// Writes that the names which the log has itself are not the listing's.
fn put_other_names<W: Write>(writer: &mut Output<W>, names: LogNames)
    ensures { Says W.contents writer.old writer.new (other_names_line names) }
{
    writer.put(DISAGREE);
    writer.put_decimal(names.disagreeing);
    writer.put(OF);
    writer.put_decimal(names.agreeing.saturating_add(names.disagreeing));
    writer.put(THIS_BOOT);
}
