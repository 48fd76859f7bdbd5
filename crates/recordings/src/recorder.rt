//! From the events of a kernel, and its listing as it is again and again, to the history of its
//! boot.
//!
//! ```text
//!     listing                      A                            A'
//!     EVENTS     |      block      |    block    |    block     |
//!     written            listing whole    nothing     changes by A'
//!                        by A             to say
//! ```
//!
//! The listing is read at most once for a block, after it, and only if an event of it asks for it.
//! What is written of a block is one write, and the writer is flushed. So whatever ends it, what
//! was written is a history.
ghost use Rattle.std.specs.Prelude.{◌≡◌, ◌<◌, length, Ok, Err};
ghost use Rattle.recordings.specs.EventLines.{said_in};
ghost use Rattle.recordings.specs.Recorder.{PutsLines, PutsText, ReadsFor, ReadsListing, Records};
ghost use Rattle.recordings.specs.Recorder.{RecordsBlocks, RecordsEvents, finished, first_text};

use crate::event_lines::{event_lines, take_block};
use crate::events::EventLine;
use crate::listing_texts::{RecordedListing, is_hidden};
use crate::recording::Recording;
use command_listings::{LOG_PLACE, LastingLog};
use command_parts::{FAILED, Fault, Finished, SUCCEEDED};
use listing::{ListingNote, ListingNotes};
use logs::{LogFault, put_now};
use order_laws::Refusal;
use std::alloc::{AllocError, Global};
use std::io::Write;
use texts::{BLOCK, Output};

/// The first line of a history.
const FIRST_LINE: &[u8] = b"latchhistory 1\n";

/// Why a recording ends before its events do.
#[derive(Clone, Copy, Debug, Drop)]
pub enum Stop {
    /// Nobody reads any more what is written.
    Closed,
    /// The listing shows no address.
    Hidden,
    /// There is a fault.
    Failed(Fault),
}

impl From<Fault> for Stop {
    ghost use Rattle.recordings.specs.declared.recorder.Stop.TheVariants.{Failed};

    ghost from_gives = { λ fault stop. stop ≡ Failed fault };

    fn from(fault: Fault) -> Stop {
        Stop::Failed(fault)
    }
}

impl From<AllocError> for Stop {
    ghost use Rattle.recordings.specs.Recorder.{no_memory};

    ghost from_gives = { λ _ stop. stop ≡ no_memory };

    fn from(_error: AllocError) -> Stop {
        Stop::Failed(Fault::Refused(Refusal::OutOfMemory))
    }
}

/// Writes the history that events say, or what is appended to one.
///
/// The events are read by blocks, and the listing at most once for a block, after it, if a line
/// of it asks for it. What is written of a block is one write, and the writer is flushed. The
/// status is 1 if nobody reads any more what is written, or if the listing shows no address, which
/// is then noted of it; what was written stays.
pub fn record_engine<L: LastingLog, W: Write>(
    alloc: Global,
    events: &mut L,
    is_appended: bool,
    writer: &mut Output<W>,
) -> Result<Finished, Fault>
    requires { (L.seen events.old).next ≡ (L.seen events.old).later }
    ensures { RecordsEvents W.contents is_appended (L.seen events.old) (L.seen events.new)
        writer.old writer.new result }
{
    finished(record(alloc, events, is_appended, writer))
}

/// What a recording comes to.
fn finished(end: Result<(), Stop>) -> Result<Finished, Fault>
    ensures { result ≡ finished end }
{
    let (status, kallsyms) = match end {
        Ok(()) => (SUCCEEDED, None),
        Err(Stop::Closed) => (FAILED, None),
        Err(Stop::Hidden) => (FAILED, Some(ListingNote::AllHidden)),
        Err(Stop::Failed(fault)) => return Err(fault),
    };
    let notes = ListingNotes {
        modules: None,
        kallsyms,
    };
    Ok(Finished { status, notes })
}

/// Writes the first line, unless it is there, and then what events say.
fn record<L: LastingLog, W: Write>(
    alloc: Global,
    events: &mut L,
    is_appended: bool,
    writer: &mut Output<W>,
) -> Result<(), Stop>
    requires { (L.seen events.old).next ≡ (L.seen events.old).later }
    ensures { Records W.contents is_appended (L.seen events.old) (L.seen events.new)
        writer.old writer.new result }
{
    let mut room = Vec::new(alloc);
    room.resize(BLOCK, 0)?;
    put_text(writer, first_text(is_appended))?;
    record_blocks(alloc, events, room.as_mut_slice(), writer)
}

/// What is written before events are read.
fn first_text(is_appended: bool) -> &'static [u8]
    ensures { result.now ≡ first_text is_appended }
{
    if is_appended { &[] } else { FIRST_LINE }
}

/// Writes what events say, block by block.
fn record_blocks<L: LastingLog, W: Write>(
    alloc: Global,
    events: &mut L,
    room: &mut [u8],
    writer: &mut Output<W>,
) -> Result<(), Stop>
    requires room { 0 < length room.old }
    requires known { (L.seen events.old).next ≡ (L.seen events.old).later }
    ensures { RecordsBlocks W.contents (L.seen events.old) (L.seen events.new)
        writer.old writer.new result }
{
    let mut recording = Recording::new(alloc);
    let mut begun = Vec::new(alloc);
    for turn in 0..u64::MAX {
        let count = events.read_block(room)?;
        if count == 0 {
            put_lines(alloc, events, recording, &begun, writer)?;
            return Ok(());
        }
        let text = take_block(alloc, &mut begun, &room[..count])?;
        recording = put_lines(alloc, events, recording, &text, writer)?;
    }
    Err(Stop::Failed(Fault::TooLong { place: LOG_PLACE }))
}

/// Writes what the lines of a text say. Returns what is carried on.
fn put_lines<L: LastingLog, W: Write>(
    alloc: Global,
    events: &mut L,
    recording: Recording,
    text: &[u8],
    writer: &mut Output<W>,
) -> Result<Recording, Stop>
    ensures { PutsLines W.contents recording (said_in text.now) (L.seen events.old)
        (L.seen events.new) writer.old writer.new result }
{
    let said = event_lines(alloc, text)?;
    let listing = read_if_needed(alloc, events, &recording, &said)?;
    let part = recording.after_block(alloc, &said, listing.as_ref())?;
    put_text(writer, &part.text)?;
    Ok(part.recording)
}

/// Writes a text, and keeps nothing back; nothing is done for one without bytes.
fn put_text<W: Write>(writer: &mut Output<W>, text: &[u8]) -> Result<(), Stop>
    ensures { PutsText W.contents text.now writer.old writer.new result }
{
    if text.is_empty() {
        return Ok(());
    }
    match put_now(writer, text) {
        Ok(()) => Ok(()),
        Err(LogFault::Closed) => Err(Stop::Closed),
        Err(_) => Err(Stop::Failed(Fault::Write)),
    }
}

/// Reads the listing as it is now, if a line asks for it.
fn read_if_needed<L: LastingLog>(
    alloc: Global,
    events: &mut L,
    recording: &Recording,
    said: &[EventLine<'_>],
) -> Result<Option<RecordedListing>, Stop>
    ensures { ReadsFor recording.now said.now (L.seen events.old) (L.seen events.new) result }
{
    if recording.needs(said) {
        Ok(Some(read_listing(alloc, events)?))
    } else {
        Ok(None)
    }
}

/// Reads the listing as it is now.
fn read_listing<L: LastingLog>(alloc: Global, events: &mut L) -> Result<RecordedListing, Stop>
    ensures { ReadsListing (L.seen events.old) (L.seen events.new) result }
{
    match events.read_listings(alloc) {
        Ok(texts) if is_hidden(&texts.kallsyms) => Err(Stop::Hidden),
        Ok(texts) => Ok(RecordedListing::of(alloc, &texts.kallsyms)?),
        Err(unlisted) => Err(Stop::Failed(unlisted.fault)),
    }
}
