//! Events that are recorded, from their file and the file of the listing.
ghost use Rattle.texts.specs.Output.{Says};
ghost use Rattle.latchsym.specs.Outcomes.{HoldsOfInput, IsRecordedBy};
ghost use Rattle.latchsym.specs.RecordedEvents.{ended_line, ended_lines};

use crate::followed_files::FollowedFiles;
use crate::jobs::{FileSource, UNREAD};
use command_line::Record;
use command_listings::Sources;
use command_parts::{Fault, Finished, ListingReaders};
use listing::{ListingNote, plain_text};
use recordings::record_engine;
use std::alloc::Global;
use std::io::Write;
use texts::{Counted, Output};

/// Records events. The file of the listing is opened each time that it is read.
pub(crate) fn run_record<F: FileSource, W: Write>(
    alloc: Global,
    files: &F,
    sources: &Sources<'_>,
    job: &Record<'_>,
    listings: &mut ListingReaders<F::File, F::File, F::File>,
    events: &mut Option<Counted<F::File>>,
    writer: &mut Output<W>,
) -> Result<Finished, Fault>
    ensures { HoldsOfInput (λ r r'. IsRecordedBy F.File.remaining (F.file_text files.now) W.contents
        sources.now job.now r writer.old writer.new result) events.old events.new result }
{
    match events {
        Some(events) => record_over(alloc, files, sources, job, listings, events, writer),
        None => Err(UNREAD),
    }
}

/// Records events over their reader.
fn record_over<F: FileSource, W: Write>(
    alloc: Global,
    files: &F,
    sources: &Sources<'_>,
    job: &Record<'_>,
    listings: &mut ListingReaders<F::File, F::File, F::File>,
    events: &mut Counted<F::File>,
    writer: &mut Output<W>,
) -> Result<Finished, Fault>
    ensures { IsRecordedBy F.File.remaining (F.file_text files.now) W.contents sources.now job.now
        events.old writer.old writer.new result }
{
    let mut events = FollowedFiles::reopened(files, &sources.files, listings, events);
    record_engine(alloc, &mut events, job.is_appended, writer)
}

/// Writes why the listing in this file ended a recording, if it did.
pub(crate) fn put_ended<W: Write>(writer: &mut Output<W>, file: &str, note: Option<ListingNote>)
    ensures { Says W.contents writer.old writer.new (ended_lines file.now note) }
{
    if let Some(note) = note {
        put_ended_line(writer, file, note);
    }
}

/// Writes what is wrong with the listing in this file.
fn put_ended_line<W: Write>(writer: &mut Output<W>, file: &str, note: ListingNote)
    ensures { Says W.contents writer.old writer.new (ended_line file.now note) }
{
    writer.put(b"latchsym: ");
    writer.put(file.as_bytes());
    writer.put(b": ");
    writer.put(plain_text(note).unwrap_or(b""));
    writer.put(b"\n");
}
