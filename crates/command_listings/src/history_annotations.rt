//! From the bytes of a history and of a log to the log with the text of the answer after each
//! address, by the listing that the history has at the time of its line.
//!
//! ```text
//!     history    read_at, history_in    its first listing    notes
//!     log                               block by block       each line by the listing at its time
//! ```
ghost use Rattle.command_listings.specs.HistoryAnnotations.{AnnotatesBy, AnnotatesByHistory};
ghost use Rattle.command_listings.specs.HistoryAnnotations.{IsEndOf, IsTimedEndTold};

use crate::annotations::{LogRequest, Stop, annotate_by_texts, listed_kernel, stop_of};
use crate::line_runs::LogTimes;
use crate::log_answers::CatalogAnswers;
use crate::log_notes::{ListedKernel, note_timed_log};
use crate::notes::note_listings;
use crate::timed_logs::{
    HistoryCatalogs, TimedEnd, TimedLog, listing_catalog, name_by, name_to_end,
};
use command_parts::{
    FAILED, Fault, KALLSYMS_PLACE, Outputs, SUCCEEDED, history_in, read_at, texts_at,
};
use histories::History;
use listing::is_narrow;
use logs::{Findings, LogFault, LogNames};
use std::alloc::Global;
use std::io::{Read, Write};
use texts::{Counted, Output};

/// Writes a log again as [`annotate_engine`](crate::annotate_engine) does, each line by the listing
/// that a history has at its time; if a time is given, in nanoseconds, every line has that one.
/// docs/FORMATS.md says which time a line has.
///
/// The history is read whole, and the notes on its first listing are written, or on the one at the
/// given time, before the log is begun. After a log that was annotated to its end it is noted if
/// none of its lines has a time though one has an address: then only the kernel itself has names.
pub fn history_annotate_engine<H: Read, L: Read, E: Write, W: Write>(
    alloc: Global,
    history: &mut Counted<H>,
    time: Option<u64>,
    log: &mut Counted<L>,
    request: LogRequest<'_, '_>,
    outputs: &mut Outputs<W, E>,
) -> Result<u8, Fault>
    ensures { AnnotatesByHistory L.remaining W.contents E.contents request.entry.sources.now
        request.entry.job.now log.old log.new outputs.old.writer outputs.new.writer
        outputs.old.errors outputs.new.errors
        time H.remaining history.old history.new result }
{
    let file = read_at(alloc, history, KALLSYMS_PLACE)?;
    let history = history_in(alloc, &file)?;
    match time {
        None => annotate_timed(alloc, &history, log, request, outputs),
        Some(_) => {
            let texts = texts_at(alloc, &history, time)?;
            annotate_by_texts(alloc, &texts, request, log, outputs)
        }
    }
}

/// Writes the notes on the first listing of a history, and then a log again, each line by the
/// listing at its time.
pub(crate) fn annotate_timed<L: Read, E: Write, W: Write>(
    alloc: Global,
    history: &History<'_>,
    log: &mut Counted<L>,
    request: LogRequest<'_, '_>,
    outputs: &mut Outputs<W, E>,
) -> Result<u8, Fault>
    ensures { AnnotatesBy L.remaining W.contents E.contents request.entry.sources.now
        request.entry.job.now log.old log.new outputs.old.writer outputs.new.writer
        outputs.old.errors outputs.new.errors history.now result }
{
    let first = history.first_listing(alloc)?;
    let catalogs = HistoryCatalogs {
        history,
        kernel: request.sources.kernel.as_ref(),
        rule: request.job.rule,
        is_narrow: is_narrow(first.text()),
    };
    let kernel = listed_kernel(first.text(), request.job.rule.offset);
    let mut timed = TimedLog::new(alloc)?;
    let (index, notes) = listing_catalog(alloc, first.text(), catalogs.kernel)?;
    note_listings(&notes, request.sources, &mut outputs.errors);
    let mut answers = CatalogAnswers::new(alloc, &index, request.job.rule, catalogs.is_narrow);
    let asked = name_by(
        alloc,
        history,
        &first,
        &mut answers,
        &mut timed,
        log,
        &mut outputs.writer,
    );
    drop(answers);
    drop(index);
    let named = name_to_end(
        alloc,
        &catalogs,
        first,
        asked,
        &mut timed,
        log,
        &mut outputs.writer,
    );
    let end = timed_end(named, timed.head);
    conclude_timed_log(end, request.job.log, kernel, &mut outputs.errors)
}

/// What was found of a log with these first bytes, if it was named to its end.
fn timed_end(
    named: Result<(LogNames, LogTimes), LogFault>,
    head: Vec<u8>,
) -> Result<TimedEnd, LogFault>
    ensures { IsEndOf named head.items result }
{
    match named {
        Ok((names, times)) => {
            let found = Findings { names, head };
            Ok(TimedEnd { found, times })
        }
        Err(fault) => Err(fault),
    }
}

/// Writes the note on the log in this file if it was annotated to its end, or else the fault.
/// Returns the program's status, which is 1 if nobody reads the output any more.
fn conclude_timed_log<E: Write>(
    end: Result<TimedEnd, LogFault>,
    log: &str,
    kernel: ListedKernel,
    errors: &mut Output<E>,
) -> Result<u8, Fault>
    ensures { IsTimedEndTold E.contents log.now kernel errors.old errors.new end result }
{
    match end {
        Ok(end) => {
            note_timed_log(&end, log, kernel, errors);
            Ok(SUCCEEDED)
        }
        Err(fault) => match stop_of(fault) {
            Stop::Closed => Ok(FAILED),
            Stop::Failed(fault) => Err(fault),
        },
    }
}
