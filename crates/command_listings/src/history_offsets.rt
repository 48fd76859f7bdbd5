//! A log that is annotated by a history, by the offset of its kernel, which it says itself.
//!
//! ```text
//!     offset 0        the log is of the history's boot    each line by the listing at its time
//!     another one     it is of another boot               the kernel itself, by the first listing
//! ```
ghost use Rattle.std.specs.Prelude.{◌≡◌};
ghost use Rattle.command_listings.specs.HistoryOffsets.{WritesByHistoryOffset, WritesTimed, job_by};
ghost use Rattle.command_listings.specs.OwnOffsets.{own_offset};
ghost use Rattle.command_listings.specs.TimedLogs.{first_listing};

use crate::annotations::{Annotate, LOG_PLACE, LogRequest};
use crate::history_annotations::annotate_timed;
use crate::own_offsets::{by_offset, own_offset, write_by_own_offset};
use command_parts::{Fault, KALLSYMS_PLACE, ListingTexts, Outputs, history_in, read_at, texts_at};
use histories::History;
use std::alloc::Global;
use std::io::{Read, Write};
use texts::Counted;

/// Writes a log again as [`history_annotate_engine`](crate::history_annotate_engine) does, by the
/// offset that the log itself says in place of the job's. The history and then the log are read
/// whole first. [`own_offset_engine`](crate::own_offset_engine) says what comes if there is none.
///
/// If the offset is 0, each line is named by the listing at its time; else the kernel itself alone
/// has names, since modules are moved on their own. If a time is given, in nanoseconds, every line
/// has that one.
pub fn history_own_offset_engine<H: Read, L: Read, E: Write, W: Write>(
    alloc: Global,
    history: &mut Counted<H>,
    time: Option<u64>,
    log: &mut Counted<L>,
    request: LogRequest<'_, '_>,
    outputs: &mut Outputs<W, E>,
) -> Result<u8, Fault>
    ensures { WritesByHistoryOffset W.contents E.contents request.entry.sources.now
        request.entry.job.now outputs.old.writer outputs.new.writer outputs.old.errors
        outputs.new.errors H.remaining L.remaining time history.old history.new log.old log.new
        result }
{
    let file = read_at(alloc, history, KALLSYMS_PLACE)?;
    let history = history_in(alloc, &file)?;
    let log = read_at(alloc, log, LOG_PLACE)?;
    match time {
        None => write_timed(alloc, &history, &log, request, outputs),
        Some(_) => {
            let texts = texts_at(alloc, &history, time)?;
            let said = own_offset(&log, &texts.kallsyms);
            write_by_own_offset(alloc, texts, &log, said, request, outputs)
        }
    }
}

/// Writes a log with this text again by a history and by the offset that the log says.
fn write_timed<E: Write, W: Write>(
    alloc: Global,
    history: &History<'_>,
    log: &[u8],
    request: LogRequest<'_, '_>,
    outputs: &mut Outputs<W, E>,
) -> Result<u8, Fault>
    ensures { WritesTimed W.contents E.contents request.entry.sources.now
        request.entry.job.now outputs.old.writer outputs.new.writer outputs.old.errors
        outputs.new.errors history.now log.now
        (own_offset log.now (first_listing history.now)) result }
{
    let first = history.first_listing(alloc)?;
    let said = own_offset(log, first.text());
    if let Ok(0) = said {
        let job = job_by(0, request.job);
        let request = LogRequest {
            sources: request.sources,
            job: &job,
        };
        let mut log = Counted::new(log);
        return annotate_timed(alloc, history, &mut log, request, outputs);
    }
    let texts = ListingTexts::of_symbols(first.into_text(alloc)?);
    write_by_own_offset(alloc, texts, log, said, request, outputs)
}

/// The job with this offset.
fn job_by<'a>(offset: u64, job: &Annotate<'a>) -> Annotate<'a>
    ensures { result ≡ job_by offset job.now }
{
    Annotate {
        rule: by_offset(offset, job.rule),
        reading: job.reading,
        log: job.log,
    }
}
