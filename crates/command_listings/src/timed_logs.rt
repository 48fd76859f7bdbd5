//! A log whose lines are each named by the listing that a history has at its time.
//!
//! ```text
//!     history    listing 0.5                     change 7.3              change 9.1
//!     log        [ 2.1] at A   [ 6.0] at B       [ 8.0] at C             [ 6.9] at D
//!     catalog    of the listing -->              after the change -->    of the listing -->
//! ```
//!
//! A catalog is built if a line with an address needs it, and kept until a line needs another one:
//! so a log in the order of time builds at most one for each part of the history.
ghost use Rattle.std.specs.Prelude.{◌≡◌, ◌<◌, [], ℕ, length, IfNone, IfOk, Option};
ghost use Rattle.std.specs.Option.{option_copied};
ghost use Rattle.logs.specs.Annotation.{Puts};
ghost use Rattle.histories.specs.ListingsAt.{IsOf};
ghost use Rattle.listing.specs.declared.address_rules.LogRule.{LogRule};
ghost use Rattle.modules.specs.Listed.{BoundNames};
ghost use Rattle.command_parts.specs.HistoryFiles.{symbols_alone};
ghost use Rattle.command_parts.specs.OpenedCatalogs.{IsCatalogOf};
ghost use Rattle.command_listings.specs.TimedLogs.{AreAnswersAfter, IsNamedOn, IsTurn, NamesOn};
ghost use Rattle.command_listings.specs.TimedLogs.{PutsLast, PutsRun};
ghost use Rattle.command_listings.specs.TimedLogs.{TakesTurn, is_narrow_history, left_of};

use crate::line_runs::{LogTimes, run_in, times_if_named};
use crate::log_answers::CatalogAnswers;
use command_parts::open_symbols;
use histories::{History, ListingAt};
use listing::{ListingNotes, LogRule};
use logs::{Annotator, Answers, Findings, LogFault, LogNames, keep_head};
use modules::{ExpectedLookups, IndexedCatalog, KernelBounds};
use std::alloc::{AllocError, Global};
use std::io::{Read, Write};
use texts::{BLOCK, Counted, Output};

/// The lines of a log that were named, and what is known of their times.
#[derive(Drop)]
pub struct TimedLines {
    pub annotator: Annotator,
    pub times: LogTimes,
}

/// A log as far as it was named.
#[derive(Drop)]
pub struct TimedLog {
    pub lines: TimedLines,
    /// The bytes that were read and are still to be named: another listing names their first line.
    pub left: Vec<u8>,
    /// Whether there is nothing more to read.
    pub is_ended: bool,
    /// The first bytes of the log.
    pub head: Vec<u8>,
    /// Room for a block.
    room: Vec<u8>,
}

/// What a listing leaves to another one.
#[derive(Drop)]
pub struct Pending {
    pub left: Vec<u8>,
    /// The time of the line with which they begin, in nanoseconds.
    pub time: u64,
}

/// What was found of a log that was named to its end.
#[derive(Drop)]
pub struct TimedEnd {
    pub found: Findings,
    pub times: LogTimes,
}

/// What comes after the lines that one listing names.
#[derive(Clone, Copy, Debug, Drop)]
pub enum Turn {
    /// The end of the log, with these names.
    Ended(LogNames, LogTimes),
    /// A line with this time, in nanoseconds, which another listing names.
    Other(u64),
}

/// The catalogs of the listings of a history, and how they are asked.
#[derive(Clone, Copy, Drop)]
pub struct HistoryCatalogs<'h, 'a> {
    pub history: &'h History<'a>,
    /// Between which symbols the kernel itself lies, if they are given.
    pub kernel: Option<&'h KernelBounds<'h>>,
    /// How the addresses of a log are taken.
    pub rule: LogRule,
    /// Whether the log is of a 32-bit kernel.
    pub is_narrow: bool,
}

impl TimedLog {
    ghost use Rattle.std.specs.Prelude.{false};
    ghost use Rattle.logs.specs.Annotation.{IsOpen, context_in};
    ghost use Rattle.logs.specs.AnnotatedLogs.{first_context};
    ghost use Rattle.command_listings.specs.LineRuns.{first_times};

    /// A log that was not read yet.
    pub(crate) fn new(alloc: Global) -> Result<TimedLog, AllocError>
        ensures context { IfOk result (λ s. context_in s.lines.annotator ≡ first_context) }
        ensures open { IfOk result (λ s. IsOpen s.lines.annotator []) }
        ensures times { IfOk result (λ s. s.lines.times ≡ first_times) }
        ensures left { IfOk result (λ s. s.left.items ≡ []) }
        ensures on { IfOk result (λ s. s.is_ended ≡ false) }
        ensures head { IfOk result (λ s. s.head.items ≡ []) }
        ensures room { IfOk result (λ s. 0 < length s.room.items) }
    {
        let mut room = Vec::new(alloc);
        room.resize(BLOCK, 0)?;
        Ok(TimedLog {
            lines: TimedLines {
                annotator: Annotator::new(alloc),
                times: LogTimes::new(),
            },
            left: Vec::new(alloc),
            is_ended: false,
            head: Vec::new(alloc),
            room,
        })
    }
}

impl TimedLog {
    ghost use Rattle.command_listings.specs.TimedLogs.{ReadsOn};

    /// Reads a block into the room. Returns how many bytes it has, none at the end of the log.
    fn read<L: Read>(&mut self, reader: &mut Counted<L>) -> Result<usize, LogFault>
        requires { 0 < length self.old.room.items }
        ensures read { ReadsOn L.remaining reader.old reader.new self.old self.new result }
        ensures room { length self.new.room.items ≡ length self.old.room.items }
    {
        if self.is_ended {
            return Ok(0);
        }
        let Ok(count) = reader.read(self.room.as_mut_slice()) else {
            return Err(LogFault::Read);
        };
        self.is_ended = count == 0;
        keep_head(&mut self.head, &self.room[..count])?;
        Ok(count)
    }
}

/// The bytes that a run leaves, with the time of the line with which they begin, if there is one.
fn pending_of(alloc: Global, left: &[u8], other: Option<u64>) -> Result<Option<Pending>, AllocError>
    requires { IfNone other (left.now ≡ []) }
    ensures { IfOk result (λ pending. left_of pending ≡ left.now) }
{
    let Some(time) = other else {
        return Ok(None);
    };
    let left = Vec::from_slice(alloc, left)?;
    Ok(Some(Pending { left, time }))
}

/// Writes the lines of some bytes that a listing names, and returns what it leaves, if it leaves
/// some.
fn name_run<A: Answers, W: Write>(
    alloc: Global,
    history: &History<'_>,
    listing: &ListingAt<'_>,
    answers: &mut A,
    lines: &mut TimedLines,
    bytes: &[u8],
    writer: &mut Output<W>,
) -> Result<Option<Pending>, LogFault>
    ensures answers { A.answering answers.new ≡ A.answering answers.old }
    ensures run { Puts W.contents (PutsRun history.now listing.now.count
        (A.answering answers.old) lines.old lines.new bytes.now) writer.old writer.new result }
{
    let is_narrow = answers.is_narrow();
    let annotator = &lines.annotator;
    let run = run_in(
        alloc,
        history,
        listing,
        is_narrow,
        annotator,
        lines.times,
        bytes,
    )?;
    let pending = pending_of(alloc, run.left, run.other)?;
    lines.times = run.times;
    let annotator = &mut lines.annotator;
    annotator.pass_block(alloc, answers, run.named, writer)?;
    Ok(pending)
}

/// Writes the line that is open at the end of a log, if a listing names it.
fn name_last<A: Answers, W: Write>(
    alloc: Global,
    history: &History<'_>,
    listing: &ListingAt<'_>,
    answers: &A,
    lines: &TimedLines,
    writer: &mut Output<W>,
) -> Result<Turn, LogFault>
    ensures { PutsLast W.contents history.now listing.now.count (A.answering answers.now)
        lines.now writer.old writer.new result }
{
    let whole = lines.annotator.ended_line(alloc, &[])?;
    let is_narrow = answers.is_narrow();
    match times_if_named(history, listing, is_narrow, lines.times, whole) {
        Ok(times) => {
            let names = lines.annotator.end(alloc, answers, writer)?;
            Ok(Turn::Ended(names, times))
        }
        Err(time) => Ok(Turn::Other(time)),
    }
}

/// Names the blocks of a log that are still to be read, up to a line that another listing names.
fn name_blocks<A: Answers, L: Read, W: Write>(
    alloc: Global,
    history: &History<'_>,
    listing: &ListingAt<'_>,
    answers: &mut A,
    log: &mut TimedLog,
    reader: &mut Counted<L>,
    writer: &mut Output<W>,
) -> Result<Turn, LogFault>
    requires room { 0 < length log.old.room.items }
    requires none { log.old.left.items ≡ [] }
    ensures room { length log.new.room.items ≡ length log.old.room.items }
    ensures turn { (kernel : Option BoundNames) → (rule : LogRule)
        → AreAnswersAfter kernel rule history.now listing.now.count (A.answering answers.old)
        → TakesTurn L.remaining W.contents 0 kernel rule history.now
        log.old log.new
        reader.old reader.new writer.old writer.new result }
{
    for turn in 0..u64::MAX {
        let count = log.read(reader)?;
        if count == 0 {
            return name_last(alloc, history, listing, answers, &log.lines, writer);
        }
        let block = &log.room[..count];
        let lines = &mut log.lines;
        match name_run(alloc, history, listing, answers, lines, block, writer)? {
            Some(pending) => {
                log.left = pending.left;
                return Ok(Turn::Other(pending.time));
            }
            None => {}
        }
    }
    Err(LogFault::TooLong)
}

/// Names a log by the answers of one listing, up to a line that another listing names.
pub(crate) fn name_by<A: Answers, L: Read, W: Write>(
    alloc: Global,
    history: &History<'_>,
    listing: &ListingAt<'_>,
    answers: &mut A,
    log: &mut TimedLog,
    reader: &mut Counted<L>,
    writer: &mut Output<W>,
) -> Result<Turn, LogFault>
    requires { 0 < length log.old.room.items }
    ensures room { length log.new.room.items ≡ length log.old.room.items }
    ensures turn { (kernel : Option BoundNames) → (rule : LogRule)
        → AreAnswersAfter kernel rule history.now listing.now.count (A.answering answers.old)
        → TakesTurn L.remaining W.contents 1 kernel rule history.now
        log.old log.new
        reader.old reader.new writer.old writer.new result }
{
    let lines = &mut log.lines;
    match name_run(alloc, history, listing, answers, lines, &log.left, writer)? {
        Some(pending) => {
            log.left = pending.left;
            Ok(Turn::Other(pending.time))
        }
        None => {
            log.left = Vec::new(alloc);
            name_blocks(alloc, history, listing, answers, log, reader, writer)
        }
    }
}

/// The catalog of a listing of symbols with this text alone, and what is noted of it.
pub(crate) fn listing_catalog<'a>(
    alloc: Global,
    kallsyms: &'a [u8],
    kernel: Option<&KernelBounds>,
) -> Result<(IndexedCatalog<'a>, ListingNotes), AllocError>
    ensures { IfOk result (λ r. IsCatalogOf (option_copied kernel.entry)
        (symbols_alone kallsyms.now) r.0 r.1) }
{
    let Ok(opened) = open_symbols(alloc, kallsyms, kernel, ExpectedLookups::Any) else {
        return Err(AllocError);
    };
    let notes = opened.notes;
    let index = IndexedCatalog::new(alloc, opened.catalog)?;
    Ok((index, notes))
}

/// Names a log by one listing of a history, up to a line that another one names.
fn name_by_listing<L: Read, W: Write>(
    alloc: Global,
    catalogs: &HistoryCatalogs<'_, '_>,
    listing: &ListingAt<'_>,
    log: &mut TimedLog,
    reader: &mut Counted<L>,
    writer: &mut Output<W>,
) -> Result<Turn, LogFault>
    requires room { 0 < length log.old.room.items }
    requires of { IsOf catalogs.now.history.now listing.now }
    requires narrow { catalogs.now.is_narrow ≡ is_narrow_history catalogs.now.history.now }
    ensures room { length log.new.room.items ≡ length log.old.room.items }
    ensures turn { TakesTurn L.remaining W.contents 1 (option_copied catalogs.now.kernel)
        catalogs.now.rule catalogs.now.history.now log.old log.new
        reader.old reader.new writer.old writer.new result }
{
    let (index, _) = listing_catalog(alloc, listing.text(), catalogs.kernel)?;
    let is_narrow = catalogs.is_narrow;
    let mut answers = CatalogAnswers::new(alloc, &index, catalogs.rule, is_narrow);
    let history = catalogs.history;
    name_by(alloc, history, listing, &mut answers, log, reader, writer)
}

/// Names the rest of a log by the listings of a history. This one was asked last. The line
/// that comes next has this time, in nanoseconds.
fn name_on<'a, L: Read, W: Write>(
    alloc: Global,
    catalogs: &HistoryCatalogs<'_, 'a>,
    last: ListingAt<'a>,
    time: u64,
    log: &mut TimedLog,
    reader: &mut Counted<L>,
    writer: &mut Output<W>,
) -> Result<(LogNames, LogTimes), LogFault>
    requires room { 0 < length log.old.room.items }
    requires of { IsOf catalogs.now.history.now last }
    requires narrow { catalogs.now.is_narrow ≡ is_narrow_history catalogs.now.history.now }
    ensures { NamesOn L.remaining W.contents (option_copied catalogs.now.kernel)
        catalogs.now.rule catalogs.now.history.now log.old log.new
        reader.old reader.new writer.old writer.new result }
{
    let mut listing = last;
    let mut time = time;
    for turns in 0..u64::MAX {
        listing = catalogs.history.moved_to(alloc, listing, time)?;
        match name_by_listing(alloc, catalogs, &listing, log, reader, writer)? {
            Turn::Ended(names, times) => return Ok((names, times)),
            Turn::Other(next) => time = next,
        }
    }
    Err(LogFault::TooLong)
}

/// Names the rest of a log by the listings of a history. This one was asked last, and came
/// to this.
pub(crate) fn name_to_end<'a, L: Read, W: Write>(
    alloc: Global,
    catalogs: &HistoryCatalogs<'_, 'a>,
    last: ListingAt<'a>,
    asked: Result<Turn, LogFault>,
    log: &mut TimedLog,
    reader: &mut Counted<L>,
    writer: &mut Output<W>,
) -> Result<(LogNames, LogTimes), LogFault>
    requires room { 0 < length log.old.room.items }
    requires of { IsOf catalogs.now.history.now last }
    requires narrow { catalogs.now.is_narrow ≡ is_narrow_history catalogs.now.history.now }
    ensures { (first : Counted L) (begun : Output W) (n : ℕ)
        → IsTurn (option_copied catalogs.now.kernel) catalogs.now.rule catalogs.now.history.now
        L.remaining W.contents first begun n log.old asked reader.old writer.old
        → IsNamedOn (option_copied catalogs.now.kernel) catalogs.now.rule catalogs.now.history.now
        L.remaining W.contents first begun log.new result reader.new writer.new }
{
    match asked? {
        Turn::Ended(names, times) => Ok((names, times)),
        Turn::Other(time) => name_on(alloc, catalogs, last, time, log, reader, writer),
    }
}
