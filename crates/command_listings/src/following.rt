//! From a log that lasts, and its listings as they are again and again, to the log with the text of
//! the answer after each address.
//!
//! ```text
//!     listings   A           A'                           A''
//!     log          |  block  |   block    |     block     |     block ..
//!     written                 lines that   lines that end  lines that end
//!                             end in it,   in it have no   in it, named
//!                             named by A'  address         by A''
//! ```
//!
//! So a module that was loaded since has its name, a line is named by the listings as they were
//! read after the block that its end is in, and a log in which nothing asks for a name costs no
//! reading.
ghost use Rattle.std.specs.Prelude.{◌≡◌, ◌<◌, length, false, true, IfErr, IfOk, List, ℕ, Some};
ghost use Rattle.texts.specs.Lines.{lines_of};
ghost use Rattle.texts.specs.Output.{Says};
ghost use Rattle.listing.specs.KernelLines.{shows_symbol};
ghost use Rattle.logs.specs.Annotation.{IsOpen, Puts};
ghost use Rattle.order_laws.specs.declared.refusals.Refusal.TheVariants.{OutOfMemory};
ghost use Rattle.command_parts.specs.OpenedCatalogs.{texts_in};
ghost use Rattle.command_parts.specs.declared.fault.Fault.TheVariants.{Refused};
ghost use Rattle.command_listings.specs.Following.{By, FollowsLog, FollowsTurns, GivesCatalog};
ghost use Rattle.command_listings.specs.Following.{NamesAfter, NotesTold, PutsAs, PutsIfNamed};
ghost use Rattle.command_listings.specs.Following.{PutsNameless, PutsPart};
ghost use Rattle.command_listings.specs.Following.{ReadsAgain, ReadsOnce, SaysNoCatalog, TakesPart};
ghost use Rattle.command_listings.specs.Following.{Unnamed, asks_for_names, told_once};
ghost use Rattle.command_listings.specs.LastingLogs.{Event, Listings};
ghost use Rattle.command_listings.specs.NoNames.{TellsUnread};
ghost use Rattle.command_listings.specs.declared.annotations.Stop.TheVariants.{Failed};

use crate::annotations::{LOG_PLACE, LogRequest, Stop, conclude_log, listed_kernel, stopped};
use crate::lasting_log::LastingLog;
use crate::log_answers::CatalogAnswers;
use crate::no_names::{NoNames, put_unread};
use crate::notes::note_listings;
use crate::sources::{ListingFiles, Sources};
use command_parts::{Fault, ListingTexts, Outputs, open_catalog};
use listing::{is_narrow, shows_symbol};
use logs::{Annotator, Answers, Findings, LogFault, LogNames, keep_head};
use modules::{ExpectedLookups, IndexedCatalog};
use order_laws::Refusal;
use std::alloc::Global;
use std::io::Write;
use texts::{BLOCK, Output};

/// How far a log was followed.
#[derive(Clone, Copy, Debug, Drop)]
pub struct Followed {
    /// Whether the listings that gave names last are of a 32-bit kernel.
    pub is_narrow: bool,
    /// Whether it was noted that listings give none.
    pub is_told: bool,
}

/// A part of a log that is put at once.
#[derive(Clone, Copy, Debug, Drop)]
pub enum Part<'b> {
    /// The lines that have their end in a block.
    Lines(&'b [u8]),
    /// The line that has no end, once the log is at its end.
    Last,
}

/// Writes a log that lasts again, with the text of the answer after each address in it that the
/// listings have.
///
/// The listings are read before the log is begun, and again after each block in which a line with
/// an address ends: these name the lines that end in it. The notes on the first reading are written
/// before the log is begun. If a later one fails, or shows no symbol, the lines that it
/// is for are written without names, which is noted the first time. All else is as in
/// `annotate_engine`.
pub fn follow_engine<L: LastingLog, E: Write, W: Write>(
    alloc: Global,
    log: &mut L,
    request: LogRequest<'_, '_>,
    outputs: &mut Outputs<W, E>,
) -> Result<u8, Fault>
    ensures { FollowsLog W.contents E.contents request.entry.sources.now request.entry.job.now
        (L.seen log.old) (L.seen log.new) outputs.old.writer outputs.new.writer
        outputs.old.errors outputs.new.errors result }
{
    let mut room = Vec::new(alloc);
    room.resize(BLOCK, 0)?;
    let texts = log.read_listings(alloc)?;
    note_texts(alloc, &texts, request.sources, &mut outputs.errors)?;
    let is_narrow = is_narrow(&texts.kallsyms);
    let kernel = listed_kernel(&texts.kallsyms, request.job.rule.offset);
    let followed = Followed {
        is_narrow,
        is_told: false,
    };
    drop(texts);
    let room = room.as_mut_slice();
    let end = follow_blocks(alloc, log, followed, room, request, outputs);
    conclude_log(end, request.job.log, kernel, &mut outputs.errors)
}

/// Writes the notes on the listings with these texts.
fn note_texts<E: Write>(
    alloc: Global,
    texts: &ListingTexts,
    sources: &Sources<'_>,
    errors: &mut Output<E>,
) -> Result<(), Fault>
    ensures { NotesTold E.contents sources.now (texts_in texts.now) errors.old errors.new result }
{
    let opened = open_catalog(alloc, texts, sources.kernel.as_ref(), ExpectedLookups::Any)?;
    note_listings(&opened.notes, sources, errors);
    Ok(())
}

/// Writes the lines of a log, block by block.
fn follow_blocks<L: LastingLog, E: Write, W: Write>(
    alloc: Global,
    log: &mut L,
    first: Followed,
    room: &mut [u8],
    request: LogRequest<'_, '_>,
    outputs: &mut Outputs<W, E>,
) -> Result<Findings, Stop>
    requires room { 0 < length room.old }
    requires told { first.is_told ≡ false }
    requires known { (L.seen log.old).next ≡ (L.seen log.old).later }
    ensures { FollowsTurns W.contents E.contents request.entry.sources.now request.entry.job.now
        first.is_narrow (L.seen log.old) (L.seen log.new) outputs.old.writer outputs.new.writer
        outputs.old.errors outputs.new.errors result }
{
    let mut followed = first;
    let mut annotator = Annotator::new(alloc);
    let mut head = Vec::new(alloc);
    for turn in 0..u64::MAX {
        let count = log.read_block(room)?;
        if count == 0 {
            let (_, names) = put_part(
                alloc,
                log,
                request,
                followed,
                &mut annotator,
                Part::Last,
                outputs,
            )?;
            return Ok(Findings { names, head });
        }
        let block = &room[..count];
        keep_head(&mut head, block)?;
        let (now, _) = put_part(
            alloc,
            log,
            request,
            followed,
            &mut annotator,
            Part::Lines(block),
            outputs,
        )?;
        followed = now;
    }
    Err(Stop::Failed(Fault::TooLong { place: LOG_PLACE }))
}

/// Writes a part of a log, named by the listings as they are now if one of its lines has an
/// address.
fn put_part<L: LastingLog, E: Write, W: Write>(
    alloc: Global,
    log: &mut L,
    request: LogRequest<'_, '_>,
    followed: Followed,
    annotator: &mut Annotator,
    part: Part<'_>,
    outputs: &mut Outputs<W, E>,
) -> Result<(Followed, LogNames), Stop>
    ensures { TakesPart W.contents E.contents request.entry.sources.now request.entry.job.now
        part.entry followed annotator.old annotator.new (L.seen log.old) (L.seen log.new)
        outputs.old.writer outputs.new.writer outputs.old.errors outputs.new.errors result }
{
    let asks = asks_for_names(alloc, annotator, followed.is_narrow, part)?;
    if asks {
        return put_after_reading(alloc, log, request, followed, annotator, part, outputs);
    }
    let names = put_unnamed(
        alloc,
        followed.is_narrow,
        annotator,
        part,
        &mut outputs.writer,
    )?;
    Ok((followed, names))
}

/// Reads the listings again, and writes a part of a log, named by them. If they give no names it
/// has none, which is noted once.
fn put_after_reading<L: LastingLog, E: Write, W: Write>(
    alloc: Global,
    log: &mut L,
    request: LogRequest<'_, '_>,
    followed: Followed,
    annotator: &mut Annotator,
    part: Part<'_>,
    outputs: &mut Outputs<W, E>,
) -> Result<(Followed, LogNames), Stop>
    ensures { (event : Event) × ReadsOnce (L.seen log.old) (L.seen log.new) (Some event)
        × NamesAfter W.contents E.contents request.entry.sources.now request.entry.job.now
        part.entry followed annotator.old annotator.new event outputs.old.writer
        outputs.new.writer outputs.old.errors outputs.new.errors result }
{
    let outcome = put_again(
        alloc,
        log,
        request,
        followed,
        annotator,
        part,
        &mut outputs.writer,
    )?;
    match outcome {
        Ok(put) => Ok(put),
        Err(why) => {
            note_once(
                &mut outputs.errors,
                &request.sources.files,
                &why,
                followed.is_told,
            );
            put_nameless(alloc, followed, annotator, part, &mut outputs.writer)
        }
    }
}

/// Writes a part of a log for which the listings give no names.
fn put_nameless<W: Write>(
    alloc: Global,
    followed: Followed,
    annotator: &mut Annotator,
    part: Part<'_>,
    writer: &mut Output<W>,
) -> Result<(Followed, LogNames), Stop>
    ensures { PutsAs W.contents (PutsNameless part.entry followed annotator.old annotator.new)
        writer.old writer.new result }
{
    let is_narrow = followed.is_narrow;
    let names = put_unnamed(alloc, is_narrow, annotator, part, writer)?;
    let is_told = true;
    Ok((Followed { is_narrow, is_told }, names))
}

/// Writes why listings give no names, unless it was noted before.
fn note_once<E: Write>(
    errors: &mut Output<E>,
    files: &ListingFiles<'_>,
    why: &NoNames,
    is_told: bool,
)
    ensures { (note : List ℕ) × TellsUnread files.now why.now note
        × Says E.contents errors.old errors.new (told_once is_told note) }
{
    if is_told {
        return;
    }
    put_unread(errors, files, why);
}

/// Reads the listings again, and writes a part of a log that they name. Returns how it goes on, or
/// why they give no names: then nothing was written.
fn put_again<L: LastingLog, W: Write>(
    alloc: Global,
    log: &mut L,
    request: LogRequest<'_, '_>,
    followed: Followed,
    annotator: &mut Annotator,
    part: Part<'_>,
    writer: &mut Output<W>,
) -> Result<Result<(Followed, LogNames), NoNames>, Stop>
    ensures { (event : Event) × ReadsOnce (L.seen log.old) (L.seen log.new) (Some event)
        × PutsIfNamed W.contents request.entry.sources.now request.entry.job.now part.entry
        followed annotator.old annotator.new event writer.old writer.new result }
{
    match read_again(alloc, log)? {
        Ok(texts) => put_named(alloc, &texts, request, followed, annotator, part, writer),
        Err(why) => Ok(Err(why)),
    }
}

/// Whether one of the lines of a part has an address word.
fn asks_for_names(
    alloc: Global,
    annotator: &Annotator,
    is_narrow: bool,
    part: Part<'_>,
) -> Result<bool, Stop>
    ensures asks { IfOk result (λ b. (line : List ℕ) → IsOpen annotator.now line
        → b ≡ asks_for_names part.entry is_narrow line) }
    ensures memory { IfErr result (λ s. s ≡ Failed (Refused OutOfMemory)) }
{
    match part {
        Part::Lines(block) => Ok(annotator.ends_address(alloc, is_narrow, block)?),
        Part::Last => Ok(annotator.has_address(is_narrow)),
    }
}

/// Reads the listings again. Returns their texts, if they show a symbol, or why they give no names.
fn read_again<L: LastingLog>(
    alloc: Global,
    log: &mut L,
) -> Result<Result<ListingTexts, NoNames>, Stop>
    ensures { ReadsAgain (L.seen log.old) (L.seen log.new) result }
{
    match log.read_listings(alloc) {
        Ok(texts) if shows_symbol(&texts.kallsyms) => Ok(Ok(texts)),
        Ok(_) => Ok(Err(NoNames::NoSymbol)),
        Err(unlisted) => match unlisted.fault {
            Fault::Read { place } => Ok(Err(NoNames::Unread {
                place,
                error: unlisted.error,
            })),
            fault => Err(Stop::Failed(fault)),
        },
    }
}

/// Writes a part of a log that the catalog of listings with these texts names. Returns how it goes
/// on, or why there is no such catalog: then nothing was written.
fn put_named<W: Write>(
    alloc: Global,
    texts: &ListingTexts,
    request: LogRequest<'_, '_>,
    followed: Followed,
    annotator: &mut Annotator,
    part: Part<'_>,
    writer: &mut Output<W>,
) -> Result<Result<(Followed, LogNames), NoNames>, Stop>
    requires { shows_symbol (lines_of (texts_in texts.now).kallsyms) ≡ true }
    ensures { PutsIfNamed W.contents request.entry.sources.now request.entry.job.now part.entry
        followed annotator.old annotator.new (Listings (texts_in texts.now)) writer.old writer.new
        result }
{
    let index = match index_of(alloc, request.sources, texts) {
        Ok(index) => index,
        Err(fault) => return Ok(Err(no_catalog(fault)?)),
    };
    let is_narrow = is_narrow(&texts.kallsyms);
    let mut answers = CatalogAnswers::new(alloc, &index, request.job.rule, is_narrow);
    let names = stopped(put_by(alloc, &mut answers, annotator, part, writer))?;
    let is_told = followed.is_told;
    Ok(Ok((Followed { is_narrow, is_told }, names)))
}

/// Why listings give no names that say no catalog for this fault, unless there is no memory.
fn no_catalog(fault: Fault) -> Result<NoNames, Stop>
    ensures { SaysNoCatalog fault result }
{
    match fault {
        Fault::BadLine { place, line } => Ok(NoNames::BadLine { place, line }),
        Fault::Refused(Refusal::TooManyRegions) => Ok(NoNames::TooManyRegions),
        _ => Err(Stop::Failed(Fault::Refused(Refusal::OutOfMemory))),
    }
}

/// Writes a part of a log, named by these answers, and returns the names of the log.
fn put_by<A: Answers, W: Write>(
    alloc: Global,
    answers: &mut A,
    annotator: &mut Annotator,
    part: Part<'_>,
    writer: &mut Output<W>,
) -> Result<LogNames, LogFault>
    ensures { Puts W.contents (PutsPart part.entry annotator.old annotator.new
        (By (A.answering answers.old))) writer.old writer.new result }
{
    match part {
        Part::Lines(block) => {
            annotator.pass_block(alloc, answers, block, writer)?;
            Ok(annotator.names())
        }
        Part::Last => annotator.end(alloc, answers, writer),
    }
}

/// Writes a part of a log that nothing names, and returns the names of the log.
fn put_unnamed<W: Write>(
    alloc: Global,
    is_narrow: bool,
    annotator: &mut Annotator,
    part: Part<'_>,
    writer: &mut Output<W>,
) -> Result<LogNames, Stop>
    ensures { PutsAs W.contents (PutsPart part.entry annotator.old annotator.new
        (Unnamed is_narrow)) writer.old writer.new result }
{
    match part {
        Part::Lines(block) => {
            stopped(annotator.pass_unnamed(alloc, is_narrow, block, writer))?;
            Ok(annotator.names())
        }
        Part::Last => stopped(annotator.end_unnamed(alloc, is_narrow, writer)),
    }
}

/// The catalog of the listings with these texts.
fn index_of<'a>(
    alloc: Global,
    sources: &Sources<'_>,
    texts: &'a ListingTexts,
) -> Result<IndexedCatalog<'a>, Fault>
    ensures { GivesCatalog sources.now.kernel (texts_in texts.now) result }
{
    let opened = open_catalog(alloc, texts, sources.kernel.as_ref(), ExpectedLookups::Any)?;
    Ok(IndexedCatalog::new(alloc, opened.catalog)?)
}
