//! From the bytes of the listings and of a log to the log with the text of the answer after each
//! address.
//!
//! The listings are read whole, and their notes written, before the log is begun: it may have no
//! end. The log itself goes through line by line.
ghost use Rattle.std.specs.Prelude.{◌≡◌, [], ℕ, List, Ok, Some};
ghost use Rattle.logs.specs.declared.annotation.Findings.{Findings};
ghost use Rattle.command_listings.specs.LogNotes.{note_of_log};
ghost use Rattle.command_listings.specs.Annotations.{AnnotatesLog, IsEndTold};
ghost use Rattle.command_listings.specs.Annotations.{listed_kernel, stop_of, stopped};
ghost use Rattle.command_parts.specs.OpenedCatalogs.{known_given, listing_failures, texts_in};

use crate::log_answers::CatalogAnswers;
use crate::log_notes::{ListedKernel, note_log};
use crate::notes::note_listings;
use crate::sources::Sources;
use command_parts::{
    FAILED, Fault, ListingReaders, ListingTexts, Outputs, SUCCEEDED, open_catalog, read_given,
};
use listing::{LogRule, is_narrow, kernel_base};
use logs::{Findings, LogFault, annotate};
use modules::{ExpectedLookups, IndexedCatalog};
use order_laws::Refusal;
use std::alloc::{AllocError, Global};
use std::io::{Read, Write};
use texts::{Counted, Output};

/// How a log is read.
#[derive(Clone, Copy, Debug, PartialEq, Eq, Drop)]
pub enum LogReading {
    /// Block by block, and named by the listings as they are at its beginning.
    Blocks,
    /// Block by block, and the listings again after blocks of it.
    Followed,
    /// As a whole, for the offset of its kernel, which it says itself.
    Whole,
}

/// Which log is annotated.
#[derive(Debug, Drop)]
pub struct Annotate<'a> {
    /// How the addresses of the log are taken. The offset of a log that is read as a whole is its
    /// own.
    pub rule: LogRule,
    /// How the log is read.
    pub reading: LogReading,
    /// The file of the log; `-` is the standard input.
    pub log: &'a str,
}

/// What is asked for of a log: the listings that name its addresses, and how it is annotated.
#[derive(Clone, Copy, Debug, Drop)]
pub struct LogRequest<'j, 'a> {
    pub sources: &'j Sources<'a>,
    pub job: &'j Annotate<'a>,
}

/// Why a log is annotated no further.
#[derive(Clone, Copy, Debug, Drop)]
pub enum Stop {
    /// Nobody reads any more what is written.
    Closed,
    /// There is a fault.
    Failed(Fault),
}

impl From<Fault> for Stop {
    ghost use Rattle.command_listings.specs.declared.annotations.Stop.TheVariants.{Failed};

    ghost from_gives = { λ fault stop. stop ≡ Failed fault };

    fn from(fault: Fault) -> Stop {
        Stop::Failed(fault)
    }
}

impl From<AllocError> for Stop {
    ghost use Rattle.command_parts.specs.declared.fault.Fault.TheVariants.{Refused};
    ghost use Rattle.command_listings.specs.declared.annotations.Stop.TheVariants.{Failed};
    ghost use Rattle.order_laws.specs.declared.refusals.Refusal.TheVariants.{OutOfMemory};

    ghost from_gives = { λ _ stop. stop ≡ Failed (Refused OutOfMemory) };

    fn from(_error: AllocError) -> Stop {
        Stop::Failed(Fault::Refused(Refusal::OutOfMemory))
    }
}

/// The place of the log among the files that are read.
pub const LOG_PLACE: u64 = 3;

/// Writes a log again, with the text of the answer after each address in it that the listings have.
/// The sources say between which symbols the kernel itself lies, and the job how the addresses are
/// taken; the listing of symbols says whether the log is of a 32-bit kernel.
///
/// The notes on the listings are written before the log is begun. Every fault that comes before
/// that leaves the log and both outputs as they were. Each line of the log is written, and the
/// writer flushed, after the block that its end is in was read; so whatever ends it, what was
/// written is a beginning of the annotated log. The status is 1 if nobody reads any more what is
/// written, as before `head`. After a log that was annotated to its end it is noted if it is packed
/// or of wide characters, if the names that it has itself are not in the listing, or if none of its
/// addresses has a name. docs/FORMATS.md has the listings, and says what is inserted.
pub fn annotate_engine<M: Read, K: Read, R: Read, L: Read, E: Write, W: Write>(
    alloc: Global,
    listings: &mut ListingReaders<M, K, R>,
    log: &mut Counted<L>,
    request: LogRequest<'_, '_>,
    outputs: &mut Outputs<W, E>,
) -> Result<u8, Fault>
    ensures { AnnotatesLog L.remaining W.contents E.contents request.entry.sources.now
        request.entry.job.now (known_given M.remaining K.remaining R.remaining listings.old)
        (listing_failures listings.old listings.new)
        log.old log.new outputs.old.writer outputs.new.writer
        outputs.old.errors outputs.new.errors result }
{
    let texts = read_given(alloc, listings)?;
    annotate_by_texts(alloc, &texts, request, log, outputs)
}

/// Writes the notes on the listings with these texts, and then the log again by their catalog; and
/// notes if the log is packed, or if the listing is another one.
pub(crate) fn annotate_by_texts<L: Read, E: Write, W: Write>(
    alloc: Global,
    texts: &ListingTexts,
    request: LogRequest<'_, '_>,
    log: &mut Counted<L>,
    outputs: &mut Outputs<W, E>,
) -> Result<u8, Fault>
    ensures { AnnotatesLog L.remaining W.contents E.contents request.entry.sources.now
        request.entry.job.now (Some (texts_in texts.now)) [] log.old log.new outputs.old.writer
        outputs.new.writer outputs.old.errors outputs.new.errors result }
{
    let opened = open_catalog(
        alloc,
        texts,
        request.sources.kernel.as_ref(),
        ExpectedLookups::Any,
    )?;
    let notes = opened.notes;
    let index = IndexedCatalog::new(alloc, opened.catalog)?;
    note_listings(&notes, request.sources, &mut outputs.errors);
    let is_narrow = is_narrow(&texts.kallsyms);
    let mut answers = CatalogAnswers::new(alloc, &index, request.job.rule, is_narrow);
    let end = stopped(annotate(alloc, &mut answers, log, &mut outputs.writer));
    let kernel = kernel_if_said(&end, &texts.kallsyms, request.job.rule.offset);
    conclude_log(end, request.job.log, kernel, &mut outputs.errors)
}

/// The place of the kernel by a listing of symbols with this text, for addresses that are looked up
/// this many bytes lower.
pub(crate) fn listed_kernel(kallsyms: &[u8], offset: u64) -> ListedKernel
    ensures { result ≡ listed_kernel kallsyms.now offset }
{
    ListedKernel {
        base: kernel_base(kallsyms),
        offset,
    }
}

/// That place, sought only if the log says the place of its own kernel: nothing else is noted by
/// it.
#[tactic(auto, using(crate::proofs::AnnotationLemmas::unsaid))]
pub(crate) fn kernel_if_said(
    end: &Result<Findings, Stop>,
    kallsyms: &[u8],
    offset: u64,
) -> ListedKernel
    ensures { (found : Findings) → end.now ≡ Ok found → (head : List ℕ)
        → note_of_log head found.names result
        ≡ note_of_log head found.names (listed_kernel kallsyms.now offset) }
{
    match end {
        Ok(found) if found.names.kernel.offset.is_some() => listed_kernel(kallsyms, offset),
        _ => ListedKernel { base: None, offset },
    }
}

/// What was put, or why a log is annotated no further.
pub(crate) fn stopped<T>(put: Result<T, LogFault>) -> Result<T, Stop>
    ensures { result ≡ stopped put }
{
    match put {
        Ok(value) => Ok(value),
        Err(fault) => Err(stop_of(fault)),
    }
}

/// Why a log is annotated no further if there is this fault.
pub(crate) fn stop_of(fault: LogFault) -> Stop
    ensures { result ≡ stop_of fault }
{
    match fault {
        LogFault::Closed => Stop::Closed,
        LogFault::OutOfMemory => Stop::Failed(Fault::Refused(Refusal::OutOfMemory)),
        LogFault::Read => Stop::Failed(Fault::Read { place: LOG_PLACE }),
        LogFault::Write => Stop::Failed(Fault::Write),
        LogFault::TooLong => Stop::Failed(Fault::TooLong { place: LOG_PLACE }),
    }
}

/// Writes the note on the log in this file if it was annotated to its end, or else the fault.
/// Returns the program's status, which is 1 if nobody reads the output any more.
pub(crate) fn conclude_log<E: Write>(
    end: Result<Findings, Stop>,
    log: &str,
    kernel: ListedKernel,
    errors: &mut Output<E>,
) -> Result<u8, Fault>
    ensures { IsEndTold E.contents log.now kernel errors.old errors.new end result }
{
    match end {
        Ok(found) => {
            note_log(&found, log, kernel, errors);
            Ok(SUCCEEDED)
        }
        Err(Stop::Closed) => Ok(FAILED),
        Err(Stop::Failed(fault)) => Err(fault),
    }
}
