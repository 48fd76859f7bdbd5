//! A log that is annotated by the offset of its kernel, which it says itself.
//!
//! A kernel is moved at boot, so the addresses of a log are others than in the listing of another
//! boot, or of the build. What a panic says of it gives the difference:
//!
//! ```text
//!     log        Kernel Offset: 0x1a600000 from 0xffffffff81000000
//!                the kernel lay at 0xffffffff9b600000
//!     listing    ffffffff81000000 T _text
//!                it lies 0x1a600000 lower there
//! ```
//!
//! Modules are moved on their own, so the modules of such a listing are left out.
ghost use Rattle.std.specs.Prelude.{◌≡◌, IfOk};
ghost use Rattle.texts.specs.Counted.{device_of};
ghost use Rattle.texts.specs.Output.{Says};
ghost use Rattle.command_parts.specs.OpenedCatalogs.{known_given, listing_failures, texts_in};
ghost use Rattle.command_listings.specs.OwnOffsets.{OpensAndWrites, WritesByOffset};
ghost use Rattle.command_listings.specs.OwnOffsets.{WritesByOwnOffset, all_failures, asked_by};
ghost use Rattle.command_listings.specs.OwnOffsets.{by_offset, failure_line, no_offset_line};
ghost use Rattle.command_listings.specs.OwnOffsets.{own_offset};

use crate::annotations::{Annotate, LOG_PLACE, LogRequest, conclude_log, kernel_if_said, stopped};
use crate::log_answers::CatalogAnswers;
use crate::notes::note_listings;
use crate::sources::Sources;
use command_parts::{
    FAILED, Fault, ListingReaders, ListingTexts, Outputs, open_catalog, read_at, read_given,
};
use listing::{LogRule, is_narrow, kernel_base, without_modules};
use logs::{annotate_text, kernel_offset_in};
use modules::{ExpectedLookups, IndexedCatalog};
use std::alloc::{AllocError, Global};
use std::io::{Read, Write};
use texts::{Counted, Output};

/// Writes a log again as [`annotate_engine`](crate::annotate_engine) does, by the offset that the
/// log itself says in place of the job's. The log is read whole first, and written in one piece.
///
/// If the log does not give the place of its kernel, or the listing not its own, the output for
/// errors gets the reason, nothing else is written, and the status is 1. docs/FORMATS.md says which
/// texts of a log count.
pub fn own_offset_engine<M: Read, K: Read, R: Read, L: Read, E: Write, W: Write>(
    alloc: Global,
    listings: &mut ListingReaders<M, K, R>,
    log: &mut Counted<L>,
    request: LogRequest<'_, '_>,
    outputs: &mut Outputs<W, E>,
) -> Result<u8, Fault>
    ensures { WritesByOwnOffset W.contents E.contents request.entry.sources.now
        request.entry.job.now outputs.old.writer outputs.new.writer outputs.old.errors
        outputs.new.errors (known_given M.remaining K.remaining R.remaining listings.old)
        (L.remaining (device_of log.old))
        (all_failures (listing_failures listings.old listings.new) log.old log.new) result }
{
    let texts = read_given(alloc, listings)?;
    let log = read_at(alloc, log, LOG_PLACE)?;
    let said = own_offset(&log, &texts.kallsyms);
    write_by_own_offset(alloc, texts, &log, said, request, outputs)
}

/// Writes a log with this text again by the offset that it says, if it says one.
pub(crate) fn write_by_own_offset<E: Write, W: Write>(
    alloc: Global,
    texts: ListingTexts,
    log: &[u8],
    said: Result<u64, NoOffset>,
    request: LogRequest<'_, '_>,
    outputs: &mut Outputs<W, E>,
) -> Result<u8, Fault>
    ensures { WritesByOffset W.contents E.contents request.entry.sources.now
        request.entry.job.now outputs.old.writer outputs.new.writer outputs.old.errors
        outputs.new.errors (texts_in texts) log.now said result }
{
    let offset = match said {
        Ok(offset) => offset,
        Err(why) => return Ok(note_no_offset(
            why,
            request.sources,
            request.job,
            &mut outputs.errors,
        )),
    };
    let asked = asked_by(alloc, offset, texts)?;
    let rule = by_offset(offset, request.job.rule);
    open_and_write(alloc, &asked, log, request, rule, outputs)
}

const PROGRAM: &[u8] = b"latchsym: ";

const NO_OFFSET_SAID: &[u8] = b": does not say where its kernel lay\n";

const NO_BASE_LISTED: &[u8] = b": has no symbol _text or _stext\n";

/// Why a log cannot be annotated by the offset that it says itself.
#[derive(Clone, Copy, Debug, PartialEq, Eq, Drop)]
pub enum NoOffset {
    /// It does not give the place of its kernel.
    Unsaid,
    /// The listing of symbols lacks the place of its kernel.
    NoBase,
}

/// Writes why there is no offset, and returns the program's status.
fn note_no_offset<E: Write>(
    why: NoOffset,
    sources: &Sources<'_>,
    job: &Annotate<'_>,
    errors: &mut Output<E>,
) -> u8
    ensures status { result ≡ 1 }
    ensures line { Says E.contents errors.old errors.new
        (no_offset_line sources.now job.now why) }
{
    match why {
        NoOffset::Unsaid => put_failure(errors, job.log, NO_OFFSET_SAID),
        NoOffset::NoBase => put_failure(errors, sources.files.kallsyms, NO_BASE_LISTED),
    }
    FAILED
}

/// Writes what is wrong with a file.
fn put_failure<E: Write>(writer: &mut Output<E>, file: &str, message: &[u8])
    ensures { Says E.contents writer.old writer.new (failure_line file.now message.now) }
{
    writer.put(PROGRAM);
    writer.put(file.as_bytes());
    writer.put(message);
}

/// How much higher the log's kernel lay than the listing's, by what the log says.
pub(crate) fn own_offset(log: &[u8], kallsyms: &[u8]) -> Result<u64, NoOffset>
    ensures { result ≡ own_offset log.now kallsyms.now }
{
    match (kernel_offset_in(log), kernel_base(kallsyms)) {
        (None, _) => Err(NoOffset::Unsaid),
        (Some(_), None) => Err(NoOffset::NoBase),
        (Some(kernel), Some(base)) => Ok(kernel.place().wrapping_sub(base)),
    }
}

/// The listings that are asked if the kernel was moved by this offset.
fn asked_by(alloc: Global, offset: u64, texts: ListingTexts) -> Result<ListingTexts, AllocError>
    ensures { IfOk result (λ asked. texts_in asked ≡ asked_by offset (texts_in texts)) }
{
    if offset == 0 {
        return Ok(texts);
    }
    let kallsyms = without_modules(alloc, &texts.kallsyms)?;
    Ok(ListingTexts::of_symbols(kallsyms))
}

/// The rule with this offset.
pub(crate) fn by_offset(offset: u64, rule: LogRule) -> LogRule
    ensures { result ≡ by_offset offset rule }
{
    LogRule { offset, ..rule }
}

/// Writes the notes on these listings, and then a log with this text again by their catalog.
fn open_and_write<E: Write, W: Write>(
    alloc: Global,
    texts: &ListingTexts,
    log: &[u8],
    request: LogRequest<'_, '_>,
    rule: LogRule,
    outputs: &mut Outputs<W, E>,
) -> Result<u8, Fault>
    ensures { OpensAndWrites W.contents E.contents request.entry.sources.now
        request.entry.job.now outputs.old.writer outputs.new.writer outputs.old.errors
        outputs.new.errors rule (texts_in texts.now) log.now result }
{
    let opened = open_catalog(
        alloc,
        texts,
        request.sources.kernel.as_ref(),
        ExpectedLookups::Any,
    )?;
    let index = IndexedCatalog::new(alloc, opened.catalog)?;
    note_listings(&opened.notes, request.sources, &mut outputs.errors);
    let mut answers = CatalogAnswers::new(alloc, &index, rule, is_narrow(&texts.kallsyms));
    answers.index.mark_names(alloc);
    let end = stopped(annotate_text(alloc, &mut answers, log, &mut outputs.writer));
    let kernel = kernel_if_said(&end, &texts.kallsyms, rule.offset);
    conclude_log(end, request.job.log, kernel, &mut outputs.errors)
}
