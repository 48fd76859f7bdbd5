//! A job from the names of its files to its status: its files are opened, and then its engine
//! answers over their readers.
ghost use Rattle.std.specs.Prelude.{◌≡◌, IfOk, IfErr, List, ℕ, None, Option, map};
ghost use Rattle.std.specs.Option.{option_map};
ghost use Rattle.texts.specs.Output.{error_in};
ghost use Rattle.command_parts.specs.Faults.{with_notes, with_status};
ghost use Rattle.listing.specs.ListingNotes.{no_notes};
ghost use Rattle.command_listings.specs.Addresses.{IsAddressed};
ghost use Rattle.command_listings.specs.Checks.{IsChecked};
ghost use Rattle.command_listings.specs.Following.{FollowsLog};
ghost use Rattle.command_listings.specs.LastingLogs.{Seen};
ghost use Rattle.latchsym.specs.Files.{AreListingFiles, AreSourceFiles, IsNew, IsOpened};
ghost use Rattle.latchsym.specs.Files.{IsOpenedFor};
ghost use Rattle.latchsym.specs.Files.{IsOpenedIfGiven};
ghost use Rattle.latchsym.specs.Files.{or_standard};
ghost use Rattle.latchsym.specs.Outcomes.{AnswersSources, ComesTo, IsLookedUpBy, IsOutcome};
ghost use Rattle.latchsym.specs.Outcomes.{IsOutcomeOfLog, IsOutcomeOfRun, query_of, seen_first};
ghost use Rattle.latchsym.specs.Reasons.{error_if_given, error_of_listings, error_of_request};

use crate::followed_files::FollowedFiles;
use crate::recorded_events::run_record;
use command_line::{Address, Job, Lookup, Request, Run, Subcommand};
use command_listings::{
    ListingFiles, LogReading, LogRequest, Sources, SymbolSource, address_engine, address_engine_at,
    annotate_engine, check_engine, check_engine_at, follow_engine, history_annotate_engine,
    history_own_offset_engine, own_offset_engine,
};
use command_parts::{
    Fault, Finished, ListingReaders, Outputs, with_notes, with_status, without_notes,
};
use command_tables::{LookupOptions, lookup_engine, lookup_engine_at, run_engine};
use command_traces::{steps_engine, trace_engine};
use listing::ListingNotes;
use modules::KernelBounds;
use order_laws::Refusal;
use std::alloc::Global;
use std::io;
use std::io::{Read, Write};
use std::sync::Wait;
use std::thread::Threads;
use texts::{Counted, Output};

/// The opener of the files of a job. A file that cannot be opened is one whose reader fails, so
/// that the first file that fails, in the order of reading, is reported.
pub trait FileSource {
    /// A reader of a file.
    type File: Read + Drop;

    /// What the file of each name holds, if that is known.
    ghost file_text: { Self → List ℕ → Option (List ℕ) };

    /// What the standard input holds, if that is known.
    ghost standard: { Self → Option (List ℕ) };

    /// A reader of the file of this name. Refused only when out of memory.
    fn open(&self, name: &str) -> Result<Counted<Self::File>, Refusal>
        ensures opened { IfOk result (IsOpened Self.File.remaining (file_text self.now) name.now) }
        ensures refusal { IfErr result (λ e. e ≡ Refusal.OutOfMemory) };

    /// A reader of the standard input.
    fn standard_input(&self) -> Counted<Self::File>
        ensures { IsNew Self.File.remaining (standard self.now) result };
}

/// A job with the readers of the files that it names.
#[derive(Drop)]
pub enum OpenedJob<'j, 'a, R> {
    Trace(Counted<R>),
    Steps(Counted<R>),
    /// A request with the readers of its listings and of the file after them, if there is one.
    Request(&'j Request<'a>, ListingReaders<R, R, R>, Option<Counted<R>>),
}

/// What a run, or a log, comes to whose file has no reader.
pub(crate) const UNREAD: Fault = Fault::Read { place: 3 };

/// Opens the files that a job names.
pub fn open_job<'j, 'a, F: FileSource>(
    files: &F,
    job: &'j Job<'a>,
) -> Result<OpenedJob<'j, 'a, F::File>, Refusal>
    ensures opened { IfOk result
        (IsOpenedFor F.File.remaining (F.file_text files.now) (F.standard files.now) job.now) }
    ensures refusal { IfErr result (λ e. e ≡ Refusal.OutOfMemory) }
{
    match job {
        Job::Trace { file } => Ok(OpenedJob::Trace(files.open(file)?)),
        Job::Steps { file } => Ok(OpenedJob::Steps(files.open(file)?)),
        Job::Request(request) => {
            let listings = open_sources(files, &request.sources)?;
            let input = open_input(files, request.subcommand.input())?;
            Ok(OpenedJob::Request(request, listings, input))
        }
    }
}

/// Does the job over its readers: has its engine answer with the job's own options, addresses and
/// number of readers. Returns the program's status and the notes on the listings, or why it failed.
/// The notes on the listings of a log are written before the log is begun. If it is
/// followed, the files of its listings are opened again.
pub fn run_job<T: Threads + Wait + Sync, F: FileSource, W: Write, E: Write>(
    threads: &T,
    alloc: Global,
    files: &F,
    job: &mut OpenedJob<'_, '_, F::File>,
    outputs: &mut Outputs<W, E>,
) -> Result<Finished, Fault>
    ensures { IsOutcome F.File.remaining (F.file_text files.now) W.contents E.contents
        outputs.old.writer outputs.new.writer outputs.old.errors outputs.new.errors
        job.old job.new result }
{
    match job {
        OpenedJob::Trace(reader) => {
            with_status(without_notes(trace_engine(alloc, reader, &mut outputs.writer)))
        }
        OpenedJob::Steps(reader) => {
            with_status(without_notes(steps_engine(alloc, reader, &mut outputs.writer)))
        }
        OpenedJob::Request(request, listings, input) => {
            let sources = &request.sources;
            match &request.subcommand {
                Subcommand::Lookup(lookup) => {
                    run_lookup(alloc, sources, lookup, listings, input, &mut outputs.writer)
                }
                Subcommand::Run(run) => {
                    let writer = &mut outputs.writer;
                    run_script(threads, alloc, sources, run, listings, input, writer)
                }
                Subcommand::Annotate(job) => {
                    let request = LogRequest { sources, job };
                    run_annotate(alloc, files, request, listings, input, outputs)
                }
                Subcommand::Check => run_check(alloc, sources, listings, &mut outputs.writer),
                Subcommand::Address(address) => {
                    run_address(alloc, sources, address, listings, &mut outputs.writer)
                }
                Subcommand::Record(record) => {
                    let writer = &mut outputs.writer;
                    run_record(alloc, files, sources, record, listings, input, writer)
                }
            }
        }
    }
}

/// Looks addresses up.
fn run_lookup<R: Read, W: Write>(
    alloc: Global,
    sources: &Sources<'_>,
    lookup: &Lookup<'_>,
    listings: &mut ListingReaders<R, R, R>,
    file: &mut Option<Counted<R>>,
    writer: &mut Output<W>,
) -> Result<Finished, Fault>
    ensures { ComesTo (IsLookedUpBy R.remaining W.contents (query_of sources.now lookup.now)
        sources.now.symbols listings.old listings.new file.old file.new writer.old writer.new)
        with_status result }
{
    let options = LookupOptions {
        kernel: sources.kernel.as_ref(),
        rule: lookup.rule,
        form: lookup.form,
        addresses: &lookup.addresses,
    };
    with_status(look_up(alloc, sources.symbols, listings, file, &options, writer))
}

/// Looks addresses up in listings, or in the one that a history has at a time.
fn look_up<R: Read, W: Write>(
    alloc: Global,
    symbols: SymbolSource,
    listings: &mut ListingReaders<R, R, R>,
    file: &mut Option<Counted<R>>,
    options: &LookupOptions<'_>,
    writer: &mut Output<W>,
) -> Result<ListingNotes, Fault>
    ensures { IsLookedUpBy R.remaining W.contents options.now symbols
        listings.old listings.new file.old file.new writer.old writer.new result }
{
    match symbols {
        SymbolSource::Listing => lookup_engine(alloc, listings, file, options, writer),
        SymbolSource::History { time } => {
            let history = &mut listings.kallsyms;
            lookup_engine_at(alloc, history, time, file, options, writer)
        }
    }
}

/// Does what a script says.
fn run_script<T: Threads + Wait + Sync, R: Read, W: Write>(
    threads: &T,
    alloc: Global,
    sources: &Sources<'_>,
    run: &Run<'_>,
    listings: &mut ListingReaders<R, R, R>,
    script: &mut Option<Counted<R>>,
    writer: &mut Output<W>,
) -> Result<Finished, Fault>
    ensures { IsOutcomeOfRun R.remaining W.contents sources.now run.now.readers
        listings.old listings.new script.old script.new writer.old writer.new result }
{
    let Some(script) = script else {
        return Err(UNREAD);
    };
    let usual = KernelBounds::usual();
    let kernel = sources.kernel.as_ref().unwrap_or(&usual);
    run_engine(
        threads,
        alloc,
        listings,
        script,
        kernel,
        run.readers,
        writer,
    )
}

/// Annotates a log by listings or by a history: block by block, followed, or read as a whole for
/// the offset that it says.
fn run_annotate<F: FileSource, W: Write, E: Write>(
    alloc: Global,
    files: &F,
    request: LogRequest<'_, '_>,
    listings: &mut ListingReaders<F::File, F::File, F::File>,
    log: &mut Option<Counted<F::File>>,
    outputs: &mut Outputs<W, E>,
) -> Result<Finished, Fault>
    ensures { IsOutcomeOfLog F.File.remaining (F.file_text files.now) W.contents E.contents
        outputs.old.writer outputs.new.writer outputs.old.errors outputs.new.errors
        request.entry.sources.now request.entry.job.now listings.old listings.new log.old log.new
        result }
{
    let Some(log) = log else {
        return Err(UNREAD);
    };
    let done = match (request.sources.symbols, request.job.reading) {
        (SymbolSource::Listing, LogReading::Blocks) => {
            annotate_engine(alloc, listings, log, request, outputs)
        }
        (SymbolSource::Listing, LogReading::Followed) => {
            follow(alloc, files, request, listings, log, outputs)
        }
        (SymbolSource::Listing, LogReading::Whole) => {
            own_offset_engine(alloc, listings, log, request, outputs)
        }
        (SymbolSource::History { time }, LogReading::Whole) => {
            let history = &mut listings.kallsyms;
            history_own_offset_engine(alloc, history, time, log, request, outputs)
        }
        (SymbolSource::History { time }, LogReading::Blocks) => {
            let history = &mut listings.kallsyms;
            history_annotate_engine(alloc, history, time, log, request, outputs)
        }
        (SymbolSource::History { time }, LogReading::Followed) => {
            // (the command line refuses to follow a log beside a history)
            let history = &mut listings.kallsyms;
            history_annotate_engine(alloc, history, time, log, request, outputs)
        }
    };
    with_notes(done, ListingNotes::none())
}

/// Annotates a log that lasts. The files of its listings are opened again.
fn follow<F: FileSource, W: Write, E: Write>(
    alloc: Global,
    files: &F,
    request: LogRequest<'_, '_>,
    listings: &mut ListingReaders<F::File, F::File, F::File>,
    log: &mut Counted<F::File>,
    outputs: &mut Outputs<W, E>,
) -> Result<u8, Fault>
    ensures { (after : Seen) × FollowsLog W.contents E.contents request.entry.sources.now
        request.entry.job.now (seen_first F.File.remaining (F.file_text files.now)
        request.entry.sources.now listings.old log.old) after outputs.old.writer outputs.new.writer
        outputs.old.errors outputs.new.errors result }
{
    let mut log = FollowedFiles::new(files, &request.sources.files, listings, log);
    follow_engine(alloc, &mut log, request, outputs)
}

/// Checks listings. The notes are its output, so no further note remains.
fn run_check<R: Read, W: Write>(
    alloc: Global,
    sources: &Sources<'_>,
    listings: &mut ListingReaders<R, R, R>,
    writer: &mut Output<W>,
) -> Result<Finished, Fault>
    ensures { ComesTo (AnswersSources R.remaining W.contents
        (IsChecked sources.now.kernel sources.now.files) sources.now.symbols
        listings.old listings.new writer.old writer.new)
        (with_notes no_notes) result }
{
    let status = check(alloc, sources, listings, writer);
    with_notes(status, ListingNotes::none())
}

/// Checks listings, or the one that a history has at a time.
fn check<R: Read, W: Write>(
    alloc: Global,
    sources: &Sources<'_>,
    listings: &mut ListingReaders<R, R, R>,
    writer: &mut Output<W>,
) -> Result<u8, Fault>
    ensures { AnswersSources R.remaining W.contents
        (IsChecked sources.now.kernel sources.now.files) sources.now.symbols
        listings.old listings.new writer.old writer.new result }
{
    let kernel = sources.kernel.as_ref();
    match sources.symbols {
        SymbolSource::Listing => check_engine(alloc, listings, kernel, &sources.files, writer),
        SymbolSource::History { time } => {
            let history = &mut listings.kallsyms;
            check_engine_at(alloc, history, time, kernel, &sources.files, writer)
        }
    }
}

/// Writes the places of the symbols of names.
fn run_address<R: Read, W: Write>(
    alloc: Global,
    sources: &Sources<'_>,
    address: &Address<'_>,
    listings: &mut ListingReaders<R, R, R>,
    writer: &mut Output<W>,
) -> Result<Finished, Fault>
    ensures { AnswersSources R.remaining W.contents (λ _. IsAddressed address.now.form
        sources.now.kernel (map (λ n. n.now) address.now.names.items)) sources.now.symbols
        listings.old listings.new writer.old writer.new result }
{
    let kernel = sources.kernel.as_ref();
    let form = address.form;
    match sources.symbols {
        SymbolSource::Listing => {
            address_engine(alloc, listings, form, kernel, &address.names, writer)
        }
        SymbolSource::History { time } => {
            let history = &mut listings.kallsyms;
            address_engine_at(alloc, history, time, form, kernel, &address.names, writer)
        }
    }
}

impl<R> OpenedJob<'_, '_, R> {
    ghost use Rattle.latchsym.specs.Reasons.{error_at, error_behind, tells_errors};

    /// The error that made a job fault, if the job reports it: the last error of the reader that
    /// failed, or of the writer.
    pub fn error_behind<W>(&self, fault: &Fault, writer: &Output<W>) -> Option<io::Error>
        ensures { result ≡ error_behind self.now (error_in writer.now) fault.now }
    {
        match fault {
            Fault::Read { place } => self.error_at(*place),
            Fault::Write if self.tells_errors() => writer.error(),
            Fault::Write | Fault::Refused(_) | Fault::BadLine { .. } | Fault::TooLong { .. } =>
                None,
        }
    }

    /// Whether the job reports the errors of its faults.
    fn tells_errors(&self) -> bool
        ensures { result ≡ tells_errors self.now }
    {
        match self {
            OpenedJob::Request(request, ..) => request.subcommand.tells_errors(),
            OpenedJob::Trace(_) | OpenedJob::Steps(_) => false,
        }
    }

    /// The error that the reader at this place gave last, if the job reports it.
    fn error_at(&self, place: u64) -> Option<io::Error>
        ensures { result ≡ error_at self.now place }
    {
        match self {
            OpenedJob::Request(request, listings, input) if request.subcommand.tells_errors() => {
                error_of_request(listings, input, place)
            }
            OpenedJob::Request(..) | OpenedJob::Trace(_) | OpenedJob::Steps(_) => None,
        }
    }
}

/// The error that the reader of a listing gave last, if the fault is about it.
pub(crate) fn error_of_listings<R>(
    listings: &ListingReaders<R, R, R>,
    fault: Fault,
) -> Option<io::Error>
    ensures { result ≡ error_of_listings listings.now fault }
{
    match fault {
        Fault::Read { place } => error_of_request(listings, &None, place),
        _ => None,
    }
}

/// The error that one reader of a request gave last.
fn error_of_request<R>(
    listings: &ListingReaders<R, R, R>,
    input: &Option<Counted<R>>,
    place: u64,
) -> Option<io::Error>
    ensures { result ≡ error_of_request listings.now input.now place }
{
    match place {
        0 => error_if_given(&listings.modules),
        1 => listings.kallsyms.error(),
        2 => error_if_given(&listings.regions),
        3 => error_if_given(input),
        _ => None,
    }
}

/// The error that a reader gave last, if there is a reader.
fn error_if_given<R>(reader: &Option<Counted<R>>) -> Option<io::Error>
    ensures { result ≡ error_if_given reader.now }
{
    match reader {
        Some(reader) => reader.error(),
        None => None,
    }
}

/// Opens the files of the listings of a request, or its history alone. A history `-` is the
/// standard input.
fn open_sources<F: FileSource>(
    files: &F,
    sources: &Sources<'_>,
) -> Result<ListingReaders<F::File, F::File, F::File>, Refusal>
    ensures opened { IfOk result (AreSourceFiles F.File.remaining (F.file_text files.now)
        (F.standard files.now) sources.now.files sources.now.symbols) }
    ensures refusal { IfErr result (λ e. e ≡ Refusal.OutOfMemory) }
{
    match sources.symbols {
        SymbolSource::Listing => open_files(files, &sources.files),
        SymbolSource::History { .. } => Ok(ListingReaders {
            modules: None,
            kallsyms: open_or_standard(files, sources.files.kallsyms)?,
            regions: None,
        }),
    }
}

/// Opens the files of listings.
pub(crate) fn open_files<F: FileSource>(
    files: &F,
    listings: &ListingFiles<'_>,
) -> Result<ListingReaders<F::File, F::File, F::File>, Refusal>
    ensures opened { IfOk result
        (AreListingFiles F.File.remaining (F.file_text files.now) listings.now) }
    ensures refusal { IfErr result (λ e. e ≡ Refusal.OutOfMemory) }
{
    Ok(ListingReaders {
        modules: open_if_given(files, listings.modules)?,
        kallsyms: files.open(listings.kallsyms)?,
        regions: open_if_given(files, listings.regions)?,
    })
}

/// Opens a file, if one is named.
fn open_if_given<F: FileSource>(
    files: &F,
    name: Option<&str>,
) -> Result<Option<Counted<F::File>>, Refusal>
    ensures opened { IfOk result (IsOpenedIfGiven F.File.remaining (F.file_text files.now)
        (option_map (λ n. n.now) name.entry)) }
    ensures refusal { IfErr result (λ e. e ≡ Refusal.OutOfMemory) }
{
    match name {
        Some(name) => Ok(Some(files.open(name)?)),
        None => Ok(None),
    }
}

/// Opens the file after the listings, if one is named.
fn open_input<F: FileSource>(
    files: &F,
    name: Option<&str>,
) -> Result<Option<Counted<F::File>>, Refusal>
    ensures opened { IfOk result (IsOpenedIfGiven F.File.remaining
        (or_standard (F.standard files.now) (F.file_text files.now))
        (option_map (λ n. n.now) name.entry)) }
    ensures refusal { IfErr result (λ e. e ≡ Refusal.OutOfMemory) }
{
    match name {
        Some(name) => Ok(Some(open_or_standard(files, name)?)),
        None => Ok(None),
    }
}

/// Opens a file of addresses, a script, a log or a history; `-` is the standard input.
fn open_or_standard<F: FileSource>(files: &F, name: &str) -> Result<Counted<F::File>, Refusal>
    ensures opened { IfOk result (IsOpened F.File.remaining
        (or_standard (F.standard files.now) (F.file_text files.now)) name.now) }
    ensures refusal { IfErr result (λ e. e ≡ Refusal.OutOfMemory) }
{
    match name {
        "-" => Ok(files.standard_input()),
        name => files.open(name),
    }
}
