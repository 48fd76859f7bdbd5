//! From the words of a command line to the job that they ask for.
ghost use Rattle.std.specs.Prelude.{◌≡◌, ◌≢◌, ◌&&◌, List, codes, false, map, option_map, unwrap_or};
ghost use Rattle.std.specs.Str.{bytes_eq};
ghost use Rattle.clap.specs.Words.{Row, Text, first_of, subcommand_rows_of};
ghost use Rattle.command_line.specs.CommandLine.{row_of};
ghost use Rattle.command_line.specs.Jobs.{AnswersMatches, AnswersSubcommand, AnswersWords};
ghost use Rattle.command_line.specs.Jobs.{AreBoundsIn, AreFilesIn, AreNumbersIn, Gives};
ghost use Rattle.command_line.specs.Jobs.{IsAddressIn, IsAnnotateIn, IsFaultOf, IsJobIn};
ghost use Rattle.command_line.specs.Jobs.{IsLogOffsetIn, IsLookupIn, IsOffsetIn, IsRequestIn};
ghost use Rattle.command_line.specs.Jobs.{IsRecordIn, IsSourceIn, IsTimeIn, is_followed_whole};
ghost use Rattle.command_line.specs.Jobs.{is_own_offset, reading_in, IsRunIn, IsSubcommandIn};
ghost use Rattle.command_line.specs.Jobs.{callers_in, conflict_in, conflict_of, form_in, has_flag};
ghost use Rattle.command_line.specs.Jobs.{is_like_address, is_present, readers_of, rows_in};
ghost use Rattle.command_line.specs.Jobs.{symbols_in, values_in};

use crate::parser::latchsym_command;
use crate::requests::{Address, Job, JobFault, Lookup, Record, Request, Run, Subcommand};
use crate::rows::{Argument, ArgumentKind, KALLSYMS, LOG, arguments_of};
use clap::error::ErrorKind;
use clap::{ArgMatches, Error};
use command_listings::{AddressOptions, Annotate, ListingFiles, LogReading, Sources, SymbolSource};
use command_parts::AnswerForm;
use histories::time_of;
use latch_table::MOST_READERS;
use listing::{AddressRule, Callers, LogRule, address_of_text};
use modules::KernelBounds;
use std::alloc::Global;
use std::convert::AsStr;
use texts::{number, number_up_to};

/// The job that a program's words ask for; the first word is the program's name.
pub fn job_of<'a, S: AsStr>(alloc: Global, words: &'a [S]) -> Result<Job<'a>, JobFault<'a>>
    ensures { AnswersWords (map S.text words.entry.now) result }
{
    let mut command = match latchsym_command(alloc) {
        Ok(command) => command,
        Err(_) => return Err(JobFault::OutOfMemory),
    };
    match command.try_get_matches_from_mut(words) {
        Ok(matches) => job_in(alloc, &matches),
        Err(error) => Err(fault_of_error(error)),
    }
}

fn fault_of_error<'a>(error: Error) -> JobFault<'a>
    ensures { IsFaultOf error result }
{
    match error.kind() {
        ErrorKind::OutOfMemory => JobFault::OutOfMemory,
        _ => JobFault::CommandLine(error),
    }
}

fn job_in<'a>(alloc: Global, matches: &ArgMatches<'a>) -> Result<Job<'a>, JobFault<'a>>
    ensures { AnswersMatches (subcommand_rows_of matches.now) result }
{
    match matches.subcommand() {
        Some((name, found)) => job_of_subcommand(alloc, name, found),
        None => Err(JobFault::NoJob),
    }
}

/// The job that a subcommand of this name asks for. If its options do not go together, that is
/// reported first.
fn job_of_subcommand<'a>(
    alloc: Global,
    name: &str,
    found: &ArgMatches<'a>,
) -> Result<Job<'a>, JobFault<'a>>
    ensures { AnswersSubcommand name.now (rows_in found.now) result }
{
    if let Some(message) = conflict_in(name, found) {
        return Err(JobFault::Conflict(message));
    }
    match name {
        "trace" => trace_in(found),
        _ => Ok(Job::Request(request_in(alloc, name, found)?)),
    }
}

/// What is wrong with the options of the command of this name beside one another, by the first row
/// that says so.
fn conflict_in(name: &str, found: &ArgMatches<'_>) -> Option<&'static str>
    ensures { option_map (λ m. m.now) result ≡ conflict_in name.now (rows_in found.now) }
{
    for row in arguments_of(name) {
        if let Some(message) = conflict_of(row, found) {
            return Some(message);
        }
    }
    None
}

/// What is wrong if the argument of the row is given: a flag that excludes it is given too, or an
/// option that it repeats, or the option that it needs is not.
fn conflict_of(row: &Argument, found: &ArgMatches<'_>) -> Option<&'static str>
    ensures { option_map (λ m. m.now) result ≡ conflict_of (rows_in found.now) (row_of row.now) }
{
    if !is_present(row, found) {
        return None;
    }
    match (row.excluded_by, row.instead_of, row.needs) {
        (Some(conflict), _, _) if is_given(found, conflict.other) => Some(conflict.message),
        (_, Some(conflict), _) if value_of(found, conflict.other).is_some() => Some(
            conflict.message,
        ),
        (_, _, Some(conflict)) if value_of(found, conflict.other).is_none() => Some(
            conflict.message,
        ),
        _ => None,
    }
}

/// Whether the argument of the row is given.
fn is_present(row: &Argument, found: &ArgMatches<'_>) -> bool
    ensures { result ≡ is_present (rows_in found.now) (row_of row.now) }
{
    match row.kind {
        ArgumentKind::Flag => is_given(found, row.name),
        _ => value_of(found, row.name).is_some(),
    }
}

fn trace_in<'a>(found: &ArgMatches<'a>) -> Result<Job<'a>, JobFault<'a>>
    ensures { Gives (IsJobIn (codes "trace")) (codes "trace") (rows_in found.now) result }
{
    match value_of(found, "file") {
        Some(file) if is_given(found, "steps") => Ok(Job::Steps { file }),
        Some(file) => Ok(Job::Trace { file }),
        None => Err(JobFault::NoJob),
    }
}

/// What a subcommand of this name, which is not `trace`, asks for over listings.
fn request_in<'a>(
    alloc: Global,
    name: &str,
    found: &ArgMatches<'a>,
) -> Result<Request<'a>, JobFault<'a>>
    requires { name.now ≢ codes "trace" }
    ensures { Gives (IsRequestIn name.now) name.now (rows_in found.now) result }
{
    let kernel = bounds_in(found)?;
    let symbols = symbol_source_in(found)?;
    let subcommand = subcommand_in(alloc, name, found)?;
    let files = files_in(found);
    Ok(Request {
        sources: Sources {
            files,
            symbols,
            kernel,
        },
        subcommand,
    })
}

/// The files of the listings.
fn files_in<'a>(found: &ArgMatches<'a>) -> ListingFiles<'a>
    ensures { AreFilesIn (rows_in found.now) result }
{
    ListingFiles {
        modules: value_of(found, "modules"),
        kallsyms: symbols_in(found),
        regions: value_of(found, "regions"),
    }
}

/// The file of the symbols: one that is named for a history, as a word of its own or as the value
/// of an option, or else the kernel's own.
fn symbols_in<'a>(found: &ArgMatches<'a>) -> &'a str
    ensures { result.now
        ≡ unwrap_or (symbols_in (rows_in found.now)) (codes "/proc/kallsyms") }
{
    match value_of(found, "history").or(value_of(found, "listing")) {
        Some(file) => file,
        None => value_or_default(found, &KALLSYMS),
    }
}

/// What the file of the symbols has: a history if one is named, and else a listing.
fn symbol_source_in<'a>(found: &ArgMatches<'a>) -> Result<SymbolSource, JobFault<'a>>
    ensures { (name : Text) → Gives IsSourceIn name (rows_in found.now) result }
{
    if value_of(found, "history").is_none() {
        return Ok(SymbolSource::Listing);
    }
    let time = time_in(found)?;
    Ok(SymbolSource::History { time })
}

/// The time that is given, in nanoseconds, if one is.
fn time_in<'a>(found: &ArgMatches<'a>) -> Result<Option<u64>, JobFault<'a>>
    ensures { (name : Text) → Gives IsTimeIn name (rows_in found.now) result }
{
    let Some(word) = value_of(found, "at") else {
        return Ok(None);
    };
    match time_of(word.as_bytes()) {
        Some(time) => Ok(Some(time)),
        None => Err(JobFault::BadTime(word)),
    }
}

/// The names of the symbols that are given for the kernel's bounds. An END that looks like an
/// address is refused: with one name alone, the first address would be taken for it.
fn bounds_in<'a>(found: &ArgMatches<'a>) -> Result<Option<KernelBounds<'a>>, JobFault<'a>>
    ensures { (name : Text) → Gives AreBoundsIn name (rows_in found.now) result }
{
    match values_of(found, "kernel") {
        [] => Ok(None),
        [_, end] if is_like_address(end) => Err(JobFault::BadEnd(end)),
        [start, end] => Ok(Some(KernelBounds {
            start: start.as_bytes(),
            end: end.as_bytes(),
        })),
        _ => Err(JobFault::NoJob),
    }
}

/// Whether a word looks like an address, and not like the name of a symbol.
fn is_like_address(word: &str) -> bool
    ensures { result ≡ is_like_address word.now }
{
    word.as_bytes().starts_with(b"0x")
}

/// What a subcommand of this name does with listings.
fn subcommand_in<'a>(
    alloc: Global,
    name: &str,
    found: &ArgMatches<'a>,
) -> Result<Subcommand<'a>, JobFault<'a>>
    requires { name.now ≢ codes "trace" }
    ensures { Gives (IsSubcommandIn name.now) name.now (rows_in found.now) result }
{
    match name {
        "lookup" => Ok(Subcommand::Lookup(lookup_in(alloc, found)?)),
        "run" => Ok(Subcommand::Run(run_in(found)?)),
        "annotate" => Ok(Subcommand::Annotate(annotate_in(found)?)),
        "check" => Ok(Subcommand::Check),
        "address" => Ok(Subcommand::Address(address_in(alloc, found)?)),
        "record" => Ok(Subcommand::Record(record_in(found)?)),
        _ => Err(JobFault::NoJob),
    }
}

/// The addresses that are looked up: there has to be one, or a file of them.
fn lookup_in<'a>(alloc: Global, found: &ArgMatches<'a>) -> Result<Lookup<'a>, JobFault<'a>>
    ensures { Gives IsLookupIn (codes "lookup") (rows_in found.now) result }
{
    let offset = offset_in(found)?;
    let file = value_of(found, "addresses");
    let words = values_of(found, "address");
    if words.is_empty() && file.is_none() {
        return Err(JobFault::NoAddress);
    }
    let addresses = addresses_of(alloc, words)?;
    Ok(Lookup {
        addresses,
        file,
        rule: AddressRule {
            callers: is_given(found, "callers"),
            offset,
        },
        form: form_in(found),
    })
}

/// The form in which the answers of a lookup are written.
fn form_in(found: &ArgMatches<'_>) -> AnswerForm
    ensures { result ≡ form_in (rows_in found.now) }
{
    AnswerForm {
        json: is_given(found, "json"),
        counts: !is_given(found, "no-counts"),
    }
}

/// The addresses that words are.
fn addresses_of<'a>(alloc: Global, words: &[&'a str]) -> Result<Vec<u64>, JobFault<'a>>
    ensures { (rows : List Row) → map (λ w. w.now) words.now ≡ values_in (codes "address") rows
        → Gives AreNumbersIn (codes "lookup") rows result }
{
    let mut addresses = Vec::new(alloc);
    for word in words {
        match address_of_text(word.as_bytes()) {
            Some(addr) => addresses.push(addr)?,
            None => return Err(JobFault::BadAddress(word)),
        }
    }
    Ok(addresses)
}

/// The script that is run, over modules that are listed.
fn run_in<'a>(found: &ArgMatches<'a>) -> Result<Run<'a>, JobFault<'a>>
    ensures { Gives IsRunIn (codes "run") (rows_in found.now) result }
{
    let (Some(_), Some(word), Some(script)) = (
        value_of(found, "modules"),
        value_of(found, "readers"),
        value_of(found, "script"),
    ) else {
        return Err(JobFault::NoJob);
    };
    match readers_in(word) {
        Some(readers) => Ok(Run { readers, script }),
        None => Err(JobFault::BadReaders(word)),
    }
}

/// The number of readers that a word is.
fn readers_in(word: &str) -> Option<u32>
    ensures { result ≡ readers_of word.now }
{
    number_up_to(word.as_bytes(), MOST_READERS)
}

/// The log that is annotated.
fn annotate_in<'a>(found: &ArgMatches<'a>) -> Result<Annotate<'a>, JobFault<'a>>
    ensures { Gives IsAnnotateIn (codes "annotate") (rows_in found.now) result }
{
    if is_followed_whole(found) {
        return Err(JobFault::FollowedByOwnOffset);
    }
    let offset = log_offset_in(found)?;
    Ok(annotate_with(found, offset))
}

/// Whether a log is to be followed that is read as a whole.
fn is_followed_whole(found: &ArgMatches<'_>) -> bool
    ensures { result ≡ is_followed_whole (rows_in found.now) }
{
    is_own_offset(found) && is_given(found, "follow")
}

/// Whether the offset is that which the log says itself.
fn is_own_offset(found: &ArgMatches<'_>) -> bool
    ensures { result ≡ is_own_offset (rows_in found.now) }
{
    value_of(found, "offset") == Some("auto")
}

/// By how many bytes the addresses of a log are moved: 0 in place of what it says itself.
fn log_offset_in<'a>(found: &ArgMatches<'a>) -> Result<u64, JobFault<'a>>
    ensures { Gives IsLogOffsetIn (codes "annotate") (rows_in found.now) result }
{
    if is_own_offset(found) {
        return Ok(0);
    }
    offset_in(found)
}

/// How a log is read.
fn reading_in(found: &ArgMatches<'_>) -> LogReading
    ensures { result ≡ reading_in (rows_in found.now) }
{
    if is_own_offset(found) {
        LogReading::Whole
    } else if is_given(found, "follow") {
        LogReading::Followed
    } else {
        LogReading::Blocks
    }
}

/// The log that is annotated, by addresses that are moved by this offset.
fn annotate_with<'a>(found: &ArgMatches<'a>, offset: u64) -> Annotate<'a>
    ensures { is_followed_whole (rows_in found.now) ≡ false
        → IsLogOffsetIn (rows_in found.now) offset → IsAnnotateIn (rows_in found.now) result }
{
    Annotate {
        rule: LogRule {
            callers: callers_in(found),
            offset,
        },
        reading: reading_in(found),
        log: value_or_default(found, &LOG),
    }
}

/// Which addresses of a log are taken as return addresses.
fn callers_in(found: &ArgMatches<'_>) -> Callers
    ensures { result ≡ callers_in (rows_in found.now) }
{
    if is_given(found, "callers") {
        Callers::Every
    } else if is_given(found, "exact") {
        Callers::Never
    } else {
        Callers::ByPlace
    }
}

/// The names that are looked for.
fn address_in<'a>(alloc: Global, found: &ArgMatches<'a>) -> Result<Address<'a>, JobFault<'a>>
    ensures { Gives IsAddressIn (codes "address") (rows_in found.now) result }
{
    let higher = offset_in(found)?;
    let Ok(names) = Vec::from_slice(alloc, values_of(found, "name")) else {
        return Err(JobFault::OutOfMemory);
    };
    let json = is_given(found, "json");
    Ok(Address {
        names,
        form: AddressOptions { json, higher },
    })
}

/// The events that are recorded.
fn record_in<'a>(found: &ArgMatches<'a>) -> Result<Record<'a>, JobFault<'a>>
    ensures { Gives IsRecordIn (codes "record") (rows_in found.now) result }
{
    let Some(events) = value_of(found, "events") else {
        return Err(JobFault::NoJob);
    };
    let is_appended = is_given(found, "append");
    Ok(Record {
        is_appended,
        events,
    })
}

/// By how many bytes the addresses are moved: none if no word says it.
fn offset_in<'a>(found: &ArgMatches<'a>) -> Result<u64, JobFault<'a>>
    ensures { (name : Text)
        → (bytes_eq name (codes "annotate") && is_own_offset (rows_in found.now)) ≡ false
        → Gives IsOffsetIn name (rows_in found.now) result }
{
    let Some(word) = value_of(found, "offset") else {
        return Ok(0);
    };
    number(word.as_bytes()).ok_or(JobFault::BadOffset(word))
}

/// The value of an argument that takes one.
fn value_of<'a>(found: &ArgMatches<'a>, id: &str) -> Option<&'a str>
    ensures { option_map (λ s. s.now) result ≡ first_of id.now (rows_in found.now) }
{
    found.get_str(id)
}

/// The value of the argument of a row, or else its default.
fn value_or_default<'a>(found: &ArgMatches<'a>, row: &Argument) -> &'a str
    ensures { result.now ≡ unwrap_or (first_of row.now.name.now (rows_in found.now))
        row.now.default.now }
{
    value_of(found, row.name).unwrap_or(row.default)
}

/// Whether a flag is given.
fn is_given(found: &ArgMatches<'_>, id: &str) -> bool
    ensures { result ≡ has_flag id.now (rows_in found.now) }
{
    value_of(found, id) == Some("true")
}

/// The values of an argument that takes any number of them.
fn values_of<'m, 'a>(found: &'m ArgMatches<'a>, id: &str) -> &'m [&'a str]
    ensures { map (λ w. w.now) result.now ≡ values_in id.now (rows_in found.now) }
{
    found.get_raw(id).unwrap_or_default()
}
