//! What a command line asks for, and why it may ask for nothing.
ghost use Rattle.std.specs.Prelude.{◌≡◌, option_map};

use clap::Error;
use command_listings::{AddressOptions, Annotate, Sources};
use command_parts::AnswerForm;
use listing::AddressRule;
use std::alloc::AllocFailed;

/// What a command line asks for.
#[derive(Debug, Drop)]
pub enum Job<'a> {
    /// `latchsym trace FILE`: run the trace in this file.
    Trace { file: &'a str },
    /// `latchsym trace --steps FILE`: run the trace in this file, and write what each step did.
    Steps { file: &'a str },
    /// The other commands, which read listings.
    Request(Request<'a>),
}

/// What is asked for over listings.
#[derive(Debug, Drop)]
pub struct Request<'a> {
    /// The listings.
    pub sources: Sources<'a>,
    /// What is done with them.
    pub subcommand: Subcommand<'a>,
}

/// What is done with listings.
#[derive(Debug, Drop)]
pub enum Subcommand<'a> {
    /// `latchsym lookup`: look addresses up.
    Lookup(Lookup<'a>),
    /// `latchsym run`: do what a script says, each writer and each reader on a thread.
    Run(Run<'a>),
    /// `latchsym annotate`: write a log again, with a symbol after each address.
    Annotate(Annotate<'a>),
    /// `latchsym check`: write all that is noted of listings, and their counts.
    Check,
    /// `latchsym address`: write the places of the symbols of some names.
    Address(Address<'a>),
    /// `latchsym record`: write the history of a boot, from the events of its modules.
    Record(Record<'a>),
}

/// Which addresses are looked up, how they are taken, and how the answers are written.
#[derive(Debug, Drop)]
pub struct Lookup<'a> {
    /// The addresses of the command line, in the order of their words.
    pub addresses: Vec<u64>,
    /// The file of further addresses, if there is one; `-` is the standard input.
    pub file: Option<&'a str>,
    /// How the addresses are taken that are looked up.
    pub rule: AddressRule,
    /// How the answers are written.
    pub form: AnswerForm,
}

/// Which script is run, and by how many readers.
#[derive(Debug, Drop)]
pub struct Run<'a> {
    /// How many readers there are, 1 to 64.
    pub readers: u32,
    /// The file of the script; `-` is the standard input.
    pub script: &'a str,
}

/// Which names are looked for.
#[derive(Debug, Drop)]
pub struct Address<'a> {
    /// The names, in the order of their words.
    pub names: Vec<&'a str>,
    /// How the addresses are written.
    pub form: AddressOptions,
}

/// Which events are recorded.
#[derive(Debug, Drop)]
pub struct Record<'a> {
    /// Whether what is written is appended to a history.
    pub is_appended: bool,
    /// The file of the events; `-` is the standard input.
    pub events: &'a str,
}

impl<'a> Job<'a> {
    ghost use Rattle.command_line.specs.Requests.{file_at};

    /// The file at this place among those that the job reads, in the order in which it reads them.
    /// The listing of regions has place 2 and the file of addresses 3, if they are given; the
    /// script and the log have place 3.
    pub fn file(&self, place: u64) -> Option<&'a str>
        ensures { option_map (λ f. f.now) result ≡ file_at self.now place }
    {
        match self {
            Job::Trace { file } | Job::Steps { file } => {
                if place == 0 { Some(file) } else { None }
            }
            Job::Request(request) => request.file(place),
        }
    }
}

impl<'a> Request<'a> {
    ghost use Rattle.command_line.specs.Requests.{request_file_at};

    /// The file at this place among those that the request reads, in the order in which it reads
    /// them.
    fn file(&self, place: u64) -> Option<&'a str>
        ensures { option_map (λ f. f.now) result ≡ request_file_at self.now place }
    {
        match place {
            0 => self.sources.files.modules,
            1 => Some(self.sources.files.kallsyms),
            2 => self.sources.files.regions,
            3 => self.subcommand.input(),
            _ => None,
        }
    }
}

impl<'a> Subcommand<'a> {
    ghost use Rattle.command_line.specs.Requests.{input_of};
    ghost use Rattle.command_line.specs.Requests.{does_tell};

    /// The file that is read after the listings, if there is one.
    pub fn input(&self) -> Option<&'a str>
        ensures { option_map (λ f. f.now) result ≡ input_of self.now }
    {
        match self {
            Subcommand::Lookup(lookup) => lookup.file,
            Subcommand::Run(run) => Some(run.script),
            Subcommand::Annotate(annotate) => Some(annotate.log),
            Subcommand::Record(record) => Some(record.events),
            Subcommand::Check | Subcommand::Address(_) => None,
        }
    }

    /// Whether the errors of the command's faults are written.
    pub fn tells_errors(&self) -> bool
        ensures { result ≡ does_tell self.now }
    {
        match self {
            Subcommand::Annotate(_)
            | Subcommand::Check
            | Subcommand::Address(_)
            | Subcommand::Record(_) => true,
            Subcommand::Lookup(_) | Subcommand::Run(_) => false,
        }
    }
}

/// Why a command line gives no job.
#[derive(Drop)]
pub enum JobFault<'a> {
    /// Memory ran out.
    OutOfMemory,
    /// Help that was asked for, or words that the command line does not have. The error holds the
    /// text for the user.
    CommandLine(Error),
    /// The first ADDR that is no number.
    BadAddress(&'a str),
    /// A lookup without an address.
    NoAddress,
    /// Options that do not go together: what is wrong with them.
    Conflict(&'static str),
    /// A value of `--at` that is no TIME.
    BadTime(&'a str),
    /// A value of `--offset` that is no NUMBER.
    BadOffset(&'a str),
    /// The offset that a log says itself, of one that is followed.
    FollowedByOwnOffset,
    /// An END of `--kernel` that begins with `0x`, as an address does.
    BadEnd(&'a str),
    /// A value of `--readers` that is no NUMBER from 1 to 64.
    BadReaders(&'a str),
    /// No command was given, or one without what it needs.
    NoJob,
    /// An argument is not valid UTF-8.
    NoText,
}

impl<T: Drop> From<AllocFailed<T>> for JobFault<'_> {
    ghost use Rattle.command_line.specs.declared.requests.JobFault.TheVariants.{OutOfMemory};

    ghost from_gives = { λ _ fault. fault ≡ OutOfMemory };

    fn from(_failed: AllocFailed<T>) -> Self {
        JobFault::OutOfMemory
    }
}
