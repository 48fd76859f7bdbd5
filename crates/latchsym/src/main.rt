//! The program `latchsym`: a latched address tree, one word at a time.
//!
//! - `trace` runs a trace in the step machine, and writes what its lookups found or, with
//!   `--steps`, what each of its steps did
//! - `lookup` says which module and which symbol hold an address, by listings of modules and of
//!   symbols, or by symbols alone
//! - `run` does what a script says, each writer and each reader on a thread of its own
//! - `annotate` writes a log again, with the symbol after each address, and may follow it
//! - `check` says what is wrong with listings, and how many of their lines are of use
//! - `address` gives the addresses of symbols by their names
//! - `record` writes the history of a boot, from the events of its modules
//!
//! The options of each, and the job that words ask for, are in `command_line`.
//!
//! What `trace` does is in `command_traces`, what `lookup` and `run` do in `command_tables`, what
//! `record` does in `recordings`, and the others in `command_listings`.
#![tactic(auto)]

mod followed_files;
mod input;
mod job_notes;
mod jobs;
mod misuse;
mod programs;
mod recorded_events;
mod reports;
mod wildcards;

use command_line::JobFault;
use command_parts::{Fault, Outputs};
use input::FileSystem;
use order_laws::Refusal;
use programs::program;
use reports::report_before_job;
use std::env;
use std::io::ErrorKind;
use std::process::ExitCode;
use texts::{BLOCK, Output};

/// Runs the program over the words, the files and the outputs of the process.
fn main(rt: HostRuntime) -> ExitCode {
    let mut errors = Output::new(rt.alloc(), rt.stderr());
    let Ok(writer) = Output::with_capacity(rt.alloc(), BLOCK, rt.stdout()) else {
        let no_memory = Fault::Refused(Refusal::OutOfMemory);
        return ExitCode::from(report_before_job(&no_memory, &mut errors));
    };
    let words = words_of(&rt);
    let words = match &words {
        Ok(words) => Ok(words.as_slice()),
        Err(ErrorKind::OutOfMemory) => Err(JobFault::OutOfMemory),
        Err(_) => Err(JobFault::NoText),
    };
    let files = FileSystem::new(&rt);
    let mut outputs = Outputs { writer, errors };
    ExitCode::from(program(&rt, rt.alloc(), words, &files, &mut outputs))
}

/// The words of the command line; the first is the program's name.
fn words_of(rt: &HostRuntime) -> Result<Vec<String>, ErrorKind> {
    let words = env::args(rt).map_err(|error| error.kind())?;
    words
        .collect(rt.alloc())
        .map_err(|_| ErrorKind::OutOfMemory)
}
