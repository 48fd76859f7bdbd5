//! The program: from the words of its command line and the files that they name to what it writes,
//! what it says of that, and its status.
//!
//! ```text
//!     words --job_of--> job --open_job--> job over its files --run_job--> output
//!              |                                                 |
//!            fault                                            outcome
//!              |                                                 |
//!              +--refuse----------> errors, status <---conclude--+
//! ```
//!
//! `main` adds the words, the files and the outputs of the process.
ghost use Rattle.std.specs.Prelude.{◌≡◌};
ghost use Rattle.texts.specs.Output.{error_in};
ghost use Rattle.latchsym.specs.Programs.{AnswersCommand, ComesOf};
ghost use Rattle.latchsym.specs.Programs.{error_of_outcome};

use crate::jobs::{FileSource, OpenedJob, open_job, run_job};
use crate::misuse::refuse;
use crate::reports::conclude;
use command_line::{Job, JobFault, job_of, with_operands};
use command_parts::{Fault, Finished, Outputs};
use std::alloc::Global;
use std::convert::AsStr;
use std::io;
use std::io::Write;
use std::sync::Wait;
use std::thread::Threads;
use texts::Output;

/// Does what the words of a command line ask for, after the first, which is the program's name.
/// Returns the program's status: 0, 1 if something failed, 2 if the words ask for nothing. What was
/// asked for goes to the writer, notes and errors to the output for errors.
///
/// Words that are not there, since memory ran out or one is no text, are a fault as well.
pub fn program<T: Threads + Wait + Sync, S: AsStr, F: FileSource, W: Write, E: Write>(
    threads: &T,
    alloc: Global,
    words: Result<&[S], JobFault<'_>>,
    files: &F,
    outputs: &mut Outputs<W, E>,
) -> u8
    ensures { AnswersCommand F.File.remaining (F.file_text files.now) (F.standard files.now)
        W.contents E.contents outputs.old.writer outputs.new.writer outputs.old.errors
        outputs.new.errors S.text words.entry result }
{
    let words = match words {
        Ok(words) => words,
        Err(fault) => return refuse(alloc, fault, outputs),
    };
    let Ok(words) = with_operands(alloc, words) else {
        return refuse(alloc, JobFault::OutOfMemory, outputs);
    };
    match job_of(alloc, words.as_slice()) {
        Ok(job) => open_and_run(threads, alloc, &job, files, outputs),
        Err(fault) => refuse(alloc, fault, outputs),
    }
}

/// Opens the files of a job, does it, says how it ended, and returns the program's status.
fn open_and_run<T: Threads + Wait + Sync, F: FileSource, W: Write, E: Write>(
    threads: &T,
    alloc: Global,
    job: &Job<'_>,
    files: &F,
    outputs: &mut Outputs<W, E>,
) -> u8
    ensures { ComesOf F.File.remaining (F.file_text files.now) (F.standard files.now)
        W.contents E.contents outputs.old.writer outputs.new.writer outputs.old.errors
        outputs.new.errors job.now result }
{
    let Ok(mut opened) = open_job(files, job) else {
        return refuse(alloc, JobFault::OutOfMemory, outputs);
    };
    let outcome = run_job(threads, alloc, files, &mut opened, outputs);
    let error = error_of_outcome(&opened, &outputs.writer, &outcome);
    conclude(outcome, job, error, &mut outputs.errors)
}

/// The error that made a job fail, if it did.
fn error_of_outcome<R, W>(
    job: &OpenedJob<'_, '_, R>,
    writer: &Output<W>,
    outcome: &Result<Finished, Fault>,
) -> Option<io::Error>
    ensures { result ≡ error_of_outcome job.now (error_in writer.now) outcome.now }
{
    match outcome {
        Ok(_) => None,
        Err(fault) => job.error_behind(fault, writer),
    }
}
