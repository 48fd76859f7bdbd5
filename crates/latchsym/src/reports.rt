//! What is said at the end of a run: what is noted of its listings, or why it failed.
ghost use Rattle.std.specs.Prelude.{◌≡◌, ◌++◌, [], None};
ghost use Rattle.std.specs.Option.{option_copied};
ghost use Rattle.texts.specs.Output.{Says};
ghost use Rattle.latchsym.specs.Reasons.{reason_text};
ghost use Rattle.latchsym.specs.Reports.{IsConcluded, IsFaultTold};
ghost use Rattle.latchsym.specs.Reports.{bad_line_text, fault_text, file_of, message_text};
ghost use Rattle.latchsym.specs.Reports.{failed_text};
ghost use Rattle.listing.specs.ListingNotes.{is_some_noted};
ghost use Rattle.command_listings.specs.NoteTexts.{IsNoted};
ghost use Rattle.latchsym.specs.JobNotes.{notes_text};

use crate::job_notes::put_job_notes;
use crate::wildcards::note_wildcard;
use command_line::Job;
use command_parts::{FAILED, Fault, Finished, words_of};
use command_traces::put_refused;
use listing::ListingNotes;
use std::io;
use std::io::Write;
use texts::Output;

// what messages say beside the names of files and the numbers of lines
const UNREAD: &[u8] = b": cannot be read";

const TOO_LONG: &[u8] = b": is too long\n";

const UNWRITTEN: &[u8] = b"cannot write";

const LINE: &[u8] = b": line ";

const NOT_UNDERSTOOD: &[u8] = b" is not understood\n";

const PROGRAM: &[u8] = b"latchsym: ";

/// Ends a job: returns the program's status, which is the job's own if it came to one. Writes the
/// notes on its listings and names or, if it failed, the line that says why, with the system's
/// words for the error.
pub fn conclude<W: Write>(
    outcome: Result<Finished, Fault>,
    job: &Job<'_>,
    error: Option<io::Error>,
    writer: &mut Output<W>,
) -> u8
    ensures { IsConcluded W.contents job.now error writer.old writer.new outcome result }
{
    match outcome {
        Ok(finished) => {
            note(&finished.notes, job, writer);
            note_wildcard(finished.status, job, writer);
            finished.status
        }
        Err(fault) => report(&fault, job, error, writer),
    }
}

/// Writes what is noted of the listings of a job, if something is.
fn note<W: Write>(notes: &ListingNotes, job: &Job<'_>, writer: &mut Output<W>)
    ensures { IsNoted W.contents writer.old writer.new (is_some_noted notes.now)
        (notes_text job.now notes.now) }
{
    if notes.any() {
        put_job_notes(writer, job, notes);
    }
}

/// Writes the line that says why the job failed, and returns the program's status. If the writer
/// fails too, only the status says it.
fn report<W: Write>(
    fault: &Fault,
    job: &Job<'_>,
    error: Option<io::Error>,
    writer: &mut Output<W>,
) -> u8
    ensures status { result ≡ 1 }
    ensures line { IsFaultTold W.contents writer.old writer.new (file_of job.now fault.now) error
        fault.now }
{
    let file = file_of(fault, job).as_bytes();
    match error {
        Some(error) => put_fault(fault, file, Some(&words_of(&error)), writer),
        None => put_fault(fault, file, None, writer),
    }
    FAILED
}

/// Writes the line of a fault that came before there was a job, and returns the program's status.
/// The fault is about no file.
pub fn report_before_job<W: Write>(fault: &Fault, writer: &mut Output<W>) -> u8
    ensures status { result ≡ 1 }
    ensures line { Says W.contents writer.old writer.new (fault_text [] None fault.now) }
{
    put_fault(fault, b"", None, writer);
    FAILED
}

/// The file that the fault is about, or an empty name.
fn file_of<'a>(fault: &Fault, job: &Job<'a>) -> &'a str
    ensures { result.now ≡ file_of job.now fault.now }
{
    match fault.place() {
        Some(place) => job.file(place).unwrap_or(""),
        None => "",
    }
}

/// Writes the line of a fault, with what the system says of it.
fn put_fault<W: Write>(fault: &Fault, file: &[u8], words: Option<&str>, writer: &mut Output<W>)
    ensures { Says W.contents writer.old writer.new
        (fault_text file.now (option_copied words.entry) fault.now) }
{
    writer.put(PROGRAM);
    put_message(fault, file, words, writer);
}

fn put_message<W: Write>(fault: &Fault, file: &[u8], words: Option<&str>, writer: &mut Output<W>)
    ensures { Says W.contents writer.old writer.new
        (message_text file.now (option_copied words.entry) fault.now) }
{
    match fault {
        Fault::Refused(refusal) => put_refused(writer, *refusal),
        Fault::BadLine { line, .. } => put_bad_line(writer, file, *line),
        Fault::Read { .. } => put_failed(writer, file, UNREAD, words),
        Fault::TooLong { .. } => put_of_file(writer, file, TOO_LONG),
        Fault::Write => put_failed(writer, b"", UNWRITTEN, words),
    }
}

fn put_bad_line<W: Write>(writer: &mut Output<W>, file: &[u8], line: u64)
    ensures { Says W.contents writer.old writer.new (bad_line_text file.now line) }
{
    writer.put(file);
    writer.put(LINE);
    writer.put_decimal(line);
    writer.put(NOT_UNDERSTOOD);
}

/// Writes what is said of a file.
fn put_of_file<W: Write>(writer: &mut Output<W>, file: &[u8], message: &[u8])
    ensures { Says W.contents writer.old writer.new (file.now ++ message.now) }
{
    writer.put(file);
    writer.put(message);
}

/// Writes what failed with a file, and what the system says of it.
fn put_failed<W: Write>(writer: &mut Output<W>, file: &[u8], what: &[u8], words: Option<&str>)
    ensures { Says W.contents writer.old writer.new
        (failed_text file.now what.now (option_copied words.entry)) }
{
    put_of_file(writer, file, what);
    put_reason(writer, words);
    writer.put(b"\n");
}

/// Writes what the system says, in brackets, if it says something.
fn put_reason<W: Write>(writer: &mut Output<W>, words: Option<&str>)
    ensures { Says W.contents writer.old writer.new
        (reason_text (option_copied words.entry)) }
{
    let Some(words) = words else {
        return;
    };
    writer.put(b" (");
    writer.put(words.as_bytes());
    writer.put(b")");
}
