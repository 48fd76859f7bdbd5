//! What is said of a command line that gives no job, and the program's status.
ghost use Rattle.std.specs.Prelude.{◌≡◌, ◌++◌};
ghost use Rattle.texts.specs.Output.{Says};
ghost use Rattle.latchsym.specs.Misuses.{IsExplained, IsHelped, IsMisused, IsNoJob, misuse_text};
ghost use Rattle.latchsym.specs.Misuses.{offset_message};

use crate::reports::report_before_job;
use clap::Error;
use command_line::JobFault;
use command_parts::{Fault, Outputs, SUCCEEDED};
use memchr::{memchr, memmem};
use order_laws::Refusal;
use std::alloc::Global;
use std::io::Write;
use texts::{Output, hexadecimal};

// what messages say before the word that they are about
const BAD_ADDRESS: &[u8] = b"bad address ";

const NO_ADDRESS: &[u8] = b"no address is given";

const BAD_TIME: &[u8] = b"bad time ";

const FOLLOWED_OFFSET: &[u8] = b"--offset auto and --follow exclude each other";

const BAD_BOUND: &[u8] = b"--kernel takes two names of symbols, and its END is ";

const BAD_READERS: &[u8] = b"bad number of readers ";

const NO_COMMAND: &[u8] = b"no command";

const NO_TEXT: &[u8] = b"an argument is not valid UTF-8";

const OFFSET_WITHOUT_PREFIX: &[u8] = b"bad offset, 0x is missing before ";

const BAD_OFFSET: &[u8] = b"bad offset ";

const PROGRAM: &[u8] = b"latchsym: ";

/// The program's status if the command line is at fault.
const MISUSED: u8 = 2;

/// Says why the command line gives no job, and returns the program's status. Help that was asked
/// for goes to the writer.
pub fn refuse<W: Write, E: Write>(
    alloc: Global,
    fault: JobFault<'_>,
    outputs: &mut Outputs<W, E>,
) -> u8
    ensures { IsNoJob W.contents E.contents outputs.old.writer outputs.new.writer
        outputs.old.errors outputs.new.errors fault.entry result }
{
    let errors = &mut outputs.errors;
    match fault {
        JobFault::OutOfMemory => report_before_job(&Fault::Refused(Refusal::OutOfMemory), errors),
        JobFault::CommandLine(error) => explain(alloc, &error, outputs),
        JobFault::BadAddress(word) => misused(BAD_ADDRESS, word, errors),
        JobFault::NoAddress => misused(NO_ADDRESS, "", errors),
        JobFault::Conflict(message) => misused(message.as_bytes(), "", errors),
        JobFault::BadTime(word) => misused(BAD_TIME, word, errors),
        JobFault::BadOffset(word) => misused(offset_message(word), word, errors),
        JobFault::FollowedByOwnOffset => misused(FOLLOWED_OFFSET, "", errors),
        JobFault::BadEnd(word) => misused(BAD_BOUND, word, errors),
        JobFault::BadReaders(word) => misused(BAD_READERS, word, errors),
        JobFault::NoJob => misused(NO_COMMAND, "", errors),
        JobFault::NoText => misused(NO_TEXT, "", errors),
    }
}

/// What is wrong with an offset: it may be a hexadecimal number that lacks its prefix, as the
/// kernel writes it in vmcoreinfo.
fn offset_message(word: &str) -> &'static [u8]
    ensures { result.now ≡ offset_message word.now }
{
    if hexadecimal(word.as_bytes()).is_some() {
        OFFSET_WITHOUT_PREFIX
    } else {
        BAD_OFFSET
    }
}

/// Says what the parser of the command line has to say, and returns the program's status: help goes
/// to the writer, a fault to the output for errors.
fn explain<W: Write, E: Write>(alloc: Global, error: &Error, outputs: &mut Outputs<W, E>) -> u8
    ensures { IsExplained W.contents E.contents outputs.old.writer outputs.new.writer
        outputs.old.errors outputs.new.errors error.now result }
{
    let Ok(text) = format!(in alloc; "{error}") else {
        return report_before_job(&Fault::Refused(Refusal::OutOfMemory), &mut outputs.errors);
    };
    if error.use_stderr() {
        let (before, after) = around_tip(text.as_bytes());
        put_both(before, after, &mut outputs.errors);
        return MISUSED;
    }
    help(&text, outputs)
}

/// How the parser begins the line on passing a word as a value. After an option the line is wrong,
/// and of a negative number it quotes a part.
const VALUE_TIP: &[u8] = b"\n  tip: to pass '";

/// The bytes before that line and those after it, or all bytes and none. No second empty line is
/// left.
fn around_tip(text: &[u8]) -> (&[u8], &[u8]) {
    let Some(start) = memmem::find(text, VALUE_TIP) else {
        return (text, &[]);
    };
    let before = &text[..start];
    let tip = &text[start + 1..];
    let end = memchr(b'\n', tip).unwrap_or(tip.len());
    if before.ends_with(b"\n") && end < tip.len() {
        (before, &tip[end + 1..])
    } else {
        (before, &tip[end..])
    }
}

fn put_both<E: Write>(first: &[u8], second: &[u8], writer: &mut Output<E>)
    ensures { Says E.contents writer.old writer.new (first.now ++ second.now) }
{
    writer.put(first);
    writer.put(second);
}

/// Writes help that was asked for, and returns the program's status.
fn help<W: Write, E: Write>(text: &str, outputs: &mut Outputs<W, E>) -> u8
    ensures { IsHelped W.contents E.contents outputs.old.writer outputs.new.writer
        outputs.old.errors outputs.new.errors text.now result }
{
    let writer = &mut outputs.writer;
    writer.put(text.as_bytes());
    writer.flush();
    if writer.has_failed() {
        return report_before_job(&Fault::Write, &mut outputs.errors);
    }
    SUCCEEDED
}

/// Writes what is wrong with the command line, and with which word. If the writer fails, only the
/// status says it.
fn misused<E: Write>(message: &[u8], word: &str, errors: &mut Output<E>) -> u8
    ensures { IsMisused E.contents errors.old errors.new message.now word.now result }
{
    put_misuse(message, word, errors);
    MISUSED
}

fn put_misuse<E: Write>(message: &[u8], word: &str, writer: &mut Output<E>)
    ensures { Says E.contents writer.old writer.new (misuse_text message.now word.now) }
{
    writer.put(PROGRAM);
    writer.put(message);
    writer.put(word.as_bytes());
    writer.put(b"\n");
}
