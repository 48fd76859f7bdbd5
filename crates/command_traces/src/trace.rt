//! From the bytes of a trace to the lines that it writes.
//!
//! A command is run as soon as it is read, and what it came to is put after the text: neither
//! commands nor notes are kept. The text goes out at the end, so that a bad line, or memory that
//! runs out, leaves the output empty.
ghost use Rattle.std.specs.Prelude.{◌≡◌, [], IfErr, IfOk, OnOk};
ghost use Rattle.run_files.specs.Trace.{trace_of, with_header};
ghost use Rattle.command_traces.specs.Traces.{IsLinesFault, GathersCommand, GathersLines};
ghost use Rattle.command_traces.specs.Traces.{HasGathered, AnswersSaid, AnswersTrace, IsNotOpened};
ghost use Rattle.command_traces.specs.Traces.{order_by};

use crate::trace_lines::{layout_for, next_command, understand};
use crate::trace_texts::{put_end, put_notes};
use command_parts::{Fault, all_written, read_at};
use latch_steps::{Command, Driver};
use order_laws::{Closed, HalfOpen, Refusal, TreeOrder};
use run_files::{CommandLines, Header, open_trace};
use std::alloc::Global;
use std::io::{Read, Write};
use texts::{BLOCK, Counted, Output};

/// Runs a trace, and writes a line for each lookup that returned and for each refusal, and the line
/// of the last sequence.
///
/// The trace is run to its end before the first byte is written, so every fault but a failed write
/// leaves the writer as it was. docs/FORMATS.md has the grammar and the lines.
pub fn trace_engine<R: Read, W: Write>(
    alloc: Global,
    reader: &mut Counted<R>,
    writer: &mut Output<W>,
) -> Result<(), Fault>
    ensures { AnswersTrace R.remaining W.contents reader.old reader.new
        writer.old writer.new result }
{
    let bytes = read_at(alloc, reader, 0)?;
    run_text(alloc, &bytes, writer)
}

/// Runs the trace that bytes are.
fn run_text<W: Write>(alloc: Global, bytes: &[u8], writer: &mut Output<W>) -> Result<(), Fault>
    ensures { AnswersSaid W.contents (trace_of bytes.now) writer.old writer.new result }
{
    let Some((header, mut lines)) = open_trace(alloc, bytes) else {
        return Err(Fault::BadLine { place: 0, line: 1 });
    };
    if header.closed {
        run_lines::<Closed, W>(alloc, header, &mut lines, writer)
    } else {
        run_lines::<HalfOpen, W>(alloc, header, &mut lines, writer)
    }
}

/// Runs the commands after this header, in the order that it names.
fn run_lines<O: TreeOrder<Key = u64>, W: Write>(
    alloc: Global,
    header: Header,
    lines: &mut CommandLines<'_>,
    writer: &mut Output<W>,
) -> Result<(), Fault>
    requires { O.order ≡ order_by header.closed }
    ensures { AnswersSaid W.contents (with_header header lines.old.said)
        writer.old writer.new result }
{
    let mut driver = match driver_for::<O>(alloc, header) {
        Ok(driver) => driver,
        Err(why) => {
            understand(lines)?;
            return Err(Fault::Refused(why));
        }
    };
    let mut gathered = Output::with_capacity(alloc, BLOCK, Vec::new(alloc))?;
    gather_lines(&mut driver, lines, &mut gathered)?;
    let left = driver.finish()?;
    let Some(text) = gathered.finish() else {
        return Err(Fault::Refused(Refusal::OutOfMemory));
    };
    writer.put(&text);
    put_end(writer, left.sequence);
    writer.flush();
    all_written(writer)
}

/// An empty table as a header asks for it.
fn driver_for<O: TreeOrder<Key = u64>>(alloc: Global, header: Header) -> Result<Driver<O>, Refusal>
    ensures opened { IfOk result (HasGathered O.order header [] []) }
    ensures refusal { IfErr result (IsNotOpened header) }
{
    let layout = layout_for(header.version, header.capacity)?;
    let driver = Driver::open(alloc, layout, header.start)?;
    Ok(driver)
}

/// Runs the commands of lines, and says what they came to.
fn gather_lines<O: TreeOrder<Key = u64>, W: Write>(
    driver: &mut Driver<O>,
    lines: &mut CommandLines<'_>,
    gathered: &mut Output<W>,
) -> Result<(), Fault>
    ensures gathered { OnOk result (GathersLines O.order W.contents lines.old.said
        driver.old driver.new gathered.old gathered.new) }
    ensures fault { IfErr result (IsLinesFault lines.old.said) }
{
    while let Some(next) = next_command(lines)? {
        gather_command(driver, &next.command, gathered)?;
    }
    Ok(())
}

/// Runs a command, and says what it came to.
fn gather_command<O: TreeOrder<Key = u64>, W: Write>(
    driver: &mut Driver<O>,
    command: &Command<u64>,
    gathered: &mut Output<W>,
) -> Result<(), Refusal>
    ensures gathered { OnOk result (GathersCommand O.order W.contents command.now
        driver.old driver.new gathered.old gathered.new) }
    ensures refusal { IfErr result (λ why. why ≡ Refusal.OutOfMemory) }
{
    driver.obey(command)?;
    put_notes(gathered, driver.notes());
    driver.forget_notes();
    if gathered.has_failed() {
        return Err(Refusal::OutOfMemory);
    }
    Ok(())
}
