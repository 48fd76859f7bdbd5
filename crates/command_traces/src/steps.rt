//! From the bytes of a trace to the lines of its steps.
//!
//! Each line is looked at before the first byte is written, so that a bad line leaves the output
//! empty. Then each command is carried out as it is read, and the report of each of its events is
//! the line that is written: nothing of it is kept.
ghost use Rattle.std.specs.Prelude.{◌≡◌, IfErr, IfOk, OnOk};
ghost use Rattle.run_files.specs.CommandLines.{IsUnderstood};
ghost use Rattle.run_files.specs.Trace.{command_lines, trace_of, with_header};
ghost use Rattle.command_traces.specs.StepTraces.{IsOpenedFor, StopsTelling, TellsLines};
ghost use Rattle.command_traces.specs.StepTraces.{AnswersSteps, AnswersStepsSaid};
ghost use Rattle.command_traces.specs.Traces.{IsNotOpened, order_by};

use crate::step_texts::{put_event, put_opening};
use crate::trace_lines::{layout_for, next_command, understand};
use command_parts::{Fault, all_written, read_at};
use latch_steps::{Event, Outcome, Report, World};
use order_laws::{Closed, HalfOpen, Refusal, TreeOrder};
use run_files::{CommandLines, Header, open_trace};
use std::alloc::Global;
use std::io::{Read, Write};
use std::marker::PhantomData;
use texts::{Counted, Output};

/// Runs a trace, and writes a line for its opening and for each event that is done.
///
/// Each line is looked at before the first byte is written. docs/FORMATS.md has the lines.
pub fn steps_engine<R: Read, W: Write>(
    alloc: Global,
    reader: &mut Counted<R>,
    writer: &mut Output<W>,
) -> Result<(), Fault>
    ensures { AnswersSteps R.remaining W.contents reader.old reader.new
        writer.old writer.new result }
{
    let bytes = read_at(alloc, reader, 0)?;
    put_steps(alloc, &bytes, writer)
}

/// Runs the trace that bytes are, and writes its steps.
fn put_steps<W: Write>(alloc: Global, bytes: &[u8], writer: &mut Output<W>) -> Result<(), Fault>
    ensures { AnswersStepsSaid W.contents (command_lines bytes.now) (trace_of bytes.now)
        writer.old writer.new result }
{
    let Some((header, mut lines)) = open_trace(alloc, bytes) else {
        return Err(Fault::BadLine { place: 0, line: 1 });
    };
    understand(&lines)?;
    if header.closed {
        put_steps_of::<Closed, W>(alloc, header, &mut lines, writer)
    } else {
        put_steps_of::<HalfOpen, W>(alloc, header, &mut lines, writer)
    }
}

/// Runs the commands after this header in the order that it names, and writes their steps.
fn put_steps_of<O: TreeOrder<Key = u64>, W: Write>(
    alloc: Global,
    header: Header,
    lines: &mut CommandLines<'_>,
    writer: &mut Output<W>,
) -> Result<(), Fault>
    requires order { O.order ≡ order_by header.closed }
    requires understood { IsUnderstood lines.old.said }
    ensures { AnswersStepsSaid W.contents lines.old.lines (with_header header lines.old.said)
        writer.old writer.new result }
{
    let mut world = world_for::<O>(alloc, header)?;
    put_opening(writer, &header);
    let told = put_step_lines(&mut world, lines, writer);
    writer.flush();
    all_written(writer)?;
    told
}

/// An empty table as a header asks for it.
fn world_for<O: TreeOrder<Key = u64>>(alloc: Global, header: Header) -> Result<World<O>, Refusal>
    ensures opened { IfOk result (IsOpenedFor O.order header) }
    ensures refusal { IfErr result (IsNotOpened header) }
{
    let layout = layout_for(header.version, header.capacity)?;
    let world = World::open(alloc, layout, header.start)?;
    Ok(world)
}

/// Carries out the commands of lines, and writes what each of their events did. After a command at
/// which the writer failed it goes on with none.
fn put_step_lines<O: TreeOrder<Key = u64>, W: Write>(
    world: &mut World<O>,
    lines: &mut CommandLines<'_>,
    writer: &mut Output<W>,
) -> Result<(), Fault>
    ensures told { OnOk result (TellsLines O.order W.contents lines.old world.old
        writer.old writer.new) }
    ensures fault { IfErr result (StopsTelling O.order W.contents lines.old world.old
        writer.old writer.new) }
{
    while let Some(next) = next_command(lines)? {
        world.obey(&next.command, &StepLines::of(next.line), writer)?;
        all_written(writer)?;
    }
    Ok(())
}

/// The report of an event as a line of text, for a command on this line of the trace.
#[derive(Drop)]
struct StepLines<W> {
    line: u64,
    of: PhantomData<W>,
}

impl<W> StepLines<W> {
    fn of(line: u64) -> Self
        ensures { result.line ≡ line }
    {
        StepLines {
            line,
            of: PhantomData,
        }
    }
}

impl<W: Write> Report<u64> for StepLines<W> {
    ghost use Rattle.command_traces.specs.StepTraces.{Tells};

    type Sink = Output<W>;

    ghost reports = { λ lines. Tells W.contents lines.line };

    fn report(&self, to: &mut Output<W>, event: &Event<u64>, outcome: &Outcome<u64>) {
        put_event(to, self.line, event, outcome);
    }
}
