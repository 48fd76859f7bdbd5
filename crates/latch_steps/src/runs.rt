//! Whole runs, of a list of events or of a list of commands.

ghost use Rattle.std.specs.Prelude.{◌≡◌, ◌≤◌, IfOk, IfErr, length};
ghost use Rattle.latch_core.specs.Writers.{MayOpen, IsOpeningRefused};
ghost use Rattle.latch_steps.specs.Promises.{IsTrace, IsTraceOfCommands, IsSafeTrace, IsQuietTrace};
ghost use Rattle.latch_steps.specs.Promises.{IsNearTrace};

use crate::commands::Command;
use crate::events::Event;
use crate::traces::{Recording, RecordingOptions, Trace};
use crate::worlds::World;
use order_laws::{Refusal, TreeOrder};
use std::alloc::Global;
use word_layout::Layout;

/// Does these events one after another, from an empty table with its sequence at `start`.
///
/// Each lookup that returns gives the lookup of the table after some whole number of accepted
/// updates, which was current at a moment between its first and its last step; and a lookup whose
/// steps meet no writer step returns at its first attempt within `4n + 3` loads at a table of `n`
/// items, even in the middle of an update. These loads are also at most `4d + 3` for
/// a `d` with 2 to the power `d` at most the square of `n + 1`.
///
/// Refused by [`Refusal::BadCapacity`] if the start is odd or above the layout's limit, and by
/// [`Refusal::OutOfMemory`], which gives up the whole run.
pub fn run<O: TreeOrder>(
    alloc: Global,
    l: Layout,
    start: u64,
    events: &[Event<O::Key>],
) -> Result<Trace<O>, Refusal>
    ensures events { IfOk result (λ t. t.events.items ≡ events.now) }
    ensures traces { IfOk result (IsTrace O.order l start) }
    ensures safe { IfOk result (IsSafeTrace O.order l start) }
    ensures quiet { IfOk result (IsQuietTrace O.order l start) }
    ensures near { IfOk result (IsNearTrace O.order l start) }
    ensures may { IfOk result (λ t. MayOpen l start) }
    ensures refusal { IfErr result (IsOpeningRefused l start) }
{
    let mut world = World::<O>::open(alloc, l, start)?;
    let mut recording = Recording::new(alloc, 0)?;
    for event in events {
        let options = RecordingOptions { events: true };
        let reply = world.step_reported(event, &options, &mut recording);
        if reply.is_refused_for_memory() {
            return Err(Refusal::OutOfMemory);
        }
        recording.unless_ran_out()?;
    }
    Ok(Trace::of(world, recording))
}

/// Does the events of these commands one after another, from an empty table with its sequence at
/// `start`.
///
/// The trace is a run of its events, under the promise of [`run`], and its events are
/// the ones that the commands mean.
pub fn drive<O: TreeOrder>(
    alloc: Global,
    l: Layout,
    start: u64,
    commands: &[Command<O::Key>],
) -> Result<Trace<O>, Refusal>
    ensures expands { IfOk result (IsTraceOfCommands O.order l start commands.now) }
    ensures safe { IfOk result (IsSafeTrace O.order l start) }
    ensures quiet { IfOk result (IsQuietTrace O.order l start) }
    ensures near { IfOk result (IsNearTrace O.order l start) }
    ensures may { IfOk result (λ t. MayOpen l start) }
    ensures refusal { IfErr result (IsOpeningRefused l start) }
{
    let mut world = World::<O>::open(alloc, l, start)?;
    let mut recording = Recording::new(alloc, reads_among(commands))?;
    for command in commands {
        let options = RecordingOptions { events: true };
        world.obey(command, &options, &mut recording)?;
        recording.unless_ran_out()?;
    }
    Ok(Trace::of(world, recording))
}

/// How many of the commands ask for loads, with which a lookup may return: a list of notes that
/// has this room need not move while it grows.
fn reads_among<K>(commands: &[Command<K>]) -> usize
    ensures { result ≤ length commands.now }
{
    commands
        .iter()
        .filter(|command| matches!(command, Command::Read(_, _)))
        .count()
}
