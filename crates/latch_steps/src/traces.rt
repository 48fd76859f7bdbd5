//! Whole runs, and what they leave.

ghost use Rattle.std.specs.Prelude.{◌≡◌, [], false, IfOk, IfErr, OnOk};
ghost use Rattle.latch_steps.specs.Traces.{note_of};

use crate::events::Event;
use crate::replies::{Note, Reply};
use crate::reports::{Outcome, Report};
use crate::worlds::World;
use order_laws::{Refusal, TreeOrder};
use std::alloc::{AllocError, Global};

/// What a run leaves.
#[derive(Drop)]
pub struct Trace<O: TreeOrder> {
    /// The events that were done, in order.
    pub events: Vec<Event<O::Key>>,
    /// The lookups that returned and the refusals, in the order of events.
    pub notes: Vec<Note<O::Key>>,
    /// The sequence after the last event.
    pub sequence: u64,
}

/// What a run leaves whose events are not kept.
#[derive(Drop)]
pub struct Notes<O: TreeOrder> {
    /// The lookups that returned and the refusals, in the order of events.
    pub notes: Vec<Note<O::Key>>,
    /// The sequence after the last event.
    pub sequence: u64,
}

/// What is kept of a run: its events, if these are asked for, and what they are noted as.
#[derive(Drop)]
pub(crate) struct Recording<K> {
    events: Vec<Event<K>>,
    notes: Vec<Note<K>>,
    /// Whether memory ran out, so that something is missing.
    ran_out: bool,
}

/// How a run is recorded.
#[derive(Drop)]
pub(crate) struct RecordingOptions {
    /// Whether the events are kept too.
    pub(crate) events: bool,
}

/// What a reply is noted as: a lookup that returned, or a refusal.
fn note_of<K: Copy>(reply: &Reply<K>) -> Option<Note<K>>
    ensures { result ≡ note_of reply.now }
{
    match reply {
        Reply::Returned(returned) => Some(Note::Returned(*returned)),
        Reply::Refused(why) => Some(Note::Refused(*why)),
        _ => None,
    }
}

impl RecordingOptions {
    ghost use Rattle.latch_steps.specs.Recordings.{AppendsCopy, AppendsNote};

    /// Appends a copy of an event, if events are kept. Refused by [`Refusal::OutOfMemory`] alone.
    fn keep<K: Copy>(&self, events: &mut Vec<Event<K>>, event: &Event<K>) -> Result<(), Refusal>
        ensures { OnOk result
            (AppendsCopy self.now.events event.now events.old.items events.new.items) }
    {
        if self.events {
            events.push(event.copy()?)?;
        }
        Ok(())
    }

    /// Keeps an event and what its reply is noted as. Refused by [`Refusal::OutOfMemory`] alone.
    fn keep_all<K: Copy>(
        &self,
        kept: &mut Recording<K>,
        event: &Event<K>,
        reply: &Reply<K>,
    ) -> Result<(), Refusal>
        ensures events { OnOk result
            (AppendsCopy self.now.events event.now kept.old.events.items kept.new.events.items) }
        ensures notes { OnOk result
            (AppendsNote reply.now kept.old.notes.items kept.new.notes.items) }
        ensures ran_out { kept.new.ran_out ≡ kept.old.ran_out }
    {
        self.keep(&mut kept.events, event)?;
        if let Some(note) = note_of(reply) {
            kept.notes.push(note)?;
        }
        Ok(())
    }
}

impl<K: Copy> Report<K> for RecordingOptions {
    ghost use Rattle.latch_steps.specs.Recordings.{Keeps};

    type Sink = Recording<K>;

    ghost reports = { λ options. Keeps options.events };

    #[inline(always)]
    fn report(&self, to: &mut Recording<K>, event: &Event<K>, outcome: &Outcome<K>) {
        if self.keep_all(to, event, &outcome.reply).is_err() {
            to.ran_out = true;
        }
    }
}

impl<K: Drop> Recording<K> {
    ghost use Rattle.latch_steps.specs.Recordings.{IsEmpty};

    /// Nothing, with room for `room` notes.
    pub(crate) fn new(alloc: Global, room: usize) -> Result<Self, AllocError>
        ensures { IfOk result IsEmpty }
    {
        Ok(Recording {
            events: Vec::new(alloc),
            notes: Vec::with_capacity(alloc, room)?,
            ran_out: false,
        })
    }

    /// Refused by [`Refusal::OutOfMemory`] if memory ran out.
    pub(crate) fn unless_ran_out(&self) -> Result<(), Refusal>
        ensures whole { OnOk result (self.now.ran_out ≡ false) }
        ensures refusal { IfErr result (λ e. e ≡ Refusal.OutOfMemory) }
    {
        if self.ran_out {
            return Err(Refusal::OutOfMemory);
        }
        Ok(())
    }

    /// What was noted.
    pub(crate) fn notes(&self) -> &[Note<K>]
        ensures { result.now ≡ self.now.notes.items }
    {
        self.notes.as_slice()
    }

    /// Keeps no note of what was noted.
    pub(crate) fn forget_notes(&mut self)
        ensures { self.new.notes.items ≡ [] }
    {
        self.notes.clear();
    }
}

impl<O: TreeOrder> Trace<O> {
    ghost use Rattle.latch_steps.specs.Recordings.{IsWhole};

    /// The trace of a world that was recorded, with the sequence as it is now.
    pub(crate) fn of(world: World<O>, recording: Recording<O::Key>) -> Self
        ensures { IsWhole O.order world recording result }
    {
        let Recording { events, notes, .. } = recording;
        Trace {
            events,
            notes,
            sequence: world.sequence(),
        }
    }
}

impl<O: TreeOrder> Notes<O> {
    ghost use Rattle.latch_steps.specs.Recordings.{AreWhole};

    /// The notes of a world that was recorded, with the sequence as it is now. A run of 2 to the
    /// power 64 events less one, or of more, is refused as too large.
    pub(crate) fn of(world: World<O>, recording: Recording<O::Key>) -> Result<Self, Refusal>
        ensures notes { IfOk result (AreWhole O.order world recording) }
        ensures refusal { IfErr result (λ e. e ≡ Refusal.OutOfMemory) }
    {
        if !world.is_counting() {
            return Err(Refusal::OutOfMemory);
        }
        let Recording { notes, .. } = recording;
        Ok(Notes {
            notes,
            sequence: world.sequence(),
        })
    }
}
