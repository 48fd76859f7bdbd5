//! Runs whose commands come one after another, as a caller has them.

ghost use Rattle.std.specs.Prelude.{◌≡◌, [], IfOk, IfErr, OnOk};
ghost use Rattle.latch_core.specs.Writers.{MayOpen, IsOpeningRefused};
ghost use Rattle.latch_steps.specs.Drivers.{DrivesOn, HasDriven, IsTakenFrom, LeavesNotes, notes_in};

use crate::commands::Command;
use crate::replies::Note;
use crate::traces::{Notes, Recording, RecordingOptions};
use crate::worlds::World;
use order_laws::{Refusal, TreeOrder};
use std::alloc::Global;
use word_layout::Layout;

/// A run of commands that is not over. It keeps no list of them, and of their notes only those that
/// were not taken yet.
#[derive(Drop)]
pub struct Driver<O: TreeOrder> {
    world: World<O>,
    recording: Recording<O::Key>,
}

impl<O: TreeOrder> Driver<O> {
    /// An empty table with its sequence at `start`, before any command.
    ///
    /// Refused by [`Refusal::BadCapacity`] if the start is odd or above the layout's limit, and
    /// by [`Refusal::OutOfMemory`].
    #[tactic(auto, using(crate::proofs::RecordingLemmas::driven_none))]
    pub fn open(alloc: Global, l: Layout, start: u64) -> Result<Self, Refusal>
        ensures driven { IfOk result (HasDriven O.order l start [] []) }
        ensures none { IfOk result (λ driver. notes_in driver ≡ []) }
        ensures may { IfOk result (λ driver. MayOpen l start) }
        ensures refusal { IfErr result (IsOpeningRefused l start) }
    {
        let world = World::open(alloc, l, start)?;
        let recording = Recording::new(alloc, 0)?;
        Ok(Driver { world, recording })
    }

    /// Does the events of a command. Refused by [`Refusal::OutOfMemory`] alone, which gives up the
    /// whole run.
    #[tactic(auto, using(crate::proofs::RecordingLemmas::driven_more))]
    pub fn obey(&mut self, command: &Command<O::Key>) -> Result<(), Refusal>
        ensures driven { OnOk result (DrivesOn O.order command.now self.old self.new) }
        ensures refusal { IfErr result (λ why. why ≡ Refusal.OutOfMemory) }
    {
        let options = RecordingOptions { events: false };
        self.world.obey(command, &options, &mut self.recording)?;
        self.recording.unless_ran_out()?;
        Ok(())
    }

    /// The lookups that returned and the refusals that were not taken yet, in the order of events.
    pub fn notes(&self) -> &[Note<O::Key>]
        ensures { result.now ≡ notes_in self.now }
    {
        self.recording.notes()
    }

    /// Takes these notes from it.
    pub fn forget_notes(&mut self)
        ensures taken { IsTakenFrom O.order self.old self.new }
        ensures none { notes_in self.new ≡ [] }
    {
        self.recording.forget_notes();
    }

    /// The notes that were not taken, and the sequence as it is now. With the notes that were taken
    /// they are the notes of a run of the commands' events, under the promise of
    /// [`run`](crate::run). A run of 2 to the power 64 events less one, or of more, is refused as
    /// too large.
    pub fn finish(self) -> Result<Notes<O>, Refusal>
        ensures notes { IfOk result (LeavesNotes O.order self) }
        ensures left { IfOk result (λ left. left.notes.items ≡ notes_in self) }
        ensures refusal { IfErr result (λ why. why ≡ Refusal.OutOfMemory) }
    {
        let Driver { world, recording } = self;
        let left = Notes::of(world, recording)?;
        Ok(left)
    }
}
