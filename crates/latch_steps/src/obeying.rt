//! The commands of a trace, done by a world: each repeats one event, and each event is reported.

ghost use Rattle.std.specs.Prelude.{◌≡◌, true, false, IfErr, OnOk};
ghost use Rattle.latch_steps.specs.WorldSteps.{is_refused_for_memory};

use crate::commands::Command;
use crate::events::Event;
use crate::replies::Reply;
use crate::reports::{Outcome, Report};
use crate::worlds::World;
use order_laws::{Refusal, TreeOrder};

impl<O: TreeOrder> World<O> {
    ghost use Rattle.latch_steps.specs.Reports.{EndsAt, ObeysFromAny, ObeysOnce, ObeysWriting};
    ghost use Rattle.latch_steps.specs.Reports.{ReportsEvent};
    ghost use Rattle.latch_steps.specs.Worlds.{layout_in};
    ghost use Rattle.latch_steps.specs.WorldSteps.{IsWorldStep};

    /// Does the events of a command, and reports each. Refused by [`Refusal::OutOfMemory`] alone,
    /// which gives up the run, with nothing reported of the command.
    #[tactic(auto, using(crate::proofs::ReportLemmas::obeyed_once))]
    pub fn obey<R: Report<O::Key>>(
        &mut self,
        command: &Command<O::Key>,
        report: &R,
        to: &mut R::Sink,
    ) -> Result<(), Refusal>
        ensures layout { layout_in self.new ≡ layout_in self.old }
        ensures obeyed { OnOk result (ObeysFromAny O.order (R.reports report.now) command.now
            self.old self.new to.old to.new) }
        ensures refusal { IfErr result (λ why. why ≡ Refusal.OutOfMemory) }
        ensures refused { IfErr result (λ why. to.new ≡ to.old) }
    {
        match command {
            Command::Begin(update) => self.once(&Event::Begin(update.copy()?), report, to),
            Command::Write(most) => {
                let most = if self.is_writing() { *most as u64 } else { 0 };
                self.write_on(most, false, report, to);
                Ok(())
            }
            Command::WriteFlip => {
                let left = self.writes_left();
                self.write_on(left, true, report, to);
                Ok(())
            }
            Command::WriteEnd => {
                let left = self.writes_left();
                self.write_on(left, false, report, to);
                Ok(())
            }
            Command::Start(reader, key) => self.once(&Event::Start(*reader, *key), report, to),
            Command::Read(reader, most) => {
                if !self.is_looking(*reader) {
                    return self.once(&Event::Read(*reader), report, to);
                }
                self.read_on(*reader, *most, report, to);
                Ok(())
            }
        }
    }

    /// Does one event, and reports what it came to, unless it was refused because memory ran out.
    pub(crate) fn step_reported<R: Report<O::Key>>(
        &mut self,
        event: &Event<O::Key>,
        report: &R,
        to: &mut R::Sink,
    ) -> Reply<O::Key>
        ensures layout { layout_in self.new ≡ layout_in self.old }
        ensures steps { IsWorldStep O.order self.old event.now result self.new }
        ensures reported { is_refused_for_memory result ≡ false
            → ReportsEvent O.order (R.reports report.now) event.now
            self.old self.new to.old to.new result }
        ensures refused { is_refused_for_memory result ≡ true → to.new ≡ to.old }
    {
        let load = self.load_by(event);
        let reply = self.step_from(event);
        if !reply.is_refused_for_memory() {
            let outcome = Outcome {
                number: self.events(),
                load,
                reply,
                sequence: self.sequence(),
            };
            report.report(to, event, &outcome);
        }
        reply
    }

    /// Does an event that its command asks for once. Refused as [`obey`](World::obey) is.
    fn once<R: Report<O::Key>>(
        &mut self,
        event: &Event<O::Key>,
        report: &R,
        to: &mut R::Sink,
    ) -> Result<(), Refusal>
        ensures layout { layout_in self.new ≡ layout_in self.old }
        ensures obeyed { OnOk result (ObeysOnce O.order (R.reports report.now) event.now
            self.old self.new to.old to.new) }
        ensures refusal { IfErr result (λ why. why ≡ Refusal.OutOfMemory) }
        ensures refused { IfErr result (λ why. to.new ≡ to.old) }
    {
        let reply = self.step_reported(event, report, to);
        if reply.is_refused_for_memory() {
            return Err(Refusal::OutOfMemory);
        }
        Ok(())
    }

    /// Makes at most `most` steps of the writer, up to the end of the pending update; if `to_flip`,
    /// up to the next flip.
    fn write_on<R: Report<O::Key>>(
        &mut self,
        most: u64,
        to_flip: bool,
        report: &R,
        to: &mut R::Sink,
    )
        ensures layout { layout_in self.new ≡ layout_in self.old }
        ensures written { ObeysWriting O.order (R.reports report.now) to_flip most
            self.old self.new to.old to.new }
    {
        for _turn in 0..most {
            let reply = self.step_reported(&Event::Write, report, to);
            if self.ends(&reply, to_flip) {
                break;
            }
        }
    }

    /// Whether the writer's steps end with this one.
    fn ends(&self, reply: &Reply<O::Key>, to_flip: bool) -> bool
        ensures { EndsAt O.order self.now to_flip reply.now result }
    {
        (to_flip && reply.is_flip()) || !self.is_writing()
    }
}
