//! The words, their writer and the pending lookups, one step at a time.

ghost use Rattle.std.specs.Prelude.{◌≡◌, ◌-◌, ◌^◌, ◌<◌, true, [], length, IfOk};
ghost use Rattle.std.specs.Prelude.{IfErr, IfSome, IfNone, OnSome, OnOk, is_some};
ghost use Rattle.word_layout.specs.Layouts.{capacity_of};
ghost use Rattle.latch_core.specs.Writers.{MayOpen, IsOpeningRefused};
ghost use Rattle.table_updates.specs.declared.updates.Update.{Update};
ghost use Rattle.latch_steps.specs.declared.events.Event.TheVariants.{Begin, Write, Start, Read};
ghost use Rattle.latch_steps.specs.Runs.{Moment, opening};

use crate::counts::counted_up;
use crate::events::Event;
use crate::lookups::{LoadOutcome, Lookup, LookupProgress};
use crate::replies::{NextLoad, Reply, Returned};
use crate::reports::Report;
use crate::words::{opening_words, put, word_at};
use latch_core::{AttemptOutcome, WriterCore, attempt_in};
use order_laws::{Item, Refusal, TreeOrder};
use std::alloc::Global;
use std::collections::BTreeMap;
use table_updates::Update;
use word_layout::{Layout, Store};

/// The words of a latched tree with their writer, the pending lookups by reader, and the count of
/// events, which stays at the greatest `u64`.
///
/// `step` does one event, `settle` and `find_now` as many as they need. A refused event is counted
/// too, unless it was refused because memory ran out, which changes nothing.
#[derive(Drop)]
pub struct World<O: TreeOrder> {
    layout: Layout,
    words: Vec<u64>,
    writer: WriterCore<O>,
    lookups: BTreeMap<u32, Option<Lookup<O>>>,
    events: u64,
}

impl<O: TreeOrder> World<O> {
    ghost use Rattle.latch_steps.specs.Worlds.{RepresentsMoment, IsAtRest, layout_in, IsAfter};
    ghost use Rattle.latch_steps.specs.Worlds.{StaysAfter, HasSequence, HasStepsLeft};
    ghost use Rattle.latch_steps.specs.Worlds.{CountsExactly, HasEvents};
    ghost use Rattle.latch_steps.specs.WorldSteps.{Does, MayDo, IsWorldStep};
    ghost use Rattle.latch_steps.specs.Lookups.{lookup_at};
    ghost use Rattle.latch_steps.specs.Reports.{IsLoadBy, ObeysFromAny};
    ghost use Rattle.latch_steps.specs.declared.commands.Command.TheVariants as Command;
    ghost use Rattle.latch_steps.specs.AtOnce.{SettlesFromAny, IsSettledFromAny, FindsFromAny};
    ghost use Rattle.latch_steps.specs.AtOnce.{IsFoundFromAny, IsNearFromAny, KeepsUpdates};
    ghost use Rattle.latch_steps.specs.AtOnce.{IsNotBegunFromAny, LooksUp, HasNoAnswer};

    /// A world before any event, with its sequence at `start`.
    ///
    /// Refused by [`Refusal::BadCapacity`] if the start is odd or above the layout's limit, and
    /// by [`Refusal::OutOfMemory`].
    pub fn open(alloc: Global, l: Layout, start: u64) -> Result<Self, Refusal>
        ensures layout { IfOk result (λ w. layout_in w ≡ l) }
        ensures shows { IfOk result
            (λ w. RepresentsMoment O.order w (opening (capacity_of l) start)) }
        ensures may { IfOk result (λ w. MayOpen l start) }
        ensures after { IfOk result (λ w. IsAfter O.order start [] w) }
        ensures refusal { IfErr result (IsOpeningRefused l start) }
    {
        let writer = WriterCore::open(alloc, l, start)?;
        let words = opening_words(alloc, l, start)?;
        Ok(World {
            layout: l,
            words,
            writer,
            lookups: BTreeMap::new(alloc),
            events: 0,
        })
    }

    /// Does one event.
    ///
    /// Begin and Start may be refused by [`Refusal::OutOfMemory`] if nothing else is against
    /// them, and nothing has changed then.
    pub fn step(&mut self, event: Event<O::Key>) -> Reply<O::Key>
        ensures layout { layout_in self.new ≡ layout_in self.old }
        ensures steps { IsWorldStep O.order self.old event result self.new }
        ensures after { StaysAfter O.order self.old event result self.new }
    {
        self.step_from(&event)
    }

    /// Does one event, for a caller that keeps it.
    pub fn step_from(&mut self, event: &Event<O::Key>) -> Reply<O::Key>
        ensures layout { layout_in self.new ≡ layout_in self.old }
        ensures steps { IsWorldStep O.order self.old event.now result self.new }
        ensures after { StaysAfter O.order self.old event.now result self.new }
    {
        match event {
            Event::Begin(update) => self.begin(update),
            Event::Write => self.write(),
            Event::Start(reader, key) => self.start(*reader, *key),
            Event::Read(reader) => self.read(*reader),
        }
    }

    /// The writer begins an update.
    fn begin(&mut self, update: &Update) -> Reply<O::Key>
        ensures layout { layout_in self.new ≡ layout_in self.old }
        ensures steps { MayDo O.order self.old (Begin update.now) result self.new }
    {
        match self.writer.begin(update) {
            Ok(left) => {
                self.events = counted_up(self.events);
                Reply::Begun(left)
            }
            Err(why) => {
                match why {
                    Refusal::OutOfMemory => {}
                    _ => self.events = counted_up(self.events),
                }
                Reply::Refused(why)
            }
        }
    }

    /// The writer makes one store, if it has a pending update.
    fn write(&mut self) -> Reply<O::Key>
        ensures layout { layout_in self.new ≡ layout_in self.old }
        ensures steps { Does O.order self.old Write result self.new }
    {
        match self.make() {
            Some(store) => Reply::Wrote(store),
            None => {
                self.events = counted_up(self.events);
                Reply::Idle
            }
        }
    }

    /// Makes the writer's next store, if it has one.
    fn make(&mut self) -> Option<Store>
        ensures layout { layout_in self.new ≡ layout_in self.old }
        ensures made { IfSome result (λ s. Does O.order self.old Write (Reply.Wrote s) self.new) }
        ensures fewer { OnSome result
            (length self.new.writer.stores_left < length self.old.writer.stores_left) }
        ensures none { IfNone result ((self.new ≡ self.old) × IsAtRest O.order self.old) }
    {
        let store = self.writer.next()?;
        put(&mut self.words, store);
        self.writer.did();
        self.events = counted_up(self.events);
        Some(store)
    }

    /// A reader begins a lookup.
    fn start(&mut self, reader: u32, key: O::Key) -> Reply<O::Key>
        ensures layout { layout_in self.new ≡ layout_in self.old }
        ensures steps { MayDo O.order self.old (Start reader key) result self.new }
    {
        if self.is_looking(reader) {
            self.events = counted_up(self.events);
            return Reply::Refused(Refusal::ReaderBusy);
        }
        let first = counted_up(self.events);
        let lookup = Lookup::start(self.layout, key, first);
        match self.lookups.insert(reader, Some(lookup)) {
            Ok(_) => {
                self.events = first;
                Reply::Started
            }
            Err(_) => Reply::Refused(Refusal::OutOfMemory),
        }
    }

    /// Whether a reader has a pending lookup.
    pub(crate) fn is_looking(&self, reader: u32) -> bool
        ensures { result ≡ is_some (lookup_at self.now.lookups reader) }
    {
        matches!(self.lookups.get(&reader), Some(Some(_)))
    }

    /// A reader makes one load.
    fn read(&mut self, reader: u32) -> Reply<O::Key>
        ensures layout { layout_in self.new ≡ layout_in self.old }
        ensures steps { Does O.order self.old (Read reader) result self.new }
    {
        self.events = counted_up(self.events);
        let Some(place) = self.lookups.get_mut(&reader) else {
            return Reply::Refused(Refusal::ReaderIdle);
        };
        let Some(lookup) = place.take() else {
            return Reply::Refused(Refusal::ReaderIdle);
        };
        match lookup.load(self.words.as_slice(), reader, self.events) {
            LoadOutcome::Going(next) => {
                *place = Some(next);
                Reply::Loaded
            }
            LoadOutcome::Retrying(next) => {
                *place = Some(next);
                Reply::Retried
            }
            LoadOutcome::Returned(returned) => Reply::Returned(returned),
        }
    }

    /// Makes the writer's steps until no update is pending.
    pub fn settle(&mut self)
        ensures layout { layout_in self.new ≡ layout_in self.old }
        ensures settles { SettlesFromAny O.order self.old self.new }
        ensures settled { IsSettledFromAny O.order self.old self.new }
    {
        while let Some(_) = self.make() {}
    }

    /// Looks a key up at once, as a lookup from its start to its return.
    ///
    /// No step of the writer comes between, so the lookup returns at its first attempt within `4n +
    /// 3` loads at a table of `n` items, and within `4d + 3` if 2 to the power d is at most the
    /// square of `n + 1`, even in the middle of an update. Refused by
    /// [`Refusal::ReaderBusy`] if the reader has a pending lookup.
    pub fn find_now(&mut self, reader: u32, key: O::Key) -> Result<Returned<O::Key>, Refusal>
        ensures layout { layout_in self.new ≡ layout_in self.old }
        ensures finds { IfOk result (FindsFromAny O.order self.old reader key self.new) }
        ensures found { IfOk result (IsFoundFromAny O.order self.old reader key) }
        ensures near { IfOk result (IsNearFromAny O.order self.old) }
        ensures after { OnOk result (KeepsUpdates O.order self.old self.new) }
        ensures refusal { IsNotBegunFromAny O.order self.old reader self.new result }
    {
        let is_busy = self.is_looking(reader);
        if is_busy {
            self.events = counted_up(self.events);
            return Err(Refusal::ReaderBusy);
        }
        let Some((answer, generation, loads)) = self.look_up(key) else {
            // Never so in words that a writer made.
            return Err(Refusal::ReaderBusy);
        };
        let first = counted_up(self.events);
        self.events = first.saturating_add(loads);
        Ok(Returned {
            reader,
            key,
            answer,
            generation,
            first,
            last: self.events,
            loads,
            attempts: 1,
        })
    }

    /// The answer of an attempt, its generation and the count of its loads.
    fn look_up(&self, key: O::Key) -> Option<(Option<Item>, u64, u64)>
        ensures found { IfSome result (λ x. LooksUp O.order self.now key x.0 x.1 x.2) }
        ensures fits { IfSome result (λ found. found.2 < 2 ^ 64) }
        ensures none { IfNone result (HasNoAnswer O.order self.now key) }
    {
        let words = self.words.as_slice();
        if words.len() != self.layout.words() {
            return None;
        }
        match attempt_in::<O>(words, self.layout, key) {
            (AttemptOutcome::Answered(answer, generation), loads) => {
                Some((answer, generation, loads as u64))
            }
            (AttemptOutcome::Failed, _) => None,
        }
    }

    /// Makes at most `most` loads of a reader's pending lookup, up to its return, and reports each.
    /// The lookup is looked up once and held apart while its loads run.
    pub(crate) fn read_on<R: Report<O::Key>>(
        &mut self,
        reader: u32,
        most: u32,
        report: &R,
        to: &mut R::Sink,
    )
        requires { is_some (lookup_at self.old.lookups reader) ≡ true }
        ensures layout { layout_in self.new ≡ layout_in self.old }
        ensures reads { ObeysFromAny O.order (R.reports report.now) (Command.Read reader most)
            self.old self.new to.old to.new }
    {
        let Some(place) = self.lookups.get_mut(&reader) else {
            return;
        };
        let Some(lookup) = place.take() else {
            return;
        };
        let words = self.words.as_slice();
        let LookupProgress { lookup, events } = lookup.load_on(
            words,
            reader,
            most,
            self.events,
            report,
            to,
        );
        *place = lookup;
        self.events = events;
    }

    /// Whether an update is pending.
    pub fn is_writing(&self) -> bool
        ensures { (w : Moment O.Key) → RepresentsMoment O.order self.now w
            → result ≡ is_some w.latch.pending }
    {
        self.writer.remaining() > 0
    }

    /// How many steps the pending update has left; 0 with none pending.
    pub fn writes_left(&self) -> u64
        ensures { HasStepsLeft O.order self.now result }
    {
        self.writer.remaining()
    }

    /// What an event loads, if it is a load of a pending lookup.
    pub(crate) fn load_by(&self, event: &Event<O::Key>) -> Option<NextLoad<O::Key>>
        ensures { IsLoadBy O.order self.now event.now result }
    {
        let Event::Read(reader) = event else {
            return None;
        };
        match self.lookups.get(reader) {
            Some(Some(lookup)) => Some(lookup.next_load(self.words.as_slice())),
            _ => None,
        }
    }

    /// How many events there were, which stays at the greatest `u64`.
    pub fn events(&self) -> u64
        ensures { HasEvents O.order self.now result }
    {
        self.events
    }

    /// Whether the count of events is still below the greatest.
    pub(crate) fn is_counting(&self) -> bool
        ensures { result ≡ true → CountsExactly O.order self.now }
    {
        self.events < u64::MAX
    }

    /// The sequence, which is word 0.
    pub fn sequence(&self) -> u64
        ensures { HasSequence O.order self.now result }
    {
        word_at(self.words.as_slice(), 0)
    }
}
