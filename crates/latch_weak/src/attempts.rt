//! An attempt each of whose loads gives what its reader may see then.
//!
//! A reader's [`ReaderView`] is what it has to see: its view. A [`LoadSchedule`] chooses, for each
//! load, among the moments that the view still allows, and the load changes the view:
//!
//! ```text
//! first load of word 0      raised to what its store was ordered after, by the dependency
//! each load of the walk     its own word: no older store of it; a barrier: what is ordered before
//! last load of word 0       raised by the read barrier before it
//! ```
//!
//! The walk itself is the one of every other reader ([`latch_core::attempt_from`]).

ghost use Rattle.std.specs.Prelude.{◌≡◌, ◌<◌, ◌≤◌, ℕ, length, IfOk};
ghost use Rattle.word_layout.specs.Layouts.{capacity_of};
ghost use Rattle.word_layout.specs.Words.{words_for};
ghost use Rattle.latch_core.specs.Whole.{outcome_of};
ghost use Rattle.latch_weak.specs.Views.{Glance, seen_up_to, raised};
ghost use Rattle.latch_weak.specs.Readers.{view_of, IsReaderOf, Looks, LooksFirst, LooksNext};
ghost use Rattle.latch_weak.specs.Readers.{StandsBefore, HasAttempted};

use crate::barriers::{Barriers, last_store, value_at};
use latch_core::{AttemptOutcome, Loads, attempt_from};
use order_laws::TreeOrder;
use std::alloc::{AllocError, Global};
use word_layout::{Layout, Store};

/// One load: the moment whose value it gives, and how many stores the writer had made.
#[derive(Clone, Copy, Debug, PartialEq, Eq, Drop)]
pub struct Glance {
    /// The moment, a number of stores.
    pub moment: usize,
    /// How many stores the writer had made.
    pub made: usize,
}

/// Chooses what each load of a reader gives.
pub trait LoadSchedule {
    /// What it may choose for a load: by its number, its word, the load before it, the least moment
    /// that it may show and the number of all stores.
    ghost chooses: { Self → ℕ → ℕ → Glance → ℕ → ℕ → Glance → Type 0 };

    /// What load number `load` of the reader gives, of `word`: a moment from `least` on, if the
    /// writer makes at most `most` stores and had made `last.made` at the load before.
    fn glance(&self, load: u64, word: usize, last: Glance, least: usize, most: usize) -> Glance
        requires may { least ≤ most }
        requires made { last.made ≤ most }
        ensures chosen { chooses self.now load word last least most result }
        ensures seen { least ≤ result.moment }
        ensures stored { result.moment ≤ result.made }
        ensures later { last.made ≤ result.made }
        ensures exists { result.made ≤ most };
}

/// What a reader has to see.
#[derive(Drop)]
pub struct ReaderView {
    /// For each word, the least moment that a load of it may still show, if above the floor.
    pub least: Vec<usize>,
    /// The least moment that a load of any word may still show.
    pub floor: usize,
    /// The least moment that a load after a read barrier may show.
    pub at_barrier: usize,
    /// How many loads it has made; after the greatest number comes 0.
    pub loads: u64,
    /// Its last load.
    pub last: Glance,
}

impl ReaderView {
    /// No word older than this.
    fn raise(&mut self, least: usize)
        ensures view { view_of self.new ≡ raised (view_of self.old) least }
        ensures words { self.new.least.items ≡ self.old.least.items }
        ensures barrier { self.new.at_barrier ≡ self.old.at_barrier }
        ensures last { self.new.last ≡ self.old.last }
        ensures loads { self.new.loads ≡ self.old.loads }
    {
        self.floor = self.floor.max(least);
    }
}

/// The stores of a writer, as readers may see them.
#[derive(Drop)]
pub struct Moments<'a, S: LoadSchedule> {
    /// The barriers that order them.
    pub barriers: Barriers,
    /// The words before the first store.
    pub opening: &'a [u64],
    /// The stores.
    pub stores: &'a [Store],
    /// What chooses.
    pub schedule: &'a S,
}

impl<S: LoadSchedule> Moments<'_, S> {
    /// A reader that has to see the first `from` stores.
    pub fn reader(&self, alloc: Global, from: usize) -> Result<ReaderView, AllocError>
        requires { from ≤ length self.now.stores.now }
        ensures reader { IfOk result (IsReaderOf self.now.opening.now self.now.stores.now) }
        ensures view { IfOk result (λ reader. view_of reader ≡ seen_up_to from) }
        ensures loads { IfOk result (λ reader. reader.loads ≡ 0) }
        ensures last { IfOk result (λ reader. (reader.last.moment ≡ from)
            × (reader.last.made ≡ from)) }
    {
        Ok(ReaderView {
            least: vec![in alloc; 0; self.opening.len()]?,
            floor: from,
            at_barrier: 0,
            loads: 0,
            last: Glance {
                moment: from,
                made: from,
            },
        })
    }

    /// One load, with no barrier before it.
    fn look(&self, reader: &mut ReaderView, word: usize) -> u64
        requires word { word < length self.now.opening.now }
        requires reader { IsReaderOf self.now.opening.now self.now.stores.now reader.old }
        ensures { Looks (S.chooses self.now.schedule.now) self.now.barriers self.now.opening.now
            self.now.stores.now reader.old word result reader.new }
    {
        let least = reader.least[word].max(reader.floor);
        let most = self.stores.len();
        let glance = self
            .schedule
            .glance(reader.loads, word, reader.last, least, most);
        let seen = last_store(self.stores, word, glance.moment);
        let before = self.barriers.ordered_before(self.stores, seen);
        reader.least[word] = reader.least[word].max(seen);
        reader.at_barrier = reader.at_barrier.max(before);
        reader.loads = reader.loads.wrapping_add(1);
        reader.last = glance;
        value_at(self.opening, self.stores, word, glance.moment)
    }

    /// The first load of an attempt, on which the loads of its walk depend.
    fn look_first(&self, reader: &mut ReaderView) -> u64
        requires word { 0 < length self.now.opening.now }
        requires reader { IsReaderOf self.now.opening.now self.now.stores.now reader.old }
        ensures { LooksFirst (S.chooses self.now.schedule.now) self.now.barriers
            self.now.opening.now self.now.stores.now reader.old result reader.new }
    {
        let first = self.look(reader, 0);
        if self.barriers.dependency {
            let seen = last_store(self.stores, 0, reader.last.moment);
            reader.raise(self.barriers.ordered_before(self.stores, seen));
        }
        first
    }

    /// Before a later one: a read barrier precedes the one of word 0.
    fn stand_before(&self, reader: &mut ReaderView, word: usize)
        ensures { StandsBefore self.now.barriers reader.old reader.new word }
    {
        if self.barriers.before_last && word == 0 {
            reader.raise(reader.at_barrier);
        }
    }

    /// A later load.
    fn look_next(&self, reader: &mut ReaderView, word: usize) -> u64
        requires word { word < length self.now.opening.now }
        requires reader { IsReaderOf self.now.opening.now self.now.stores.now reader.old }
        ensures { LooksNext (S.chooses self.now.schedule.now) self.now.barriers
            self.now.opening.now self.now.stores.now reader.old word result reader.new }
    {
        self.stand_before(reader, word);
        self.look(reader, word)
    }

    /// One attempt. Each of its loads gives what the schedule chooses among what the reader may
    /// see.
    pub fn attempt<O: TreeOrder>(
        &self,
        reader: &mut ReaderView,
        l: Layout,
        key: O::Key,
    ) -> AttemptOutcome
        requires sized { length self.now.opening.now ≡ words_for (capacity_of l) }
        requires reader { IsReaderOf self.now.opening.now self.now.stores.now reader.old }
        ensures { HasAttempted (S.chooses self.now.schedule.now) self.now.barriers O.order
            (capacity_of l) self.now.opening.now self.now.stores.now reader.old key
            (outcome_of result) reader.new }
    {
        let first = self.look_first(reader);
        attempt_from::<O, Moments<'_, S>>(self, reader, l, key, first).0
    }
}

impl<S: LoadSchedule> Loads for Moments<'_, S> {
    type Seat = ReaderView;

    ghost size = { λ it. length it.opening.now };

    ghost can_load = { λ it s w. IsReaderOf it.opening.now it.stores.now s };

    ghost load_gives = { λ it s w x s'.
        LooksNext (S.chooses it.schedule.now) it.barriers it.opening.now it.stores.now s w x s' };

    ghost can_end = { λ it s. IsReaderOf it.opening.now it.stores.now s };

    ghost end_gives = { λ it s x s'.
        LooksNext (S.chooses it.schedule.now) it.barriers it.opening.now it.stores.now s 0 x s' };

    fn load(&self, reader: &mut ReaderView, word: usize, skipped: usize) -> u64 {
        self.look_next(reader, word + skipped)
    }

    fn sequence(&self, reader: &mut ReaderView) -> u64 {
        self.look_next(reader, 0)
    }
}
