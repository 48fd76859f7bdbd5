//! A pending lookup, and what one load makes of it.
ghost use Rattle.word_layout.specs.Layouts.{capacity_of};
ghost use Rattle.latch_steps.specs.Steps.{new_lookup};

use crate::counts::counted_up;
use crate::events::Event;
use crate::replies::{NextLoad, Reply, Returned};
use crate::reports::{Outcome, Report};
use crate::words::word_at;
use latch_core::{ReaderCore, Taken};
use order_laws::TreeOrder;
use word_layout::Layout;

/// A pending lookup: the reader's core, the number of the event that started it, and the loads and
/// attempts so far.
#[derive(Drop)]
pub(crate) struct Lookup<O: TreeOrder> {
    core: ReaderCore<O>,
    first: u64,
    loads: u64,
    attempts: u64,
}

/// What a lookup becomes with one load.
pub(crate) enum LoadOutcome<O: TreeOrder> {
    /// Its attempt goes on.
    Going(Lookup<O>),
    /// Its attempt came to nothing, and the next one begins.
    Retrying(Lookup<O>),
    /// It is at its end.
    Returned(Returned<O::Key>),
}

/// What some loads of a lookup come to.
pub(crate) struct LookupProgress<O: TreeOrder> {
    /// The lookup, if it is still pending.
    pub(crate) lookup: Option<Lookup<O>>,
    /// How many events there are then.
    pub(crate) events: u64,
}

impl<O: TreeOrder> Lookup<O> {
    ghost use Rattle.latch_steps.specs.Lookups.{IsLookupOf, LoadsFromAny, LoadsNextFrom};
    ghost use Rattle.latch_steps.specs.Reports.{LoadsFrom};

    /// A lookup that has loaded nothing, begun by event number `first`.
    pub(crate) fn start(l: Layout, key: O::Key, first: u64) -> Self
        ensures { IsLookupOf O.order (capacity_of l) result (new_lookup key first) }
    {
        Lookup {
            core: ReaderCore::start(l, key),
            first,
            loads: 0,
            attempts: 1,
        }
    }

    /// What it loads next of these words. It is part of each loop over loads, which need not have
    /// it.
    #[inline(always)]
    pub(crate) fn next_load(&self, words: &[u64]) -> NextLoad<O::Key>
        ensures { LoadsNextFrom O.order self.now words.now result }
    {
        let word = self.core.wanted();
        NextLoad {
            key: self.core.key(),
            word,
            value: word_at(words, word),
            loads: counted_up(self.loads),
            attempts: self.attempts,
        }
    }

    /// Makes at most `most` loads of the reader, up to its return, after `events` events, and
    /// reports each.
    pub(crate) fn load_on<R: Report<O::Key>>(
        self,
        words: &[u64],
        reader: u32,
        most: u32,
        mut events: u64,
        report: &R,
        to: &mut R::Sink,
    ) -> LookupProgress<O>
        ensures { LoadsFrom O.order (R.reports report.now) words.now self reader most events
            to.old result to.new }
    {
        let mut lookup = self;
        for _turn in 0..most {
            events = counted_up(events);
            let mut outcome = Outcome {
                number: events,
                load: Some(lookup.next_load(words)),
                reply: Reply::Loaded,
                sequence: word_at(words, 0),
            };
            match lookup.load(words, reader, events) {
                LoadOutcome::Going(next) => lookup = next,
                LoadOutcome::Retrying(next) => {
                    outcome.reply = Reply::Retried;
                    lookup = next;
                }
                LoadOutcome::Returned(returned) => {
                    outcome.reply = Reply::Returned(returned);
                    report.report(to, &Event::Read(reader), &outcome);
                    return LookupProgress {
                        lookup: None,
                        events,
                    };
                }
            }
            report.report(to, &Event::Read(reader), &outcome);
        }
        LookupProgress {
            lookup: Some(lookup),
            events,
        }
    }

    /// One load of the reader, which is event number `last`.
    ///
    /// It is part of each loop over loads, so that these go on with a lookup that is not moved.
    #[inline(always)]
    pub(crate) fn load(self, words: &[u64], reader: u32, last: u64) -> LoadOutcome<O>
        ensures { LoadsFromAny O.order self words.now reader last result }
    {
        let Lookup {
            core,
            first,
            loads,
            attempts,
        } = self;
        let key = core.key();
        let value = word_at(words, core.wanted());
        let loads = counted_up(loads);
        match core.take(value) {
            Taken::Going(core) => LoadOutcome::Going(Lookup {
                core,
                first,
                loads,
                attempts,
            }),
            Taken::Retrying(core) => LoadOutcome::Retrying(Lookup {
                core,
                first,
                loads,
                attempts: counted_up(attempts),
            }),
            Taken::Returned(answer, generation) => LoadOutcome::Returned(Returned {
                reader,
                key,
                answer,
                generation,
                first,
                last,
                loads,
                attempts,
            }),
        }
    }
}
