//! A reader of the latched tree, which is given one value of one word at a time.

ghost use Rattle.std.specs.Prelude.{◌≡◌, ◌+◌, ◌*◌, ◌<◌, ◌≤◌, [], Some};
ghost use Rattle.word_layout.specs.Layouts.{capacity_of};
ghost use Rattle.word_layout.specs.Words.{words_for};
ghost use Rattle.latch_core.specs.Attempts.{attempt};

use crate::progress::{AttemptProgress, AwaitedValue};
use crate::sequences::{generation, stable_copy};
use order_laws::{Item, TreeOrder};
use std::cmp::Ordering;
use word_layout::{Layout, places};

/// A pending lookup: its key, and how far it is in its attempt.
///
/// An attempt reads the sequence, walks the stable copy and reads the sequence again
/// (`read_seqcount_latch` and `read_seqcount_latch_retry` of include/linux/seqlock.h, `__lt_find`
/// of include/linux/rbtree_latch.h). What it does next depends on its key and on the values that it
/// was given, and on nothing else.
#[derive(Drop)]
pub struct ReaderCore<O: TreeOrder> {
    key: O::Key,
    progress: AttemptProgress,
}

/// What a core becomes with a value.
pub enum Taken<O: TreeOrder> {
    /// The attempt goes on.
    Going(ReaderCore<O>),
    /// The attempt came to nothing, and a new one begins.
    Retrying(ReaderCore<O>),
    /// The lookup's answer, and the generation that it is of.
    Returned(Option<Item>, u64),
}

impl<O: TreeOrder> ReaderCore<O> {
    ghost use Rattle.latch_core.specs.Cores.{capacity_of_core, key_of_core, walk_from};
    ghost use Rattle.latch_core.specs.Cores.{rest_of_core, HasTaken, IsWanted, TakesTo};
    ghost use Rattle.latch_core.specs.Cores.{most_loads_left, IsSameLookup, IsShorter, StartsAgain};

    /// A lookup of `k` that was given nothing yet.
    pub fn start(l: Layout, k: O::Key) -> Self
        ensures capacity { capacity_of_core result ≡ capacity_of l }
        ensures key { key_of_core result ≡ k }
        ensures leads { HasTaken O.order [] result }
    {
        let progress = AttemptProgress {
            first: 0,
            a: 0,
            b: 0,
            tag: 0,
            capacity: l.capacity(),
            node: 0,
            visits_left: 0,
            awaited: AwaitedValue::First,
        };
        ReaderCore { key: k, progress }
    }

    /// What is looked up.
    pub fn key(&self) -> O::Key
        ensures { result ≡ key_of_core self.now }
    {
        self.key
    }

    /// The word whose value is taken next.
    pub fn wanted(&self) -> usize
        ensures within { result < words_for (capacity_of_core self.now) }
        ensures word { IsWanted O.order self.now result }
    {
        let node = self.progress.node;
        let copy = stable_copy(self.progress.first);
        match self.progress.awaited {
            AwaitedValue::First
            | AwaitedValue::Found
            | AwaitedValue::Missing
            | AwaitedValue::Stuck => 0,
            AwaitedValue::Root => places::root_of(copy),
            AwaitedValue::WordA => places::a_of(node),
            AwaitedValue::WordB => places::b_of(node),
            AwaitedValue::Tag => places::tag_of(node),
            AwaitedValue::Left => places::left_of(copy, node),
            AwaitedValue::Right => places::right_of(copy, node),
        }
    }

    /// Follows a link.
    fn follow(mut self, link: u64) -> Self
        ensures capacity { capacity_of_core result ≡ capacity_of_core self }
        ensures key { key_of_core result ≡ key_of_core self }
        ensures shorter { most_loads_left result ≤ 4 * self.progress.visits_left + 1 }
        ensures leads { rest_of_core O.order result
            ≡ walk_from O.order self.key self.progress link }
    {
        if link == 0 {
            self.progress.awaited = AwaitedValue::Missing;
        } else if self.progress.visits_left == 0 || link > self.progress.capacity as u64 {
            self.progress.awaited = AwaitedValue::Stuck;
        } else {
            self.progress.visits_left -= 1;
            self.progress.node = (link - 1) as u32;
            self.progress.awaited = AwaitedValue::WordA;
        }
        self
    }

    /// Takes the value of the wanted word.
    ///
    /// A core that goes on was given at most 4N + 2 values in its attempt, whatever they were; one
    /// that begins again was given none in its new attempt.
    pub fn take(mut self, value: u64) -> Taken<O>
        ensures same { IsSameLookup self result }
        ensures shorter { IsShorter self result }
        ensures again { StartsAgain O.order result }
        ensures leads { TakesTo O.order self value result }
    {
        match self.progress.awaited {
            AwaitedValue::First => {
                self.progress.first = value;
                self.progress.awaited = AwaitedValue::Root;
                Taken::Going(self)
            }
            AwaitedValue::Root => {
                self.progress.visits_left = self.progress.capacity;
                Taken::Going(self.follow(value))
            }
            AwaitedValue::WordA => {
                self.progress.a = value;
                self.progress.awaited = AwaitedValue::WordB;
                Taken::Going(self)
            }
            AwaitedValue::WordB => {
                self.progress.b = value;
                self.progress.awaited = AwaitedValue::Tag;
                Taken::Going(self)
            }
            AwaitedValue::Tag => {
                self.progress.tag = value;
                self.progress.awaited = match O::comp(self.key, &self.item()) {
                    Ordering::Less => AwaitedValue::Left,
                    Ordering::Equal => AwaitedValue::Found,
                    Ordering::Greater => AwaitedValue::Right,
                };
                Taken::Going(self)
            }
            AwaitedValue::Left | AwaitedValue::Right => Taken::Going(self.follow(value)),
            AwaitedValue::Found if value == self.progress.first => Taken::Returned(
                Some(self.item()),
                generation(value),
            ),
            AwaitedValue::Found => Taken::Retrying(self.again()),
            AwaitedValue::Missing if value == self.progress.first => Taken::Returned(
                None,
                generation(value),
            ),
            AwaitedValue::Missing => Taken::Retrying(self.again()),
            AwaitedValue::Stuck => Taken::Retrying(self.again()),
        }
    }

    /// The lookup before a new attempt.
    fn again(mut self) -> Self
        ensures capacity { capacity_of_core result ≡ capacity_of_core self }
        ensures key { key_of_core result ≡ key_of_core self }
        ensures whole { rest_of_core O.order result
            ≡ attempt O.order (capacity_of_core result) (key_of_core result) }
    {
        self.progress.awaited = AwaitedValue::First;
        self
    }

    /// The item of the node in hand, as it was loaded.
    fn item(&self) -> Item
        ensures { result
            ≡ record {
              a = self.now.progress.a;
              b = self.now.progress.b;
              tag = self.now.progress.tag;
            } }
    {
        Item {
            a: self.progress.a,
            b: self.progress.b,
            tag: self.progress.tag,
        }
    }
}
