//! A whole attempt in locals.
//!
//! [`ReaderCore`](crate::ReaderCore) stops at each load, since each may be a step of its own. If
//! nothing is between two loads a reader goes through its attempt in one function, which keeps the
//! copy, the link and the visits left in locals:
//!
//! ```text
//! sequence s -> root of copy s % 2 -> link 0: the key is in no item
//!                  |                  link i + 1: a, b, tag of node i
//!                  |                     key below: its left link  -+
//!                  |                     key above: its right link -+-> link ..
//!                  |                     key inside: found
//!                  no node, or more visits than nodes: failed
//! ```

ghost use Rattle.std.specs.Prelude.{◌≡◌, ◌↔◌, ◌⊎◌, ℕ, ◌+◌, ◌^◌, ◌<◌, IsTrue, length};
ghost use Rattle.std.specs.declared.cmp.Ordering.TheVariants.{Less, Equal, Greater};
ghost use Rattle.word_layout.specs.Layouts.{capacity_of};
ghost use Rattle.word_layout.specs.Words.{at, words_for};
ghost use Rattle.latch_core.specs.Attempts.{attempt, attempt_after, last_load};
ghost use Rattle.latch_core.specs.Whole.{outcome_in, loads_in, outcome_of};
ghost use Rattle.latch_core.specs.Loading.{found_by, IsReady, HasLoaded, HasTried};

use crate::sequences::{generation, stable_copy};
use order_laws::{Item, TreeOrder};
use std::cmp::Ordering;
use word_layout::{Layout, places};

/// What a whole attempt comes to.
#[derive(Clone, Copy, Debug, PartialEq, Eq, Drop)]
pub enum AttemptOutcome {
    /// The item that the key is in, or none, and the generation that this is of.
    Answered(Option<Item>, u64),
    /// Nothing: another attempt is to be made.
    Failed,
}

/// How a walk ended.
#[derive(Clone, Copy, Drop)]
pub enum WalkResult {
    /// At the item that the key is in.
    At(Item),
    /// At link 0.
    Nowhere,
    /// At a link that leads to no node, or after as many visits as there are nodes.
    Lost,
}

/// How the words of a table are loaded: by whom, and what may be loaded and learnt.
pub trait Loads {
    /// Who loads them. A load may change what it knows.
    type Seat;

    /// How many words there are.
    ghost size: { Self → ℕ };

    /// Whether this word may be loaded next, and what a load gives: before it, the word, its value
    /// and after it.
    ghost can_load: { Self → Self.Seat → ℕ → Type 0 };

    ghost load_gives: { Self → Self.Seat → ℕ → ℕ → Self.Seat → Type 0 };

    /// What the second load of the sequence needs, and what it gives.
    ghost can_end: { Self → Self.Seat → Type 0 };

    ghost end_gives: { Self → Self.Seat → ℕ → Self.Seat → Type 0 };

    /// Loads the word that lies `skipped` words after `word`.
    fn load(&self, seat: &mut Self::Seat, word: usize, skipped: usize) -> u64
        requires fits { word + skipped < 2 ^ 64 }
        requires within { word + skipped < size self.now }
        requires can { can_load self.now seat.old (word + skipped) }
        ensures { load_gives self.now seat.old (word + skipped) result seat.new };

    /// Loads the sequence again.
    fn sequence(&self, seat: &mut Self::Seat) -> u64
        requires within { 0 < size self.now }
        requires can { can_end self.now seat.old }
        ensures { end_gives self.now seat.old result seat.new };
}

/// How many words after the left link lies the link that a walk follows from an item that the key
/// is not in. It is a number, since the processor would mispredict a branch at every other node.
#[inline(always)]
fn words_aside(compared: Ordering) -> usize
    ensures less { compared ≡ Less → result ≡ 0 }
    ensures other { (compared ≡ Equal) ⊎ (compared ≡ Greater) → result ≡ 1 }
{
    match compared {
        Ordering::Less => 0,
        Ordering::Equal | Ordering::Greater => 1,
    }
}

/// Whether the key is in the item, by a sum: for two comparisons the compiler would make two
/// branches, and the first would be mispredicted at every other node.
#[inline(always)]
fn is_equal(compared: Ordering) -> bool
    ensures { IsTrue result ↔ (compared ≡ Equal) }
{
    let above = match compared {
        Ordering::Less | Ordering::Equal => 0,
        Ordering::Greater => 1,
    };
    2 * words_aside(compared) - above == 2
}

/// Walks the copy that is stable at the first reading of the sequence, and counts the loads.
#[inline(always)]
fn walk<O: TreeOrder, W: Loads>(
    words: &W,
    seat: &mut W::Seat,
    l: Layout,
    key: O::Key,
    first: u64,
) -> (WalkResult, u32)
    requires sized { W.size words.now ≡ words_for (capacity_of l) }
    requires ready { IsReady (W.can_load words.now) (W.load_gives words.now) (W.can_end words.now)
        seat.old (attempt_after O.order (capacity_of l) key first) }
    ensures { HasLoaded (W.load_gives words.now) seat.old
        (attempt_after O.order (capacity_of l) key first) seat.new
        (last_load first (found_by result.0)) result.1 }
{
    let copy = stable_copy(first);
    let left = places::left_of(copy, 0);
    let mut link = words.load(seat, places::root_of(copy), 0);
    let mut loads = 2;
    // Link 0 wraps round to a number that no node has, so one comparison shows whether a link leads
    // to a node.
    while link.wrapping_sub(1) < l.capacity() as u64 && loads < 4 * l.capacity() + 2 {
        // The words of node 0, and as many words further as the nodes before this one have: seven
        // for each node that its link counts, but for itself.
        let skipped = places::WORDS_PER_NODE * link as usize - places::WORDS_PER_NODE;
        let a = words.load(seat, places::a_of(0), skipped);
        let b = words.load(seat, places::b_of(0), skipped);
        let tag = words.load(seat, places::tag_of(0), skipped);
        let item = Item { a, b, tag };
        loads += 4;
        let compared = O::comp(key, &item);
        if is_equal(compared) {
            return (WalkResult::At(item), loads - 1);
        }
        link = words.load(seat, left + words_aside(compared), skipped);
    }
    if link == 0 {
        (WalkResult::Nowhere, loads)
    } else {
        (WalkResult::Lost, loads)
    }
}

/// An attempt that read the sequence `first`, and how many loads it made.
#[inline(always)]
pub fn attempt_from<O: TreeOrder, W: Loads>(
    words: &W,
    seat: &mut W::Seat,
    l: Layout,
    key: O::Key,
    first: u64,
) -> (AttemptOutcome, u32)
    requires sized { W.size words.now ≡ words_for (capacity_of l) }
    requires ready { IsReady (W.can_load words.now) (W.load_gives words.now) (W.can_end words.now)
        seat.old (attempt_after O.order (capacity_of l) key first) }
    ensures { HasTried (W.load_gives words.now) (W.end_gives words.now) O.order (capacity_of l) key
        first seat.old seat.new (outcome_of result.0) result.1 }
{
    let (walked, loads) = walk::<O, W>(words, seat, l, key, first);
    let last = words.sequence(seat);
    let came_to = match walked {
        WalkResult::At(item) if last == first => AttemptOutcome::Answered(
            Some(item),
            generation(first),
        ),
        WalkResult::Nowhere if last == first => AttemptOutcome::Answered(None, generation(first)),
        _ => AttemptOutcome::Failed,
    };
    (came_to, loads + 1)
}

/// Words that nobody changes. Nobody learns by a load.
#[derive(Drop)]
struct Still<'a> {
    words: &'a [u64],
}

impl Loads for Still<'_> {
    type Seat = ();

    ghost size = { λ it. length it.words.now };

    ghost can_load = { λ it s w. Unit {0} };

    ghost load_gives = { λ it s w x s'. x ≡ at it.words.now w };

    ghost can_end = { λ it s. Unit {0} };

    ghost end_gives = { λ it s x s'. x ≡ at it.words.now 0 };

    #[inline(always)]
    fn load(&self, _seat: &mut (), word: usize, skipped: usize) -> u64 {
        self.words[word..][skipped]
    }

    #[inline(always)]
    fn sequence(&self, _seat: &mut ()) -> u64 {
        self.words[0]
    }
}

/// Makes an attempt in words that nobody changes, and counts its loads. The second load of the
/// sequence is counted and not made.
pub fn attempt_in<O: TreeOrder>(words: &[u64], l: Layout, key: O::Key) -> (AttemptOutcome, u32)
    requires { length words.now ≡ words_for (capacity_of l) }
    ensures outcome { outcome_of result.0
        ≡ outcome_in words.now (attempt O.order (capacity_of l) key) }
    ensures loads { result.1 ≡ loads_in words.now (attempt O.order (capacity_of l) key) }
{
    let first = words[0];
    attempt_from::<O, Still>(&Still { words }, &mut (), l, key, first)
}
