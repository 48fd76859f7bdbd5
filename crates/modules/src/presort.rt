//! Entries of an index that are brought near their places before they are sorted.
//!
//! The symbols of a module are listed in no order, but their addresses lie about evenly. So buckets
//! of equally many addresses give the place of each entry, to a few places. It is swapped there,
//! and what was there is swapped on in turn; then each goes down past the few before it that come
//! after it:
//!
//! ```text
//! listed:      24  38  00  30  0c  04        buckets from 00, 10, 20 and 30
//! swapped:     00  0c  04  24  38  30
//! gone down:   00  04  0c  24  30  38
//! ```
//!
//! Mostly they are in order then, as a sort sees by going over them once. Each step is a swap, and
//! contracts say only that no entry is lost, added or changed.
#![tactic(auto, using(crate::proofs::IndexLemmas::moved_on))]

ghost use Rattle.std.specs.List.Sorted.{IsPermutation};

use crate::buckets::Buckets;
use crate::symbols::IndexEntry;
use std::alloc::{AllocError, Global};

/// Past how many others an entry goes down.
const MOST_PASSED: usize = 16;

/// How many entries each bucket and the buckets below it have so far.
#[derive(Drop)]
struct Filling {
    buckets: Buckets,
    filled: Vec<u32>,
}

impl Filling {
    fn of(alloc: Global, entries: &[IndexEntry]) -> Result<Filling, AllocError> {
        let (first, last) = bounds(entries);
        let buckets = Buckets::between(alloc, entries, first, last)?;
        let filled = buckets.all_below()?;
        Ok(Filling { buckets, filled })
    }

    /// The place that the entry of this address at this place is to be put.
    fn place_for(&mut self, addr: u64, place: usize) -> usize {
        let bucket = self.buckets.bucket_of(addr);
        let Some(filled) = self.filled.get_mut(bucket) else {
            return place;
        };
        let next = *filled as usize;
        if self.buckets.below(bucket) <= place && place < next {
            return place;
        }
        *filled = filled.wrapping_add(1);
        next
    }
}

/// The least and the greatest address.
fn bounds(entries: &[IndexEntry]) -> (u64, u64) {
    let mut first = u64::MAX;
    let mut last = 0;
    for entry in entries {
        first = first.min(entry.addr);
        last = last.max(entry.addr);
    }
    (first, last)
}

/// Swaps each entry into its bucket.
#[tactic(auto, using(crate::proofs::IndexLemmas::moved_twice))]
fn distribute(entries: &mut [IndexEntry], filling: &mut Filling)
    ensures { IsPermutation entries.old entries.new }
{
    let mut place = 0;
    for _ in 0..entries.len().saturating_mul(2) {
        if place >= entries.len() {
            return;
        }
        let next = filling.place_for(entries[place].addr, place);
        if next == place || next >= entries.len() {
            place += 1;
        } else {
            entries.swap(place, next);
        }
    }
}

/// Whether an entry comes before another.
fn comes_before(x: &IndexEntry, y: &IndexEntry) -> bool {
    x.addr < y.addr || (x.addr == y.addr && y.place < x.place)
}

/// The entry at a place goes down past those before it that come after it.
fn go_down(entries: &mut [IndexEntry], place: usize)
    ensures { IsPermutation entries.old entries.new }
{
    let mut at = place;
    for _ in 0..MOST_PASSED {
        if at == 0 || at >= entries.len() || !comes_before(&entries[at], &entries[at - 1]) {
            return;
        }
        entries.swap(at, at - 1);
        at -= 1;
    }
}

/// Brings the entries near their places. Returns their buckets.
pub(crate) fn presort(alloc: Global, entries: &mut [IndexEntry]) -> Result<Buckets, AllocError>
    ensures { IsPermutation entries.old entries.new }
{
    let mut filling = Filling::of(alloc, entries)?;
    distribute(entries, &mut filling);
    for place in 1..entries.len() {
        go_down(entries, place);
    }
    Ok(filling.buckets)
}
