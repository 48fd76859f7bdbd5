//! From which place on an entry is to be sought in a long list by rising address.
//!
//! A binary search through a million symbols waits for memory at most of its twenty steps. So the
//! addresses from the first to the last are cut into buckets of equally many, about as many as
//! there are symbols, and a table has the number of symbols below each bucket. A search reads one
//! place of the table, and then the few symbols of its bucket:
//!
//! ```text
//! buckets:   00 .. 0f    10 .. 1f    20 .. 2f    30 .. 3f
//! symbols:   00 04 0c                24          30 38
//! below:     0           3           3           4          2a is sought from the place 3 on
//! ```
//!
//! The place that is found is a guess, which whoever uses it compares with the list: no contract
//! rests on it.

ghost use Rattle.std.specs.Prelude.{◌≡◌, ℕ, true};
ghost use Rattle.std.specs.Prelude.{slice_get};
ghost use Rattle.std.specs.List.Sorted.{IsNonDecreasingBy};
ghost use Rattle.std.specs.Option.{option_map};
ghost use Rattle.modules.specs.Index.{IsBorder, IsFirstBorder, IsSplitBy};

use std::alloc::{AllocError, Global};

/// What has an address: a symbol, or the entry of one in an index.
pub(crate) trait Addressed {
    /// The address, as contracts see it.
    ghost addr_of: { Self → ℕ };

    /// The address.
    fn addr(&self) -> u64
        ensures { result ≡ addr_of self.now };
}

/// Among how many of its bucket the first above an address mostly is.
const MOST_IN_BUCKET: usize = 4;

/// The place of the first from a place on that is above the address, if it is one of the next `N`.
///
/// The ones at or below the address are counted and not sought, since a processor that wrongly
/// guesses the end of a search loses what it has begun of the next.
pub(crate) fn place_near<T: Addressed, const N: usize>(
    listed: &[T],
    from: usize,
    addr: u64,
) -> Option<usize> {
    if listed.len() < N || from > listed.len() - N {
        return None;
    }
    let mut count = 0usize;
    for it in &listed[from..from + N] {
        count = count.wrapping_add(usize::from(it.addr() <= addr));
    }
    if count < N {
        Some(from.wrapping_add(count))
    } else {
        None
    }
}

/// The place of the first above the address between two places.
#[cold]
#[inline(never)]
fn bisect<T: Addressed>(listed: &[T], from: usize, to: usize, addr: u64) -> usize {
    let to = to.min(listed.len());
    let from = from.min(to);
    from + listed[from..to].partition_point(|it| it.addr() <= addr)
}

/// The power of two that cuts a span of addresses into about `count` buckets.
fn shift_for(span: u64, count: usize) -> u32 {
    let most = count.saturating_add(count / 2) as u64;
    let shift = most.leading_zeros().saturating_sub(span.leading_zeros());
    if span.wrapping_shr(shift) <= most {
        shift
    } else {
        shift.saturating_add(1)
    }
}

/// How many lie below each bucket.
#[derive(Drop)]
pub(crate) struct Buckets {
    /// The least address.
    first: u64,
    /// A bucket has two to this power of addresses.
    shift: u32,
    /// For each bucket, and one past the last.
    below: Vec<u32>,
}

impl Buckets {
    /// No buckets: all is sought in the whole list.
    pub(crate) fn none(alloc: Global) -> Buckets {
        Buckets {
            first: 0,
            shift: 0,
            below: Vec::new(alloc),
        }
    }

    /// The buckets of a list by rising address.
    pub(crate) fn of<T: Addressed>(alloc: Global, listed: &[T]) -> Result<Buckets, AllocError> {
        let first = listed.first().map_or(0, |it| it.addr());
        let last = listed.last().map_or(0, |it| it.addr());
        Buckets::between(alloc, listed, first, last)
    }

    /// The buckets of a list in any order, between two addresses.
    pub(crate) fn between<T: Addressed>(
        alloc: Global,
        listed: &[T],
        first: u64,
        last: u64,
    ) -> Result<Buckets, AllocError> {
        let mut buckets = Buckets {
            first,
            shift: shift_for(last.saturating_sub(first), listed.len()),
            below: Vec::new(alloc),
        };
        let count = buckets.bucket_of(last).saturating_add(2);
        buckets.below.resize(count, 0)?;
        buckets.count(listed);
        buckets.add_up();
        Ok(buckets)
    }

    /// The bucket that an address lies in.
    pub(crate) fn bucket_of(&self, addr: u64) -> usize {
        addr.saturating_sub(self.first).wrapping_shr(self.shift) as usize
    }

    /// Counts the entries of each bucket in the next one.
    fn count<T: Addressed>(&mut self, listed: &[T]) {
        for it in listed {
            let next = self.bucket_of(it.addr()).saturating_add(1);
            if let Some(count) = self.below.get_mut(next) {
                *count = count.wrapping_add(1);
            }
        }
    }

    /// Adds to each count those before it.
    fn add_up(&mut self) {
        let mut sum = 0u32;
        for count in self.below.iter_mut() {
            sum = sum.wrapping_add(*count);
            *count = sum;
        }
    }

    /// How many lie below a bucket.
    pub(crate) fn below(&self, bucket: usize) -> usize {
        self.below
            .get(bucket)
            .or(self.below.last())
            .map_or(0, |count| *count as usize)
    }

    /// How many lie below each.
    pub(crate) fn all_below(&self) -> Result<Vec<u32>, AllocError> {
        self.below.clone()
    }

    /// From which place on the first above an address is to be sought.
    pub(crate) fn start_of(&self, addr: u64) -> usize {
        self.below(self.bucket_of(addr))
    }

    /// How many are at or below an address, if the search begins at `from`.
    #[inline(always)]
    pub(crate) fn place_from<T: Addressed>(&self, listed: &[T], from: usize, addr: u64) -> usize {
        match place_near::<T, MOST_IN_BUCKET>(listed, from, addr) {
            Some(place) => place,
            None => {
                let next = self.bucket_of(addr).saturating_add(1);
                bisect(listed, from, self.below(next), addr)
            }
        }
    }

    /// How many are not above an address.
    #[inline(always)]
    pub(crate) fn place_of<T: Addressed>(&self, listed: &[T], addr: u64) -> usize {
        self.place_from(listed, self.start_of(addr), addr)
    }
}

/// Whether the place parts those that are not above an address from the others, in a list by rising
/// address.
fn is_border<T: Addressed>(listed: &[T], place: usize, addr: u64) -> bool
    ensures { result ≡ true → IsBorder T.addr_of listed.now addr place }
{
    let above = listed.get(place).is_none_or(|it| addr < it.addr());
    if place == 0 {
        return above;
    }
    let below = listed.get(place - 1).is_some_and(|it| it.addr() <= addr);
    below && above
}

/// Whether the place parts those that are below an address from the others, in a list by rising
/// address.
pub(crate) fn is_first<T: Addressed>(listed: &[T], place: usize, addr: u64) -> bool
    ensures { result ≡ true → IsFirstBorder T.addr_of listed.now addr place }
{
    let reached = listed.get(place).is_none_or(|it| addr <= it.addr());
    if place == 0 {
        return reached;
    }
    let below = listed.get(place - 1).is_some_and(|it| it.addr() < addr);
    below && reached
}

/// How many entries of a list by rising address are at or below an address, by a binary search.
pub(crate) fn split_of<T: Addressed>(listed: &[T], addr: u64) -> usize
    requires { IsNonDecreasingBy T.addr_of listed.now }
    ensures { IsSplitBy T.addr_of listed.now addr result }
{
    listed.partition_point(|it| it.addr() <= addr)
}

/// As [`split_of`], apart from the code that mostly needs no search.
#[cold]
#[inline(never)]
fn seek_split<T: Addressed>(listed: &[T], addr: u64) -> usize
    requires { IsNonDecreasingBy T.addr_of listed.now }
    ensures { IsSplitBy T.addr_of listed.now addr result }
{
    split_of(listed, addr)
}

/// How many entries of a list by rising address are at or below an address. `near` is tried first.
pub(crate) fn split_at<T: Addressed>(listed: &[T], near: usize, addr: u64) -> usize
    requires { IsNonDecreasingBy T.addr_of listed.now }
    ensures { IsSplitBy T.addr_of listed.now addr result }
{
    if is_border(listed, near, addr) {
        near
    } else {
        seek_split(listed, addr)
    }
}

/// The address of the entry at a place, if there is one.
pub(crate) fn address_at<T: Addressed>(listed: &[T], place: usize) -> Option<u64>
    ensures { result ≡ option_map T.addr_of (slice_get listed.now place) }
{
    listed.get(place).map(|it| it.addr())
}
