//! Causes for which lines of a listing are skipped, and how many lines were skipped for each.
ghost use Rattle.std.specs.Prelude.{◌≡◌, ℕ, ◌+◌, ◌<◌, ◌^◌, List, Result, length, sum, replicate};
ghost use Rattle.std.specs.Prelude.{slice_index};
ghost use Rattle.listing.specs.Skipping.{counts_by, one_more_at, taken_by};

use std::marker::PhantomData;

// what causes are called
pub(crate) const HIDDEN: &str = "hidden";

pub(crate) const EMPTY: &str = "empty";

pub(crate) const WRAPS: &str = "wraps";

pub(crate) const LONG: &str = "long";

pub(crate) const MALFORMED: &str = "malformed";

/// A cause for which a line of a listing is skipped, one of N.
pub trait Cause<const N: usize>: Copy {
    ghost use Rattle.std.specs.Prelude.{◌≡◌, ℕ, ◌<◌, List, Some, map, slice_get};
    ghost use Rattle.std.specs.List.{range_with_len};

    /// The causes of the listing, in the order in which their counts are written.
    ghost causes: { List Self };

    /// The place of a cause in that order, from 0.
    ghost place_of: { Self → ℕ };

    /// What the cause is called.
    ghost name_of: { Self → List ℕ };

    /// The causes of the listing, in the order in which their counts are written.
    fn all() -> &'static [Self]
        ensures { result.now ≡ causes };

    /// The place of the cause in that order, from 0.
    fn place(self) -> usize
        ensures place { result ≡ place_of self }
        ensures low { result < N };

    /// What the cause is called.
    fn name(self) -> &'static str
        ensures { result.now ≡ name_of self };

    /// Each cause is at its place.
    ghost at_place: { (cause : Self) → slice_get causes (place_of cause) ≡ Some cause };

    /// No cause is at two places.
    ghost in_order: { map place_of causes ≡ range_with_len 0 N };
}

/// How many lines of a listing were skipped, by cause.
#[derive(Clone, Copy, Debug, PartialEq, Eq, Drop)]
pub struct Counts<C, const N: usize> {
    /// The count of each cause, at the place of the cause.
    pub by_place: [u64; N],
    of: PhantomData<C>,
}

impl<C: Cause<N>, const N: usize> Counts<C, N> {
    /// No line was skipped.
    pub(crate) fn new() -> Self
        ensures { result.by_place ≡ replicate N 0 }
    {
        Counts {
            by_place: [0; N],
            of: PhantomData,
        }
    }

    /// The counts at the places of their causes.
    pub(crate) fn of(by_place: [u64; N]) -> Self
        ensures { result.by_place ≡ by_place.entry }
    {
        Counts {
            by_place,
            of: PhantomData,
        }
    }

    /// How many lines were skipped for this cause.
    pub fn count(&self, cause: C) -> u64
        ensures { result ≡ slice_index self.now.by_place (C.place_of cause) }
    {
        self.by_place[cause.place()]
    }

    /// Counts one more line that was skipped for this cause.
    #[inline(always)]
    pub(crate) fn add(&mut self, cause: C)
        requires { slice_index self.old.by_place (C.place_of cause) + 1 < 2 ^ 64 }
        ensures { self.new.by_place ≡ one_more_at (C.place_of cause) self.old.by_place }
    {
        let place = cause.place();
        self.by_place[place] += 1;
    }
}

/// Each line is taken, or is counted for one cause for which it is skipped, whatever is said of
/// which line.
#[tactic(auto, using(crate::proofs::SkippingLemmas::each_once))]
pub fn each_line_is_counted_once<T, C: Cause<N>, const N: usize>()
    ensures { (said : List ℕ → Result T C) → (lines : List (List ℕ))
        → length (taken_by said lines) + sum (counts_by C.place_of C.causes said lines)
        ≡ length lines }
{}
