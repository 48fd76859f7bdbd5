//! Counts of events, loads and attempts.
ghost use Rattle.std.specs.Prelude.{◌≡◌};
ghost use Rattle.latch_steps.specs.Steps.{counted_up};

/// The count after one more, which stays at the greatest.
#[inline(always)]
pub(crate) fn counted_up(count: u64) -> u64
    ensures { result ≡ counted_up count }
{
    count.saturating_add(1)
}
