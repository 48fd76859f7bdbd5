//! How many nodes there are, and which word holds what.

ghost use Rattle.std.specs.Prelude.{◌+◌, ◌*◌, ◌<◌, ◌≤◌, ◌^◌};
ghost use Rattle.word_layout.specs.Limits.{most_nodes};

use crate::places::WORDS_PER_NODE;
use order_laws::Refusal;

/// The greatest number of nodes.
pub const MOST_NODES: u32 = 65536;

/// The greatest sequence of a 32-bit layout: the last even number, so that the sequence never wraps
/// round.
pub const GREATEST_SEQUENCE: u64 = 4294967294;

/// The greatest sequence of a 64-bit layout: the last even number again.
pub const GREATEST_WIDE_SEQUENCE: u64 = 18446744073709551614;

/// The number of nodes of a table, and the greatest sequence that it may come to.
#[derive(Clone, Copy, Debug, PartialEq, Eq, Drop)]
pub struct Layout {
    capacity: u32,
    limit: u64,
    ghost some: { 0 < capacity },
    ghost most: { capacity ≤ most_nodes },
    ghost room: { 2 ≤ limit },
    ghost counts: { limit + 1 < 2 ^ 64 },
}

impl Layout {
    ghost use Rattle.std.specs.Prelude.{◌≡◌, ◌↔◌, ◌⊎◌, IfOk, IsErr, IfErr};
    ghost use Rattle.word_layout.specs.Layouts.{capacity_of, limit_of};
    ghost use Rattle.word_layout.specs.Limits.{greatest_sequence, greatest_wide_sequence};
    ghost use Rattle.word_layout.specs.Words.{words_for};

    /// A layout of `n` nodes with 32-bit sequences. Refused by [`Refusal::BadCapacity`] outside 1
    /// to 65536.
    pub fn new(n: u32) -> Result<Layout, Refusal>
        ensures capacity { IfOk result (λ l. capacity_of l ≡ n) }
        ensures limit { IfOk result (λ l. limit_of l ≡ greatest_sequence) }
        ensures refused { IsErr result ↔ ((n ≡ 0) ⊎ (most_nodes < n)) }
        ensures refusal { IfErr result (λ e. e ≡ Refusal.BadCapacity) }
    {
        Layout::up_to(n, GREATEST_SEQUENCE)
    }

    /// A layout of `n` nodes with 64-bit sequences. Refused by [`Refusal::BadCapacity`] outside 1
    /// to 65536.
    pub fn wide(n: u32) -> Result<Layout, Refusal>
        ensures capacity { IfOk result (λ l. capacity_of l ≡ n) }
        ensures limit { IfOk result (λ l. limit_of l ≡ greatest_wide_sequence) }
        ensures refused { IsErr result ↔ ((n ≡ 0) ⊎ (most_nodes < n)) }
        ensures refusal { IfErr result (λ e. e ≡ Refusal.BadCapacity) }
    {
        Layout::up_to(n, GREATEST_WIDE_SEQUENCE)
    }

    /// A layout of `n` nodes whose sequences end at `limit`.
    fn up_to(n: u32, limit: u64) -> Result<Layout, Refusal>
        requires room { 2 ≤ limit }
        requires counts { limit + 1 < 2 ^ 64 }
        ensures capacity { IfOk result (λ l. capacity_of l ≡ n) }
        ensures limit { IfOk result (λ l. limit_of l ≡ limit) }
        ensures refused { IsErr result ↔ ((n ≡ 0) ⊎ (most_nodes < n)) }
        ensures refusal { IfErr result (λ e. e ≡ Refusal.BadCapacity) }
    {
        if n == 0 || n > MOST_NODES {
            return Err(Refusal::BadCapacity);
        }
        Ok(Layout { capacity: n, limit })
    }

    /// The number of nodes, 1 to 65536.
    pub fn capacity(&self) -> u32
        ensures is { result ≡ capacity_of self.now }
        ensures some { 0 < result }
        ensures most { result ≤ most_nodes }
    {
        self.capacity
    }

    /// The greatest sequence.
    pub fn limit(&self) -> u64
        ensures is { result ≡ limit_of self.now }
        ensures room { 2 ≤ result }
        ensures counts { result + 1 < 2 ^ 64 }
    {
        self.limit
    }

    /// The number of words: seven for each node, and three.
    pub fn words(&self) -> usize
        ensures { result ≡ words_for (capacity_of self.now) }
    {
        WORDS_PER_NODE * self.capacity as usize + 3
    }
}
