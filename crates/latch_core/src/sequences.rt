//! What the sequence of a latch says (Documentation/locking/seqlock.rst, latch sequence counters).

ghost use Rattle.std.specs.Prelude.{◌≡◌, ◌+◌, nat_lt};
ghost use Rattle.word_layout.specs.Copies.{copy_number};
ghost use Rattle.word_layout.specs.Layouts.{limit_of};
ghost use Rattle.latch_core.specs.Sequences.{generation_of, stable_copy_of};

use word_layout::{Layout, TreeCopy};

/// The generation that a sequence names: half of it, since an update adds 1 twice.
pub fn generation(sequence: u64) -> u64
    ensures { result ≡ generation_of sequence }
{
    sequence / 2
}

/// The copy that readers walk at a sequence: copy 0 while it is even, copy 1 while it is odd.
pub fn stable_copy(sequence: u64) -> TreeCopy
    ensures { copy_number result ≡ stable_copy_of sequence }
{
    if sequence % 2 == 0 {
        TreeCopy::Zero
    } else {
        TreeCopy::One
    }
}

/// Whether two flips more would pass the layout's greatest sequence.
pub fn is_spent(l: Layout, sequence: u64) -> bool
    ensures { result ≡ nat_lt (limit_of l) (sequence + 2) }
{
    sequence > l.limit() - 2
}
