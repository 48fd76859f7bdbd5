//! What a reader remembers: the item that it found last, with the generation of that answer.

ghost use Rattle.std.specs.Prelude.{◌≡◌};
ghost use Rattle.latch_core.specs.Sequences.{generation_of};
ghost use Rattle.latch_table.specs.Memory.{IsRecalled, memory_after};

use super::Try;
use latch_core::sequences::generation;
use order_laws::{Item, TreeOrder};
use std::cmp::Ordering;

/// Remembers what an attempt found; if it found no item, what was remembered stays.
#[inline(always)]
pub(super) fn remember(memory: &mut Option<(Item, u64)>, tried: Try)
    ensures { memory.new ≡ memory_after memory.old tried }
{
    if let Try::Answered(Some(item), generation) = tried {
        *memory = Some((item, generation));
    }
}

/// What memory gives for a key at this sequence.
#[inline(always)]
pub(super) fn recalled<O: TreeOrder>(
    memory: &Option<(Item, u64)>,
    k: O::Key,
    sequence: u64,
) -> Option<(Item, u64)>
    ensures { IsRecalled O.order k (generation_of sequence) memory.now result }
{
    let (item, found_in) = (*memory)?;
    if found_in != generation(sequence) {
        return None;
    }
    match O::comp(k, &item) {
        Ordering::Equal => Some((item, found_in)),
        _ => None,
    }
}
