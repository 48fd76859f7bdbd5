//! One attempt of a reader in shared words.

ghost use Rattle.std.specs.Prelude.{◌≡◌, []};
ghost use Rattle.word_layout.specs.Layouts.{capacity_of};
ghost use Rattle.word_layout.specs.Words.{words_for};
ghost use Rattle.latch_table.specs.Seats.{reader_knowledge, reader_of};
ghost use Rattle.latch_table.specs.Memory.{Looked, MemoryHolds, memory_after};
ghost use Rattle.latch_table.specs.Readers.{Tried};

use super::Try;
use super::memory::{recalled, remember};
use super::words::ReadWords;
use crate::knowledge::TableSeat;
use latch_core::{AttemptOutcome, Loads, attempt_from};
use order_laws::{Item, TreeOrder};
use word_layout::Layout;

/// One attempt through a seat.
#[inline(always)]
pub(super) fn attempt<O: TreeOrder>(
    words: ReadWords<'_, O>,
    seat: &mut TableSeat,
    l: Layout,
    k: O::Key,
) -> Try
    requires table { seat.old.table_id ≡ words.words.now.table_id }
    requires sized { seat.old.table_id.words ≡ words_for (capacity_of l) }
    requires reads { seat.old.me ≡ (reader_knowledge (reader_of seat.old.me.0), []) }
    requires capacity { (reader_of seat.old.me.0).capacity ≡ capacity_of l }
    ensures table { seat.new.table_id ≡ seat.old.table_id }
    ensures reads { seat.new.me ≡ (reader_knowledge (reader_of seat.new.me.0), []) }
    ensures tried { Tried O.order k (reader_of seat.old.me.0) (reader_of seat.new.me.0) result }
{
    let first = words.sequence(seat);
    match attempt_from::<O, ReadWords<'_, O>>(&words, seat, l, k, first).0 {
        AttemptOutcome::Answered(answer, generation) => Try::Answered(answer, generation),
        AttemptOutcome::Failed => Try::Retry,
    }
}

/// What is remembered, if one load of the sequence shows that it is the answer; else one attempt,
/// which begins with that load.
#[inline(always)]
pub(super) fn look<O: TreeOrder>(
    words: ReadWords<'_, O>,
    seat: &mut TableSeat,
    memory: &mut Option<(Item, u64)>,
    l: Layout,
    k: O::Key,
) -> Try
    requires table { seat.old.table_id ≡ words.words.now.table_id }
    requires sized { seat.old.table_id.words ≡ words_for (capacity_of l) }
    requires reads { seat.old.me ≡ (reader_knowledge (reader_of seat.old.me.0), []) }
    requires capacity { (reader_of seat.old.me.0).capacity ≡ capacity_of l }
    requires memory { MemoryHolds O.order (reader_of seat.old.me.0) memory.old }
    ensures table { seat.new.table_id ≡ seat.old.table_id }
    ensures reads { seat.new.me ≡ (reader_knowledge (reader_of seat.new.me.0), []) }
    ensures still { MemoryHolds O.order (reader_of seat.new.me.0) memory.new }
    ensures memory { memory.new ≡ memory_after memory.old result }
    ensures looked { Looked O.order k memory.old (reader_of seat.old.me.0)
        (reader_of seat.new.me.0) result }
{
    let begun = words.sequence(seat);
    if let Some((item, generation)) = recalled::<O>(memory, k, begun) {
        return Try::Answered(Some(item), generation);
    }
    let tried = match attempt_from::<O, ReadWords<'_, O>>(&words, seat, l, k, begun).0 {
        AttemptOutcome::Answered(found, generation) => Try::Answered(found, generation),
        AttemptOutcome::Failed => Try::Retry,
    };
    remember(memory, tried);
    tried
}
