//! The shared words, as a lookup of the writer loads them.

use crate::knowledge::TableSeat;
use crate::rule::{BeginLookup, Words, WriterLoad};
use latch_core::Loads;
use order_laws::TreeOrder;

/// The shared words before a lookup of the writer, which it can begin once.
#[derive(Drop)]
pub(super) struct UnreadWords<'a, O: TreeOrder> {
    words: &'a Words<O>,
}

/// The shared words in a lookup, as the writer's seat loads them: each load is one step.
#[derive(Drop)]
pub(super) struct WriterWords<'a, O: TreeOrder> {
    words: &'a Words<O>,
}

impl<'a, O: TreeOrder> UnreadWords<'a, O> {
    ghost use Rattle.std.specs.Prelude.{◌≡◌, ◌<◌, [], ◌∷◌};
    ghost use Rattle.word_layout.specs.Words.{at};
    ghost use Rattle.latch_table.specs.Seats.{writer_of, writer_knowledge, with_loads};

    #[inline(always)]
    pub(super) fn of(words: &'a Words<O>) -> UnreadWords<'a, O>
        ensures { result.words.now.table_id ≡ words.now.table_id }
    {
        UnreadWords { words }
    }

    /// Makes the first load of a lookup, the one of the sequence.
    #[inline(always)]
    pub(super) fn begin(self, seat: &mut TableSeat) -> (WriterWords<'a, O>, u64)
        requires table { seat.old.table_id ≡ self.words.now.table_id }
        requires some { 0 < self.words.now.table_id.words }
        requires writes { seat.old.me ≡ (writer_knowledge (writer_of seat.old.me.0), []) }
        ensures words { result.0.words.now.table_id ≡ self.entry.words.now.table_id }
        ensures table { seat.new.table_id ≡ seat.old.table_id }
        ensures value { result.1 ≡ at (writer_of seat.old.me.0).picture 0 }
        ensures view { seat.new.me
            ≡ (
              writer_knowledge (with_loads ((0, result.1) ∷ []) (writer_of seat.old.me.0)),
              [],
            ) }
    {
        let first = self.words.load::<BeginLookup>(seat, 0);
        (WriterWords { words: self.words }, first)
    }
}

impl<O: TreeOrder> Loads for WriterWords<'_, O> {
    ghost use Rattle.std.specs.Prelude.{◌≡◌};
    ghost use Rattle.latch_table.specs.Walks.{IsWriting, WriterLearns};

    type Seat = TableSeat;

    ghost size = { λ it. it.words.now.table_id.words };

    ghost can_load = { λ it s w. IsWriting it.words.now.table_id s.table_id s.me };

    ghost load_gives = { λ it s w x s'. (s'.table_id ≡ s.table_id) × WriterLearns s.me w x s'.me };

    ghost can_end = { λ it s. IsWriting it.words.now.table_id s.table_id s.me };

    ghost end_gives = { λ it s x s'. (s'.table_id ≡ s.table_id) × WriterLearns s.me 0 x s'.me };

    #[inline(always)]
    fn load(&self, seat: &mut TableSeat, word: usize, skipped: usize) -> u64 {
        self.words.load::<WriterLoad>(seat, word + skipped)
    }

    #[inline(always)]
    fn sequence(&self, seat: &mut TableSeat) -> u64 {
        self.words.load::<WriterLoad>(seat, 0)
    }
}
