//! The shared words, as an attempt loads them.

use crate::knowledge::TableSeat;
use crate::rule::{LoadSequence, LoadWord, Words};
use latch_core::Loads;
use order_laws::TreeOrder;

/// The shared words, as a reader's seat loads them: each load is one step.
#[derive(Drop)]
pub(super) struct ReadWords<'a, O: TreeOrder> {
    words: &'a Words<O>,
}

impl<'a, O: TreeOrder> ReadWords<'a, O> {
    ghost use Rattle.std.specs.Prelude.{◌≡◌};

    #[inline(always)]
    pub(super) fn of(words: &'a Words<O>) -> ReadWords<'a, O>
        ensures { result.words.now.table_id ≡ words.now.table_id }
    {
        ReadWords { words }
    }
}

impl<O: TreeOrder> Loads for ReadWords<'_, O> {
    ghost use Rattle.std.specs.Prelude.{◌≡◌};
    ghost use Rattle.latch_table.specs.Seats.{reader_of};
    ghost use Rattle.latch_table.specs.Walks.{MayLoad, IsReading, LearnsWord, LearnsSequence};

    type Seat = TableSeat;

    ghost size = { λ it. it.words.now.table_id.words };

    ghost can_load = { λ it s w. IsReading it.words.now.table_id s.table_id s.me
        × MayLoad (reader_of s.me.0) w };

    ghost load_gives = { λ it s w x s'. (s'.table_id ≡ s.table_id) × LearnsWord s.me w x s'.me };

    ghost can_end = { λ it s. IsReading it.words.now.table_id s.table_id s.me };

    ghost end_gives = { λ it s x s'. (s'.table_id ≡ s.table_id)
        × LearnsSequence O.order s.me x s'.me };

    #[inline(always)]
    fn load(&self, seat: &mut TableSeat, word: usize, skipped: usize) -> u64 {
        self.words.load::<LoadWord>(seat, word + skipped)
    }

    #[inline(always)]
    fn sequence(&self, seat: &mut TableSeat) -> u64 {
        self.words.load::<LoadSequence<O>>(seat, 0)
    }
}
