//! The writer's own lookups.

ghost use Rattle.std.specs.Prelude.{◌≡◌, []};
ghost use Rattle.word_layout.specs.Layouts.{capacity_of};
ghost use Rattle.word_layout.specs.Words.{words_for};
ghost use Rattle.latch_core.specs.Latched.{IsLatched};
ghost use Rattle.latch_table.specs.Seats.{writer_of, writer_knowledge, with_loads};
ghost use Rattle.latch_table.specs.Writers.{Finds};
ghost use Rattle.latch_table.specs.Lookups.{FindsIn};

use super::words::{UnreadWords, WriterWords};
use super::{InHand, Writer};
use crate::knowledge::TableSeat;
use latch_core::{AttemptOutcome, attempt_from};
use order_laws::{Item, TreeOrder};
use word_layout::Layout;

/// One attempt through the writer's seat, in words that nobody else changes.
fn look_up<O: TreeOrder>(
    words: UnreadWords<'_, O>,
    seat: &mut TableSeat,
    l: Layout,
    k: O::Key,
) -> (Option<Item>, u64)
    requires table { seat.old.table_id ≡ words.words.now.table_id }
    requires sized { seat.old.table_id.words ≡ words_for (capacity_of l) }
    requires writes { seat.old.me ≡ (writer_knowledge (writer_of seat.old.me.0), []) }
    requires latched { IsLatched O.order (capacity_of l) (writer_of seat.old.me.0).base
        (writer_of seat.old.me.0).picture (writer_of seat.old.me.0).known }
    ensures table { seat.new.table_id ≡ seat.old.table_id }
    ensures view { seat.new.me
        ≡ (
          writer_knowledge
              (with_loads (writer_of seat.new.me.0).loads (writer_of seat.old.me.0)),
          [],
        ) }
    ensures found { FindsIn O.order (capacity_of l) k (writer_of seat.old.me.0)
        (writer_of seat.new.me.0).loads result }
{
    let (words, first) = words.begin(seat);
    match attempt_from::<O, WriterWords<'_, O>>(&words, seat, l, k, first).0 {
        AttemptOutcome::Answered(found, generation) => (found, generation),
        AttemptOutcome::Failed => unreachable!(),
    }
}

impl<O: TreeOrder> Writer<O> {
    /// What a key lies in, and the generation that this is of.
    pub fn find(&mut self, k: O::Key) -> (Option<Item>, u64)
        ensures { Finds O.order self.old k self.new result }
    {
        let layout = self.core.layout();
        let words = UnreadWords::of(&self.table.shared);
        look_up::<O>(words, &mut self.seat, layout, k)
    }
}

impl<O: TreeOrder> InHand<'_, O> {
    /// What a key lies in, as readers find it now, and the generation that this is of.
    pub fn find_inside(&mut self, k: O::Key) -> (Option<Item>, u64)
        ensures same_reference { self.new.writer.ghost_name ≡ self.old.writer.ghost_name }
        ensures found { Finds O.order self.old.writer.now k self.new.writer.now result }
    {
        self.writer.find(k)
    }
}
