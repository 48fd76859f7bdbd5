//! A reader in its seat.

ghost use Rattle.std.specs.Prelude.{◌≡◌, []};
ghost use Rattle.std.specs.Arc.{arc_value};
ghost use Rattle.word_layout.specs.Layouts.{capacity_of};
ghost use Rattle.word_layout.specs.Words.{words_for};
ghost use Rattle.latch_table.specs.Seats.{reader_knowledge, reader_of};
ghost use Rattle.latch_table.specs.Readers.{Tried, reader_at};
ghost use Rattle.latch_table.specs.Memory.{Looked, Recalled, MemoryHolds, memory_after};

use super::Try;
use super::attempts::{attempt, look};
use super::memory::{recalled, remember};
use super::words::ReadWords;
use crate::knowledge::TableSeat;
use crate::rule::WordTable;
use latch_core::Loads;
use order_laws::{Item, TreeOrder};
use std::alloc::Global;
use std::marker::Model;
use std::sync::Arc;
use word_layout::Layout;

/// A reader of the table: a seat of its own, with it what it knows, and in its memory the item that
/// it found last with the generation of that answer.
#[derive(Drop)]
pub struct Reader<O: TreeOrder> {
    table: Arc<WordTable<O>, Global>,
    seat: TableSeat,
    layout: Layout,
    memory: Option<(Item, u64)>,
}

impl<O: TreeOrder> Model for Reader<O> {
    ghost use Rattle.std.specs.Prelude.{◌≡◌, []};
    ghost use Rattle.std.specs.Arc.{arc_value};
    ghost use Rattle.word_layout.specs.Layouts.{capacity_of};
    ghost use Rattle.word_layout.specs.Words.{words_for};
    ghost use Rattle.latch_table.specs.Seats.{reader_knowledge, reader_of};
    ghost use Rattle.latch_table.specs.Readers.{ReaderState, reader_at};
    ghost use Rattle.latch_table.specs.Memory.{MemoryHolds};

    ghost Value = { ReaderState };

    ghost view = { λ r. reader_at r.seat.table_id r.seat.me.0 r.memory };

    ghost invariant = { λ r. (r.seat.table_id ≡ (arc_value r.table).shared.table_id)
        × (r.seat.table_id.words ≡ words_for (capacity_of r.layout))
        × (r.seat.me ≡ (reader_knowledge (reader_of r.seat.me.0), []))
        × ((reader_of r.seat.me.0).capacity ≡ capacity_of r.layout)
        × MemoryHolds O.order (reader_of r.seat.me.0) r.memory };
}

impl<O: TreeOrder> Reader<O> {
    /// The reader in this seat.
    pub(crate) fn new(
        table: Arc<WordTable<O>, Global>,
        seat: TableSeat,
        layout: Layout,
        memory: Option<(Item, u64)>,
    ) -> Reader<O>
        requires place { seat.table_id ≡ (arc_value table).shared.table_id }
        requires sized { seat.table_id.words ≡ words_for (capacity_of layout) }
        requires reads { seat.me ≡ (reader_knowledge (reader_of seat.me.0), []) }
        requires capacity { (reader_of seat.me.0).capacity ≡ capacity_of layout }
        requires memory { MemoryHolds O.order (reader_of seat.me.0) memory }
        ensures { result ≡ reader_at seat.table_id seat.me.0 memory }
    {
        Reader {
            table,
            seat,
            layout,
            memory,
        }
    }

    /// The table, the seat, the layout and the memory of the reader, which is given up.
    pub(crate) fn into_parts(
        self,
    ) -> (
        Arc<WordTable<O>, Global>,
        TableSeat,
        Layout,
        Option<(Item, u64)>,
    )
        ensures is { self ≡ reader_at result.1.table_id result.1.me.0 result.3 }
        ensures place { result.1.table_id ≡ (arc_value result.0).shared.table_id }
        ensures sized { result.1.table_id.words ≡ words_for (capacity_of result.2) }
        ensures reads { result.1.me ≡ (reader_knowledge (reader_of result.1.me.0), []) }
        ensures capacity { (reader_of result.1.me.0).capacity ≡ capacity_of result.2 }
        ensures memory { MemoryHolds O.order (reader_of result.1.me.0) result.3 }
    {
        let Reader {
            table,
            seat,
            layout,
            memory,
        } = self;
        (table, seat, layout, memory)
    }

    /// One attempt to find what a key lies in.
    pub fn try_find(&mut self, k: O::Key) -> Try
        ensures place { self.new.place ≡ self.old.place }
        ensures tried { Tried O.order k self.old.knowledge self.new.knowledge result }
        ensures memory { self.new.memory ≡ memory_after self.old.memory result }
    {
        let words = ReadWords::of(&self.table.shared);
        let tried = attempt::<O>(words, &mut self.seat, self.layout, k);
        remember(&mut self.memory, tried);
        tried
    }

    /// What a key lies in, if that is the item that was found last, and no update was shown since.
    /// One load of the sequence shows whether.
    pub fn recall(&mut self, k: O::Key) -> Option<(Item, u64)>
        ensures place { self.new.place ≡ self.old.place }
        ensures memory { self.new.memory ≡ self.old.memory }
        ensures recalled { Recalled O.order k self.old.memory self.old.knowledge self.new.knowledge
            result }
    {
        let words = ReadWords::of(&self.table.shared);
        let first = words.sequence(&mut self.seat);
        recalled::<O>(&self.memory, k, first)
    }

    /// What a key lies in: recalled, or else sought by one attempt, which begins with that
    /// load.
    ///
    /// It is compiled into its callers: an answer of 48 bytes would be handed on through memory.
    #[inline(always)]
    pub fn look(&mut self, k: O::Key) -> Try
        ensures place { self.new.place ≡ self.old.place }
        ensures memory { self.new.memory ≡ memory_after self.old.memory result }
        ensures looked { Looked O.order k self.old.memory self.old.knowledge self.new.knowledge
            result }
    {
        let words = ReadWords::of(&self.table.shared);
        look::<O>(words, &mut self.seat, &mut self.memory, self.layout, k)
    }
}
