//! The writer, and a pending update.

use crate::knowledge::TableSeat;
use crate::rule::WordTable;
use latch_core::WriterCore;
use order_laws::TreeOrder;
use std::alloc::Global;
use std::marker::Model;
use std::sync::Arc;

mod lookups;
mod replacements;
mod steps;
mod updates;
mod words;

/// The one writer of a table: the seat that alone may store, and the core that plans the stores.
#[derive(Drop)]
pub struct Writer<O: TreeOrder> {
    pub(crate) table: Arc<WordTable<O>, Global>,
    pub(crate) seat: TableSeat,
    pub(crate) core: WriterCore<O>,
    pub(crate) readers: u32,
}

impl<O: TreeOrder> Model for Writer<O> {
    ghost use Rattle.std.specs.Prelude.{◌≡◌};
    ghost use Rattle.std.specs.Arc.{arc_value};
    ghost use Rattle.word_layout.specs.Words.{words_for};
    ghost use Rattle.latch_table.specs.Writers.{WriterState, writer_state, IsTied};

    ghost Value = { WriterState };

    ghost view = { λ w. writer_state w.seat.table_id w.readers w.seat.me.0 w.core };

    ghost invariant = { λ w. (w.seat.table_id ≡ (arc_value w.table).shared.table_id)
        × (w.seat.table_id.words ≡ words_for w.core.capacity)
        × IsTied O.order w.seat.me w.core
        (writer_state w.seat.table_id w.readers w.seat.me.0 w.core) };
}

/// A pending update. It cannot be dropped: [`finish`](InHand::finish) brings it to its end, and
/// [`leave`](InHand::leave) lets the writer keep it pending.
pub struct InHand<'a, O: TreeOrder> {
    pub(crate) writer: &'a mut Writer<O>,
}

/// What a step did.
#[derive(Clone, Copy, Debug, PartialEq, Eq, Drop)]
pub enum Did {
    /// It added 1 to the sequence.
    Flip,
    /// It stored another word.
    Store,
}
