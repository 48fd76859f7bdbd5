//! How the seat learns which update is pending, and what is loaded before its steps.

ghost use Rattle.std.specs.Prelude.{◌≡◌, ◌<◌, [], All};
ghost use Rattle.latch_table.specs.Seats.{writer_of, writer_knowledge, with_update};

use crate::knowledge::TableSeat;
use crate::rule::{CopyWord, NamesUpdate, TakeUpdate, Words};
use order_laws::TreeOrder;
use table_updates::Update;
use word_layout::Store;

/// How many words are loaded before the first step of an update; about as many loads go on at once.
const LOADED_AHEAD: usize = 10;

/// Lets the writer's seat know which update is pending. A seat learns only at a step on a word, so
/// it loads one.
pub(super) fn take_update<O: TreeOrder, J: NamesUpdate>(
    words: &Words<O>,
    seat: &mut TableSeat,
    update: &Update,
)
    requires named { J.update ≡ update.now }
    requires table { seat.old.table_id ≡ words.now.table_id }
    requires some { 0 < seat.old.table_id.words }
    requires writes { seat.old.me ≡ (writer_knowledge (writer_of seat.old.me.0), []) }
    ensures table { seat.new.table_id ≡ seat.old.table_id }
    ensures view { seat.new.me
        ≡ (writer_knowledge (with_update O.order update.now (writer_of seat.old.me.0)), []) }
{
    words.load::<TakeUpdate<O, J>>(seat, 0);
}

/// Loads the words of the stores that come after the next one, and leaves the values unused.
///
/// Each sequentially consistent store waits for its word to come from memory before the next may
/// begin. These loads fetch the words side by side, so that a store finds its own near.
pub(super) fn load_ahead<O: TreeOrder>(words: &Words<O>, seat: &mut TableSeat, stores: &[Store])
    requires table { seat.old.table_id ≡ words.now.table_id }
    requires within { All (λ s. s.word < seat.old.table_id.words) stores.now }
    requires writes { seat.old.me ≡ (writer_knowledge (writer_of seat.old.me.0), []) }
    ensures table { seat.new.table_id ≡ seat.old.table_id }
    ensures view { seat.new.me ≡ seat.old.me }
{
    let ahead = stores.len().min(LOADED_AHEAD + 1);
    for place in 1..ahead {
        words.load::<CopyWord>(seat, stores[place].word);
    }
}
