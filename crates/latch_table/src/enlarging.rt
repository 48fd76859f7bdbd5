//! The table in a larger row of words.
//!
//! The writer alone stores, so with no pending update it copies the words as they are, and puts 0
//! in the words of the new nodes. All memory is taken before anything changes; then the writer goes
//! over to the new row, and the old row is freed with the readers that it has.

ghost use Rattle.std.specs.Prelude.{◌≡◌, ◌≤◌, [], length, OnErr, IfOk, IfErr};
ghost use Rattle.word_layout.specs.Layouts.{capacity_of};
ghost use Rattle.word_layout.specs.Words.{words_for};
ghost use Rattle.word_layout.specs.Wider.{wider_words};
ghost use Rattle.latch_table.specs.Seats.{writer_of, writer_knowledge};
ghost use Rattle.latch_table.specs.Enlarging.{AreReadersOf, Enlarges, RefusesEnlarging};

use crate::knowledge::{Origin, TableSeat};
use crate::opening::{BuiltTable, build};
use crate::readers::Reader;
use crate::rule::{CopyWord, Words};
use crate::writers::Writer;
use order_laws::{Refusal, TreeOrder};
use std::alloc::{AllocError, Global};
use std::snapshot::Snapshot;
use word_layout::Layout;

/// The words of one layout, loaded through the writer's seat, and after them 0 in those that a
/// larger layout has in addition.
fn copied<O: TreeOrder>(
    alloc: Global,
    words: &Words<O>,
    seat: &mut TableSeat,
    from: Layout,
    to: Layout,
) -> Result<Vec<u64>, AllocError>
    requires table { seat.old.table_id ≡ words.now.table_id }
    requires sized { seat.old.table_id.words ≡ words_for (capacity_of from) }
    requires writes { seat.old.me ≡ (writer_knowledge (writer_of seat.old.me.0), []) }
    requires picture { length (writer_of seat.old.me.0).picture ≡ words_for (capacity_of from) }
    requires wider { capacity_of from ≤ capacity_of to }
    ensures table { seat.new.table_id ≡ seat.old.table_id }
    ensures view { seat.new.me ≡ seat.old.me }
    ensures all { IfOk result (λ v. v.items
        ≡ wider_words (capacity_of from) (capacity_of to) (writer_of seat.old.me.0).picture) }
{
    let mut all = vec![in alloc; 0; to.words()]?;
    for word in 0..from.words() {
        all[word] = words.load::<CopyWord>(seat, word);
    }
    Ok(all)
}

impl<O: TreeOrder> Writer<O> {
    /// Goes on with the nodes and the greatest sequence of a layout, in a new row of words: the
    /// table, the updates that were shown and the generation stay. Takes all readers of the old
    /// row, which is given up with them, and hands out as many of the new one.
    ///
    /// Refused by [`Refusal::UpdateInHand`], then by [`Refusal::BadCapacity`] if the layout has
    /// fewer nodes or a smaller greatest sequence, and last by [`Refusal::OutOfMemory`]; a refusal
    /// changes nothing and hands the readers back.
    pub fn enlarge(
        &mut self,
        alloc: Global,
        l: Layout,
        readers: Vec<Reader<O>>,
    ) -> Result<Vec<Reader<O>>, (Refusal, Vec<Reader<O>>)>
        requires readers { AreReadersOf self.old readers.items }
        ensures enlarged { IfOk result (λ all. Enlarges self.old l self.new all.items) }
        ensures refusal { IfErr result (λ e. RefusesEnlarging self.old l e.0) }
        ensures handed_back { IfErr result (λ e. e.1 ≡ readers) }
        ensures unchanged { OnErr result (self.new ≡ self.old) }
    {
        match self.move_to(alloc, l) {
            Ok(all) => Ok(all),
            Err(refusal) => Err((refusal, readers)),
        }
    }

    /// Goes on with the nodes and the greatest sequence of a layout, and leaves the old readers
    /// alone: they keep the old row, in which nothing changes any more.
    pub fn move_to(&mut self, alloc: Global, l: Layout) -> Result<Vec<Reader<O>>, Refusal>
        ensures enlarged { IfOk result (λ all. Enlarges self.old l self.new all.items) }
        ensures refusal { IfErr result (RefusesEnlarging self.old l) }
        ensures unchanged { OnErr result (self.new ≡ self.old) }
    {
        if let Some(refusal) = self.core.why_not_widened(l) {
            return Err(refusal);
        }
        let layout = self.core.layout();
        let words = copied::<O>(alloc, &self.table.shared, &mut self.seat, layout, l)?;
        let from = Origin::Moved(l, Snapshot::of(&self.seat), Snapshot::of(&words));
        let BuiltTable {
            table,
            seat,
            readers,
        } = build::<O>(alloc, l, &from, &words, self.readers)?;
        self.core.widen(l)?;
        self.table = table;
        self.seat = seat;
        Ok(readers)
    }
}
