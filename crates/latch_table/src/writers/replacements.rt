//! The items of a table replaced by others, as one update.
//!
//! With no pending update the writer's seat reads the table from the words of copy 0, item by item
//! from left to right, and gives each to a difference, which finds what is to be erased and what to
//! be inserted. Memory is taken for what differs alone.

ghost use Rattle.std.specs.Prelude.{◌≡◌, ◌<◌, [], true, IfOk, IfErr, OnOk};
ghost use Rattle.std.specs.Borrow.{sem, RestsIfErr};
ghost use Rattle.word_layout.specs.Layouts.{capacity_of};
ghost use Rattle.word_layout.specs.Words.{at, item_at, words_for};
ghost use Rattle.latch_core.specs.Replacements.{is_rising};
ghost use Rattle.latch_table.specs.contracts.writers.Writer.{the_row};
ghost use Rattle.latch_table.specs.Seats.{writer_of, writer_knowledge};
ghost use Rattle.latch_table.specs.Replacing.{LeadsToFew, TellsTree, IsReplacement};
ghost use Rattle.latch_table.specs.Replacing.{BeginsReplacing, RefusesList, RefusesReplacing};

use super::{InHand, Writer};
use crate::knowledge::TableSeat;
use crate::rule::{CopyWord, Words};
use latch_core::{Difference, rises};
use order_laws::{Item, Refusal, TreeOrder};
use std::alloc::AllocError;
use table_updates::Update;
use word_layout::places::{a_of, b_of, left_of, right_of, root_of, tag_of};
use word_layout::{Layout, TreeCopy};

/// What a word holds, loaded through the writer's seat.
fn copied_word<O: TreeOrder>(words: &Words<O>, seat: &mut TableSeat, word: usize) -> u64
    requires table { seat.old.table_id ≡ words.now.table_id }
    requires within { word < seat.old.table_id.words }
    requires writes { seat.old.me ≡ (writer_knowledge (writer_of seat.old.me.0), []) }
    ensures table { seat.new.table_id ≡ seat.old.table_id }
    ensures view { seat.new.me ≡ seat.old.me }
    ensures value { result ≡ at (writer_of seat.old.me.0).picture word }
{
    words.load::<CopyWord>(seat, word)
}

/// The item whose words a node has.
fn copied_item<O: TreeOrder>(words: &Words<O>, seat: &mut TableSeat, l: Layout, node: u32) -> Item
    requires table { seat.old.table_id ≡ words.now.table_id }
    requires sized { seat.old.table_id.words ≡ words_for (capacity_of l) }
    requires within { node < capacity_of l }
    requires writes { seat.old.me ≡ (writer_knowledge (writer_of seat.old.me.0), []) }
    ensures table { seat.new.table_id ≡ seat.old.table_id }
    ensures view { seat.new.me ≡ seat.old.me }
    ensures item { result ≡ item_at (writer_of seat.old.me.0).picture node }
{
    let a = copied_word::<O>(words, seat, a_of(node));
    let b = copied_word::<O>(words, seat, b_of(node));
    let tag = copied_word::<O>(words, seat, tag_of(node));
    Item { a, b, tag }
}

/// Gives a difference from a list the items of the tree that a link of copy 0 leads to, from left
/// to right. The tree has `most` nodes at most.
fn note_tree<O: TreeOrder>(
    words: &Words<O>,
    seat: &mut TableSeat,
    l: Layout,
    link: u64,
    most: u32,
    list: &[Item],
    difference: &mut Difference,
) -> Result<(), AllocError>
    requires table { seat.old.table_id ≡ words.now.table_id }
    requires sized { seat.old.table_id.words ≡ words_for (capacity_of l) }
    requires writes { seat.old.me ≡ (writer_knowledge (writer_of seat.old.me.0), []) }
    requires tree { LeadsToFew (writer_of seat.old.me.0).picture (capacity_of l) link most }
    requires rises { is_rising O.order list.now ≡ true }
    ensures table { seat.new.table_id ≡ seat.old.table_id }
    ensures view { seat.new.me ≡ seat.old.me }
    ensures told { OnOk result (TellsTree O.order list.now (writer_of seat.old.me.0).picture
        (capacity_of l) link difference.old difference.new) }
{
    if link == 0 {
        return Ok(());
    }
    let node = (link - 1) as u32;
    let left = copied_word::<O>(words, seat, left_of(TreeCopy::Zero, node));
    note_tree::<O>(words, seat, l, left, most - 1, list, difference)?;
    let item = copied_item::<O>(words, seat, l, node);
    difference.tell::<O>(list, item)?;
    let right = copied_word::<O>(words, seat, right_of(TreeCopy::Zero, node));
    note_tree::<O>(words, seat, l, right, most - 1, list, difference)
}

impl<O: TreeOrder> Writer<O> {
    /// The update that makes these items of the table: a batch that erases the items of the table
    /// that are not among them, and inserts the ones that are not in the table, both in order.
    ///
    /// The items have to rise, each less than the next. It goes once over both, and takes memory
    /// for the entries of the batch alone. Refused by [`Refusal::UpdateInHand`], then by
    /// [`Refusal::Overlap`] if the items do not rise, and last by [`Refusal::OutOfMemory`].
    /// Nothing changes.
    pub fn replacement(&mut self, list: &[Item]) -> Result<Update, Refusal>
        ensures found { IfOk result (IsReplacement O.order self.old list.now) }
        ensures refused { IfErr result (RefusesList O.order self.old list.now) }
        ensures unchanged { self.new ≡ self.old }
    {
        if self.core.remaining() > 0 {
            return Err(Refusal::UpdateInHand);
        }
        if !rises::<O>(list) {
            return Err(Refusal::Overlap);
        }
        let layout = self.core.layout();
        let most = self.core.len();
        let mut difference = self.core.difference();
        let words = &self.table.shared;
        let root = copied_word::<O>(words, &mut self.seat, root_of(TreeCopy::Zero));
        note_tree::<O>(
            words,
            &mut self.seat,
            layout,
            root,
            most,
            list,
            &mut difference,
        )?;
        Ok(difference.into_update(list)?)
    }

    /// Begins the update that makes these items of the table ([`Writer::replacement`]): the table
    /// after it is these items. An item that it had already is neither erased nor inserted.
    ///
    /// The items have to be valid and apart, and to rise, each less than the next. A table that has
    /// them already gets the batch of no entries, which counts as any update does. Refused by
    /// [`Refusal::UpdateInHand`]; by [`Refusal::Overlap`] if the items do not rise; else as
    /// [`Writer::begin`] refuses the batch: by [`Refusal::BadItem`], [`Refusal::Overlap`],
    /// [`Refusal::Full`], [`Refusal::SequenceSpent`] and [`Refusal::OutOfMemory`]. New items take
    /// nodes that were free before, so there have to be as many. A refusal changes nothing.
    pub fn begin_replace(&mut self, list: &[Item]) -> Result<InHand<'_, O>, Refusal>
        ensures* rests { sem 𝓛 (RestsIfErr (the_row O.row O.Key.row O.TreeOrder O.Key.Clone)
            self.entry (λ h. h.writer.ghost_name) result (λ n. n ≡ self.old)) }
        ensures same_reference { IfOk result (λ h. h.writer.ghost_name ≡ self.entry.ghost_name) }
        ensures begun { IfOk result (λ h. BeginsReplacing O.order self.old list.now h.writer.now) }
        ensures refused { IfErr result (RefusesReplacing O.order self.old list.now) }
    {
        let update = self.replacement(list)?;
        self.begin(update)
    }
}
