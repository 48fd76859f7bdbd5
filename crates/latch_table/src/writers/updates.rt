//! Updates, step by step.

ghost use Rattle.std.specs.Prelude.{◌≡◌, ◌*◌, [], None, IfOk, IfErr};
ghost use Rattle.std.specs.Borrow.{sem, RestsIfErr};
ghost use Rattle.order_laws.specs.Tables.{has};
ghost use Rattle.word_layout.specs.Words.{at};
ghost use Rattle.latch_core.specs.Sequences.{generation_of};
ghost use Rattle.table_updates.specs.Updates.{replay};
ghost use Rattle.latch_core.specs.Invariants.{IsSound};
ghost use Rattle.latch_table.specs.contracts.writers.Writer.{the_row};
ghost use Rattle.latch_table.specs.Writers.{Begins, Refuses, Steps, Finishes, steps_left_of};
ghost use Rattle.latch_table.specs.Writers.{shown_updates};

use super::steps::{load_ahead, take_update};
use super::{Did, InHand, Writer};
use crate::rule::StoreWord;
use order_laws::{Refusal, TreeOrder};
use std::marker::Brand;
use table_updates::Update;

impl<O: TreeOrder> Writer<O> {
    /// Begins an update. Refused as [`WriterCore::begin`](latch_core::WriterCore::begin)
    /// refuses; a refusal changes nothing.
    #[inline(always)]
    pub fn begin(&mut self, u: Update) -> Result<InHand<'_, O>, Refusal>
        ensures* rests { sem 𝓛 (RestsIfErr (the_row O.row O.Key.row O.TreeOrder O.Key.Clone)
            self.entry (λ h. h.writer.ghost_name) result (λ n. n ≡ self.old)) }
        ensures same_reference { IfOk result (λ h. h.writer.ghost_name ≡ self.entry.ghost_name) }
        ensures begun { IfOk result (λ h. Begins O.order self.old u h.writer.now) }
        ensures refused { IfErr result (Refuses O.order self.old u) }
    {
        self.core.begin(&u)?;
        take_update::<O, Brand>(&self.table.shared, &mut self.seat, &u);
        load_ahead::<O>(&self.table.shared, &mut self.seat, self.core.stores_left());
        Ok(InHand { writer: self })
    }

    /// The generation: how many updates were shown, above the opening one.
    ///
    /// What its clause `sound` says holds of every writer: the tables of its latch come of its
    /// history.
    pub fn generation(&self) -> u64
        ensures is { result ≡ generation_of (at self.now.latch.words 0) }
        ensures sound { IsSound O.order self.now.capacity (2 * self.now.base) self.now.history
            self.now.latch }
    {
        self.core.generation()
    }

    /// Whether an item of the table after all accepted updates has this first word.
    pub fn holds(&self, a: u64) -> bool
        ensures is { result ≡ has a self.now.latch.newest_table }
        ensures rests { self.now.latch.pending ≡ None
            → result ≡ has a (replay O.order [] (shown_updates self.now)) }
    {
        self.core.holds(a)
    }

    /// How many readers came with the writer.
    pub fn readers(&self) -> u32
        ensures { result ≡ self.now.readers }
    {
        self.readers
    }

    /// Makes one step of the pending update; none if it is at its end, or none is pending.
    pub fn step(&mut self) -> Option<Did>
        ensures { Steps self.old self.new result }
    {
        // The core goes on before the store, since nothing it keeps is read again after an atomic
        // step but from memory.
        let store = self.core.step()?;
        self.table
            .shared
            .store::<StoreWord>(&mut self.seat, store.word, store.value);
        Some(if store.word == 0 {
            Did::Flip
        } else {
            Did::Store
        })
    }

    /// Makes the steps that are left of the pending update, if there is one, and returns the new
    /// generation.
    #[tactic(auto, using(crate::proofs::WriterLemmas::steps_down, crate::proofs::WriterLemmas::on_the_way, crate::proofs::WriterLemmas::finishes))]
    pub fn finish(&mut self) -> u64
        ensures { Finishes self.old self.new result }
    {
        while let Some(_) = self.step() {}
        self.generation()
    }
}

impl<O: TreeOrder> InHand<'_, O> {
    /// Makes one step; none if the update is at its end.
    pub fn step(&mut self) -> Option<Did>
        ensures same_reference { self.new.writer.ghost_name ≡ self.old.writer.ghost_name }
        ensures step { Steps self.old.writer.now self.new.writer.now result }
    {
        self.writer.step()
    }

    /// How many steps are left.
    pub fn remaining(&self) -> u64
        ensures { result ≡ steps_left_of self.now.writer.now.latch.pending }
    {
        let writer: &Writer<O> = self.writer;
        writer.core.remaining()
    }

    /// Leaves the pending update, for [`Writer::step`] to go on with.
    pub fn leave(self)
        ensures { self.exit.0.now ≡ self.entry.writer.now }
    {
        let InHand { writer: _writer } = self;
    }

    /// Makes the steps that are left, and returns the new generation.
    pub fn finish(self) -> u64
        ensures { Finishes self.entry.writer.now self.exit.0.now result }
    {
        let InHand { writer } = self;
        writer.finish()
    }
}
