//! A ledger whose table goes on in more words.

ghost use Rattle.std.specs.Prelude.{◌≡◌, OnErr, IfOk, IfErr};
ghost use Rattle.shared_lookup.specs.Enlarging.{AreLedgerReaders, EnlargesLedger};
ghost use Rattle.shared_lookup.specs.Enlarging.{RefusesEnlargingLedger};

use crate::ledgers::Ledger;
use latch_table::Reader;
use order_laws::{HalfOpen, Refusal};
use std::alloc::Global;
use word_layout::Layout;

impl Ledger {
    /// Goes on with the nodes and the greatest sequence of a layout, in a new row of words: the
    /// table, its generation and the log stay. Takes all readers of the old row, which is given up
    /// with them, and hands out as many of the new one.
    ///
    /// Refused by [`Refusal::BadCapacity`] if the layout has fewer nodes or a smaller greatest
    /// sequence, and else by [`Refusal::OutOfMemory`]; a refusal changes nothing and hands the
    /// readers back.
    pub fn enlarge(
        &mut self,
        alloc: Global,
        l: Layout,
        readers: Vec<Reader<HalfOpen>>,
    ) -> Result<Vec<Reader<HalfOpen>>, (Refusal, Vec<Reader<HalfOpen>>)>
        requires readers { AreLedgerReaders self.old readers.items }
        ensures enlarged { IfOk result (λ all. EnlargesLedger self.old l self.new all.items) }
        ensures refusal { IfErr result (λ e. RefusesEnlargingLedger self.old l e.0) }
        ensures handed_back { IfErr result (λ e. e.1 ≡ readers) }
        ensures unchanged { OnErr result (self.new ≡ self.old) }
    {
        // Its clause `sound` says that the writer's tables come of its history.
        let _generation = self.writer.generation();
        let readers = self.writer.enlarge(alloc, l, readers)?;
        self.layout = l;
        Ok(readers)
    }
}
