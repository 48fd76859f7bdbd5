//! One more reader of a table.
//!
//! A reader's seat is parted from the writer's, with what the writer knows: so a reader can be
//! added at every step of an update.

ghost use Rattle.std.specs.Prelude.{◌≡◌, ◌<◌, ◌-◌, OnErr, IfOk, IfErr};
ghost use Rattle.latch_table.specs.Adding.{AddsReader, RefusesReader};

use crate::readers::Reader;
use crate::rule::NewReader;
use crate::writers::Writer;
use order_laws::{Refusal, TreeOrder};
use std::sync::Arc;

/// The most readers of a table, with those that were added.
pub const MOST_READERS_IN_ALL: u32 = 65536;

impl<O: TreeOrder> Writer<O> {
    /// One more reader of the table, also beside a pending update. It has loaded and remembers
    /// nothing, and will know at least what was shown. [`Writer::move_to`] counts it with the
    /// others.
    ///
    /// Refused by [`Refusal::BadCapacity`] if the table has 65536 readers already, and else by
    /// [`Refusal::OutOfMemory`]; a refusal changes nothing.
    pub fn add_reader(&mut self) -> Result<Reader<O>, Refusal>
        ensures added { IfOk result (AddsReader self.old self.new) }
        ensures refusal { IfErr result (RefusesReader self.old) }
        ensures unchanged { OnErr result (self.new ≡ self.old) }
    {
        if self.readers >= MOST_READERS_IN_ALL {
            return Err(Refusal::BadCapacity);
        }
        let table = Arc::try_clone(&self.table)?;
        let layout = self.core.layout();
        let seat = table.shared.split_seat::<NewReader>(&mut self.seat);
        self.readers += 1;
        Ok(Reader::new(table, seat, layout, None))
    }

    /// Gives up a reader, and counts one fewer: a place for another.
    ///
    /// It is not compared whether the reader is one of this table.
    pub fn take_back(&mut self, reader: Reader<O>)
        requires { 0 < self.old.readers }
        ensures { self.new ≡ record self.old { readers = self.old.readers - 1 } }
    {
        let _reader = reader;
        self.readers -= 1;
    }
}
