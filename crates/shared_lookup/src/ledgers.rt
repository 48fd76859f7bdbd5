//! A writer with the log of its updates.

ghost use Rattle.std.specs.Prelude.{◌≡◌, [], IfOk, IfErr, OnErr, All, vec_len};
ghost use Rattle.order_laws.specs.declared.refusals.Refusal.TheVariants.{OutOfMemory};
ghost use Rattle.latch_table.specs.declared.knowledge.Origin.TheVariants.{Start};
ghost use Rattle.latch_table.specs.Readers.{Met, new_reader};
ghost use Rattle.latch_table.specs.Seats.{first_knowledge};
ghost use Rattle.latch_table.specs.Writers.{MayOpenWith, RefusesOpening};
ghost use Rattle.shared_lookup.specs.Checks.{with_log};
ghost use Rattle.shared_lookup.specs.Changes.{Changes, RefusesChange, held_in};
ghost use Rattle.shared_lookup.specs.Ledgers.{Applies, AreAccepted, HasNothingPending, RefusesEntry};
ghost use Rattle.shared_lookup.specs.Ledgers.{ledger_of, ledger_table, new_ledger};

use crate::changes::Change;
use crate::gates::Gate;
use crate::resting::apply;
use latch_table::{Reader, Writer, meet, open};
use modules::{Catalog, Held};
use order_laws::{HalfOpen, Refusal};
use std::alloc::Global;
use std::marker::Model;
use table_updates::Update;
use word_layout::Layout;

mod enlarging;

/// The one writer of a table, with no pending update between its calls, and every update that it
/// accepted, in order.
#[derive(Drop)]
pub struct Ledger {
    writer: Writer<HalfOpen>,
    log: Vec<Update>,
    layout: Layout,
    start: u64,
}

impl Model for Ledger {
    ghost use Rattle.shared_lookup.specs.Ledgers.{IsLedger, LedgerState, ledger_of};

    ghost Value = { LedgerState };

    ghost view = { λ l. ledger_of l.writer };

    ghost invariant = { λ l. IsLedger l.writer l.log.items l.layout l.start };
}

impl Ledger {
    /// An empty table, with its sequence at `start` and `readers` readers.
    ///
    /// Refused as [`latch_table::open`] refuses.
    pub fn open(
        alloc: Global,
        l: Layout,
        start: u64,
        readers: u32,
    ) -> Result<(Ledger, Vec<Reader<HalfOpen>>), Refusal>
        ensures may { IfOk result (λ r. MayOpenWith l start readers) }
        ensures ledger { IfOk result (λ r. r.0 ≡ new_ledger r.0.place l start readers) }
        ensures readers { IfOk result (λ r. (vec_len r.1 ≡ readers)
            × All (λ x. x ≡ new_reader r.0.place (first_knowledge (Start l start))) r.1.items) }
        ensures refusal { IfErr result (RefusesOpening l start readers) }
    {
        let (writer, readers) = open::<HalfOpen>(alloc, l, start, readers)?;
        let ledger = Ledger {
            writer,
            log: Vec::new(alloc),
            layout: l,
            start,
        };
        Ok((ledger, readers))
    }

    /// Makes one whole update and adds it to the log. Calls the gate at each step, as a step of the
    /// writer `who`. Returns the new generation.
    ///
    /// Room in the log is made first, and if it is refused the answer is
    /// [`Refusal::OutOfMemory`]. Else the update is refused by [`Refusal::BadItem`],
    /// [`Refusal::Overlap`], [`Refusal::NoSuchItem`], [`Refusal::Full`] and
    /// [`Refusal::SequenceSpent`] as the table after the log's updates has it, and by
    /// [`Refusal::OutOfMemory`]. A refusal changes nothing. It waits while the gate waits.
    pub fn apply<G: Gate>(&mut self, g: &G, who: u32, u: Update) -> Result<u64, Refusal>
        ensures applied { IfOk result (Applies u self.old self.new) }
        ensures unchanged { OnErr result (self.new ≡ self.old) }
        ensures refused { IfErr result (RefusesEntry u self.old) }
    {
        self.log.reserve(1)?;
        let entry = u.copy()?;
        let generation = apply(&mut self.writer, g, who, u)?;
        self.log.push_reserved(entry);
        Ok(generation)
    }

    /// Loads or unloads a module, or ends its start, by what the table itself holds of it. Returns
    /// the new generation.
    ///
    /// Refused as the catalog refuses ([`Refusal::UnknownModule`], [`Refusal::AlreadyLoaded`],
    /// [`Refusal::NotLoaded`], [`Refusal::NoInit`], [`Refusal::OutOfMemory`]), and else as
    /// [`Ledger::apply`] refuses the update. A refusal changes nothing.
    pub fn change<G: Gate>(
        &mut self,
        g: &G,
        who: u32,
        c: &Catalog<'_>,
        ch: Change,
    ) -> Result<u64, Refusal>
        ensures changed { IfOk result (Changes c.now ch self.old self.new) }
        ensures unchanged { OnErr result (self.new ≡ self.old) }
        ensures refused { IfErr result (RefusesChange c.now ch self.old) }
    {
        let held = self.held(c, ch.number());
        let update = ch.asked(c, held)?;
        self.apply(g, who, update)
    }

    /// What of a module the table holds.
    fn held(&self, c: &Catalog<'_>, number: u64) -> Held
        ensures { result ≡ held_in c.now number (ledger_table self.now) }
    {
        let Some(module) = c.module(number) else {
            return Held {
                core: false,
                init: false,
            };
        };
        let (core, init) = module.starts();
        Held {
            core: self.writer.holds(core),
            init: match init {
                Some(start) => self.writer.holds(start),
                None => false,
            },
        }
    }

    /// One more reader of the table.
    pub(crate) fn add_reader(&mut self) -> Result<Reader<HalfOpen>, Refusal>
        ensures same { self.new ≡ record self.old { readers = self.new.readers } }
        ensures place { IfOk result (λ r. r.place ≡ self.old.place) }
    {
        self.writer.add_reader()
    }

    /// How many readers came with the table.
    pub fn readers(&self) -> u32
        ensures { result ≡ self.now.readers }
    {
        self.writer.readers()
    }

    /// A reader of the table meets the writer: it then knows the whole log.
    pub fn meet(self, reader: Reader<HalfOpen>) -> (Ledger, Reader<HalfOpen>)
        requires { reader.place ≡ self.place }
        ensures ledger { result.0 ≡ self }
        ensures reader { (result.1.place ≡ reader.place)
            × Met reader.knowledge result.1.knowledge self.log }
    {
        let Ledger {
            writer,
            log,
            layout,
            start,
        } = self;
        let (reader, writer) = meet(reader, writer);
        let ledger = Ledger {
            writer,
            log,
            layout,
            start,
        };
        (ledger, reader)
    }

    /// Every update that was accepted, in order.
    pub fn log(&self) -> &[Update]
        ensures log { result.now ≡ self.now.log }
        ensures accepted { AreAccepted self.now }
    {
        self.log.as_slice()
    }

    /// Every update that was accepted, in order, of a ledger that is not needed any more.
    pub fn into_log(self) -> Vec<Update>
        ensures { result.items ≡ self.log }
    {
        let Ledger {
            writer: _,
            log,
            layout: _,
            start: _,
        } = self;
        log
    }

    /// The writer of an empty table that accepts the log's updates. Refused by
    /// [`Refusal::OutOfMemory`] alone.
    pub(crate) fn blank(&self, alloc: Global) -> Result<Writer<HalfOpen>, Refusal>
        ensures rests { IfOk result HasNothingPending }
        ensures blank { IfOk result (λ w. w.history ≡ []) }
        ensures accepts { IfOk result (λ w. AreAccepted (with_log self.now.log (ledger_of w))) }
        ensures refusal { IfErr result (λ e. e ≡ OutOfMemory) }
    {
        let (table, _) = open::<HalfOpen>(alloc, self.layout, self.start, 1)?;
        Ok(table)
    }
}
