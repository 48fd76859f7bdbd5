//! A ledger under a lock.

ghost use Rattle.std.specs.Prelude.{◌≡◌, None, Some};
ghost use Rattle.shared_lookup.specs.Changes.{IsOutcomeOf};
ghost use Rattle.shared_lookup.specs.Followings.{IsMadeBeside, IsOpenedAs};
ghost use Rattle.shared_lookup.specs.Ledgers.{IsNamed};

use crate::changes::Change;
use crate::gates::Gate;
use crate::ledgers::Ledger;
use latch_table::Reader;
use modules::Catalog;
use order_laws::{HalfOpen, Refusal};
use std::marker::{Brand, Model, PhantomData};
use std::sync::{Mutex, Wait};

/// Names the table of a ledger, in proofs alone. Only the type of a value under a lock is known, so
/// this is how the readers beside it are known to be of its table. A caller that has no need of it
/// takes [`Brand`], which names none.
pub trait NamesTable {
    ghost use Rattle.std.specs.Prelude.{Option};
    ghost use Rattle.atomic_table.specs.Seated.{TableId};
    ghost use Rattle.shared_lookup.specs.Ledgers.{LedgerState};

    ghost table: { Option TableId };

    /// The ledger of it as it was opened.
    ghost opened: { Option LedgerState };
}

impl NamesTable for Brand {
    ghost table = { None };

    ghost opened = { None };
}

/// A ledger of the table that is named, as it was opened but for its log.
#[derive(Drop)]
struct NamedLedger<K: NamesTable> {
    /// None while a reader meets it.
    ledger: Option<Ledger>,
    named: PhantomData<K>,
}

impl<K: NamesTable> Model for NamedLedger<K> {
    ghost use Rattle.std.specs.Prelude.{Option};
    ghost use Rattle.shared_lookup.specs.Followings.{IsHeld};
    ghost use Rattle.shared_lookup.specs.Ledgers.{LedgerState};

    ghost Value = { Option LedgerState };

    ghost view = { λ n. n.ledger };

    ghost invariant = { λ n. IsHeld K.table K.opened n.ledger };
}

impl<K: NamesTable> NamedLedger<K> {
    /// One [`Ledger::change`].
    fn change<G: Gate>(
        &mut self,
        g: &G,
        who: u32,
        c: &Catalog<'_>,
        ch: Change,
    ) -> Result<u64, Refusal>
        ensures { IsOutcomeOf c.now ch result }
    {
        let Some(ledger) = &mut self.ledger else {
            unreachable!()
        };
        ledger.change(g, who, c, ch)
    }

    /// One [`Ledger::change`] beside a reader of the table, which meets the writer before and after
    /// it.
    fn change_beside<G: Gate>(
        &mut self,
        g: &G,
        who: u32,
        seat: Reader<HalfOpen>,
        c: &Catalog<'_>,
        ch: Change,
    ) -> (Result<u64, Refusal>, Reader<HalfOpen>)
        requires { K.table ≡ Some seat.place }
        ensures outcome { IsOutcomeOf c.now ch result.0 }
        ensures place { result.1.place ≡ seat.place }
        ensures made { IsMadeBeside c.now K.opened ch seat.knowledge.known
            result.1.knowledge.known result.0 }
    {
        let Some(ledger) = self.ledger.take() else {
            unreachable!()
        };
        let (mut ledger, seat) = ledger.meet(seat);
        let outcome = ledger.change(g, who, c, ch);
        let (ledger, seat) = ledger.meet(seat);
        self.ledger = Some(ledger);
        (outcome, seat)
    }
}

/// A ledger that several threads change, one whole change at a time.
#[derive(Drop)]
pub struct SharedWriter<K: NamesTable> {
    ledger: Mutex<NamedLedger<K>>,
}

impl<K: NamesTable> SharedWriter<K> {
    /// The ledger, under a lock.
    pub fn new(ledger: Ledger) -> SharedWriter<K>
        requires table { IsNamed K.table ledger.place }
        requires opened { IsOpenedAs K.opened ledger }
    {
        SharedWriter {
            ledger: Mutex::new(NamedLedger {
                ledger: Some(ledger),
                named: PhantomData,
            }),
        }
    }

    /// One [`Ledger::change`] in one taking of the lock: what it returns, the change returns at
    /// some ledger.
    pub fn change<R: Wait, G: Gate>(
        &self,
        rt: &R,
        g: &G,
        who: u32,
        c: &Catalog<'_>,
        ch: Change,
    ) -> Result<u64, Refusal>
        ensures { IsOutcomeOf c.now ch result }
    {
        self.ledger.lock(rt).change(g, who, c, ch)
    }

    /// The ledger, which nobody else shares any more.
    pub fn into_ledger(self) -> Ledger
        ensures table { IsNamed K.table result.place }
        ensures opened { IsOpenedAs K.opened result }
    {
        let SharedWriter { ledger } = self;
        let NamedLedger { ledger, named: _ } = ledger.into_inner();
        let Some(ledger) = ledger else { unreachable!() };
        ledger
    }
}

/// Makes changes of one table, each on its own, for any number of threads.
pub(crate) trait Changer {
    ghost use Rattle.std.specs.Prelude.{Option};
    ghost use Rattle.atomic_table.specs.Seated.{TableId};
    ghost use Rattle.modules.specs.Entries.{CatalogEntries};
    ghost use Rattle.shared_lookup.specs.Ledgers.{LedgerState};

    ghost catalog: { Self → CatalogEntries };

    /// The table, if it is named.
    ghost table: { Self → Option TableId };

    /// Its ledger as it was opened, if that is named.
    ghost opened: { Self → Option LedgerState };

    /// The new generation, or why the change was refused, and the reader of the table, which meets
    /// the writer before and after it.
    fn change<R: Wait, G: Gate>(
        &self,
        rt: &R,
        g: &G,
        who: u32,
        seat: Reader<HalfOpen>,
        ch: Change,
    ) -> (Result<u64, Refusal>, Reader<HalfOpen>)
        requires { table self.now ≡ Some seat.place }
        ensures outcome { IsOutcomeOf (catalog self.now) ch result.0 }
        ensures place { result.1.place ≡ seat.place }
        ensures made { IsMadeBeside (catalog self.now) (opened self.now) ch seat.knowledge.known
            result.1.knowledge.known result.0 };
}

/// A shared writer with the catalog that its changes are of.
#[derive(Drop)]
pub(crate) struct CatalogWriter<'a, 'c, K: NamesTable> {
    pub(crate) shared: &'a SharedWriter<K>,
    pub(crate) catalog: &'a Catalog<'c>,
}

impl<'a, 'c, K: NamesTable> Changer for CatalogWriter<'a, 'c, K> {
    ghost catalog = { λ w. w.catalog.now };

    ghost table = { λ w. K.table };

    ghost opened = { λ w. K.opened };

    fn change<R: Wait, G: Gate>(
        &self,
        rt: &R,
        g: &G,
        who: u32,
        seat: Reader<HalfOpen>,
        ch: Change,
    ) -> (Result<u64, Refusal>, Reader<HalfOpen>) {
        self.shared
            .ledger
            .lock(rt)
            .change_beside(g, who, seat, self.catalog, ch)
    }
}
