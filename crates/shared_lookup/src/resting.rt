//! Whole updates and lookups of a writer with no pending update.

ghost use Rattle.std.specs.Prelude.{◌≡◌, ◌*◌, IfOk, IfErr, OnErr};
ghost use Rattle.order_laws.specs.Orders.{half_open};
ghost use Rattle.order_laws.specs.Tables.{look};
ghost use Rattle.latch_core.specs.Invariants.{IsSound};
ghost use Rattle.latch_table.specs.Writers.{OnTheWay, Refuses};
ghost use Rattle.shared_lookup.specs.Ledgers.{Applies, CarriesOut, HasNothingPending};
ghost use Rattle.shared_lookup.specs.Ledgers.{RefusesUpdate, ledger_of, ledger_table};

use crate::gates::{Gate, Point};
use latch_table::{Did, InHand, Writer};
use order_laws::{HalfOpen, Item, Refusal};
use table_updates::Update;

/// Makes the remaining steps, and calls the gate at each.
fn step_through<G: Gate>(pending: &mut InHand<'_, HalfOpen>, g: &G, writer: u32, sequence: u64)
    ensures same_reference { pending.new.writer.ghost_name ≡ pending.old.writer.ghost_name }
    ensures way { OnTheWay pending.old.writer.now pending.new.writer.now }
{
    let mut seq = sequence;
    while let Some(did) = pending.step() {
        if did == Did::Flip {
            seq = seq.saturating_add(1);
        }
        let remaining = pending.remaining();
        g.tell(Point::WriterStep {
            writer,
            seq,
            remaining,
        });
    }
}

/// Begins an update, makes all its steps, and returns the new generation.
fn carry_out<G: Gate>(
    writer: &mut Writer<HalfOpen>,
    g: &G,
    who: u32,
    u: Update,
) -> Result<u64, Refusal>
    ensures carried { IfOk result (CarriesOut writer.old u writer.new) }
    ensures unchanged { OnErr result (writer.new ≡ writer.old) }
    ensures refused { IfErr result (Refuses half_open writer.old u) }
    ensures sound { IsSound half_open writer.old.capacity (2 * writer.old.base) writer.old.history
        writer.old.latch }
{
    let sequence = writer.generation().saturating_mul(2);
    let mut pending = writer.begin(u)?;
    step_through(&mut pending, g, who, sequence);
    Ok(pending.finish())
}

/// Makes one whole update, calls the gate at each step, and returns the new generation.
#[tactic(auto, using(crate::proofs::LedgerLemmas::rests_after))]
pub(crate) fn apply<G: Gate>(
    writer: &mut Writer<HalfOpen>,
    g: &G,
    who: u32,
    u: Update,
) -> Result<u64, Refusal>
    requires rests { HasNothingPending writer.old }
    ensures rests { HasNothingPending writer.new }
    ensures applied { IfOk result (Applies u (ledger_of writer.old) (ledger_of writer.new)) }
    ensures unchanged { OnErr result (writer.new ≡ writer.old) }
    ensures refused { IfErr result (RefusesUpdate u (ledger_of writer.old)) }
{
    carry_out(writer, g, who, u)
}

/// What a key lies in.
pub(crate) fn find(writer: &mut Writer<HalfOpen>, k: u64) -> Option<Item>
    requires rests { HasNothingPending writer.old }
    ensures rests { HasNothingPending writer.new }
    ensures kept { ledger_of writer.new ≡ ledger_of writer.old }
    ensures found { result ≡ look half_open k (ledger_table (ledger_of writer.old)) }
{
    let (found, _) = writer.find(k);
    found
}
