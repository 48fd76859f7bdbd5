//! Lists of changes and lists of keys, each on a thread of its own.

ghost use Rattle.std.specs.Prelude.{◌≡◌, ◌<◌, ◌≤◌, length, All, Some, IfOk, IfErr, vec_len};
ghost use Rattle.order_laws.specs.declared.refusals.Refusal.TheVariants.{OutOfMemory};
ghost use Rattle.modules.specs.Catalogs.{regions_of};
ghost use Rattle.word_layout.specs.Layouts.{capacity_of, limit_of};
ghost use Rattle.word_layout.specs.Limits.{greatest_wide_sequence, most_nodes};
ghost use Rattle.latch_table.specs.Limits.{most_readers};
ghost use Rattle.shared_lookup.specs.Followings.{FollowServed, IsServedLedger};
ghost use Rattle.shared_lookup.specs.Readers.{EachHasLooked, IsNewReaderOf};
ghost use Rattle.shared_lookup.specs.Servings.{EachHasOutcome, EachIsAnswered, EachIsFoundIn};
ghost use Rattle.shared_lookup.specs.Servings.{IsWrongCount, MayServe, RefusesServing};
ghost use Rattle.shared_lookup.specs.Threads.{AreAllMade, AreHeard};

use crate::changes::Change;
use crate::checks::wrong_count;
use crate::gates::Gate;
use crate::ledgers::Ledger;
use crate::lists::{join_readers, join_writers, start_readers, start_writers, with_room};
use crate::meetings::{meet_all, settle_all};
use crate::served::Served;
use crate::shared::{CatalogWriter, Changer, NamesTable, SharedWriter};
use crate::threads::{ChangeResults, LookupResults, ThreadContext};
use latch_table::{MOST_READERS, Reader};
use modules::Catalog;
use order_laws::{HalfOpen, Refusal};
use std::alloc::{AllocError, Global};
use std::marker::Brand;
use std::sync::Wait;
use std::thread;
use std::thread::Threads;
use word_layout::Layout;

/// What all threads came back with.
#[derive(Drop)]
struct ThreadResults {
    made: Vec<ChangeResults>,
    heard: Vec<LookupResults>,
}

/// Runs a thread for each list that is not empty, all at once, and waits for them. Refused before
/// the first thread starts, and never later.
fn run_threads<R: Threads + Wait + Sync, G: Gate + Sync, W: Changer + Sync>(
    context: &ThreadContext<'_, R, G>,
    changer: &W,
    changes: &[Vec<Change>],
    keys: &[Vec<u64>],
    beside: Vec<Reader<HalfOpen>>,
    seats: Vec<Reader<HalfOpen>>,
) -> Result<ThreadResults, AllocError>
    requires beside { All (λ r. W.table changer.now ≡ Some r.place) beside.items }
    requires seats { All (IsNewReaderOf (W.table changer.now)) seats.items }
    requires same { vec_len seats ≡ length keys.now }
    requires few { length keys.now ≤ most_readers }
    ensures made { IfOk result (λ r.
        AreAllMade (W.table changer.now) (W.opened changer.now) (W.catalog changer.now)
        changes.now r.made.items) }
    ensures heard { IfOk result (λ r.
        AreHeard (W.table changer.now) keys.now r.heard.items) }
{
    let rt = context.rt;
    let alloc = context.alloc;
    let gate = context.gate;
    thread::scope(
        thread::scope_env(),
        rt,
        |scope| -> Result<ThreadResults, AllocError>
            requires beside { All (λ r. W.table changer.now ≡ Some r.place) beside.items }
            requires seats { All (IsNewReaderOf (W.table changer.now)) seats.items }
            requires same { vec_len seats ≡ length keys.now }
            requires few { length keys.now ≤ most_readers }
            ensures made { IfOk result (λ r.
                AreAllMade (W.table changer.entry.now) (W.opened changer.entry.now)
                (W.catalog changer.entry.now) changes.entry.now r.made.items) }
            ensures heard { IfOk result (λ r.
                AreHeard (W.table changer.entry.now) keys.entry.now r.heard.items) }
        {
            let lists = with_room(alloc, changes)?;
            let made = Vec::with_capacity(alloc, changes.len())?;
            let heard = Vec::with_capacity(alloc, keys.len())?;
            let writers = Vec::with_capacity(alloc, changes.len())?;
            let readers = Vec::with_capacity(alloc, keys.len())?;
            let context = ThreadContext { rt, alloc, gate };
            let writers = start_writers(scope, &context, changer, changes, lists, beside, writers);
            let readers = start_readers(scope, &context, changer, seats, keys, readers);
            let made = join_writers(rt, changer, changes, writers, made);
            let heard = join_readers(rt, alloc, changer, keys, readers, heard);
            Ok(ThreadResults { made, heard })
        },
    )
}

/// A time for each change, and one at least, for the count of wrong entries.
fn times_for(alloc: Global, changes: &[Vec<Change>]) -> Result<Vec<u8>, AllocError>
    ensures { IfOk result (λ times. 0 < length times.items) }
{
    let count = changes
        .iter()
        .fold(0usize, |count, list| count.saturating_add(list.len()));
    vec![in alloc; 0u8; count.max(1)]
}

/// Runs the threads over a ledger that was opened with these readers, lets each reader that came
/// back meet its writer, and counts what is wrong. Refused by [`Refusal::OutOfMemory`] alone,
/// before the first thread starts.
fn serve_from<K: NamesTable + Send + Sync, R: Threads + Wait + Sync, G: Gate + Sync>(
    context: &ThreadContext<'_, R, G>,
    c: &Catalog<'_>,
    opened: (Ledger, Vec<Reader<HalfOpen>>),
    beside: Vec<Reader<HalfOpen>>,
    changes: Vec<Vec<Change>>,
    keys: Vec<Vec<u64>>,
) -> Result<Served, Refusal>
    requires named { (K.table ≡ Some opened.0.place) × (K.opened ≡ Some opened.0) }
    requires fresh { IsServedLedger c.now opened.0.log opened.0 }
    requires beside { All (λ r. r.place ≡ opened.0.place) beside.items }
    requires seats { All (IsNewReaderOf (Some opened.0.place)) opened.1.items }
    requires same { vec_len opened.1 ≡ vec_len keys }
    requires few { vec_len keys ≤ most_readers }
    ensures outcomes { IfOk result (λ s. EachHasOutcome c.now changes.items s.changes.items) }
    ensures follow { IfOk result (λ s.
        FollowServed c.now s.log.items changes.items s.changes.items) }
    ensures answers { IfOk result (λ s.
        EachIsAnswered keys.items s.answers.items s.ended.items) }
    ensures found { IfOk result (λ s. EachIsFoundIn s.log.items s.answers.items) }
    ensures looked { IfOk result (λ s.
        EachHasLooked s.log.items s.answers.items s.readers.items) }
    ensures wrong { IfOk result (λ s.
        IsWrongCount c.now changes.items s.changes.items s.answers.items s.log.items s.wrong) }
    ensures refusal { IfErr result (λ e. e ≡ OutOfMemory) }
{
    let (ledger, seats) = opened;
    let alloc = context.alloc;
    let outcomes = Vec::with_capacity(alloc, changes.len())?;
    let answers = Vec::with_capacity(alloc, keys.len())?;
    let ended = Vec::with_capacity(alloc, keys.len())?;
    let readers = Vec::with_capacity(alloc, keys.len())?;
    let mut times = times_for(alloc, &changes)?;
    let shared = SharedWriter::<K>::new(ledger);
    let changer = CatalogWriter {
        shared: &shared,
        catalog: c,
    };
    let returned = run_threads(context, &changer, &changes, &keys, beside, seats)?;
    let ThreadResults { made, heard } = returned;
    let ledger = shared.into_ledger();
    let (ledger, outcomes) = settle_all(ledger, c, &changes, made, outcomes);
    let (ledger, answers, ended, readers) = meet_all(ledger, &keys, heard, answers, ended, readers);
    let wrong = wrong_count(alloc, &ledger, c, &changes, &outcomes, &answers, &mut times);
    Ok(Served {
        changes: outcomes,
        answers,
        ended,
        readers,
        log: ledger.into_log(),
        wrong,
    })
}

/// A reader of the table for each list of changes, to be beside it while there can be one.
#[tactic(auto, using(crate::proofs::FollowingLemmas::with_readers))]
fn readers_beside(
    alloc: Global,
    ledger: &mut Ledger,
    lists: usize,
) -> Result<Vec<Reader<HalfOpen>>, AllocError>
    ensures same { ledger.new ≡ record ledger.old { readers = ledger.new.readers } }
    ensures beside { IfOk result (λ all. All (λ r. r.place ≡ ledger.old.place) all.items) }
{
    let mut readers = Vec::with_capacity(alloc, lists)?;
    for _ in 0..lists {
        let Ok(reader) = ledger.add_reader() else {
            break;
        };
        if readers.push(reader).is_err() {
            break;
        }
    }
    Ok(readers)
}

/// The layout of a table for all regions of a catalog, with 64-bit sequences. Refused by
/// [`Refusal::BadCapacity`] if they are more than a table can have.
fn table_layout(c: &Catalog<'_>) -> Result<Layout, Refusal>
    ensures may { IfOk result (λ _. length (regions_of c.now) ≤ most_nodes) }
    ensures room { IfOk result (λ l. length (regions_of c.now) ≤ capacity_of l) }
    ensures limit { IfOk result (λ l. limit_of l ≡ greatest_wide_sequence) }
    ensures refused { IfErr result (λ e. (e ≡ Refusal.BadCapacity)
        × (length (regions_of c.now) ≤ most_nodes → ⊥)) }
{
    match u32::try_from(c.regions()) {
        Ok(regions) => Layout::wide(regions.max(1)),
        Err(_) => Err(Refusal::BadCapacity),
    }
}

/// Runs a thread for each list that is not empty, all at once, over a table that is empty at first,
/// waits for them, and counts what is wrong.
///
/// Each change is one [`SharedWriter::change`], each key one
/// [`Reader::look`](latch_table::Reader::look), and if this gives no answer a
/// [`Reader::find`](latch_table::Reader::find). Writers, readers and places are numbered from 0.
/// The gate is called at each step of each update, and at each place before and after its lookup.
/// If no thread can be made for a list, its changes are refused by [`Refusal::OutOfMemory`], or
/// it ends at its first key; so does a list of keys end without memory for an answer.
///
/// Each answer is what its key lies in after as many updates of the log as its generation says, and
/// the generations of a list never fall. For each answer the list's reader looked: it loaded the
/// sequence at the start and at the end of each attempt, or once if it remembered the item.
///
/// The changes of a list follow the log: each is accepted as a later update of it than those
/// before, or refused as a beginning of the log refuses it that is no shorter than theirs. For that
/// a reader of its own is beside each list, and meets the writer before and after each change.
///
/// Counted as wrong are each answer whose generation is above the log's length or that is not what
/// the key lies in after as many updates of the log: there is none; each accepted change
/// whose generation's entry of the log is none that the catalog gives for it; and each entry that
/// is not the one of exactly one accepted change.
///
/// Refused by [`Refusal::BadCapacity`] if the catalog has more than 65536 regions or there are
/// not 1 to 64 lists of keys, and else by [`Refusal::OutOfMemory`]; in either case no thread has
/// started.
#[tactic(auto, using(crate::proofs::ReaderLemmas::readers_opened))]
pub fn serve<R: Threads + Wait + Sync, G: Gate + Sync>(
    rt: &R,
    alloc: Global,
    g: &G,
    c: &Catalog<'_>,
    changes: Vec<Vec<Change>>,
    keys: Vec<Vec<u64>>,
) -> Result<Served, Refusal>
    ensures may { IfOk result (λ s. MayServe c.now keys.items) }
    ensures outcomes { IfOk result (λ s. EachHasOutcome c.now changes.items s.changes.items) }
    ensures follow { IfOk result (λ s.
        FollowServed c.now s.log.items changes.items s.changes.items) }
    ensures answers { IfOk result (λ s.
        EachIsAnswered keys.items s.answers.items s.ended.items) }
    ensures found { IfOk result (λ s. EachIsFoundIn s.log.items s.answers.items) }
    ensures looked { IfOk result (λ s.
        EachHasLooked s.log.items s.answers.items s.readers.items) }
    ensures wrong { IfOk result (λ s.
        IsWrongCount c.now changes.items s.changes.items s.answers.items s.log.items s.wrong) }
    ensures refusal { IfErr result (RefusesServing c.now keys.items) }
{
    let layout = table_layout(c)?;
    if keys.is_empty() || keys.len() > MOST_READERS as usize {
        return Err(Refusal::BadCapacity);
    }
    let (mut ledger, readers) = Ledger::open(alloc, layout, 0, keys.len() as u32)?;
    let beside = readers_beside(alloc, &mut ledger, changes.len())?;
    let opened = (ledger, readers);
    let context = ThreadContext { rt, alloc, gate: g };
    serve_from::<Brand, R, G>(&context, c, opened, beside, changes, keys)
}
