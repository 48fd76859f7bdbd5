//! The threads of lists of changes and of lists of keys.

ghost use Rattle.std.specs.Prelude.{◌≡◌, ℕ, List, ◌++◌, length, All, Some, Err, IfOk, IfSome};
ghost use Rattle.std.specs.Option.{ForNone, ForSome};
ghost use Rattle.order_laws.specs.declared.refusals.Refusal.TheVariants.{OutOfMemory};
ghost use Rattle.order_laws.specs.Orders.{half_open};
ghost use Rattle.latch_table.specs.declared.readers.Try.TheVariants.{Answered};
ghost use Rattle.latch_table.specs.Memory.{memory_after};
ghost use Rattle.latch_table.specs.Readers.{Answers, KnowsMore};
ghost use Rattle.shared_lookup.specs.Readers.{IsHeard, IsLookedUp, IsNewReaderOf};
ghost use Rattle.shared_lookup.specs.Followings.{AreMade};

use crate::changes::Change;
use crate::gates::{Gate, Point};
use crate::served::Answer;
use crate::shared::Changer;
use core::thread::Stack;
use latch_table::{Reader, Try};
use order_laws::{HalfOpen, Item, Refusal};
use std::alloc::{AllocError, Global};
use std::sync::Wait;
use std::thread::{Promise, PromisedHandle, Scope, Threads};

/// What all threads share beside the table.
#[derive(Drop)]
pub(crate) struct ThreadContext<'s, R, G> {
    pub(crate) rt: &'s R,
    pub(crate) alloc: Global,
    pub(crate) gate: &'s G,
}

/// How many bytes of stack each thread has.
const STACK_SIZE: usize = 1 << 20;

/// What becomes of each change of a list, by its place.
pub(crate) type Outcomes = Vec<Result<u64, Refusal>>;

/// A list of changes, with room for their outcomes.
#[derive(Drop)]
pub(crate) struct Changing<'s> {
    writer: u32,
    pub(crate) changes: &'s [Change],
    outcomes: Outcomes,
    ghost room: { length outcomes.items ≡ length changes.now },
}

/// The thread of a list of changes, or the room for their outcomes if there is none: the list is
/// empty or no thread could be made.
#[derive(Drop)]
pub(crate) struct WriterThread<'s, W: Changer> {
    pub(crate) changer: &'s W,
    pub(crate) changes: &'s [Change],
    thread: Option<PromisedHandle<ChangeResults, OutcomesOf<'s, W>>>,
    outcomes: Outcomes,
    ghost same: { ForSome thread (λ h.
        (h.promise.changer.now ≡ changer.now) × (h.promise.changes.now ≡ changes.now)) },
    ghost room: { ForNone thread (length outcomes.items ≡ length changes.now) },
}

/// What a writer's thread comes back with.
#[derive(Drop)]
pub(crate) struct ChangeResults {
    pub(crate) outcomes: Outcomes,
    /// The reader beside which the changes were made, if there was a thread.
    pub(crate) seat: Option<Reader<HalfOpen>>,
}

/// What a writer's thread returns: what became of the changes of its list, and the reader beside
/// which they were made.
#[derive(Drop)]
pub(crate) struct OutcomesOf<'a, W: Changer> {
    changer: &'a W,
    changes: &'a [Change],
}

impl<'s, W: Changer> WriterThread<'s, W> {
    /// No thread.
    fn without(changer: &'s W, changes: &'s [Change], outcomes: Outcomes) -> WriterThread<'s, W>
        requires { length outcomes.items ≡ length changes.now }
        ensures { (result.changer.now ≡ changer.now) × (result.changes.now ≡ changes.now) }
    {
        WriterThread {
            changer,
            changes,
            thread: None,
            outcomes,
        }
    }
}

impl<'a, W: Changer> Promise<ChangeResults> for OutcomesOf<'a, W> {
    ghost kept_by = { λ p r. AreMade (W.table p.changer.now) (W.opened p.changer.now)
        (W.catalog p.changer.now) p.changes.now r.outcomes.items r.seat };
}

/// The thread of a list of keys; none if the list is empty or no thread could be made.
#[derive(Drop)]
pub(crate) struct ReaderThread<'s, W: Changer> {
    pub(crate) changer: &'s W,
    pub(crate) reader: u32,
    keys: &'s [u64],
    thread: Option<PromisedHandle<LookupResults, AnswersTo<'s, W>>>,
    ghost same: { ForSome thread (λ h. (h.promise.changer.now ≡ changer.now)
        × (h.promise.reader ≡ reader) × (h.promise.keys.now ≡ keys.now)) },
}

/// What a reader's thread comes back with.
#[derive(Drop)]
pub(crate) struct LookupResults {
    pub(crate) answers: Vec<Answer>,
    /// Whether the list ended early, because memory ran out.
    pub(crate) ended: bool,
    /// The reader itself, if there was a thread.
    pub(crate) seat: Option<Reader<HalfOpen>>,
}

/// What a reader's thread returns: answers to the keys of its list, by their places, and the reader
/// itself, which is of the changer's table.
#[derive(Drop)]
pub(crate) struct AnswersTo<'a, W: Changer> {
    changer: &'a W,
    reader: u32,
    keys: &'a [u64],
}

impl<'a, W: Changer> Promise<LookupResults> for AnswersTo<'a, W> {
    ghost kept_by = { λ p r. IsHeard (W.table p.changer.now) p.reader p.keys.now r.answers.items
        r.ended r.seat };
}

/// Room for an outcome of each change.
fn room_for(alloc: Global, changes: &[Change]) -> Result<Outcomes, AllocError>
    ensures { IfOk result (λ outcomes. length outcomes.items ≡ length changes.now) }
{
    vec![in alloc; Err(Refusal::OutOfMemory); changes.len()]
}

/// Each outcome: out of memory.
fn refused(mut outcomes: Outcomes) -> Outcomes
    ensures same { length result.items ≡ length outcomes.items }
    ensures refused { All (λ r. r ≡ Err OutOfMemory) result.items }
{
    outcomes.fill(Err(Refusal::OutOfMemory));
    outcomes
}

/// Makes the changes of one list beside a reader of the table, and puts each outcome into its
/// place.
fn make_changes<R: Wait, G: Gate, W: Changer>(
    rt: &R,
    g: &G,
    changer: &W,
    writer: u32,
    changes: &[Change],
    outcomes: Outcomes,
    seat: Reader<HalfOpen>,
) -> ChangeResults
    requires room { length outcomes.items ≡ length changes.now }
    requires seat { W.table changer.now ≡ Some seat.place }
    ensures { AreMade (W.table changer.now) (W.opened changer.now) (W.catalog changer.now)
        changes.now result.outcomes.items result.seat }
{
    let mut outcomes = outcomes;
    let mut seat = seat;
    for place in 0..changes.len() {
        let (outcome, back) = changer.change(rt, g, writer, seat, changes[place]);
        outcomes[place] = outcome;
        seat = back;
    }
    g.tell(Point::WriterDone { writer });
    ChangeResults {
        outcomes,
        seat: Some(seat),
    }
}

/// What a key lies in, by memory or by attempts, and the generation that this is of.
fn look_until<R: Wait>(rt: &R, seat: &mut Reader<HalfOpen>, key: u64) -> (Option<Item>, u64)
    ensures place { seat.new.place ≡ seat.old.place }
    ensures more { KnowsMore seat.old.knowledge seat.new.knowledge }
    ensures answers { Answers half_open key seat.new.knowledge result.0 result.1 }
    ensures looked { (loads : List ℕ)
        × (seat.new.knowledge.seen ≡ seat.old.knowledge.seen ++ loads)
        × IsLookedUp seat.old.memory result.0 result.1 loads }
    ensures memory { seat.new.memory
        ≡ memory_after seat.old.memory (Answered result.0 result.1) }
{
    match seat.look(key) {
        Try::Answered(item, generation) => (item, generation),
        Try::Retry => seat.find(rt, key),
    }
}

/// Looks the keys of one list up, by a reader of the changer's table.
#[tactic(auto, using(crate::proofs::FoundLemmas::none_found))]
fn look_up<R: Wait, G: Gate, W: Changer>(
    rt: &R,
    alloc: Global,
    g: &G,
    _changer: &W,
    reader: u32,
    mut seat: Reader<HalfOpen>,
    keys: &[u64],
) -> LookupResults
    requires { IsNewReaderOf (W.table _changer.now) seat }
    ensures { IsHeard (W.table _changer.now) reader keys.now result.answers.items result.ended
        result.seat }
{
    let mut answers = Vec::new(alloc);
    for (index, key) in keys.iter().enumerate() {
        if answers.reserve(1).is_err() {
            return LookupResults {
                answers,
                ended: true,
                seat: Some(seat),
            };
        }
        let place = index as u64;
        g.tell(Point::ReaderStart { reader, place });
        let (item, generation) = look_until(rt, &mut seat, *key);
        g.tell(Point::ReaderDone { reader, place });
        answers.push_reserved(Answer {
            reader,
            place,
            key: *key,
            generation,
            item,
        });
    }
    LookupResults {
        answers,
        ended: false,
        seat: Some(seat),
    }
}

/// Starts the thread of one list of changes, unless it is empty or has no reader beside it. The
/// room for the outcomes goes with the thread, even if none can be made; so there is to be room
/// once more before.
pub(crate) fn start_writer<'s, E, R: Threads + Wait + Sync, G: Gate + Sync, W: Changer + Sync>(
    scope: &Scope<'s, E>,
    context: &ThreadContext<'s, R, G>,
    changer: &'s W,
    list: Changing<'s>,
    seat: Option<Reader<HalfOpen>>,
) -> WriterThread<'s, W>
    requires beside { IfSome seat (λ r. W.table changer.now ≡ Some r.place) }
    ensures { (result.changer.now ≡ changer.now)
        × (result.changes.now ≡ list.entry.changes.now) }
{
    let Changing {
        writer,
        changes,
        outcomes,
    } = list;
    let Some(seat) = seat else {
        return WriterThread::without(changer, changes, outcomes);
    };
    let spare = match room_for(context.alloc, changes) {
        Ok(spare) if !changes.is_empty() => spare,
        _ => return WriterThread::without(changer, changes, outcomes),
    };
    let rt = context.rt;
    let g = context.gate;
    let started = Stack::new().stack_size(STACK_SIZE).spawn_scoped_with(
        scope,
        OutcomesOf { changer, changes },
        move || -> ChangeResults
            requires room { length outcomes.items ≡ length changes.now }
            requires seat { W.table changer.now ≡ Some seat.place }
            ensures { AreMade (W.table changer.entry.now) (W.opened changer.entry.now)
                (W.catalog changer.entry.now) changes.entry.now result.outcomes.items
                result.seat }
        { make_changes(rt, g, changer, writer, changes, outcomes, seat) },
    );
    match started {
        Ok(thread) => WriterThread {
            changer,
            changes,
            thread: Some(thread),
            outcomes: Vec::new(context.alloc),
        },
        Err(_) => WriterThread::without(changer, changes, spare),
    }
}

/// Starts the thread of one list of keys, unless it is empty.
pub(crate) fn start_reader<'s, E, R: Threads + Wait + Sync, G: Gate + Sync, W: Changer + Sync>(
    scope: &Scope<'s, E>,
    context: &ThreadContext<'s, R, G>,
    changer: &'s W,
    reader: u32,
    seat: Reader<HalfOpen>,
    keys: &'s [u64],
) -> ReaderThread<'s, W>
    requires reads { IsNewReaderOf (W.table changer.now) seat }
    ensures { (result.changer.now ≡ changer.now) × (result.reader ≡ reader)
        × (result.keys.now ≡ keys.now) }
{
    let mut thread = None;
    if !keys.is_empty() {
        let rt = context.rt;
        let alloc = context.alloc;
        let g = context.gate;
        let started = Stack::new().stack_size(STACK_SIZE).spawn_scoped_with(
            scope,
            AnswersTo {
                changer,
                reader,
                keys,
            },
            move || -> LookupResults
                requires { IsNewReaderOf (W.table changer.now) seat }
                ensures { IsHeard (W.table changer.entry.now) reader keys.entry.now
                    result.answers.items result.ended result.seat }
            { look_up(rt, alloc, g, changer, reader, seat, keys) },
        );
        thread = started.ok();
    }
    ReaderThread {
        changer,
        reader,
        keys,
        thread,
    }
}

/// Waits for the thread of one list of changes. If there was none, each change is refused.
pub(crate) fn join_writer<R: Threads, W: Changer>(
    rt: &R,
    writer: WriterThread<'_, W>,
) -> ChangeResults
    ensures { AreMade (W.table writer.entry.changer.now) (W.opened writer.entry.changer.now)
        (W.catalog writer.entry.changer.now) writer.entry.changes.now result.outcomes.items
        result.seat }
{
    let WriterThread {
        changer: _,
        changes: _,
        thread,
        outcomes,
    } = writer;
    match thread {
        Some(thread) => thread.join(rt),
        None => ChangeResults {
            outcomes: refused(outcomes),
            seat: None,
        },
    }
}

/// Waits for the thread of one list of keys. If there was none, no key has an answer, and the
/// list has ended unless it is empty.
#[tactic(auto, using(crate::proofs::FoundLemmas::none_found))]
pub(crate) fn join_reader<R: Threads, W: Changer>(
    rt: &R,
    alloc: Global,
    reader: ReaderThread<'_, W>,
) -> LookupResults
    ensures { IsHeard (W.table reader.entry.changer.now) reader.entry.reader reader.entry.keys.now
        result.answers.items result.ended result.seat }
{
    let ReaderThread {
        changer: _,
        reader: _,
        keys,
        thread,
    } = reader;
    match thread {
        Some(thread) => thread.join(rt),
        None => LookupResults {
            answers: Vec::new(alloc),
            ended: !keys.is_empty(),
            seat: None,
        },
    }
}

/// A list of changes, with room for their outcomes.
pub(crate) fn list_with_room<'s>(
    alloc: Global,
    writer: usize,
    changes: &'s [Change],
) -> Result<Changing<'s>, AllocError>
    ensures { IfOk result (λ list. list.changes.now ≡ changes.now) }
{
    let outcomes = room_for(alloc, changes)?;
    Ok(Changing {
        writer: u32::try_from(writer).unwrap_or(u32::MAX),
        changes,
        outcomes,
    })
}
