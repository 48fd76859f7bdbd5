//! The threads of all lists.

ghost use Rattle.std.specs.Prelude.{◌≡◌, ◌≤◌, [], length, All, Some, IfOk, vec_capacity, vec_len};
ghost use Rattle.latch_table.specs.Limits.{most_readers};
ghost use Rattle.shared_lookup.specs.Readers.{IsNewReaderOf};
ghost use Rattle.shared_lookup.specs.Threads.{AreAllMade, AreChanging, AreHeard, AreReading};
ghost use Rattle.shared_lookup.specs.Threads.{HaveRoom};

use crate::changes::Change;
use crate::gates::Gate;
use crate::shared::Changer;
use crate::threads::{
    ChangeResults, Changing, LookupResults, ReaderThread, ThreadContext, WriterThread, join_reader,
    join_writer, list_with_room, start_reader, start_writer,
};
use latch_table::Reader;
use order_laws::HalfOpen;
use std::alloc::{AllocError, Global};
use std::sync::Wait;
use std::thread::{Scope, Threads};

/// The lists of changes, with room for the outcomes of each.
pub(crate) fn with_room<'s>(
    alloc: Global,
    changes: &'s [Vec<Change>],
) -> Result<Vec<Changing<'s>>, AllocError>
    ensures { IfOk result (λ lists. HaveRoom changes.now lists.items) }
{
    let mut lists = Vec::with_capacity(alloc, changes.len())?;
    for list in changes {
        let writer = lists.len();
        lists.push(list_with_room(alloc, writer, list.as_slice())?)?;
    }
    Ok(lists)
}

/// Starts the threads of lists of changes, each beside one of these readers while there are any,
/// and adds them to a list.
pub(crate) fn start_writers<'s, E, R: Threads + Wait + Sync, G: Gate + Sync, W: Changer + Sync>(
    scope: &Scope<'s, E>,
    context: &ThreadContext<'s, R, G>,
    changer: &'s W,
    changes: &[Vec<Change>],
    lists: Vec<Changing<'s>>,
    mut seats: Vec<Reader<HalfOpen>>,
    mut writers: Vec<WriterThread<'s, W>>,
) -> Vec<WriterThread<'s, W>>
    requires blank { writers.items ≡ [] }
    requires long { length changes.now ≤ vec_capacity writers }
    requires room { HaveRoom changes.now lists.items }
    requires seats { All (λ r. W.table changer.now ≡ Some r.place) seats.items }
    ensures { AreChanging changer.now changes.now result.items }
{
    for list in lists {
        let seat = seats.pop();
        writers.push_reserved(start_writer(scope, context, changer, list, seat));
    }
    writers
}

/// Starts the threads of lists of keys, one for each reader, and adds them to a list.
pub(crate) fn start_readers<'s, E, R: Threads + Wait + Sync, G: Gate + Sync, W: Changer + Sync>(
    scope: &Scope<'s, E>,
    context: &ThreadContext<'s, R, G>,
    changer: &'s W,
    mut seats: Vec<Reader<HalfOpen>>,
    keys: &'s [Vec<u64>],
    mut readers: Vec<ReaderThread<'s, W>>,
) -> Vec<ReaderThread<'s, W>>
    requires blank { readers.items ≡ [] }
    requires long { length keys.now ≤ vec_capacity readers }
    requires seats { All (IsNewReaderOf (W.table changer.now)) seats.items }
    requires same { vec_len seats ≡ length keys.now }
    requires few { length keys.now ≤ most_readers }
    ensures { AreReading changer.now keys.now result.items }
{
    for list in keys {
        let Some(seat) = seats.pop() else {
            unreachable!()
        };
        let reader = readers.len() as u32;
        let thread = start_reader(scope, context, changer, reader, seat, list.as_slice());
        readers.push_reserved(thread);
    }
    readers
}

/// Waits for the threads of lists of changes, and adds what they came back with to a list.
pub(crate) fn join_writers<R: Threads, W: Changer>(
    rt: &R,
    changer: &W,
    changes: &[Vec<Change>],
    writers: Vec<WriterThread<'_, W>>,
    mut made: Vec<ChangeResults>,
) -> Vec<ChangeResults>
    requires blank { made.items ≡ [] }
    requires long { length changes.now ≤ vec_capacity made }
    requires changing { AreChanging changer.now changes.now writers.items }
    ensures { AreAllMade (W.table changer.now) (W.opened changer.now) (W.catalog changer.now)
        changes.now result.items }
{
    for writer in writers {
        made.push_reserved(join_writer(rt, writer));
    }
    made
}

/// Waits for the threads of lists of keys, and adds what they came back with to a list.
pub(crate) fn join_readers<R: Threads, W: Changer>(
    rt: &R,
    alloc: Global,
    changer: &W,
    keys: &[Vec<u64>],
    readers: Vec<ReaderThread<'_, W>>,
    mut heard: Vec<LookupResults>,
) -> Vec<LookupResults>
    requires blank { heard.items ≡ [] }
    requires long { length keys.now ≤ vec_capacity heard }
    requires reading { AreReading changer.now keys.now readers.items }
    ensures { AreHeard (W.table changer.now) keys.now result.items }
{
    for reader in readers {
        heard.push_reserved(join_reader(rt, alloc, reader));
    }
    heard
}
