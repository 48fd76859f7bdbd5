//! Enlarging a table of a writer or of a follower: with all its readers, or nothing of it.
//!
//! The readers' boxes are there already, so no request for memory is made after the table moved.

ghost use Rattle.std.specs.Prelude.{◌≡◌, ◌≢◌, ◌↔◌, All, IfOk, IfErr, OnErr, IsTrue, length};
ghost use Rattle.std.specs.Prelude.{vec_len};
ghost use Rattle.follower.specs.Following.{Followed};
ghost use Rattle.latch_table.specs.Readers.{ReaderState};
ghost use Rattle.latch_table.specs.Writers.{WriterState};
ghost use Rattle.latchsym_ffi.specs.Enlarging.{AreItsReaders, AreReaders, IsEnlarged, IsMoved};
ghost use Rattle.latchsym_ffi.specs.Enlarging.{RefusesMoving, RefusesNodes};
ghost use Rattle.latchsym_ffi.specs.Handles.{FollowerGoes, HoldsFollower, HoldsReader, HoldsWriter};
ghost use Rattle.latchsym_ffi.specs.Handles.{RefusesOther, Stays, WriterGoes};
ghost use Rattle.latchsym_ffi.specs.Kinds.{follower_kind, reader_kind, writer_kind};

use crate::answers::{BAD_HANDLE, DONE};
use crate::calls::{with_follower, with_writer};
use crate::contents::{Content, READER};
use crate::handles::Handle;
use follower::Follower;
use latch_table::{Reader, Writer};
use order_laws::{HalfOpen, Refusal};
use std::alloc::Global;
use word_layout::Layout;

/// Whether all of the handles hold a reader.
fn all_readers(handles: &[Handle]) -> bool
    ensures { IsTrue result ↔ All (λ h. h.kind ≡ reader_kind) handles.now }
{
    handles.iter().all(|handle| handle.kind == READER)
}

/// Whether the handles are as many as a table has readers, and each holds a reader.
fn are_readers(count: u32, handles: &[Handle]) -> bool
    ensures { IsTrue result ↔ AreReaders count handles.now }
{
    handles.len() == count as usize && all_readers(handles)
}

/// Puts a reader into the handle's box, in place of the one that it holds.
fn replace_reader(handle: &mut Handle, reader: Reader<HalfOpen>)
    requires { handle.old.kind ≡ reader_kind }
    ensures { HoldsReader reader handle.new }
{
    let mut content = handle.take();
    *content = Content::Reader(reader);
    handle.put(content);
}

/// Puts a reader of these in each handle, in place of the one that it holds.
fn replace_readers(handles: &mut [Handle], readers: Vec<Reader<HalfOpen>>)
    requires count { vec_len readers ≡ length handles.old }
    requires open { All (λ h. h.kind ≡ reader_kind) handles.old }
    ensures count { length handles.new ≡ length handles.old }
    ensures each { (r : ReaderState) → All (λ x. x ≡ r) readers.items
        → All (HoldsReader r) handles.new }
{
    let mut readers = readers;
    for place in 0..handles.len() {
        if let Some(reader) = readers.pop() {
            replace_reader(&mut handles[place], reader);
        }
    }
}

/// Lets the writer go on with `nodes` nodes.
fn move_writer(
    alloc: Global,
    nodes: u32,
    writer: &mut Writer<HalfOpen>,
) -> Result<Vec<Reader<HalfOpen>>, Refusal>
    ensures moved { IfOk result (λ all. IsMoved nodes writer.old writer.new all.items) }
    ensures refused { IfErr result (RefusesMoving nodes writer.old) }
    ensures unchanged { OnErr result (writer.new ≡ writer.old) }
{
    let layout = Layout::wide(nodes)?;
    writer.move_to(alloc, layout)
}

/// Lets the follower go on with `nodes` nodes.
fn move_follower(
    alloc: Global,
    nodes: u32,
    follower: &mut Follower<'static>,
) -> Result<Vec<Reader<HalfOpen>>, Refusal>
    ensures moved { IfOk result
        (λ all. IsMoved nodes follower.old.writer follower.new.writer all.items) }
    ensures refused { IfErr result (RefusesMoving nodes follower.old.writer) }
    ensures unchanged { OnErr result (follower.new ≡ follower.old) }
    ensures others { (follower.new.catalogs ≡ follower.old.catalogs)
        × (follower.new.noted ≡ follower.old.noted) }
{
    let layout = Layout::wide(nodes)?;
    follower.move_to(alloc, layout)
}

/// Lets what changes a table, and the readers of this, go on with more nodes.
macro_rules! enlarge {
    ($owner:ident, $readers:ident, $moved:expr) => {
        if are_readers($owner.readers(), $readers) {
            match $moved {
                Ok(all) => {
                    replace_readers($readers, all);
                    DONE
                }
                Err(refusal) => refusal.number(),
            }
        } else {
            BAD_HANDLE
        }
    };
}

/// Lets the writer and its readers go on with `nodes` nodes.
fn enlarge(alloc: Global, nodes: u32, writer: &mut Writer<HalfOpen>, readers: &mut [Handle]) -> u32
    ensures enlarged { result ≡ 0 → AreItsReaders writer.old readers.old
        × IsEnlarged nodes writer.old writer.new readers.new }
    ensures count { length readers.new ≡ length readers.old }
    ensures unchanged { result ≢ 0 → (writer.new ≡ writer.old) × (readers.new ≡ readers.old) }
    ensures why { result ≢ 0 → RefusesNodes nodes writer.old readers.old result }
{
    enlarge!(writer, readers, move_writer(alloc, nodes, writer))
}

/// Goes on with `nodes` nodes, no fewer than before, in other words. The handles, one for each
/// reader of the table, are then readers of these words.
#[unsafe(no_mangle)]
pub extern "C" fn latchsym_table_enlarge_nonnull(
    alloc: Global,
    nodes: u32,
    writer: &mut Handle,
    readers: &mut [Handle],
) -> u32
    ensures count { length readers.new ≡ length readers.old }
    ensures enlarged { result ≡ 0 → WriterGoes (λ w w'. AreItsReaders w readers.old
        × IsEnlarged nodes w w' readers.new) writer.old writer.new }
    ensures unchanged { result ≢ 0 → Stays writer.old writer.new × (readers.new ≡ readers.old) }
    ensures why { (w : WriterState) → HoldsWriter w writer.old → result ≢ 0
        → RefusesNodes nodes w readers.old result }
    ensures other { RefusesOther writer_kind writer.old writer.new readers.old readers.new result }
{
    with_writer!(writer, |inner| enlarge(alloc, nodes, inner, readers))
}

/// Lets the follower and its readers go on with `nodes` nodes.
fn enlarge_following(
    alloc: Global,
    nodes: u32,
    follower: &mut Follower<'static>,
    readers: &mut [Handle],
) -> u32
    ensures enlarged { result ≡ 0 → AreItsReaders follower.old.writer readers.old
        × IsEnlarged nodes follower.old.writer follower.new.writer readers.new
        × (follower.new.catalogs ≡ follower.old.catalogs)
        × (follower.new.noted ≡ follower.old.noted) }
    ensures count { length readers.new ≡ length readers.old }
    ensures unchanged { result ≢ 0 → (follower.new ≡ follower.old) × (readers.new ≡ readers.old) }
    ensures why { result ≢ 0 → RefusesNodes nodes follower.old.writer readers.old result }
{
    enlarge!(follower, readers, move_follower(alloc, nodes, follower))
}

/// Goes on with `nodes` nodes of the follower's table, no fewer than before, in other words. The
/// handles, one for each reader of the table, are then readers of these words, and the follower has
/// the catalogs that it had, each at its generation and stamp.
#[unsafe(no_mangle)]
pub extern "C" fn latchsym_follower_enlarge_nonnull(
    alloc: Global,
    nodes: u32,
    follower: &mut Handle,
    readers: &mut [Handle],
) -> u32
    ensures count { length readers.new ≡ length readers.old }
    ensures enlarged { result ≡ 0 → FollowerGoes (λ f f'. AreItsReaders f.writer readers.old
        × IsEnlarged nodes f.writer f'.writer readers.new
        × (f'.catalogs ≡ f.catalogs) × (f'.noted ≡ f.noted)) follower.old follower.new }
    ensures unchanged { result ≢ 0
        → Stays follower.old follower.new × (readers.new ≡ readers.old) }
    ensures why { (f : Followed) → HoldsFollower f follower.old → result ≢ 0
        → RefusesNodes nodes f.writer readers.old result }
    ensures other { RefusesOther follower_kind follower.old follower.new readers.old readers.new
        result }
{
    with_follower!(
        follower,
        |open| enlarge_following(alloc, nodes, open, readers)
    )
}
