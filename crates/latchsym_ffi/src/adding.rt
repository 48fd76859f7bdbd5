//! One more reader of a table: in a handle, or nothing of it.

ghost use Rattle.std.specs.Prelude.{◌≡◌, ◌≢◌, IfOk, IfErr, OnErr};
ghost use Rattle.order_laws.specs.declared.refusals.Refusal.{Refusal as Why};
ghost use Rattle.order_laws.specs.Refusals.{refusal_number};
ghost use Rattle.follower.specs.Following.{Followed};
ghost use Rattle.latch_table.specs.Adding.{RefusesReader};
ghost use Rattle.latch_table.specs.Writers.{WriterState};
ghost use Rattle.latchsym_ffi.specs.Adding.{AddsHandle};
ghost use Rattle.latchsym_ffi.specs.Handles.{FollowerGoes, HoldsFollower, HoldsReader, HoldsWriter};
ghost use Rattle.latchsym_ffi.specs.Handles.{Stays, WriterGoes};
ghost use Rattle.latchsym_ffi.specs.Kinds.{follower_kind, writer_kind};

use crate::answers::{BAD_HANDLE, DONE};
use crate::calls::{with_follower, with_writer};
use crate::contents::{CLOSED, Content};
use crate::handles::Handle;
use follower::Follower;
use latch_table::{Reader, Writer};
use order_laws::{HalfOpen, Refusal};
use std::alloc::Global;

/// Opens a handle with a reader. The reader comes back if there is no memory for its box.
fn put_reader(
    alloc: Global,
    reader: Reader<HalfOpen>,
    out: &mut Handle,
) -> Result<(), Reader<HalfOpen>>
    ensures held { IfOk result (λ _. HoldsReader reader out.new) }
    ensures back { IfErr result (λ r. r ≡ reader) }
    ensures unchanged { OnErr result (out.new ≡ out.old) }
{
    match Box::new(alloc, Content::Reader(reader)) {
        Ok(content) => {
            out.put(content);
            Ok(())
        }
        Err(failed) => match failed.value {
            Content::Reader(reader) => Err(reader),
            _ => unreachable!(),
        },
    }
}

/// Opens a handle with one more reader of the table of a writer or of a follower.
macro_rules! add_reader {
    ($alloc:ident, $owner:ident, $out:ident) => {
        match $owner.add_reader() {
            Ok(reader) => match put_reader($alloc, reader, $out) {
                Ok(()) => DONE,
                Err(reader) => {
                    $owner.take_back(reader);
                    Refusal::OutOfMemory.number()
                }
            },
            Err(refusal) => refusal.number(),
        }
    };
}

/// Opens a closed handle with one more reader of the writer's table.
fn add_in(alloc: Global, writer: &mut Writer<HalfOpen>, out: &mut Handle) -> u32
    ensures added { result ≡ 0 → AddsHandle out.new writer.old writer.new }
    ensures unchanged { result ≢ 0 → (writer.new ≡ writer.old) × (out.new ≡ out.old) }
    ensures why { result ≢ 0
        → (e : Why) × (result ≡ refusal_number e) × RefusesReader writer.old e }
{
    add_reader!(alloc, writer, out)
}

/// Opens a handle with one more reader of the writer's table, also amid an update.
#[unsafe(no_mangle)]
pub extern "C" fn latchsym_writer_add_reader(
    alloc: Global,
    writer: &mut Handle,
    out: &mut Handle,
) -> u32
    ensures added { result ≡ 0 → (writer.old.kind ≡ writer_kind) × (out.old.kind ≡ 0)
        × WriterGoes (AddsHandle out.new) writer.old writer.new }
    ensures unchanged { result ≢ 0 → Stays writer.old writer.new }
    ensures refused { result ≢ 0 → out.new ≡ out.old }
    ensures why { (w : WriterState) → HoldsWriter w writer.old → out.old.kind ≡ 0 → result ≢ 0
        → (e : Why) × (result ≡ refusal_number e) × RefusesReader w e }
    ensures not_so { out.old.kind ≢ 0 → (result ≡ 101) × (writer.new ≡ writer.old) }
    ensures other { writer.old.kind ≢ writer_kind → (result ≡ 101) × (writer.new ≡ writer.old) }
{
    if out.kind != CLOSED {
        return BAD_HANDLE;
    }
    with_writer!(writer, |inner| add_in(alloc, inner, out))
}

/// Opens a closed handle with one more reader of a follower's table.
fn add_following_in(alloc: Global, follower: &mut Follower<'static>, out: &mut Handle) -> u32
    ensures added { result ≡ 0 → AddsHandle out.new follower.old.writer follower.new.writer
        × (follower.new.catalogs ≡ follower.old.catalogs)
        × (follower.new.noted ≡ follower.old.noted) }
    ensures unchanged { result ≢ 0 → (follower.new ≡ follower.old) × (out.new ≡ out.old) }
    ensures why { result ≢ 0
        → (e : Why) × (result ≡ refusal_number e) × RefusesReader follower.old.writer e }
{
    add_reader!(alloc, follower, out)
}

/// Opens a handle with one more reader of a follower's table.
#[unsafe(no_mangle)]
pub extern "C" fn latchsym_follower_add_reader(
    alloc: Global,
    follower: &mut Handle,
    out: &mut Handle,
) -> u32
    ensures added { result ≡ 0 → (follower.old.kind ≡ follower_kind) × (out.old.kind ≡ 0)
        × FollowerGoes (λ f f'. AddsHandle out.new f.writer f'.writer
        × (f'.catalogs ≡ f.catalogs) × (f'.noted ≡ f.noted)) follower.old follower.new }
    ensures unchanged { result ≢ 0 → Stays follower.old follower.new × (out.new ≡ out.old) }
    ensures why { (f : Followed) → HoldsFollower f follower.old → out.old.kind ≡ 0 → result ≢ 0
        → (e : Why) × (result ≡ refusal_number e) × RefusesReader f.writer e }
    ensures not_so { out.old.kind ≢ 0 → (result ≡ 101) × (follower.new ≡ follower.old) }
    ensures other { follower.old.kind ≢ follower_kind
        → (result ≡ 101) × (follower.new ≡ follower.old) }
{
    if out.kind != CLOSED {
        return BAD_HANDLE;
    }
    with_follower!(follower, |open| add_following_in(alloc, open, out))
}
