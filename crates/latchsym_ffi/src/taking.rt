//! A reader that its table takes back: there is a place for another.

ghost use Rattle.std.specs.Prelude.{◌≡◌, ◌≢◌};
ghost use Rattle.latch_table.specs.Writers.{WriterState};
ghost use Rattle.latchsym_ffi.specs.Handles.{HoldsWriter, RefusesOther, Stays, WriterGoes};
ghost use Rattle.latchsym_ffi.specs.Kinds.{writer_kind};
ghost use Rattle.latchsym_ffi.specs.Taking.{RefusesBack, TakesBack};

use crate::answers::{BAD_HANDLE, DONE};
use crate::calls::with_writer;
use crate::contents::{Content, READER};
use crate::handles::Handle;
use latch_table::Writer;
use order_laws::{HalfOpen, Refusal};

/// Closes a handle with a reader. The writer then counts one reader fewer.
fn take_back(writer: &mut Writer<HalfOpen>, reader: &mut Handle) -> u32
    ensures taken { result ≡ 0 → TakesBack reader.old reader.new writer.old writer.new }
    ensures unchanged { result ≢ 0 → (writer.new ≡ writer.old) × (reader.new ≡ reader.old) }
    ensures why { result ≢ 0 → RefusesBack writer.old reader.old result }
{
    if reader.kind != READER {
        return BAD_HANDLE;
    }
    if writer.readers() == 0 {
        return Refusal::BadCapacity.number();
    }
    match Box::into_inner(reader.take()) {
        Content::Reader(inner) => writer.take_back(inner),
        Content::Catalog(_catalog) => (),
        Content::Writer(_writer) => (),
        Content::Follower(_follower) => (),
    }
    DONE
}

/// Closes a reader, and frees its place in the writer's table for another.
#[unsafe(no_mangle)]
pub extern "C" fn latchsym_writer_take_reader(writer: &mut Handle, reader: &mut Handle) -> u32
    ensures taken { result ≡ 0
        → WriterGoes (TakesBack reader.old reader.new) writer.old writer.new }
    ensures unchanged { result ≢ 0 → Stays writer.old writer.new × (reader.new ≡ reader.old) }
    ensures why { (w : WriterState) → HoldsWriter w writer.old → result ≢ 0
        → RefusesBack w reader.old result }
    ensures other { RefusesOther writer_kind writer.old writer.new reader.old reader.new result }
{
    with_writer!(writer, |inner| take_back(inner, reader))
}
