//! What C calls, of lookups in a table.

ghost use Rattle.std.specs.Prelude.{◌≡◌, ◌≢◌, ◌≤◌, ◌<◌, ◌⊎◌, IfSome, Option};
ghost use Rattle.order_laws.specs.declared.items.Item.{Item};
ghost use Rattle.order_laws.specs.Orders.{half_open};
ghost use Rattle.latch_table.specs.declared.readers.Try.{Try};
ghost use Rattle.latch_table.specs.Writers.{Finds};
ghost use Rattle.latchsym_ffi.specs.HeldCatalogs.{HeldCatalog};
ghost use Rattle.latchsym_ffi.specs.Handles.{HoldsCatalog, ReaderGoes, RefusesOther, Stays};
ghost use Rattle.latchsym_ffi.specs.Handles.{WriterGoes};
ghost use Rattle.latchsym_ffi.specs.Kinds.{catalog_kind, reader_kind, writer_kind};
ghost use Rattle.latchsym_ffi.specs.Finding.{answer_of as told_of, copied, known_code, known_in};
ghost use Rattle.latchsym_ffi.specs.Finding.{owner_named, symbol_named};
ghost use Rattle.latchsym_ffi.specs.Lookups.{Copies, LooksUp, Names, Shows, answer_from};
ghost use Rattle.latchsym_ffi.specs.Lookups.{found_code, name_code, try_code};

use crate::answers::{BAD_HANDLE, DONE, NOTHING, RETRY};
use crate::calls::{with_catalog, with_writer};
use crate::contents::{CATALOG, Content, READER};
use crate::finding::{CatalogAnswer, copy_names, seen_in};
use crate::handles::Handle;
use latch_table::{Try, Writer};
use order_laws::{HalfOpen, Item};

/// What a lookup found, and the generation that this is of.
#[repr(C)]
#[derive(Clone, Copy, Drop)]
pub struct TableAnswer {
    pub a: u64,
    pub b: u64,
    pub tag: u64,
    pub generation: u64,
}

/// An answer as C has it.
fn answer_of(item: Option<Item>, generation: u64) -> TableAnswer
    ensures { result ≡ answer_from item generation }
{
    match item {
        Some(item) => TableAnswer {
            a: item.a,
            b: item.b,
            tag: item.tag,
            generation,
        },
        None => TableAnswer {
            a: 0,
            b: 0,
            tag: 0,
            generation,
        },
    }
}

/// Whether something was found, as a number.
fn code_of(item: Option<Item>) -> u32
    ensures { result ≡ found_code item }
{
    match item {
        Some(_) => DONE,
        None => NOTHING,
    }
}

/// The lookup of a writer, written with its number.
fn find(writer: &mut Writer<HalfOpen>, addr: u64, out: &mut TableAnswer) -> u32
    ensures { (x : Option Item) × Finds half_open writer.old addr writer.new (x, out.new.generation)
        × (result ≡ found_code x) × (out.new ≡ answer_from x out.new.generation) }
{
    let (item, generation) = writer.find(addr);
    *out = answer_of(item, generation);
    code_of(item)
}

/// The writer's own lookup, even with a pending update: what readers find now.
#[unsafe(no_mangle)]
pub extern "C" fn latchsym_writer_find(writer: &mut Handle, addr: u64, out: &mut TableAnswer) -> u32
    ensures found { WriterGoes (λ w w'. (x : Option Item)
        × Finds half_open w addr w' (x, out.new.generation) × (result ≡ found_code x)
        × (out.new ≡ answer_from x out.new.generation)) writer.old writer.new }
    ensures other { RefusesOther writer_kind writer.old writer.new out.old out.new result }
{
    with_writer!(writer, |inner| find(inner, addr, out))
}

/// What the reader that a handle holds remembers of an address, or else one attempt with it.
///
/// It is compiled into its callers, so that no answer is handed on through memory.
#[inline(always)]
fn try_find(reader: &mut Handle, addr: u64) -> Try
    requires { reader.old.kind ≡ reader_kind }
    ensures { ReaderGoes (λ r r'. LooksUp addr r r' result) reader.old reader.new }
{
    let mut content = reader.take();
    let tried = match &mut *content {
        Content::Reader(inner) => inner.look(addr),
        _ => Try::Retry,
    };
    reader.put(content);
    tried
}

/// The item that an address lies in, by memory or by one attempt.
#[unsafe(no_mangle)]
pub extern "C" fn latchsym_reader_try_find(
    reader: &mut Handle,
    addr: u64,
    out: &mut TableAnswer,
) -> u32
    ensures tried { ReaderGoes (λ r r'. (t : Try) × LooksUp addr r r' t
        × (result ≡ try_code t) × Shows t out.old out.new) reader.old reader.new }
    ensures other { RefusesOther reader_kind reader.old reader.new out.old out.new result }
{
    if reader.kind != READER {
        return BAD_HANDLE;
    }
    match try_find(reader, addr) {
        Try::Retry => RETRY,
        Try::Answered(item, generation) => {
            *out = answer_of(item, generation);
            code_of(item)
        }
    }
}

/// The symbol in an item, by the catalog that a handle holds.
fn name_in(
    catalog: &mut Handle,
    item: Option<Item>,
    addr: u64,
    out: &mut CatalogAnswer,
    name: &mut [u8],
    owner: &mut [u8],
) -> u32
    requires kind { catalog.old.kind ≡ catalog_kind }
    requires there { IfSome item (λ i. (i.a ≤ addr) × (addr < i.b)) }
    ensures stays { Stays catalog.old catalog.new }
    ensures told { (c : HeldCatalog) → HoldsCatalog c catalog.old
        → (result ≡ known_code (known_in c.entries addr item))
        × (out.new ≡ told_of c.entries (known_in c.entries addr item))
        × (name.new ≡ copied (symbol_named (known_in c.entries addr item)) name.old)
        × (owner.new ≡ copied (owner_named c.entries (known_in c.entries addr item)) owner.old) }
{
    with_catalog!(catalog, |open| {
        let seen = seen_in(open.catalog(), item, addr);
        copy_names(open.catalog(), seen, out, name, owner)
    })
}

/// The item that an address lies in, by memory or by one attempt, and the symbol of the catalog in
/// it.
#[unsafe(no_mangle)]
pub extern "C" fn latchsym_reader_find_name_nonnull(
    reader: &mut Handle,
    catalog: &mut Handle,
    addr: u64,
    item: &mut TableAnswer,
    out: &mut CatalogAnswer,
    name: &mut [u8],
    owner: &mut [u8],
) -> u32
    ensures stays { Stays catalog.old catalog.new }
    ensures found { (c : HeldCatalog) → HoldsCatalog c catalog.old
        → ReaderGoes (λ r r'. (t : Try) × LooksUp addr r r' t
        × (result ≡ name_code c.entries addr t) × Shows t item.old item.new
        × Names c.entries addr t out.old out.new
        × Copies c.entries addr t name.old name.new owner.old owner.new) reader.old reader.new }
    ensures other { (reader.old.kind ≢ reader_kind) ⊎ (catalog.old.kind ≢ catalog_kind)
        → (result ≡ 101) × (reader.new ≡ reader.old) × (catalog.new ≡ catalog.old)
        × (item.new ≡ item.old) × (out.new ≡ out.old) × (name.new ≡ name.old)
        × (owner.new ≡ owner.old) }
{
    if reader.kind != READER || catalog.kind != CATALOG {
        return BAD_HANDLE;
    }
    let Try::Answered(found, generation) = try_find(reader, addr) else {
        return RETRY;
    };
    *item = answer_of(found, generation);
    name_in(catalog, found, addr, out, name, owner)
}

/// Closes a reader.
#[unsafe(no_mangle)]
pub extern "C" fn latchsym_reader_close_nonnull(reader: &mut Handle)
    ensures { reader.new.kind ≡ 0 }
{
    reader.close();
}
