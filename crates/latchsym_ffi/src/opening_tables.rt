//! Opening a table: all of it, or nothing if memory is refused.

ghost use Rattle.std.specs.Prelude.{◌≡◌, ◌≢◌, ◌↔◌, ◌<◌, ℕ, All, IfOk, IfErr, IsTrue, length};
ghost use Rattle.std.specs.Prelude.{vec_len};
ghost use Rattle.order_laws.specs.declared.refusals.Refusal.TheVariants.{BadCapacity};
ghost use Rattle.order_laws.specs.Refusals.{refusal_number};
ghost use Rattle.latch_table.specs.Limits.{most_readers};
ghost use Rattle.latch_table.specs.Readers.{ReaderState};
ghost use Rattle.latch_table.specs.Writers.{MayOpenWith, RefusesOpening, WriterState};
ghost use Rattle.latchsym_ffi.specs.declared.contents.Content.{Content as Held};
ghost use Rattle.latchsym_ffi.specs.declared.contents.Content.TheVariants as content;
ghost use Rattle.latchsym_ffi.specs.Handles.{HoldsReader};
ghost use Rattle.latchsym_ffi.specs.Tables.{AreClosed, AreInRange, AreOpened, IsEmptyTable};
ghost use Rattle.latchsym_ffi.specs.Tables.{IsOpenedTable, OpensTable, RefusesTable};
ghost use Rattle.latchsym_ffi.specs.Tables.{first_content, first_follower};

use crate::answers::{BAD_HANDLE, DONE};
use crate::contents::{CLOSED, Content};
use crate::handles::Handle;
use follower::Follower;
use latch_table::{Reader, open};
use order_laws::{HalfOpen, Refusal};
use std::alloc::{AllocError, Global};
use word_layout::Layout;

/// What changes a table, a writer or a follower, and the readers, each in a box.
#[derive(Drop)]
pub struct Boxes {
    owner: Box<Content, Global>,
    readers: Vec<Box<Content, Global>>,
}

/// Each reader in a box.
fn boxed(
    alloc: Global,
    readers: Vec<Reader<HalfOpen>>,
) -> Result<Vec<Box<Content, Global>>, AllocError>
    ensures count { IfOk result (λ boxes. vec_len boxes ≡ vec_len readers) }
    ensures each { (r : ReaderState) → All (λ x. x ≡ r) readers.items
        → IfOk result (λ boxes. All (λ b. b.value ≡ content.Reader r) boxes.items) }
{
    let mut boxes = Vec::with_capacity(alloc, readers.len())?;
    for inner in readers {
        boxes.push(Box::new(alloc, Content::Reader(inner))?)?;
    }
    Ok(boxes)
}

/// What changes a table, and the readers, in boxes.
fn in_boxes(
    alloc: Global,
    owner: Content,
    readers: Vec<Reader<HalfOpen>>,
) -> Result<Boxes, AllocError>
    ensures owner { IfOk result (λ b. b.owner.value ≡ owner) }
    ensures count { IfOk result (λ b. vec_len b.readers ≡ vec_len readers) }
    ensures each { (r : ReaderState) → All (λ x. x ≡ r) readers.items
        → IfOk result (λ b. All (λ x. x.value ≡ content.Reader r) b.readers.items) }
{
    let readers = boxed(alloc, readers)?;
    let owner = Box::new(alloc, owner)?;
    Ok(Boxes { owner, readers })
}

/// The number of a table's readers. A number that is too great is refused by `BadCapacity`.
fn counted(readers: usize) -> Result<u32, Refusal>
    ensures same { IfOk result (λ n. n ≡ readers) }
    ensures refused { IfErr result (λ e. (e ≡ BadCapacity) × (most_readers < readers)) }
{
    match u32::try_from(readers) {
        Ok(count) => Ok(count),
        Err(_) => Err(Refusal::BadCapacity),
    }
}

/// What changes a table.
#[derive(Clone, Copy, Drop)]
pub(crate) enum Owner {
    /// A writer.
    Writer,
    /// A follower.
    Follower,
}

/// An empty table: what changes it, and its readers.
fn open_owned(
    alloc: Global,
    owner: Owner,
    layout: Layout,
    readers: u32,
) -> Result<(Content, Vec<Reader<HalfOpen>>), Refusal>
    ensures may { IfOk result (λ _. MayOpenWith layout 0 readers) }
    ensures opened { IfOk result
        (λ r. IsEmptyTable (first_content owner) layout readers r.0 r.1) }
    ensures refused { IfErr result (RefusesOpening layout 0 readers) }
{
    match owner {
        Owner::Writer => {
            let (writer, all) = open::<HalfOpen>(alloc, layout, 0, readers)?;
            Ok((Content::Writer(writer), all))
        }
        Owner::Follower => {
            let (follower, all) = Follower::open(alloc, layout, 0, readers)?;
            Ok((Content::Follower(follower), all))
        }
    }
}

/// A table, in boxes.
fn open_boxes(alloc: Global, owner: Owner, nodes: u32, readers: usize) -> Result<Boxes, Refusal>
    ensures opened { IfOk result (AreOpened (first_content owner) nodes readers) }
    ensures may { IfOk result (λ _. AreInRange nodes readers) }
    ensures refused { IfErr result (λ e. RefusesTable nodes readers (refusal_number e)) }
{
    let layout = Layout::wide(nodes)?;
    let count = counted(readers)?;
    let (content, all) = open_owned(alloc, owner, layout, count)?;
    Ok(in_boxes(alloc, content, all)?)
}

/// Opens each handle with a reader of these.
fn fill(alloc: Global, handles: &mut [Handle], readers: Vec<Box<Content, Global>>)
    requires { vec_len readers ≡ length handles.old }
    ensures count { length handles.new ≡ length handles.old }
    ensures each { (r : ReaderState) → All (λ b. b.value ≡ content.Reader r) readers.items
        → All (HoldsReader r) handles.new }
{
    let mut readers = readers;
    for place in 0..handles.len() {
        if let Some(content) = readers.pop() {
            handles[place] = Handle::open(alloc, content);
        }
    }
}

/// Whether all of the handles are closed.
fn all_closed(handles: &[Handle]) -> bool
    ensures { IsTrue result ↔ All (λ h. h.kind ≡ 0) handles.now }
{
    handles.iter().all(|handle| handle.kind == CLOSED)
}

/// Whether the handles for a writer and for its readers are all closed.
fn are_closed(writer: &Handle, readers: &[Handle]) -> bool
    ensures { IsTrue result ↔ AreClosed writer.now readers.now }
{
    writer.kind == CLOSED && all_closed(readers)
}

/// Opens the handles with what is in the boxes, if they were opened.
fn put_boxes(
    alloc: Global,
    opened: Result<Boxes, Refusal>,
    owner: &mut Handle,
    readers: &mut [Handle],
) -> u32
    requires { IfOk opened (λ b. vec_len b.readers ≡ length readers.old) }
    ensures opened { (o : WriterState → Held) → (nodes : ℕ)
        → IfOk opened (AreOpened o nodes (length readers.old)) → result ≡ 0
        → IsOpenedTable o nodes owner.new readers.new }
    ensures done { IfOk opened (λ _. result ≡ 0) }
    ensures count { length readers.new ≡ length readers.old }
    ensures refused { result ≢ 0 → (owner.new ≡ owner.old) × (readers.new ≡ readers.old) }
    ensures why { IfErr opened (λ e. result ≡ refusal_number e) }
{
    match opened {
        Ok(
            Boxes {
                owner: content,
                readers: all,
            },
        ) => {
            fill(alloc, readers, all);
            owner.put(content);
            DONE
        }
        Err(refusal) => refusal.number(),
    }
}

/// Opens an empty table in closed handles: what changes it in one, and a reader in each other.
fn open_table(
    alloc: Global,
    owner: Owner,
    nodes: u32,
    handle: &mut Handle,
    readers: &mut [Handle],
) -> u32
    ensures { OpensTable (first_content owner) nodes handle.old readers.old handle.new readers.new
        result }
{
    if !are_closed(handle, readers) {
        return BAD_HANDLE;
    }
    let opened = open_boxes(alloc, owner, nodes, readers.len());
    put_boxes(alloc, opened, handle, readers)
}

/// Opens an empty table of 1 to 65536 nodes: its writer, and a reader in each of 1 to 64 handles.
#[unsafe(no_mangle)]
pub extern "C" fn latchsym_table_open_nonnull(
    alloc: Global,
    nodes: u32,
    writer: &mut Handle,
    readers: &mut [Handle],
) -> u32
    ensures { OpensTable content.Writer nodes writer.old readers.old writer.new readers.new result }
{
    open_table(alloc, Owner::Writer, nodes, writer, readers)
}

/// Opens an empty table of 1 to 65536 nodes: a follower without a catalog, and a reader in each of
/// 1 to 64 handles.
#[unsafe(no_mangle)]
pub extern "C" fn latchsym_follower_open_nonnull(
    alloc: Global,
    nodes: u32,
    follower: &mut Handle,
    readers: &mut [Handle],
) -> u32
    ensures { OpensTable first_follower nodes follower.old readers.old follower.new readers.new
        result }
{
    open_table(alloc, Owner::Follower, nodes, follower, readers)
}
