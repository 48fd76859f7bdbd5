//! The handle of C's own that a call takes.

ghost use Rattle.std.specs.Prelude.{◌≡◌, ◌≢◌, Some, None};
ghost use Rattle.latchsym_ffi.specs.Kinds.{kind_in};

use crate::contents::{CLOSED, Content};
use crate::pointers::ContentPointer;
use std::alloc::Global;
use std::mem;
use std::sync::atomic::{AtomicU64, Ordering};

/// A catalog, a writer or a reader, as `kind` says, or nothing if it is closed. All bytes 0 are
/// a closed one.
#[repr(C)]
#[derive(Drop)]
pub struct Handle {
    pub kind: u32,
    pub alloc: Global,
    pub pointer: ContentPointer,
    ghost tied: { kind ≡ kind_in pointer.content },
}

/// Keeps each store before it ahead of the stores after it, as a signal handler of this thread sees
/// them. It costs no instruction but a load of the stack: the compiler moves nothing across a step
/// on an atomic word.
#[inline(always)]
fn keep_order() {
    let word = AtomicU64::new(0);
    let _nothing = word.load(Ordering::SeqCst);
}

impl Handle {
    pub(crate) fn open(alloc: Global, content: Box<Content, Global>) -> Handle
        ensures { result.pointer.content ≡ Some content.value }
    {
        Handle {
            kind: content.kind(),
            alloc,
            pointer: ContentPointer::from_box(content),
        }
    }

    /// Takes the content out, and leaves the handle closed: its kind is cleared before its pointer,
    /// so that a signal handler of the thread meets a closed handle or a whole one.
    pub(crate) fn take(&mut self) -> Box<Content, Global>
        requires open { self.old.kind ≢ 0 }
        ensures content { self.old.pointer.content ≡ Some result.value }
        ensures closed { self.new.pointer.content ≡ None }
    {
        self.kind = CLOSED;
        keep_order();
        let nothing = ContentPointer::none(self.alloc);
        mem::replace(&mut self.pointer, nothing).into_box()
    }

    /// Puts content into the handle: its pointer before its kind, as `take` clears them.
    pub(crate) fn put(&mut self, content: Box<Content, Global>)
        ensures { self.new.pointer.content ≡ Some content.value }
    {
        let kind = content.kind();
        self.pointer = ContentPointer::from_box(content);
        keep_order();
        self.kind = kind;
    }

    /// Closes the handle, and drops what it held.
    pub(crate) fn close(&mut self)
        ensures { self.new.kind ≡ 0 }
    {
        if self.kind != CLOSED {
            let _content = self.take();
        }
    }
}
