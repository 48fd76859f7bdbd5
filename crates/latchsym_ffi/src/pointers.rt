//! A box of content by a plain pointer.
//!
//! A struct that crosses to C holds no box. This one holds the box's pointer, and says in its model
//! that it owns what the box would.

ghost use Rattle.std.specs.Prelude.{◌≡◌, Option, Some, None, IsSome};
ghost use Rattle.std.specs.Coded.{coded_option};
ghost use Rattle.latchsym_ffi.specs.Owning.{owns_content};
ghost use Rattle.latchsym_ffi.specs.declared.contents.Content.{Content as Held};
ghost use Rattle.latchsym_ffi.specs.contracts.contents.Content.{the_row};

use crate::contents::Content;
use crate::loose::Loose;
use std::alloc::Global;
use std::marker::Model;
use std::ptr;

/// The box's pointer, or none.
#[repr(C)]
#[derive(Drop)]
pub struct ContentPointer {
    at: *mut u8,
    alloc: Global,
    ghost content: { Option Held } by { coded_option the_row.coded },
}

unsafe impl Send for ContentPointer {}

impl Model for ContentPointer {
    ghost also_owns = { λ p. owns_content p.alloc p.at p.content };
}

impl ContentPointer {
    fn of(content: Loose<Content, Global>) -> ContentPointer
        ensures { result.content ≡ Some content.value }
    {
        let Loose { at, alloc } = content;
        ContentPointer {
            at: at as *mut u8,
            alloc,
        }
    }

    pub(crate) fn none(alloc: Global) -> ContentPointer
        ensures { result.content ≡ None }
    {
        ContentPointer {
            at: ptr::null_mut(),
            alloc,
        }
    }

    fn into_loose(self) -> Loose<Content, Global>
        requires { IsSome self.content }
        ensures { self.content ≡ Some result.value }
    {
        let ContentPointer { at, alloc } = self;
        Loose {
            at: at as *mut Content,
            alloc,
        }
    }

    /// Keeps the content of the box.
    pub(crate) fn from_box(content: Box<Content, Global>) -> ContentPointer
        ensures { result.content ≡ Some content.value }
    {
        ContentPointer::of(Loose::of(content))
    }

    /// The box again.
    pub(crate) fn into_box(self) -> Box<Content, Global>
        requires { IsSome self.content }
        ensures { self.content ≡ Some result.value }
    {
        self.into_loose().into_box()
    }
}
