//! What a call does with the content of a handle.
//!
//! The content is taken out of the handle, the call is made with it, and it is put back: the kit
//! lends no borrow through the handle's raw pointer. These are macros, as no closure takes a
//! catalog or a follower, which have names of lifetime `'static`.
//! A lookup of a reader takes and puts by itself, as it has no number to return.

/// Calls with the content of one kind that a handle holds; a handle with none is a bad one.
macro_rules! with_content {
    ($kind:ident, $variant:ident, $handle:ident, |$content:ident| $call:expr) => {
        if $handle.kind == $crate::contents::$kind {
            let mut taken = $handle.take();
            let result = match &mut *taken {
                $crate::contents::Content::$variant($content) => $call,
                _ => $crate::answers::BAD_HANDLE,
            };
            $handle.put(taken);
            result
        } else {
            $crate::answers::BAD_HANDLE
        }
    };
}

pub(crate) use with_content;

/// Calls with the catalog that a handle holds.
macro_rules! with_catalog {
    ($handle:ident, |$catalog:ident| $call:expr) => {
        $crate::calls::with_content!(CATALOG, Catalog, $handle, |$catalog| $call)
    };
}

pub(crate) use with_catalog;

/// Calls with the writer that a handle holds.
macro_rules! with_writer {
    ($handle:ident, |$writer:ident| $call:expr) => {
        $crate::calls::with_content!(WRITER, Writer, $handle, |$writer| $call)
    };
}

pub(crate) use with_writer;

/// Calls with the follower that a handle holds.
macro_rules! with_follower {
    ($handle:ident, |$follower:ident| $call:expr) => {
        $crate::calls::with_content!(FOLLOWER, Follower, $handle, |$follower| $call)
    };
}

pub(crate) use with_follower;
