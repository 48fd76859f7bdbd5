//! What handles hold.

ghost use Rattle.std.specs.Prelude.{◌≡◌};
ghost use Rattle.latchsym_ffi.specs.Kinds.{kind_of};

use crate::open_catalogs::OpenCatalog;
use follower::Follower;
use latch_table::{Reader, Writer};
use order_laws::HalfOpen;

/// The number of a handle that holds nothing.
pub(crate) const CLOSED: u32 = 0;

/// The number of a handle with a catalog.
pub(crate) const CATALOG: u32 = 1;

/// The number of a handle with a writer.
pub(crate) const WRITER: u32 = 2;

/// The number of a handle with a reader.
pub(crate) const READER: u32 = 3;

/// The number of a handle with a follower.
pub(crate) const FOLLOWER: u32 = 4;

/// What a handle holds while it is open. The tables are of ranges without their end.
#[derive(Drop)]
pub enum Content {
    Catalog(OpenCatalog),
    Writer(Writer<HalfOpen>),
    Reader(Reader<HalfOpen>),
    Follower(Follower<'static>),
}

impl Content {
    /// The number of its kind.
    pub(crate) fn kind(&self) -> u32
        ensures { result ≡ kind_of self.now }
    {
        match self {
            Content::Catalog(_) => CATALOG,
            Content::Writer(_) => WRITER,
            Content::Reader(_) => READER,
            Content::Follower(_) => FOLLOWER,
        }
    }
}
