//! A log that lasts: the listings that name it are read again while it grows.
ghost use Rattle.std.specs.Prelude.{◌≡◌, ◌≤◌, length, IfErr, IfOk};
ghost use Rattle.command_parts.specs.declared.fault.Fault.TheVariants.{Read};
ghost use Rattle.command_listings.specs.LastingLogs.{IsFaultOfListings, ReadsBlock, ReadsListings};
ghost use Rattle.command_listings.specs.LastingLogs.{Seen};

use command_parts::{Fault, ListingTexts};
use std::alloc::Global;
use std::io;

/// Why listings were not read.
#[derive(Clone, Copy, Debug, Drop)]
pub struct Unlisted {
    /// The place of the file that could not be read, or that there was no memory.
    pub fault: Fault,
    /// What the system said, if it said something.
    pub error: Option<io::Error>,
}

impl From<Unlisted> for Fault {
    ghost from_gives = { λ unlisted fault. fault ≡ unlisted.fault };

    fn from(unlisted: Unlisted) -> Fault {
        unlisted.fault
    }
}

/// A log that lasts, and the listings that say what its addresses are.
pub trait LastingLog {
    /// What was read of them until now, and what is left, as far as it is known.
    ghost seen: { Self → Seen };

    /// Reads a block of the log. Returns how many bytes it has: none if the log is at its end.
    fn read_block(&mut self, room: &mut [u8]) -> Result<usize, Fault>
        ensures bound { IfOk result (λ n. n ≤ length room.new) }
        ensures block { ReadsBlock (seen self.old) (seen self.new) room.new result }
        ensures fault { IfErr result (λ f. f ≡ Read 3) };

    /// Reads the listings as they are now.
    fn read_listings(&mut self, alloc: Global) -> Result<ListingTexts, Unlisted>
        ensures listings { ReadsListings (seen self.old) (seen self.new) result }
        ensures fault { IfErr result (λ u. IsFaultOfListings u.fault) };
}
