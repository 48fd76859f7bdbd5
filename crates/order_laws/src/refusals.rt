//! Why a call was refused.

ghost use Rattle.std.specs.Prelude.{◌≡◌};
ghost use Rattle.order_laws.specs.declared.refusals.Refusal.TheVariants.{OutOfMemory};

use std::alloc::{AllocError, AllocFailed};

/// A refusal leaves the object as it was. Its number is what programs print.
#[derive(Clone, Copy, Debug, PartialEq, Eq, Drop)]
pub enum Refusal {
    /// 1: the item is not valid in the order.
    BadItem,
    /// 2: the item is not apart from an item of the table.
    Overlap,
    /// 3: no item of the table has this first word.
    NoSuchItem,
    /// 4: the table has as many items as it has nodes.
    Full,
    /// 5: an update has begun and is not at its end.
    UpdateInHand,
    /// 6: the sequence has no room for two more flips.
    SequenceSpent,
    /// 7: a growth of memory was refused.
    OutOfMemory,
    /// 8: the reader has a pending lookup.
    ReaderBusy,
    /// 9: the reader has no pending lookup.
    ReaderIdle,
    /// 10: a capacity, a count of readers or an opening sequence is out of its range.
    BadCapacity,
    /// 11: the catalog has no such module.
    UnknownModule,
    /// 12: the module is in the table.
    AlreadyLoaded,
    /// 13: the module is not in the table.
    NotLoaded,
    /// 14: a module has more regions than it may have.
    TooManyRegions,
    /// 17: the module has no init regions in the table.
    NoInit,
}

impl Refusal {
    ghost use Rattle.std.specs.Prelude.{◌≡◌};
    ghost use Rattle.order_laws.specs.Refusals.{refusal_number};

    /// The number of the refusal in texts: 1 to 14, and 17. (15 and 16 are for bad lines and failed
    /// devices; no table refuses by them.)
    pub fn number(self) -> u32
        ensures { result ≡ refusal_number self }
    {
        match self {
            Refusal::BadItem => 1,
            Refusal::Overlap => 2,
            Refusal::NoSuchItem => 3,
            Refusal::Full => 4,
            Refusal::UpdateInHand => 5,
            Refusal::SequenceSpent => 6,
            Refusal::OutOfMemory => 7,
            Refusal::ReaderBusy => 8,
            Refusal::ReaderIdle => 9,
            Refusal::BadCapacity => 10,
            Refusal::UnknownModule => 11,
            Refusal::AlreadyLoaded => 12,
            Refusal::NotLoaded => 13,
            Refusal::TooManyRegions => 14,
            Refusal::NoInit => 17,
        }
    }
}

impl From<AllocError> for Refusal {
    ghost from_gives = { λ _ r. r ≡ OutOfMemory };

    fn from(_error: AllocError) -> Refusal {
        Refusal::OutOfMemory
    }
}

impl<T: Drop> From<AllocFailed<T>> for Refusal {
    ghost from_gives = { λ _ r. r ≡ OutOfMemory };

    fn from(_error: AllocFailed<T>) -> Refusal {
        Refusal::OutOfMemory
    }
}
