//! Why a text was not read.
ghost use Rattle.std.specs.Prelude.{◌≡◌};

use std::alloc::{AllocError, AllocFailed};

/// Why the bytes of a text were not read.
#[derive(Clone, Copy, Debug, PartialEq, Eq)]
pub enum ReadFault {
    /// A growth of memory was refused.
    OutOfMemory,
    /// The reader failed.
    Read,
}

/// Why a text whose lines all have to be understood was not read.
#[derive(Clone, Copy, Debug, PartialEq, Eq)]
pub enum LineFault {
    /// A growth of memory was refused.
    OutOfMemory,
    /// The reader failed.
    Read,
    /// The number of the first line that is not in the grammar. The first line of a text has
    /// number 1.
    BadLine(u64),
}

impl From<ReadFault> for LineFault {
    ghost use Rattle.texts.specs.Said.{fault_of_reading};

    ghost from_gives = { λ unread_by fault. fault ≡ fault_of_reading unread_by };

    fn from(fault: ReadFault) -> LineFault {
        match fault {
            ReadFault::OutOfMemory => LineFault::OutOfMemory,
            ReadFault::Read => LineFault::Read,
        }
    }
}

impl<T: Drop> From<AllocFailed<T>> for LineFault {
    ghost use Rattle.texts.specs.declared.faults.LineFault.TheVariants.{OutOfMemory};

    ghost from_gives = { λ _ fault. fault ≡ OutOfMemory };

    fn from(_failed: AllocFailed<T>) -> LineFault {
        LineFault::OutOfMemory
    }
}

impl From<AllocError> for LineFault {
    ghost use Rattle.texts.specs.declared.faults.LineFault.TheVariants.{OutOfMemory};

    ghost from_gives = { λ _ fault. fault ≡ OutOfMemory };

    fn from(_error: AllocError) -> LineFault {
        LineFault::OutOfMemory
    }
}

impl From<AllocError> for ReadFault {
    ghost use Rattle.texts.specs.declared.faults.ReadFault.TheVariants.{OutOfMemory};

    ghost from_gives = { λ _ fault. fault ≡ OutOfMemory };

    fn from(_error: AllocError) -> ReadFault {
        ReadFault::OutOfMemory
    }
}
