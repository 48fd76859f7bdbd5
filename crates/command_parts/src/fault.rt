//! Why a command failed, and the result of one that did not.
ghost use Rattle.std.specs.Prelude.{◌≡◌, Err, Ok, false, if◌then◌else◌, true, IfErr, OnErr, OnOk};
ghost use Rattle.texts.specs.Output.{has_failed};
ghost use Rattle.command_parts.specs.Faults.{IsLineFault, line_of, fault_number, fault_place};
ghost use Rattle.command_parts.specs.Faults.{noted, with_notes, with_status, without_notes};
ghost use Rattle.command_parts.specs.declared.fault.Fault.TheVariants.{Write};

use listing::ListingNotes;
use order_laws::Refusal;
use std::alloc::AllocError;
use texts::{LineFault, Output};
use thiserror::Error;

/// The program's status if it did what it was asked.
pub const SUCCEEDED: u8 = 0;

/// The program's status if a run failed.
pub const FAILED: u8 = 1;

/// Why a run of the program failed.
///
/// A `place` is the number of a file in the order in which the job reads them, from 0. Lines count
/// from 1.
#[derive(Clone, Copy, Debug, PartialEq, Eq, Drop, Error)]
pub enum Fault {
    /// The run as a whole was refused.
    #[error("refused {}", .0.number())]
    Refused(Refusal),
    /// A line is not in the grammar of its file. It is the first such line.
    #[error("line {line} is not understood")]
    BadLine { place: u64, line: u64 },
    /// A file cannot be read.
    #[error("cannot be read")]
    Read { place: u64 },
    /// A file has more blocks than a `u64` counts.
    #[error("is too long")]
    TooLong { place: u64 },
    /// The output cannot be written. Some of it may have gone out.
    #[error("cannot write")]
    Write,
}

impl Fault {
    /// The program's fault if a line of the file at this place is not understood, or for another
    /// fault of it.
    pub fn of_lines(place: u64, fault: LineFault) -> Fault
        ensures { IsLineFault place fault result }
    {
        match fault {
            LineFault::OutOfMemory => Fault::Refused(Refusal::OutOfMemory),
            LineFault::Read => Fault::Read { place },
            LineFault::BadLine(line) => Fault::BadLine { place, line },
        }
    }

    /// The number of the fault: the refusal's, 15 for a bad line, 16 if a reader or the writer
    /// failed, 17 for a file that is too long. The program writes texts; callers of an engine have
    /// the number.
    pub fn number(&self) -> u32
        ensures { result ≡ fault_number self.now }
    {
        match self {
            Fault::Refused(refusal) => refusal.number(),
            Fault::BadLine { .. } => 15,
            Fault::Read { .. } | Fault::Write => 16,
            Fault::TooLong { .. } => 17,
        }
    }

    /// The place of the file that the fault is about, if it is about one.
    pub fn place(&self) -> Option<u64>
        ensures { result ≡ fault_place self.now }
    {
        match self {
            Fault::BadLine { place, .. } | Fault::Read { place } | Fault::TooLong { place } => {
                Some(*place)
            }
            Fault::Refused(_) | Fault::Write => None,
        }
    }

    /// The line that the fault is about, if it is about one. The program has it from the text of
    /// the fault; who runs an engine has it here.
    pub fn line(&self) -> Option<u64>
        ensures { result ≡ line_of self.now }
    {
        match self {
            Fault::BadLine { line, .. } => Some(*line),
            Fault::Refused(_) | Fault::Read { .. } | Fault::TooLong { .. } | Fault::Write => None,
        }
    }
}

impl From<Refusal> for Fault {
    ghost use Rattle.command_parts.specs.declared.fault.Fault.TheVariants.{Refused};

    ghost from_gives = { λ refusal fault. fault ≡ Refused refusal };

    fn from(refusal: Refusal) -> Fault {
        Fault::Refused(refusal)
    }
}

impl From<AllocError> for Fault {
    ghost use Rattle.command_parts.specs.declared.fault.Fault.TheVariants.{Refused};
    ghost use Rattle.order_laws.specs.declared.refusals.Refusal.TheVariants.{OutOfMemory};

    ghost from_gives = { λ _ fault. fault ≡ Refused OutOfMemory };

    fn from(_error: AllocError) -> Fault {
        Fault::Refused(Refusal::OutOfMemory)
    }
}

/// Whether all that was said to an output was written.
pub fn all_written<W>(writer: &Output<W>) -> Result<(), Fault>
    ensures written { OnOk result (has_failed writer.now ≡ false) }
    ensures failed { OnErr result (has_failed writer.now ≡ true) }
    ensures fault { IfErr result (λ f. f ≡ Fault.Write) }
{
    if writer.has_failed() {
        Err(Fault::Write)
    } else {
        Ok(())
    }
}

/// What an engine came to, unless a call of its writer failed.
pub fn unless_failed<W, T: Drop>(writer: &Output<W>, done: T) -> Result<T, Fault>
    ensures { result ≡ (if has_failed writer.now then Err Write else Ok done) }
{
    if writer.has_failed() {
        Err(Fault::Write)
    } else {
        Ok(done)
    }
}

/// What a job came to that did not fail.
#[derive(Clone, Copy, Debug, PartialEq, Eq, Drop)]
pub struct Finished {
    /// The program's status.
    pub status: u8,
    /// What is noted of the job's listings.
    pub notes: ListingNotes,
}

/// The end of a job whose engine has no status of its own: 0 if it succeeded.
pub fn with_status(done: Result<ListingNotes, Fault>) -> Result<Finished, Fault>
    ensures { result ≡ with_status done }
{
    match done {
        Ok(notes) => with_notes(Ok(SUCCEEDED), notes),
        Err(fault) => Err(fault),
    }
}

/// The end of a job of this status with these notes.
pub fn with_notes(status: Result<u8, Fault>, notes: ListingNotes) -> Result<Finished, Fault>
    ensures { result ≡ with_notes notes status }
{
    match status {
        Ok(status) => Ok(Finished { status, notes }),
        Err(fault) => Err(fault),
    }
}

/// The notes of a job that came to this.
pub fn noted(done: Result<(), Fault>, notes: ListingNotes) -> Result<ListingNotes, Fault>
    ensures { result ≡ noted notes done }
{
    done?;
    Ok(notes)
}

/// The notes of a job without listings.
pub fn without_notes(done: Result<(), Fault>) -> Result<ListingNotes, Fault>
    ensures { result ≡ without_notes done }
{
    noted(done, ListingNotes::none())
}
