//! A writer whose calls return success or failure, and which keeps the failure.
//!
//! Whatever else is said to fail, or not to, rests on the three calls by themselves: `write` and
//! `flush` here, and `read` of [`crate::Counted`]. A clause can say what becomes of the answer of
//! such a call, but not that the answer is what the writer or the reader itself gave. So nothing
//! else is in this file, whose functions alone can say that a call failed.
ghost use Rattle.std.specs.Prelude.{◌≡◌, ◌<◌, None, Some, false, true, length, is_ok};
ghost use Rattle.std.specs.Io.{WritesAtMost};
ghost use Rattle.std.specs.Io.KnownBytes.{Keeps, WriteAppends};

use std::io;
use std::io::Write;

/// A writer, whether a call of it failed, with which error, and whether it may keep bytes back.
///
/// A failed call is an error of any kind, one that was interrupted too, or a write of at least one
/// byte that takes none. After it no call may be made.
#[derive(Drop)]
pub struct Device<W> {
    writer: W,
    failed: bool,
    error: Option<io::Error>,
    flushed: bool,
}

impl<W> Device<W> {
    ghost use Rattle.texts.specs.Device.{error_kept, is_broken, is_settled, writer_in};

    /// The writer, with no call made.
    pub fn new(writer: W) -> Device<W>
        ensures writer { writer_in result ≡ writer }
        ensures sound { is_broken result ≡ false }
        ensures no_error { error_kept result ≡ None }
        ensures settled { is_settled result ≡ true }
    {
        Device {
            writer,
            failed: false,
            error: None,
            flushed: true,
        }
    }

    /// Whether a call failed.
    #[inline(always)]
    pub fn has_failed(&self) -> bool
        ensures { result ≡ is_broken self.now }
    {
        self.failed
    }

    /// The error that the failed call gave. A write that takes nothing gives none.
    pub fn error(&self) -> Option<io::Error>
        ensures { result ≡ error_kept self.now }
    {
        self.error
    }

    /// The writer alone.
    pub fn into_inner(self) -> W
        ensures { result ≡ writer_in self }
    {
        self.writer
    }
}

impl<W: Write> Device<W> {
    ghost use Rattle.texts.specs.Device.{error_after, error_kept, is_broken, is_failed_flush};
    ghost use Rattle.texts.specs.Device.{is_failed_write, is_settled, writer_in};

    /// Calls the writer once, and returns what it answered.
    #[inline(always)]
    pub fn write(&mut self, bytes: &[u8]) -> io::Result<usize>
        requires sound { is_broken self.old ≡ false }
        requires bytes { 0 < length bytes.now }
        ensures bound { WritesAtMost result bytes.now }
        ensures taken { WriteAppends (W.contents (writer_in self.old))
            (W.contents (writer_in self.new)) result bytes.now }

        ensures failed { is_broken self.new ≡ is_failed_write result }
        ensures error { error_kept self.new ≡ error_after (error_kept self.old) result }
        ensures settled { is_settled self.new ≡ false }
    {
        let result = self.writer.write(bytes);
        self.flushed = false;
        match &result {
            Ok(0) => self.failed = true,
            Ok(_) => {}
            Err(error) => self.note(*error),
        }
        result
    }

    /// Lets the writer keep nothing back, by one call, and returns what it answered.
    pub fn flush(&mut self) -> io::Result<()>
        requires sound { is_broken self.old ≡ false }
        ensures kept { Keeps (W.contents (writer_in self.old)) (W.contents (writer_in self.new)) }

        ensures failed { is_broken self.new ≡ is_failed_flush result }
        ensures error { error_kept self.new ≡ error_after (error_kept self.old) result }
        ensures settled { is_settled self.new ≡ is_ok result }
    {
        let result = self.writer.flush();
        self.flushed = result.is_ok();
        if let Err(error) = &result {
            self.note(*error);
        }
        result
    }

    /// Keeps the error of a call that failed.
    #[cold]
    fn note(&mut self, error: io::Error)
        ensures writer { writer_in self.new ≡ writer_in self.old }
        ensures failed { is_broken self.new ≡ true }
        ensures error { error_kept self.new ≡ Some error }
        ensures settled { is_settled self.new ≡ is_settled self.old }
    {
        self.failed = true;
        self.error = Some(error);
    }
}
