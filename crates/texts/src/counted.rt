//! A reader, the number of its failed calls, and the error of the last one.
ghost use Rattle.std.specs.Prelude.{◌≡◌, ◌≤◌, ◌<◌, IfOk, IfErr, OnErr, None, Some};
ghost use Rattle.std.specs.Io.{ReadsAtMost};
ghost use Rattle.std.specs.Io.KnownBytes.{ReadConsumes};

use std::io;
use std::io::Read;

/// How many bytes are asked of a reader, or gathered for a writer, at once.
pub const BLOCK: usize = 65536;

/// A reader, how many of its calls failed, and the error that it gave last.
///
/// A failed call is an error of any kind. The count stays at the greatest `u64` once it is there.
/// What is left to be read is what the reader inside has.
#[derive(Drop)]
pub struct Counted<D> {
    device: D,
    failures: u64,
    error: Option<io::Error>,
}

impl<D> Counted<D> {
    ghost use Rattle.texts.specs.Counted.{device_of, error_of, failures_of, one_failure_more};

    /// The reader, with no call made.
    pub fn new(device: D) -> Counted<D>
        ensures device { device_of result ≡ device }
        ensures none { failures_of result ≡ 0 }
        ensures no_error { error_of result ≡ None }
    {
        Counted {
            device,
            failures: 0,
            error: None,
        }
    }

    /// How many calls failed.
    pub fn failures(&self) -> u64
        ensures { result ≡ failures_of self.now }
    {
        self.failures
    }

    /// The error that a call gave last, if one gave any.
    pub fn error(&self) -> Option<io::Error>
        ensures { result ≡ error_of self.now }
    {
        self.error
    }

    /// The reader alone.
    pub fn into_inner(self) -> D
        ensures { result ≡ device_of self }
    {
        self.device
    }

    /// Counts a call that gave this error.
    #[cold]
    fn note(&mut self, error: io::Error)
        ensures device { device_of self.new ≡ device_of self.old }
        ensures counted { failures_of self.new ≡ one_failure_more (failures_of self.old) }
        ensures never_falls { failures_of self.old ≤ failures_of self.new }
        ensures error { error_of self.new ≡ Some error }
    {
        self.failures = self.failures.saturating_add(1);
        self.error = Some(error);
    }
}

impl<R: Read> Read for Counted<R> {
    ghost use Rattle.texts.specs.Counted.{device_of, error_of, failures_of, after_call, Rose};

    ghost remaining = { λ c. R.remaining (device_of c) };

    fn read(&mut self, buf: &mut [u8]) -> io::Result<usize>
        ensures bound { ReadsAtMost result buf.new }
        ensures bytes { ReadConsumes (R.remaining (device_of self.old))
            (R.remaining (device_of self.new)) result buf.new }

        ensures counted { failures_of self.new ≡ after_call (failures_of self.old) result }
        ensures failed { OnErr result (Rose (failures_of self.old) (failures_of self.new)) }
        ensures never_falls { failures_of self.old ≤ failures_of self.new }
        ensures error { IfErr result (λ e. error_of self.new ≡ Some e) }
        ensures no_error { IfOk result (λ _. error_of self.new ≡ error_of self.old) }
    {
        let result = self.device.read(buf);
        if let Err(error) = &result {
            self.note(*error);
        }
        result
    }
}
