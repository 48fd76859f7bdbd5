//! The files that a job reads.

use crate::jobs::FileSource;
use order_laws::Refusal;
use std::fs::File;
use std::io::{ErrorKind, Read, Stdin};
use std::{fs, io};
use texts::Counted;

/// A file that was to be opened, or the standard input. If a file cannot be opened, reading it
/// fails, so that the first file that fails, in the order of reading, is reported.
#[derive(Drop)]
pub enum Input {
    Opened(File),
    Standard(Stdin),
    Unopened(io::Error),
}

impl Read for Input {
    fn read(&mut self, buf: &mut [u8]) -> io::Result<usize> {
        match self {
            Input::Opened(file) => file.read(buf),
            Input::Standard(input) => input.read(buf),
            Input::Unopened(error) => Err(*error),
        }
    }
}

/// The files of the host, whose contents no clause knows.
#[derive(Drop)]
pub struct FileSystem<'a> {
    rt: &'a HostRuntime,
    /// Why the standard input cannot be read, if it is closed.
    closed: Option<io::Error>,
}

impl<'a> FileSystem<'a> {
    /// The files of the host, of which none has been opened: one that is opened takes the place of
    /// a standard input that is closed, so whether it is has to be known before.
    pub fn new(rt: &'a HostRuntime) -> FileSystem<'a> {
        let closed = rt.stdin().read(&mut []).err();
        FileSystem { rt, closed }
    }
}

impl FileSource for FileSystem<'_> {
    ghost use Rattle.std.specs.Prelude.{None};

    type File = Input;

    ghost file_text = { λ files name. None };

    ghost standard = { λ files. None };

    fn open(&self, name: &str) -> Result<Counted<Input>, Refusal> {
        match fs::open(self.rt, name) {
            Ok(opened) => Ok(Counted::new(Input::Opened(opened))),
            Err(error) if error.kind() == ErrorKind::OutOfMemory => Err(Refusal::OutOfMemory),
            Err(error) => Ok(Counted::new(Input::Unopened(error))),
        }
    }

    fn standard_input(&self) -> Counted<Input> {
        Counted::new(match self.closed {
            Some(error) => Input::Unopened(error),
            None => Input::Standard(self.rt.stdin()),
        })
    }
}
