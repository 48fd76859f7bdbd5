//! The lines of a log as its blocks come.
//!
//! A line that has no end yet is kept until it has one. One that is too long to be annotated is
//! written as it comes:
//!
//! ```text
//!     block     ..  1 pages⏎[   52.1] at [<fffff|fff81000108>]⏎[   52.3] ..
//!     written   ..  1 pages⏎                    |
//!     kept                  ^^^^^^^^^^^^^^^^^^^^ until the block with its end
//! ```
//!
//! So each line is named as a whole, by what answers when its end comes.
ghost use Rattle.std.specs.Prelude.{◌≡◌, ℕ, List, ◌<◌, ◌++◌, [], false, length};
ghost use Rattle.std.specs.Prelude.{IfErr, IfNone, IfOk, IfSome, IsTrue, OnErr, option_map};
ghost use Rattle.std.specs.Cow.{cow_slice_items};
ghost use Rattle.texts.specs.Output.{Delivered, WrotePart, error_in};
ghost use Rattle.logs.specs.Answering.{Answering};
ghost use Rattle.logs.specs.AnnotatedLogs.{first_context};
ghost use Rattle.logs.specs.Annotation.{Adds, EndsLog, IsAnnotation, IsOpen, IsWriteFault, Passes};
ghost use Rattle.logs.specs.Annotation.{Puts, context_in};
ghost use Rattle.logs.specs.KernelReports.{SaysAtMost, SaysNothing};
ghost use Rattle.logs.specs.Lines.{IsLine, has_end, unless_long};
ghost use Rattle.logs.specs.Unnamed.{EndsUnnamed, PassesUnnamed, ends_address, has_address};

use crate::annotation::LogFault;
use crate::answers::Answers;
use crate::contexts::LogContext;
use crate::kernel_reports::{Said, says_nothing};
use crate::line::{LONGEST, put_line};
use crate::log_names::LogNames;
use crate::unnamed::{Unanswered, ends_address, has_address};
use memchr::memchr;
use std::alloc::{AllocError, Global};
use std::borrow::CowSlice;
use std::io;
use std::io::Write;
use texts::Output;

/// What is carried on after the lines that were written, and the line after them that has no end
/// yet.
#[derive(Drop)]
pub struct Annotator {
    context: LogContext,
    begun: Vec<u8>,
    /// Whether that line is too long: then it was written as it came.
    is_long: bool,
}

impl Annotator {
    /// At the beginning of a log.
    pub fn new(alloc: Global) -> Annotator
        ensures context { context_in result ≡ first_context }
        ensures open { IsOpen result [] }
    {
        Annotator {
            context: LogContext::new(),
            begun: Vec::new(alloc),
            is_long: false,
        }
    }

    /// Takes a block in, and writes each line that has its end now, named by these answers. The
    /// writer is flushed. What lines say of their kernel is not sought in a block that is known to
    /// be silent on it.
    pub fn pass<A: Answers, W: Write>(
        &mut self,
        alloc: Global,
        answers: &A,
        bytes: &[u8],
        is_silent: bool,
        writer: &mut Output<W>,
    ) -> Result<(), LogFault>
        requires { IsTrue is_silent → SaysNothing bytes.now }
        ensures { Puts W.contents
            (λ _. Passes (A.answering answers.now) self.old self.new bytes.now)
            writer.old writer.new result }
    {
        let room = self.begun.len().saturating_add(bytes.len());
        let mut out = Vec::with_capacity(alloc, room)?;
        self.pass_bytes(answers, bytes, is_silent, &mut out)?;
        put_now(writer, &out)
    }

    /// Takes a block in as [`pass`](Annotator::pass) does, by answers that are prepared for what it
    /// says.
    pub fn pass_block<A: Answers, W: Write>(
        &mut self,
        alloc: Global,
        answers: &mut A,
        bytes: &[u8],
        writer: &mut Output<W>,
    ) -> Result<(), LogFault>
        ensures answers { A.answering answers.new ≡ A.answering answers.old }
        ensures put { Puts W.contents
            (λ _. Passes (A.answering answers.old) self.old self.new bytes.now)
            writer.old writer.new result }
    {
        let is_silent = says_nothing(bytes);
        answers.prepare(is_silent)?;
        self.pass(alloc, answers, bytes, is_silent, writer)
    }

    /// The names of the log so far.
    pub fn names(&self) -> LogNames
        ensures { result ≡ (context_in self.now).names }
    {
        self.context.names
    }

    /// Writes the last line, which has no end, and returns the names of the log. The writer is
    /// flushed.
    pub fn end<A: Answers, W: Write>(
        &self,
        alloc: Global,
        answers: &A,
        writer: &mut Output<W>,
    ) -> Result<LogNames, LogFault>
        ensures { Puts W.contents (EndsLog (A.answering answers.now) self.now)
            writer.old writer.new result }
    {
        let mut context = self.context;
        let mut out = Vec::new(alloc);
        put_line(answers, &mut context, &self.begun, Said::All, &mut out)?;
        put_now(writer, &out)?;
        Ok(context.names)
    }

    /// Takes a block in, and writes each line that has its end now, which nothing names. The writer
    /// is flushed. What the lines say for later ones is carried on, but nothing is counted of
    /// names.
    pub fn pass_unnamed<W: Write>(
        &mut self,
        alloc: Global,
        is_narrow: bool,
        bytes: &[u8],
        writer: &mut Output<W>,
    ) -> Result<(), LogFault>
        ensures { Puts W.contents (λ _. PassesUnnamed is_narrow self.old self.new bytes.now)
            writer.old writer.new result }
    {
        let names = self.context.names;
        let put = self.pass(alloc, &Unanswered { is_narrow }, bytes, false, writer);
        self.context.names = names;
        put
    }

    /// Writes the last line, which has no end and which nothing names, and returns the names of the
    /// log. The writer is flushed.
    pub fn end_unnamed<W: Write>(
        &self,
        alloc: Global,
        is_narrow: bool,
        writer: &mut Output<W>,
    ) -> Result<LogNames, LogFault>
        ensures { Puts W.contents (EndsUnnamed is_narrow self.now)
            writer.old writer.new result }
    {
        self.end(alloc, &Unanswered { is_narrow }, writer)?;
        Ok(self.context.names)
    }

    /// Whether one of the lines that have their end in a block has an address word.
    pub fn ends_address(
        &self,
        alloc: Global,
        is_narrow: bool,
        bytes: &[u8],
    ) -> Result<bool, AllocError>
        ensures { IfOk result (λ b. (line : List ℕ) → IsOpen self.now line
            → b ≡ ends_address is_narrow (line ++ bytes.now)) }
    {
        match cut_line(bytes) {
            Some((line, more)) => {
                let here = self.ends_in_address(alloc, is_narrow, line)?;
                Ok(here || ends_address(is_narrow, more))
            }
            None => Ok(false),
        }
    }

    /// Whether the open line and these bytes, which end it, have an address word.
    fn ends_in_address(
        &self,
        alloc: Global,
        is_narrow: bool,
        line: &[u8],
    ) -> Result<bool, AllocError>
        ensures { IfOk result (λ b. (begun : List ℕ) → IsOpen self.now begun
            → b ≡ has_address is_narrow (begun ++ line.now)) }
    {
        if self.is_long {
            return Ok(false);
        }
        let mut whole = Vec::with_capacity(alloc, self.begun.len().saturating_add(line.len()))?;
        whole.extend_from_slice(&self.begun)?;
        whole.extend_from_slice(line)?;
        Ok(has_address(is_narrow, &whole))
    }

    /// The line that these bytes end, from its beginning on, unless it is too long to be annotated.
    pub fn ended_line<'l>(
        &self,
        alloc: Global,
        line: &'l [u8],
    ) -> Result<Option<CowSlice<'l, u8>>, AllocError>
        ensures { IfOk result (λ whole. (begun : List ℕ) → IsOpen self.now begun
            → option_map cow_slice_items whole ≡ unless_long (begun ++ line.now)) }
    {
        if self.is_long {
            return Ok(None);
        }
        if self.begun.is_empty() && line.len() <= LONGEST {
            return Ok(Some(CowSlice::Borrowed(line)));
        }
        let mut whole = Vec::with_capacity(alloc, self.begun.len().saturating_add(line.len()))?;
        whole.extend_from_slice(&self.begun)?;
        whole.extend_from_slice(line)?;
        if whole.len() > LONGEST {
            return Ok(None);
        }
        Ok(Some(CowSlice::Owned(whole)))
    }

    /// Whether the line that is open has an address word.
    pub fn has_address(&self, is_narrow: bool) -> bool
        ensures { (line : List ℕ) → IsOpen self.now line → result ≡ has_address is_narrow line }
    {
        !self.is_long && has_address(is_narrow, &self.begun)
    }

    /// A whole log with the texts of its answers, and its names.
    pub(crate) fn annotated<A: Answers>(
        alloc: Global,
        answers: &A,
        log: &[u8],
        is_silent: bool,
    ) -> Result<(Vec<u8>, LogNames), AllocError>
        requires { IsTrue is_silent → SaysNothing log.now }
        ensures { IfOk result
            (λ r. IsAnnotation (A.answering answers.now) log.now r.0.items r.1) }
    {
        let mut annotator = Annotator::new(alloc);
        let mut out = Vec::with_capacity(alloc, log.len())?;
        annotator.pass_bytes(answers, log, is_silent, &mut out)?;
        let mut context = annotator.context;
        put_line(answers, &mut context, &annotator.begun, Said::All, &mut out)?;
        Ok((out, context.names))
    }

    /// Takes bytes in, and puts each line that has its end now. If the bytes are silent on their
    /// kernel, so is each line that begins in them.
    pub fn pass_bytes<A: Answers>(
        &mut self,
        answers: &A,
        bytes: &[u8],
        is_silent: bool,
        out: &mut Vec<u8>,
    ) -> Result<(), AllocError>
        requires { IsTrue is_silent → SaysNothing bytes.now }
        ensures { IfOk result (λ _. Adds out.old.items out.new.items
            (Passes (A.answering answers.now) self.old self.new bytes.now)) }
    {
        let said = Said::of(bytes, is_silent);
        let mut rest = bytes;
        loop {
            match cut_line(rest) {
                Some((line, more)) => {
                    self.pass_line(answers, line, said, out)?;
                    rest = more;
                }
                None => {
                    self.hold(rest, out)?;
                    return Ok(());
                }
            }
        }
    }

    /// Puts the line that these bytes end, which say no more of their kernel than this.
    fn pass_line<A: Answers>(
        &mut self,
        answers: &A,
        line: &[u8],
        said: Said,
        out: &mut Vec<u8>,
    ) -> Result<(), AllocError>
        requires line { IsLine line.now }
        requires said { SaysAtMost said line.now }
        ensures { IfOk result (λ _. Adds out.old.items out.new.items
            (Passes (A.answering answers.now) self.old self.new line.now)) }
    {
        if self.is_long {
            out.extend_from_slice(line)?;
            self.is_long = false;
            return Ok(());
        }
        if self.begun.is_empty() {
            put_line(answers, &mut self.context, line, said, out)?;
            return Ok(());
        }
        self.begun.extend_from_slice(line)?;
        put_line(answers, &mut self.context, &self.begun, Said::All, out)?;
        self.begun.clear();
        Ok(())
    }

    /// Keeps bytes of a line that has no end yet, or puts them if it is too long.
    fn hold(&mut self, bytes: &[u8], out: &mut Vec<u8>) -> Result<(), AllocError>
        requires { has_end bytes.now ≡ false }
        ensures { IfOk result (λ _. (answer : Answering) → Adds out.old.items out.new.items
            (Passes answer self.old self.new bytes.now)) }
    {
        if self.is_long {
            out.extend_from_slice(bytes)?;
            return Ok(());
        }
        self.begun.extend_from_slice(bytes)?;
        if self.begun.len() > LONGEST {
            out.extend_from_slice(&self.begun)?;
            self.begun.clear();
            self.is_long = true;
        }
        Ok(())
    }
}

/// Cuts off the first line of the bytes, with its end, if it has one.
#[tactic(auto, using(crate::proofs::LineLemmas::line_found, crate::proofs::LineLemmas::none_ends))]
pub fn cut_line(bytes: &[u8]) -> Option<(&[u8], &[u8])>
    ensures line { IfSome result (λ r. IsLine r.0.now) }
    ensures parts { IfSome result (λ r. bytes.now ≡ r.0.now ++ r.1.now) }
    ensures shorter { IfSome result (λ r. length r.1.now < length bytes.now) }
    ensures none { IfNone result (has_end bytes.now ≡ false) }
{
    match memchr(b'\n', bytes) {
        Some(end) => Some((&bytes[..end + 1], &bytes[end + 1..])),
        None => None,
    }
}

/// Writes the bytes, and lets the writer keep nothing back.
#[tactic(auto, using(crate::proofs::PutLemmas::put_through))]
pub fn put_now<W: Write>(writer: &mut Output<W>, bytes: &[u8]) -> Result<(), LogFault>
    ensures written { IfOk result (λ _. Delivered W.contents writer.old writer.new bytes.now) }
    ensures fault { IfErr result (IsWriteFault (error_in writer.new)) }
    ensures begun { OnErr result (WrotePart W.contents writer.old writer.new bytes.now) }
{
    writer.deliver(bytes);
    if writer.has_failed() {
        return Err(fault_of(writer.error()));
    }
    Ok(())
}

/// The fault that a failed write is with this error.
fn fault_of(error: Option<io::Error>) -> LogFault
    ensures { IsWriteFault error result }
{
    match error {
        Some(error) if error.kind() == io::ErrorKind::BrokenPipe => LogFault::Closed,
        _ => LogFault::Write,
    }
}
