//! A log that is written again with the text of the answer after each address.
ghost use Rattle.std.specs.Prelude.{◌≡◌, ◌++◌, List, ℕ, IfOk, take};
ghost use Rattle.logs.specs.Annotation.{Annotates, IsAnnotationOf, Puts};

use crate::annotator::{Annotator, put_now};
use crate::answers::Answers;
use crate::kernel_reports::says_nothing;
use crate::log_names::LogNames;
use std::alloc::{AllocError, Global};
use std::io::{Read, Write};
use texts::{BLOCK, Counted, Output};

/// Why a log was not annotated to its end.
#[derive(Clone, Copy, Debug, PartialEq, Eq)]
pub enum LogFault {
    /// A growth of memory was refused.
    OutOfMemory,
    /// The reader failed.
    Read,
    /// The writer failed.
    Write,
    /// Nobody reads any more what is written.
    Closed,
    /// The log has more bytes than a `u64` counts.
    TooLong,
}

impl From<AllocError> for LogFault {
    ghost use Rattle.logs.specs.declared.annotation.LogFault.TheVariants.{OutOfMemory};

    ghost from_gives = { λ _ fault. fault ≡ OutOfMemory };

    fn from(_error: AllocError) -> LogFault {
        LogFault::OutOfMemory
    }
}

/// What was found of a log.
#[derive(Drop)]
pub struct Findings {
    pub names: LogNames,
    /// Its first two bytes, by which a packed one is known, or fewer of a shorter one.
    pub head: Vec<u8>,
}

/// Keeps the first two bytes of a log, whose blocks come one after the other.
#[tactic(auto, using(crate::proofs::AnnotationLemmas::head_more, std::proofs::lemmas::List::take_min))]
pub fn keep_head(head: &mut Vec<u8>, block: &[u8]) -> Result<(), AllocError>
    ensures { IfOk result (λ _. (read : List ℕ) → head.old.items ≡ take 2 read
        → head.new.items ≡ take 2 (read ++ block.now)) }
{
    let missing = 2usize.saturating_sub(head.len());
    head.extend_from_slice(&block[..missing.min(block.len())])?;
    Ok(())
}

/// Writes a log again, with a blank and the text of the answer after each address word and the
/// closers that follow it, if the answer is not `-` and the log does not have it there already.
/// Returns what was found of it.
///
/// After each block that was read each line is written that has its end, and the writer flushed.
/// A line without an end is kept until it has one, or no more comes; a line of more than 65536
/// bytes is written as it is, as it comes. Whatever ends it, what was written is a beginning of
/// the annotated log.
pub fn annotate<A: Answers, R: Read, W: Write>(
    alloc: Global,
    answers: &mut A,
    reader: &mut Counted<R>,
    writer: &mut Output<W>,
) -> Result<Findings, LogFault>
    ensures { Annotates R.remaining W.contents (A.answering answers.old)
        reader.old reader.new writer.old writer.new result }
{
    let mut room = Vec::new(alloc);
    room.resize(BLOCK, 0)?;
    let block = room.as_mut_slice();
    let mut annotator = Annotator::new(alloc);
    let mut head = Vec::new(alloc);
    for turn in 0..u64::MAX {
        let Ok(count) = reader.read(block) else {
            return Err(LogFault::Read);
        };
        if count == 0 {
            let names = annotator.end(alloc, answers, writer)?;
            return Ok(Findings { names, head });
        }
        keep_head(&mut head, &block[..count])?;
        annotator.pass_block(alloc, answers, &block[..count], writer)?;
    }
    Err(LogFault::TooLong)
}

/// Writes a log that is in memory again as [`annotate`] does, in one piece, and flushes the writer.
/// Nothing is written if memory runs out.
pub fn annotate_text<A: Answers, W: Write>(
    alloc: Global,
    answers: &mut A,
    log: &[u8],
    writer: &mut Output<W>,
) -> Result<Findings, LogFault>
    ensures { Puts W.contents (IsAnnotationOf (A.answering answers.old) log.now)
        writer.old writer.new result }
{
    let mut head = Vec::new(alloc);
    keep_head(&mut head, log)?;
    let is_silent = says_nothing(log);
    answers.prepare(is_silent)?;
    let (out, names) = Annotator::annotated(alloc, answers, log, is_silent)?;
    put_now(writer, &out)?;
    Ok(Findings { names, head })
}
