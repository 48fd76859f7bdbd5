//! A line of a log with the texts of its answers.
//!
//! The line is gone through from one word to the next that may be an address. The bytes up to an
//! insertion are put at once, and so is the rest:
//!
//! ```text
//!     at [<ffffffff81000108>] of 3 pages
//!     |---------------------|                       put, and then ` do_one+0x8/0x1f00`
//!                            |----------|           put at the end
//! ```
ghost use Rattle.std.specs.Prelude.{◌≡◌, ◌≤◌, ◌<◌, ◌++◌, ◌∷◌, length, IfOk};
ghost use Rattle.std.specs.List.{list_any};
ghost use Rattle.logs.specs.TakenWords.{taken_in};
ghost use Rattle.logs.specs.AnnotatedLogs.{annotated_line, counted, framed, context_behind, owed};
ghost use Rattle.logs.specs.AnnotatedLogs.{tallied, annotated_from};
ghost use Rattle.logs.specs.KernelReports.{SaysAtMost};
ghost use Rattle.logs.specs.Words.{part, words_behind};

use crate::address_words::{AddressWord, address_at, carry_context, taken_at};
use crate::answers::Answers;
use crate::contexts::LogContext;
use crate::kernel_reports::Said;
use crate::log_names::LogNames;
use crate::own_names::read_word;
use crate::words::{Word, behind_closers, next_candidate};
use std::alloc::AllocError;

/// The most bytes of a line that is annotated.
pub(crate) const LONGEST: usize = 1 << 16;

/// How far a line was put, and what its words so far say.
#[derive(Drop)]
pub(crate) struct LineProgress {
    /// The place from which the next word is sought.
    pub(crate) at: usize,
    /// The place up to which the line was put.
    pub(crate) put: usize,
    /// The last address word.
    pub(crate) last: Option<AddressWord>,
    pub(crate) has_frame: bool,
    pub(crate) names: LogNames,
}

/// Puts a line with the texts of its answers. What it is known not to say of its kernel is not
/// sought in it.
#[tactic(auto, unfolding(crate::specs::AnnotatedLogs::annotated_line, crate::specs::AnnotatedLogs::context_behind))]
pub(crate) fn put_line<A: Answers>(
    answers: &A,
    context: &mut LogContext,
    line: &[u8],
    said: Said,
    out: &mut Vec<u8>,
) -> Result<(), AllocError>
    requires { SaysAtMost said line.now }
    ensures text { IfOk result (λ _. out.new.items
        ≡ out.old.items ++ annotated_line (A.answering answers.now) context.old line.now) }
    ensures context { IfOk result (λ _. context.new
        ≡ context_behind (A.answering answers.now) context.old line.now) }
{
    if line.len() > LONGEST {
        return out.extend_from_slice(line);
    }
    let progress = put_words(answers, *context, line, out)?;
    context.names = progress.names.with_line(answers, line, said)?;
    carry_context(context, line, progress.has_frame);
    Ok(())
}

/// Puts the line with the texts of its answers, and returns what its words say.
fn put_words<A: Answers>(
    answers: &A,
    context: LogContext,
    line: &[u8],
    out: &mut Vec<u8>,
) -> Result<LineProgress, AllocError>
    ensures text { IfOk result (λ _. out.new.items ≡ out.old.items
        ++ annotated_from (A.answering answers.now) line.now 0
        (taken_in (A.answering answers.now).is_narrow context line.now)) }
    ensures frame { IfOk result (λ p. p.has_frame ≡ list_any (λ t. t.is_frame)
        (taken_in (A.answering answers.now).is_narrow context line.now)) }
    ensures names { IfOk result (λ p. p.names
        ≡ counted (A.answering answers.now) line.now context.names
        (taken_in (A.answering answers.now).is_narrow context line.now)) }
{
    let mut progress = LineProgress {
        at: 0,
        put: 0,
        last: None,
        has_frame: false,
        names: context.names,
    };
    loop {
        match next_candidate(answers.is_narrow(), line, progress.at) {
            Some(word) => put_word(answers, context, line, &mut progress, word, out)?,
            None => {
                out.extend_from_slice(&line[progress.put..])?;
                return Ok(progress);
            }
        }
    }
}

/// Puts the bytes before a word, and the text that is inserted after it, if there is one.
fn put_word<A: Answers>(
    answers: &A,
    context: LogContext,
    line: &[u8],
    progress: &mut LineProgress,
    word: Word,
    out: &mut Vec<u8>,
) -> Result<(), AllocError>
    requires word { word.start < word.end }
    requires within { word.end ≤ length line.now }
    requires put { progress.old.put ≤ word.start }
    ensures text { IfOk result (λ _. out.new.items
        ++ owed (A.answering answers.now) context line.now progress.new
        (words_behind line.now progress.new.at)
        ≡ out.old.items ++ owed (A.answering answers.now) context line.now progress.old
        (word ∷ words_behind line.now word.end)) }
    ensures frame { IfOk result (λ _. framed (A.answering answers.now) context line.now progress.new
        (words_behind line.now progress.new.at)
        ≡ framed (A.answering answers.now) context line.now progress.old
        (word ∷ words_behind line.now word.end)) }
    ensures names { IfOk result (λ _.
        tallied (A.answering answers.now) context line.now progress.new
        (words_behind line.now progress.new.at)
        ≡ tallied (A.answering answers.now) context line.now progress.old
        (word ∷ words_behind line.now word.end)) }
    ensures at { IfOk result (λ _. word.end ≤ progress.new.at) }
    ensures within { IfOk result (λ _. progress.new.at ≤ length line.now) }
    ensures put { IfOk result (λ _. progress.new.put ≤ progress.new.at) }
{
    let narrow = answers.is_narrow();
    let Some(value) = address_at(narrow, line, word) else {
        progress.at = word.end;
        return Ok(());
    };
    let taken = taken_at(narrow, context, line, progress.last, word, value);
    let place = behind_closers(line, word.end);
    let rest = &line[place..];
    let reading = read_word(answers, rest, taken)?;
    progress.at = place;
    progress.last = Some(taken);
    progress.has_frame = progress.has_frame || taken.is_frame;
    progress.names = progress.names.with_address(
        answers,
        reading.word,
        rest,
        reading.said.as_ref(),
        reading.text.as_deref(),
    );
    match reading.insertion() {
        None => Ok(()),
        Some(text) => {
            put_insertion(line, progress, place, &text, out)?;
            Ok(())
        }
    }
}

/// Puts the bytes up to a place, and the text that is inserted there.
fn put_insertion(
    line: &[u8],
    progress: &mut LineProgress,
    place: usize,
    text: &[u8],
    out: &mut Vec<u8>,
) -> Result<(), AllocError>
    requires from { progress.old.put ≤ place }
    requires within { place ≤ length line.now }
    ensures text { IfOk result (λ _. out.new.items
        ≡ out.old.items ++ part line.now progress.old.put place ++ text.now) }
    ensures put { IfOk result (λ _. progress.new ≡ record progress.old { put = place }) }
{
    out.extend_from_slice(&line[progress.put..place])?;
    out.extend_from_slice(text)?;
    progress.put = place;
    Ok(())
}
