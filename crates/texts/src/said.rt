//! What the lines of a text say, if each has to be understood.
ghost use Rattle.std.specs.Prelude.{◌≡◌, ◌≢◌, [], IfOk, IsErr};
ghost use Rattle.texts.specs.Lines.{lines_of};
ghost use Rattle.texts.specs.Said.{entries_from, is_passed_over, is_too_long, said_by};
ghost use Rattle.texts.specs.Said.{AreNumbered, GivesInGrammar, GivesNext, HasLine, LeavesFewer};

use crate::LineFault;
use crate::lines::{LONGEST_LINE, cut_line};
use std::alloc::{AllocError, Global};

/// A form of lines.
pub trait Form<'a> {
    ghost use Rattle.std.specs.Prelude.{ℕ, List, Option};

    /// What a line of this form is.
    type Entry: Drop;

    /// The entry that the bytes of a line are, if they are one.
    ghost entry_of: { Self → List ℕ → Option Self.Entry };

    /// The entry that a line is, if it is one.
    fn entry(&self, line: &'a [u8]) -> Result<Option<Self::Entry>, AllocError>
        ensures { IfOk result (λ entry. entry ≡ entry_of self.now line.now) };
}

/// What a line says.
#[derive(Debug, Drop)]
pub enum LineMeaning<T> {
    /// The line is empty, or a comment.
    Nothing,
    /// The line is this entry.
    One(T),
    /// The line is not in the grammar.
    Bad,
}

/// Whether the line has more bytes than a line may have.
pub fn is_too_long(line: &[u8]) -> bool
    ensures { result ≡ is_too_long line.now }
{
    line.len() > LONGEST_LINE
}

/// Whether the line is empty, or a comment: a line whose first byte is `#`.
fn is_passed_over(line: &[u8]) -> bool
    ensures { result ≡ is_passed_over line.now }
{
    match line {
        [] => true,
        [first, ..] => *first == b'#',
    }
}

/// What a line says, in a text whose lines have this form.
fn said_by<'a, F: Form<'a>>(form: &F, line: &'a [u8]) -> Result<LineMeaning<F::Entry>, AllocError>
    ensures said { IfOk result (λ said. said ≡ said_by (F.entry_of form.now) line.now) }
    ensures some { IsErr result → said_by (F.entry_of form.now) line.now ≢ LineMeaning.Nothing }
{
    if is_too_long(line) {
        return Ok(LineMeaning::Bad);
    }
    if is_passed_over(line) {
        return Ok(LineMeaning::Nothing);
    }
    match form.entry(line)? {
        Some(entry) => Ok(LineMeaning::One(entry)),
        None => Ok(LineMeaning::Bad),
    }
}

/// An entry of a text, the number of its line, and the lines after it.
#[derive(Drop)]
pub struct NextEntry<'a, T> {
    pub entry: T,
    pub line: u64,
    pub rest: &'a [u8],
}

/// The first entry that the lines of a text are, if one is. The first line has the number `first`.
pub fn next_entry_in<'a, F: Form<'a>>(
    form: &F,
    first: u64,
    text: &'a [u8],
) -> Result<Option<NextEntry<'a, F::Entry>>, LineFault>
    requires { AreNumbered first text.now }
    ensures next { GivesNext (F.entry_of form.now) first text.now result }
    ensures some { IsErr result
        → entries_from (F.entry_of form.now) first (lines_of text.now) ≢ Ok [] }
    ensures line { IfOk result (HasLine first text.now) }
    ensures behind { IfOk result (LeavesFewer first text.now) }
{
    let mut rest = text;
    let mut number = first;
    while !rest.is_empty() {
        let (line, after) = cut_line(rest);
        let said = said_by(form, line)?;
        match said {
            LineMeaning::Nothing => {}
            LineMeaning::One(entry) => {
                return Ok(Some(NextEntry {
                    entry,
                    line: number,
                    rest: after,
                }));
            }
            LineMeaning::Bad => return Err(LineFault::BadLine(number)),
        }
        rest = after;
        number += 1;
    }
    Ok(None)
}

/// The entries that the lines of a text are, in their order. The first line has the number `first`.
pub fn entries_in<'a, F: Form<'a>>(
    alloc: Global,
    form: &F,
    first: u32,
    text: &'a [u8],
) -> Result<Vec<F::Entry>, LineFault>
    ensures { GivesInGrammar (λ entries. entries.items) result
        (entries_from (F.entry_of form.now) first (lines_of text.now)) }
{
    let mut entries = Vec::new(alloc);
    let mut rest = text;
    let mut number = u64::from(first);
    while let Some(next) = next_entry_in(form, number, rest)? {
        entries.push(next.entry)?;
        rest = next.rest;
        number = next.line + 1;
    }
    Ok(entries)
}
