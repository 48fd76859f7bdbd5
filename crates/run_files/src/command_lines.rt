//! The commands of a trace one after another, in the order of their lines.

ghost use Rattle.std.specs.Prelude.{◌≡◌, ◌≢◌, ◌<◌, [], Err, IfErr, IfOk, IfSome, IsErr, IsSome, OnOk};
ghost use Rattle.std.specs.Option.{option_map_or};
ghost use Rattle.run_files.specs.CommandLines.{GivesCommand, IsUnderstood};
ghost use Rattle.texts.specs.Said.{FaultsInGrammar};
ghost use Rattle.run_files.specs.Trace.{command_lines, trace_of, with_header};

use crate::commands::CommandForm;
use crate::header::{Header, header_in};
use latch_steps::Command;
use std::alloc::Global;
use std::marker::Model;
use texts::{LineFault, cut_line, next_entry_in};

/// The lines of a trace that are left. A contract sees what they say: their commands with the
/// numbers of their lines, or the number of the first that is not in the grammar.
#[derive(Drop)]
pub struct CommandLines<'a> {
    form: CommandForm,
    number: u64,
    rest: &'a [u8],
}

impl<'a> Model for CommandLines<'a> {
    ghost use Rattle.run_files.specs.CommandLines.{LinesLeft, lines_left};
    ghost use Rattle.texts.specs.Said.{AreNumbered};

    ghost Value = { LinesLeft };

    ghost view = { λ c. lines_left c.form c.number c.rest.now };

    ghost invariant = { λ c. AreNumbered c.number c.rest.now };
}

/// A command, and the number of the line that it is on.
#[derive(Debug, PartialEq, Eq, Drop)]
pub struct NumberedCommand {
    pub line: u64,
    pub command: Command<u64>,
}

/// The header of a trace, and the lines after it; nothing if line 1 is no header.
///
/// Line 1 is the header, `latchtrace VERSION ORDER CAPACITY` with START after it or not. Each
/// later line is empty, a comment that begins with `#`, or one of `insert LO HI TAG`, `erase LO`,
/// `write K`, `write flip`, `write end`, `start R ADDR`, `read R K` and, from version 2 on, `batch
/// E I ..` with E first words and three numbers for each of I items after it, with exactly one
/// blank between two words. No line, also no comment, has more than
/// [`LONGEST_LINE`](texts::LONGEST_LINE) bytes. Bytes after the last line's end are a line too; a
/// trace of no bytes has a bad line 1.
pub fn open_trace<'a>(alloc: Global, bytes: &'a [u8]) -> Option<(Header, CommandLines<'a>)>
    ensures trace { trace_of bytes.now
        ≡ option_map_or (λ opened. with_header opened.0 opened.1.said) result (Err 1) }
    ensures lines { IfSome result (λ opened. opened.1.lines ≡ command_lines bytes.now) }
{
    if bytes.is_empty() {
        return None;
    }
    let (line, rest) = cut_line(bytes);
    let header = header_in(line)?;
    let form = CommandForm {
        alloc,
        version: header.version,
    };
    let lines = CommandLines {
        form,
        number: 2,
        rest,
    };
    Some((header, lines))
}

impl<'a> CommandLines<'a> {
    /// The next command, if there is one. Empty lines and comments are passed over.
    pub fn next_command(&mut self) -> Result<Option<NumberedCommand>, LineFault>
        ensures next { GivesCommand self.old self.new result }
        ensures some { IsErr result → self.old.said ≢ Ok [] }
        ensures fewer { IfOk result (λ next. IsSome next → self.new.bytes < self.old.bytes) }
    {
        match next_entry_in(&self.form, self.number, self.rest)? {
            None => Ok(None),
            Some(next) => {
                self.number = next.line + 1;
                self.rest = next.rest;
                Ok(Some(NumberedCommand {
                    line: next.line,
                    command: next.entry,
                }))
            }
        }
    }

    /// Looks whether each of the lines is in the grammar, and leaves them as they are.
    pub fn understand(&self) -> Result<(), LineFault>
        ensures understood { OnOk result (IsUnderstood self.now.said) }
        ensures fault { IfErr result (λ fault. FaultsInGrammar fault self.now.said) }
    {
        let mut left = CommandLines {
            form: self.form,
            number: self.number,
            rest: self.rest,
        };
        while let Some(_) = left.next_command()? {}
        Ok(())
    }
}
