//! A history, read whole: the grammar first, and then the parts.
//!
//! ```text
//!     latchhistory 1
//!     listing 0.500000                      part 0: a listing
//!     ffffffff81000108 T do_one             |
//!     ffffffffc0000010 t ext4_a  [ext4]     | its text, a slice of the file
//!     change 7.360695                       part 1: a change
//!     gone ext4                             | its text
//! ```
ghost use Rattle.std.specs.Prelude.{◌≡◌, ◌≤◌, ◌<◌, ◌^◌, ◌+◌, length};
ghost use Rattle.texts.specs.Said.{GivesInGrammar};
ghost use Rattle.logs.specs.Lines.{lines};
ghost use Rattle.histories.specs.ListingsAt.{changes_in};
ghost use Rattle.histories.specs.Grammar.{history_of, parts_from};
ghost use Rattle.histories.specs.Readings.{BeginsPart, IsBodyIn, IsPartIn};

use crate::grammar::{Header, header_in, is_understood_after, may_follow, time_text};
use crate::lines::{line_length, without_end};
use std::alloc::{AllocError, Global};
use std::marker::Model;
use texts::LineFault;

/// A listing or a change. A contract sees the bytes of its texts.
#[derive(Debug, Drop)]
pub struct Part<'a> {
    pub header: Header,
    /// Its TIME as it is written.
    pub time_text: &'a [u8],
    /// The lines that follow its header.
    pub text: &'a [u8],
}

impl<'a> Model for Part<'a> {
    ghost use Rattle.histories.specs.Grammar.{HistoryPart};

    ghost Value = { HistoryPart };

    ghost view = { λ p. record {
      header = p.header;
      time_text = p.time_text.now;
      text = p.text.now;
    } };
}

/// The parts of a history, in the order of time. A contract sees the list of them.
#[derive(Drop)]
pub struct History<'a> {
    pub(crate) parts: Vec<Part<'a>>,
}

impl<'a> Model for History<'a> {
    ghost use Rattle.std.specs.Prelude.{List};
    ghost use Rattle.histories.specs.Grammar.{AreInOrder, HistoryPart};

    ghost Value = { List HistoryPart };

    ghost view = { λ h. h.parts.items };

    ghost invariant = { λ h. AreInOrder h.parts.items };
}

/// How many parts a history has.
#[derive(Clone, Copy, Debug, Drop)]
pub struct PartCounts {
    pub listings: usize,
    pub changes: usize,
}

/// How many parts are changes.
fn changes_in(parts: &[Part]) -> usize
    ensures is { result ≡ changes_in parts.now }
    ensures within { result ≤ length parts.now }
{
    parts.iter().filter(|part| part.header.is_change).count()
}

impl<'a> History<'a> {
    ghost use Rattle.std.specs.Prelude.{option_map};
    ghost use Rattle.histories.specs.ListingsAt.{changes_in, listings_in, span_of};

    /// How many of its parts are listings, and how many are changes.
    pub fn counts(&self) -> PartCounts
        ensures listings { result.listings ≡ listings_in self.now }
        ensures changes { result.changes ≡ changes_in self.now }
    {
        let changes = changes_in(self.parts.as_slice());
        PartCounts {
            listings: self.parts.len() - changes,
            changes,
        }
    }

    /// The TIME of its first part and the one of its last, as they are written; none if it has no
    /// parts.
    pub fn span(&self) -> Option<(&'a [u8], &'a [u8])>
        ensures { option_map (λ s. (s.0.now, s.1.now)) result ≡ span_of self.now }
    {
        let first = self.parts.first()?;
        let last = self.parts.last()?;
        Some((first.time_text, last.time_text))
    }
}

/// The lines that follow a header, up to the next one or to the end of the text.
#[derive(Clone, Copy, Debug, Drop)]
struct Body<'a> {
    text: &'a [u8],
    /// The next header and what follows it.
    rest: &'a [u8],
    /// The number of the line with which this begins.
    number: u64,
}

/// The lines that follow a header, if their first has this number; or else the number of the first
/// of them that is not understood.
fn body_in<'a>(header: Header, first: u64, text: &'a [u8]) -> Result<Body<'a>, u64>
    requires { first + length text.now < 2 ^ 64 }
    ensures { IsBodyIn header first text.now result }
{
    let mut i = 0;
    let mut number = first;
    while i < text.len() {
        let rest = &text[i..];
        let end = line_length(rest);
        let line = without_end(&rest[..end]);
        if let Some(_) = header_in(line) {
            let text = &text[..i];
            return Ok(Body { text, rest, number });
        }
        if !is_understood_after(header, line) {
            return Err(number);
        }
        i += end;
        number += 1;
    }
    Ok(Body {
        text,
        rest: &[],
        number,
    })
}

/// The part with which these lines begin, after a part with this header or at the first line of
/// all, and the lines that follow it. The first of these has this number. If one is not understood,
/// its number is returned.
fn part_in<'a>(
    before: Option<Header>,
    number: u64,
    text: &'a [u8],
) -> Result<(Part<'a>, Body<'a>), u64>
    requires numbered { number + length text.now < 2 ^ 64 }
    requires some { 0 < length text.now }
    requires begins { BeginsPart before text.now }
    ensures { IsPartIn before number text.now result }
{
    let end = line_length(text);
    let line = without_end(&text[..end]);
    let Some(header) = header_in(line) else {
        return Err(number);
    };
    if !may_follow(before, header) {
        return Err(number);
    }
    let body = body_in(header, number + 1, &text[end..])?;
    let part = Part {
        header,
        time_text: time_text(line),
        text: body.text,
    };
    Ok((part, body))
}

/// The parts that these lines have, if their first has this number.
fn parts_in<'a>(alloc: Global, first: u64, text: &'a [u8]) -> Result<Vec<Part<'a>>, LineFault>
    requires { first + length text.now < 2 ^ 64 }
    ensures { GivesInGrammar (λ parts. parts.items) result (parts_from first (lines text.now)) }
{
    let mut parts = Vec::new(alloc);
    let mut before = None;
    let mut number = first;
    let mut rest = text;
    while !rest.is_empty() {
        match part_in(before, number, rest) {
            Ok((part, body)) => {
                before = Some(part.header);
                number = body.number;
                rest = body.rest;
                parts.push(part)?;
            }
            Err(bad) => return Err(LineFault::BadLine(bad)),
        }
    }
    Ok(parts)
}

/// Reads a history.
///
/// Its first line is `latchhistory 1`; then come listings and changes, each after its header
/// (`listing TIME`, `change TIME`). If a line is not understood, the fault is
/// [`BadLine`](LineFault::BadLine) with the number of the first such line, which is 1 of a text
/// without lines. No memory is [`OutOfMemory`](LineFault::OutOfMemory). No other fault comes.
pub fn read_history<'a>(alloc: Global, text: &'a [u8]) -> Result<History<'a>, LineFault>
    ensures { GivesInGrammar (λ history. history) result (history_of (lines text.now)) }
{
    if text.is_empty() {
        return Err(LineFault::BadLine(1));
    }
    let end = line_length(text);
    if without_end(&text[..end]) != b"latchhistory 1".as_slice() {
        return Err(LineFault::BadLine(1));
    }
    let parts = parts_in(alloc, 2, &text[end..])?;
    Ok(History { parts })
}
