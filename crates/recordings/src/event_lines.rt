//! The lines of events as blocks come.
//!
//! ```text
//!     block    ..  module_load: xfs⏎ ..  7.36069|5: module_free: ext4⏎ ..
//!     read     ..  module_load: xfs⏎            |
//!     kept                           ..  7.36069, until the block with its end
//! ```
//!
//! Of a line that is too long so much is kept that it is still too long once it ends.
ghost use Rattle.std.specs.Prelude.{◌≡◌, ◌≤◌, List, ℕ, false, length, map, take, drop, IfOk, OnOk};
ghost use Rattle.logs.specs.Lines.{AreWhole, has_end, lines};
ghost use Rattle.recordings.specs.EventLines.{IsOpen, TakesBlock, kept_with};
ghost use Rattle.recordings.specs.Events.{said_by};

use crate::events::{EventLine, LONGEST, said_by};
use crate::lines::first_line;
use logs::cut_line;
use std::alloc::{AllocError, Global};

/// How many bytes the whole lines have with which a block begins.
fn whole_length(block: &[u8]) -> usize
    ensures within { result ≤ length block.now }
    ensures whole { AreWhole (take result block.now) }
    ensures none { has_end (drop result block.now) ≡ false }
{
    let mut rest = block;
    while let Some((_, more)) = cut_line(rest) {
        rest = more;
    }
    block.len() - rest.len()
}

/// Takes a block in. Returns a text whose lines say what those say that have their end now; of the
/// line after them is kept what was begun.
pub(crate) fn take_block(
    alloc: Global,
    begun: &mut Vec<u8>,
    block: &[u8],
) -> Result<Vec<u8>, AllocError>
    ensures { IfOk result (λ text. (line : List ℕ) → IsOpen begun.old.items line
        → TakesBlock begun.new.items line block.now text.items) }
{
    let end = whole_length(block);
    if end == 0 {
        keep(begun, block)?;
        return Ok(Vec::new(alloc));
    }
    let mut text = Vec::with_capacity(alloc, begun.len().saturating_add(end))?;
    text.extend_from_slice(begun)?;
    text.extend_from_slice(&block[..end])?;
    begun.clear();
    begun.extend_from_slice(&block[end..])?;
    Ok(text)
}

/// Keeps bytes of a line that has no end yet, unless so much of it is kept that it is too long.
fn keep(begun: &mut Vec<u8>, bytes: &[u8]) -> Result<(), AllocError>
    ensures { OnOk result (begun.new.items ≡ kept_with begun.old.items bytes.now) }
{
    if begun.len() > LONGEST {
        return Ok(());
    }
    begun.extend_from_slice(bytes)?;
    Ok(())
}

/// What the lines of a text say, each by itself.
pub(crate) fn event_lines<'a>(
    alloc: Global,
    text: &'a [u8],
) -> Result<Vec<EventLine<'a>>, AllocError>
    ensures { IfOk result (λ said. said.items ≡ map said_by (lines text.now)) }
{
    let mut said = Vec::new(alloc);
    let mut rest = text;
    while !rest.is_empty() {
        let (line, more) = first_line(rest);
        said.push(said_by(line))?;
        rest = more;
    }
    Ok(said)
}
