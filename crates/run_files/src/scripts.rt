//! Scripts: what the writers and the readers of a running table do.
//!
//! ```text
//! load 1 ext4
//! look 2 0xffffffffc0c00018
//! init 1 ext4
//! unload 1 ext4
//! VERB ACTOR WHAT
//! ```
//!
//! A line has three words with exactly one blank between two of them. The actor is the number of a
//! writer or of a reader, and names are any bytes but a blank.
ghost use Rattle.std.specs.Prelude.{◌≡◌, true, All, map, IfOk};
ghost use Rattle.texts.specs.Said.{GivesInGrammar};
ghost use Rattle.run_files.specs.Scripts.{change_by, has_actor, script_line_by, script_line_of};
ghost use Rattle.run_files.specs.Scripts.{script_of};

use std::alloc::{AllocError, Global};
use std::marker::Model;
use texts::{Form, LineFault, entries_in, number, number_up_to, words_in};

/// The greatest number of a writer.
pub const MOST_WRITERS: u32 = 8;

/// The name of a module, any bytes of the text that was read; `-` is the built-in region.
#[derive(Debug, Drop)]
pub struct ModuleName<'a> {
    pub bytes: &'a [u8],
}

impl<'a> Model for ModuleName<'a> {
    ghost use Rattle.std.specs.Prelude.{ℕ, List};

    ghost Value = { List ℕ };

    ghost view = { λ n. n.bytes.now };
}

/// What a line of a script has one writer or one reader do.
#[derive(Debug, Drop)]
pub enum ScriptLine<'a> {
    /// `load W NAME`: the writer loads the module.
    Load { writer: u32, name: ModuleName<'a> },
    /// `unload W NAME`: the writer unloads the module.
    Unload { writer: u32, name: ModuleName<'a> },
    /// `init W NAME`: the writer drops what the start of the module alone needed.
    Init { writer: u32, name: ModuleName<'a> },
    /// `look R ADDR`: the reader looks the address up.
    Look { reader: u32, address: u64 },
}

/// What `load`, `unload` or `init` has this writer do with the module of this name.
fn change_in<'a>(verb: &[u8], writer: u32, name: &'a [u8]) -> Option<ScriptLine<'a>>
    ensures { result ≡ change_by verb.now writer name.now }
{
    if name.is_empty() {
        return None;
    }
    let name = ModuleName { bytes: name };
    if verb == b"load".as_slice() {
        Some(ScriptLine::Load { writer, name })
    } else if verb == b"unload".as_slice() {
        Some(ScriptLine::Unload { writer, name })
    } else if verb == b"init".as_slice() {
        Some(ScriptLine::Init { writer, name })
    } else {
        None
    }
}

/// What these words have an actor do.
fn line_in_words<'a>(words: &[&'a [u8]], readers: u32) -> Option<ScriptLine<'a>>
    ensures { result ≡ script_line_of readers (map (λ w. w.now) words.now) }
{
    match words {
        [verb, actor, what] if *verb == b"look".as_slice() => Some(ScriptLine::Look {
            reader: number_up_to(actor, readers)?,
            address: number(what)?,
        }),
        [verb, actor, what] => change_in(verb, number_up_to(actor, MOST_WRITERS)?, what),
        _ => None,
    }
}

/// What a line has an actor do.
#[tactic(auto, using(crate::proofs::ScriptLineLemmas::line_too_long))]
fn line_in<'a>(line: &'a [u8], readers: u32) -> Option<ScriptLine<'a>>
    ensures { result ≡ script_line_by readers line.now }
{
    line_in_words(&words_in::<3>(line)?, readers)
}

/// The form of a line of a script for this many readers.
#[derive(Drop)]
struct ScriptForm {
    readers: u32,
}

impl<'a> Form<'a> for ScriptForm {
    type Entry = ScriptLine<'a>;

    ghost entry_of = { λ form line. script_line_by form.readers line };

    fn entry(&self, line: &'a [u8]) -> Result<Option<ScriptLine<'a>>, AllocError> {
        Ok(line_in(line, self.readers))
    }
}

/// The lines of a script for this many readers, in their order.
///
/// Each line is `load W NAME`, `unload W NAME`, `init W NAME` or `look R ADDR` with exactly one
/// blank between two words, or is passed over: it is empty, or a comment that begins with `#`. W is
/// a NUMBER from 1 to [`MOST_WRITERS`], R one from 1 to `readers` and ADDR any NUMBER (as
/// [`number`] reads them); NAME is one byte or more and has no blank. No line, also no comment, has
/// more than [`LONGEST_LINE`](texts::LONGEST_LINE) bytes. Bytes after the last line's end are a
/// line too. Any other line is [`LineFault::BadLine`], the first of them. No reader is asked here,
/// so that [`LineFault::Read`] is never returned. The names are parts of the text.
pub fn read_script<'a>(
    alloc: Global,
    text: &'a [u8],
    readers: u32,
) -> Result<Vec<ScriptLine<'a>>, LineFault>
    ensures lines { GivesInGrammar (λ lines. lines.items) result (script_of readers text.now) }
    ensures actors { IfOk result (λ lines. All (λ l. has_actor readers l ≡ true) lines.items) }
{
    entries_in(alloc, &ScriptForm { readers }, 1, text)
}
