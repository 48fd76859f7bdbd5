//! The lines that a trace writes, byte for byte.
ghost use Rattle.std.specs.Prelude.{flat_map};
ghost use Rattle.texts.specs.Output.{Says};
ghost use Rattle.order_laws.specs.Refusals.{refusal_number};
ghost use Rattle.command_traces.specs.TraceTexts.{end_text, note_text, refused_text, returned_text};
ghost use Rattle.command_traces.specs.TraceTexts.{tag_text};

use latch_steps::{Note, Returned};
use order_laws::{Item, Refusal};
use std::io::Write;
use texts::Output;

// what is between the numbers of a line
const ARROW: &[u8] = b" -> ";

const GENERATION: &[u8] = b" gen ";

const LOADS: &[u8] = b" loads ";

const TRIES: &[u8] = b" tries ";

const REFUSED: &[u8] = b"refused ";

const SEQUENCE: &[u8] = b"seq ";

/// Writes the lines of notes.
pub fn put_notes<W: Write>(writer: &mut Output<W>, notes: &[Note<u64>])
    ensures { Says W.contents writer.old writer.new (flat_map note_text notes.now) }
{
    for note in notes {
        put_note(writer, note);
    }
}

/// Writes the line of a note.
fn put_note<W: Write>(writer: &mut Output<W>, note: &Note<u64>)
    ensures { Says W.contents writer.old writer.new (note_text note.now) }
{
    match note {
        Note::Returned(returned) => put_returned(writer, returned),
        Note::Refused(refusal) => put_refused(writer, *refusal),
    }
}

/// Writes `R ADDR -> TAG gen J loads S tries T` and a line's end: reader, key, the item's tag or
/// `-`, the generation of the answer, how many loads and attempts it took.
fn put_returned<W: Write>(writer: &mut Output<W>, returned: &Returned<u64>)
    ensures { Says W.contents writer.old writer.new (returned_text returned.now) }
{
    writer.put_decimal(u64::from(returned.reader));
    writer.put(b" ");
    writer.put_hexadecimal(returned.key);
    writer.put(ARROW);
    put_tag(writer, returned.answer);
    writer.put(GENERATION);
    writer.put_decimal(returned.generation);
    writer.put(LOADS);
    writer.put_decimal(returned.loads);
    writer.put(TRIES);
    writer.put_decimal(returned.attempts);
    writer.put(b"\n");
}

/// Writes the tag of the item that was found, or `-`.
fn put_tag<W: Write>(writer: &mut Output<W>, answer: Option<Item>)
    ensures { Says W.contents writer.old writer.new (tag_text answer) }
{
    match answer {
        Some(item) => writer.put_decimal(item.tag),
        None => writer.put(b"-"),
    }
}

/// Writes `refused N` and a line's end.
pub fn put_refused<W: Write>(writer: &mut Output<W>, refusal: Refusal)
    ensures { Says W.contents writer.old writer.new
        (refused_text (refusal_number refusal)) }
{
    writer.put(REFUSED);
    writer.put_decimal(u64::from(refusal.number()));
    writer.put(b"\n");
}

/// Writes `seq K gen J` and a line's end: the sequence, and the generation that it names.
pub fn put_end<W: Write>(writer: &mut Output<W>, sequence: u64)
    ensures { Says W.contents writer.old writer.new (end_text sequence) }
{
    writer.put(SEQUENCE);
    writer.put_decimal(sequence);
    writer.put(GENERATION);
    writer.put_decimal(sequence / 2);
    writer.put(b"\n");
}
