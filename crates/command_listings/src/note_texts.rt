//! The lines that say what is noted of listings, byte for byte, with no memory taken.
ghost use Rattle.std.specs.Prelude.{◌≡◌, ◌++◌, codes};
ghost use Rattle.texts.specs.Output.{Says};
ghost use Rattle.modules.specs.Lines.{usual_bounds};
ghost use Rattle.command_listings.specs.NoteTexts.{line_if_noted, line_where, lines_by, message_of};
ghost use Rattle.command_listings.specs.NoteTexts.{missing_text, naming_text, note_head, note_line};
ghost use Rattle.command_listings.specs.NoteTexts.{note_lines, remedy_text, unlisted_text};

use crate::sources::{ListingFiles, Sources};
use listing::{ListingNote, ListingNotes, Owner, plain_text};
use modules::KernelBounds;
use std::io::Write;
use texts::Output;

// what lines of notes say beside the names of files, symbols and owners
const NOTE: &[u8] = b"latchsym: note: ";

const NO_SYMBOL: &[u8] = b"has no symbol ";

const TRY_KERNEL: &[u8] = b"; try --kernel _stext _einittext";

const MODULES_OVERLAP: &[u8] =
    b"modules overlap, as sizes do from Linux 6.4 on; leave --modules out";

const NO_MODULE: &[u8] = b"lists no module ";

const LEFT_OUT: &[u8] = b", whose symbols are left out; leave --modules out";

// the symbols at the bounds of the kernel
const STEXT: &[u8] = b"_stext";

const ETEXT: &[u8] = b"_etext";

const END: &[u8] = b"_end";

/// Writes what is noted of these listings.
pub fn put_notes_of<W: Write>(writer: &mut Output<W>, sources: &Sources<'_>, notes: &ListingNotes)
    ensures { Says W.contents writer.old writer.new
        (note_lines sources.now.kernel sources.now.files notes.now) }
{
    // a usual bound is missed if the listing has none of the names that it may have
    let missed = KernelBounds {
        start: STEXT,
        end: ETEXT,
    };
    let names = sources.kernel.as_ref().unwrap_or(&missed);
    put_listing_notes(writer, names, &sources.files, notes);
}

/// Writes what is noted of the listings in these files, if these names bound the kernel.
pub fn put_listing_notes<W: Write>(
    writer: &mut Output<W>,
    names: &KernelBounds,
    files: &ListingFiles<'_>,
    notes: &ListingNotes,
)
    ensures { Says W.contents writer.old writer.new
        (lines_by names.now files.now.modules files.now.kallsyms.now notes.now) }
{
    let kallsyms = files.kallsyms.as_bytes();
    match files.modules {
        Some(modules) => {
            put_if_noted(writer, names, modules.as_bytes(), notes.modules);
            put_if_noted(writer, names, kallsyms, notes.kallsyms);
        }
        None => put_if_noted(writer, names, kallsyms, notes.kallsyms),
    }
}

/// Writes what is noted of the listing in this file, if something is.
pub fn put_if_noted<W: Write>(
    writer: &mut Output<W>,
    names: &KernelBounds,
    file: &[u8],
    note: Option<ListingNote>,
)
    ensures { Says W.contents writer.old writer.new
        (line_if_noted names.now file.now note) }
{
    match note {
        Some(note) => put_note(writer, names, file, note),
        None => {}
    }
}

/// Writes the line of a note on the listing in this file, if it applies.
pub(crate) fn put_note_where<W: Write>(
    writer: &mut Output<W>,
    names: &KernelBounds,
    file: &[u8],
    note: ListingNote,
    applies: bool,
)
    ensures { Says W.contents writer.old writer.new
        (line_where applies (note_line names.now file.now note)) }
{
    if applies {
        put_note(writer, names, file, note)
    }
}

/// Writes `latchsym: note: FILE: TEXT` and a line's end.
fn put_note<W: Write>(writer: &mut Output<W>, names: &KernelBounds, file: &[u8], note: ListingNote)
    ensures { Says W.contents writer.old writer.new (note_line names.now file.now note) }
{
    put_note_head(writer, file);
    put_message(writer, names, note);
    writer.put(b"\n");
}

/// Writes `latchsym: note: FILE: `.
pub fn put_note_head<W: Write>(writer: &mut Output<W>, file: &[u8])
    ensures { Says W.contents writer.old writer.new (note_head file.now) }
{
    writer.put(NOTE);
    writer.put(file);
    writer.put(b": ");
}

/// Writes what a note says that speaks of no names of bounds, and a line's end.
pub(crate) fn put_plain_note<W: Write>(writer: &mut Output<W>, note: ListingNote)
    ensures { Says W.contents writer.old writer.new (message_of usual_bounds note ++ codes "\n") }
{
    put_message(writer, &KernelBounds::usual(), note);
    writer.put(b"\n");
}

/// Writes what a note says.
fn put_message<W: Write>(writer: &mut Output<W>, names: &KernelBounds, note: ListingNote)
    ensures { Says W.contents writer.old writer.new (message_of names.now note) }
{
    match plain_text(note) {
        Some(text) => writer.put(text),
        None => put_naming(writer, names, note),
    }
}

/// Writes what a note says that names something.
fn put_naming<W: Write>(writer: &mut Output<W>, names: &KernelBounds, note: ListingNote)
    ensures { Says W.contents writer.old writer.new (naming_text names.now note) }
{
    match note {
        ListingNote::NoStart => put_missing(writer, names.start),
        ListingNote::NoEnd => put_missing(writer, names.end),
        ListingNote::ModulesOverlap => writer.put(MODULES_OVERLAP),
        ListingNote::UnlistedOwner(owner) => put_unlisted(writer, owner),
        ListingNote::Empty
        | ListingNote::Gzip
        | ListingNote::Utf16
        | ListingNote::AllHidden
        | ListingNote::LooksLikeSymbols
        | ListingNote::LooksLikeModules
        | ListingNote::LinesEndInCrLf
        | ListingNote::OtherBoot
        | ListingNote::NoModuleLine
        | ListingNote::NoSymbolLine => {}
    }
}

/// Writes that no listing of modules has this owner, and what to leave out.
fn put_unlisted<W: Write>(writer: &mut Output<W>, owner: Owner)
    ensures { Says W.contents writer.old writer.new (unlisted_text owner) }
{
    writer.put(NO_MODULE);
    writer.put(owner.name());
    writer.put(LEFT_OUT);
}

/// Writes that a symbol of this name is missing, and what to try.
fn put_missing<W: Write>(writer: &mut Output<W>, name: &[u8])
    ensures { Says W.contents writer.old writer.new (missing_text name.now) }
{
    writer.put(NO_SYMBOL);
    writer.put(name);
    writer.put(remedy(name));
}

/// What to try if a symbol of this name is missing.
fn remedy(name: &[u8]) -> &'static [u8]
    ensures { result.now ≡ remedy_text name.now }
{
    if name == END { TRY_KERNEL } else { b"" }
}
