//! What is noted of listings, said if something is.
ghost use Rattle.listing.specs.ListingNotes.{is_some_noted};
ghost use Rattle.command_listings.specs.NoteTexts.{IsNoted, note_lines};

use crate::note_texts::put_notes_of;
use crate::sources::Sources;
use listing::ListingNotes;
use std::io::Write;
use texts::Output;

/// Writes what is noted of these listings, if something is.
pub fn note_listings<W: Write>(notes: &ListingNotes, sources: &Sources<'_>, writer: &mut Output<W>)
    ensures { IsNoted W.contents writer.old writer.new (is_some_noted notes.now)
        (note_lines sources.now.kernel sources.now.files notes.now) }
{
    if notes.any() {
        put_notes_of(writer, sources, notes);
    }
}
