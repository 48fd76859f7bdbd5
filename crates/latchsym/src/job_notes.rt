//! The lines that say what is noted of the listings of a job, by the names of its files.
ghost use Rattle.std.specs.Prelude.{◌≡◌};
ghost use Rattle.texts.specs.Output.{Says};
ghost use Rattle.latchsym.specs.JobNotes.{is_overlap, lines_asked, lines_of_lookup, lines_of_run};
ghost use Rattle.latchsym.specs.JobNotes.{notes_text, overlap_line, run_line, run_lines};

use crate::recorded_events::put_ended;
use command_line::{Job, Request, Subcommand};
use command_listings::{Sources, put_if_noted, put_listing_notes, put_note_head, put_notes_of};
use listing::{ListingNote, ListingNotes};
use modules::KernelBounds;
use std::io::Write;
use texts::Output;

/// What a run says of modules that overlap.
const GIVE_REGIONS: &[u8] = b"modules overlap, as sizes do from Linux 6.4 on; give --regions\n";

/// Writes the lines of what is noted of the listings of a job, by the names of its files.
pub fn put_job_notes<W: Write>(writer: &mut Output<W>, job: &Job<'_>, notes: &ListingNotes)
    ensures { Says W.contents writer.old writer.new (notes_text job.now notes.now) }
{
    match job {
        Job::Trace { .. } | Job::Steps { .. } => {}
        Job::Request(request) => put_notes_asked(writer, request, notes),
    }
}

/// Writes the lines of what is noted of the listings of a request.
fn put_notes_asked<W: Write>(writer: &mut Output<W>, request: &Request<'_>, notes: &ListingNotes)
    ensures { Says W.contents writer.old writer.new
        (lines_asked request.now request.now.subcommand notes.now) }
{
    let sources = &request.sources;
    match &request.subcommand {
        Subcommand::Run(_) => put_notes_of_run(writer, sources, notes),
        Subcommand::Lookup(_) => put_notes_of_lookup(writer, sources, notes),
        Subcommand::Annotate(_) | Subcommand::Check | Subcommand::Address(_) => {
            put_notes_of(writer, sources, notes)
        }
        Subcommand::Record(_) => put_ended(writer, sources.files.kallsyms, notes.kallsyms),
    }
}

/// Writes the notes on the listings of a run, which needs a listing of modules.
fn put_notes_of_run<W: Write>(writer: &mut Output<W>, sources: &Sources<'_>, notes: &ListingNotes)
    ensures { Says W.contents writer.old writer.new (lines_of_run sources.now notes.now) }
{
    let Some(modules) = sources.files.modules else {
        return;
    };
    let usual = KernelBounds::usual();
    let names = sources.kernel.as_ref().unwrap_or(&usual);
    put_run_notes(writer, names, modules, sources.files.kallsyms, notes)
}

/// Writes what is noted of the listings of a run, if these names bound the kernel.
fn put_run_notes<W: Write>(
    writer: &mut Output<W>,
    names: &KernelBounds,
    modules: &str,
    kallsyms: &str,
    notes: &ListingNotes,
)
    ensures { Says W.contents writer.old writer.new
        (run_lines names.now modules.now kallsyms.now notes.now) }
{
    put_run_note(writer, names, modules.as_bytes(), notes.modules);
    put_if_noted(writer, names, kallsyms.as_bytes(), notes.kallsyms);
}

/// Writes what is noted of the listing of modules of a run, if something is.
fn put_run_note<W: Write>(
    writer: &mut Output<W>,
    names: &KernelBounds,
    file: &[u8],
    note: Option<ListingNote>,
)
    ensures { Says W.contents writer.old writer.new (run_line names.now file.now note) }
{
    if is_overlap(note) {
        put_overlap(writer, file);
    } else {
        put_if_noted(writer, names, file, note);
    }
}

/// Whether it is noted that modules overlap.
fn is_overlap(note: Option<ListingNote>) -> bool
    ensures { result ≡ is_overlap note }
{
    matches!(note, Some(ListingNote::ModulesOverlap))
}

/// Writes that modules overlap, and what a run is to be given.
fn put_overlap<W: Write>(writer: &mut Output<W>, file: &[u8])
    ensures { Says W.contents writer.old writer.new (overlap_line file.now) }
{
    put_note_head(writer, file);
    writer.put(GIVE_REGIONS);
}

/// Writes what is noted of the listings of a lookup. If modules are listed, the kernel lies between
/// `_stext` and `_end` if no names are given.
fn put_notes_of_lookup<W: Write>(
    writer: &mut Output<W>,
    sources: &Sources<'_>,
    notes: &ListingNotes,
)
    ensures { Says W.contents writer.old writer.new (lines_of_lookup sources.now notes.now) }
{
    let usual = KernelBounds::usual();
    let names = sources.kernel.as_ref().unwrap_or(&usual);
    match sources.files.modules {
        Some(_) => put_listing_notes(writer, names, &sources.files, notes),
        None => put_notes_of(writer, sources, notes),
    }
}
