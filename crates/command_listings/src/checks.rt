//! All notes on listings, and the counts of their lines.
//!
//! A lookup writes for each listing the first note that applies; a check writes all of them, as its
//! answer.
ghost use Rattle.std.specs.Prelude.{◌≡◌, List, None, Some, false, option_map, true, ℕ};
ghost use Rattle.std.specs.Option.{option_copied};
ghost use Rattle.texts.specs.Output.{Delivers, Says};
ghost use Rattle.texts.specs.Lines.{lines_of};
ghost use Rattle.listing.specs.Looks.{are_modules_hidden, are_symbols_hidden};
ghost use Rattle.command_listings.specs.Checks.{IsChecked, history_line, history_text};
ghost use Rattle.command_listings.specs.Checks.{lines_on_modules, modules_name, opened_report};
ghost use Rattle.command_listings.specs.Checks.{span_text, status_of_kept};
ghost use Rattle.command_listings.specs.GivenAnswers.{AnswersGiven, AnswersListings};
ghost use Rattle.listing.specs.ListingNotes.{HasBounds, is_of_kallsyms, is_of_modules};
ghost use Rattle.listing.specs.ModuleListing.{modules_in};
ghost use Rattle.listing.specs.Opening.{symbols_of};
ghost use Rattle.listing.specs.Owners.{unlisted_owner};
ghost use Rattle.listing.specs.SymbolListing.{symbols_in};
ghost use Rattle.command_listings.specs.NoteTexts.{applying_lines};
ghost use Rattle.command_parts.specs.HistoryFiles.{AnswersHistory, symbols_alone};
ghost use Rattle.command_parts.specs.OpenedCatalogs.{known_given, listing_failures, texts_in};
ghost use Rattle.histories.specs.ListingsAt.{listing_at};

use crate::note_texts::put_note_where;
use crate::sources::ListingFiles;
use command_parts::{
    FAILED, Fault, KALLSYMS_PLACE, ListingReaders, ListingTexts, SUCCEEDED, history_in,
    open_catalog, read_at, read_given, texts_at, unless_failed,
};
use histories::History;
use listing::{
    ListingNote, ModuleFacts, OpenedCatalog, SymbolFacts, applies_to_kallsyms, applies_to_modules,
    put_counts,
};
use modules::{Catalog, ExpectedLookups, KernelBounds};
use std::alloc::Global;
use std::io::{Read, Write};
use texts::{Counted, Output};

// what a check says of a history before its numbers and its times
const LISTINGS: &[u8] = b"listings ";

const CHANGES: &[u8] = b" changes ";

const FROM: &[u8] = b" from ";

const TO: &[u8] = b" to ";

/// Writes a line for each note that applies to the listings in these files, and then the counts of
/// their lines. Returns the program's status: 1 if no symbol is kept.
///
/// All is read, and the catalog is there, before the first byte is written; so every fault but a
/// failed write leaves the writer as it was. No table is loaded, so any number of regions will do.
pub fn check_engine<M: Read, K: Read, R: Read, W: Write>(
    alloc: Global,
    readers: &mut ListingReaders<M, K, R>,
    kernel: Option<&KernelBounds>,
    files: &ListingFiles<'_>,
    writer: &mut Output<W>,
) -> Result<u8, Fault>
    ensures { AnswersListings W.contents (IsChecked (option_copied kernel.entry) files.now None)
        (known_given M.remaining K.remaining R.remaining readers.old)
        (listing_failures readers.old readers.new) writer.old writer.new result }
{
    let texts = read_given(alloc, readers)?;
    check_given(alloc, &texts, kernel, files, None, writer)
}

/// Checks as [`check_engine`] does the listing that a history has at a time in nanoseconds, or
/// without a time its last one. The line before the counts says what the history has.
pub fn check_engine_at<R: Read, W: Write>(
    alloc: Global,
    history: &mut Counted<R>,
    time: Option<u64>,
    kernel: Option<&KernelBounds>,
    files: &ListingFiles<'_>,
    writer: &mut Output<W>,
) -> Result<u8, Fault>
    ensures { AnswersHistory R.remaining (λ parts. AnswersGiven W.contents
        (IsChecked (option_copied kernel.entry) files.now (Some parts))
        (symbols_alone (listing_at time parts)) writer.old writer.new)
        history.old history.new writer.old writer.new result }
{
    let file = read_at(alloc, history, KALLSYMS_PLACE)?;
    let history = history_in(alloc, &file)?;
    let texts = texts_at(alloc, &history, time)?;
    check_given(alloc, &texts, kernel, files, Some(&history), writer)
}

/// Checks the listings that these texts are, which a history may have.
fn check_given<W: Write>(
    alloc: Global,
    texts: &ListingTexts,
    kernel: Option<&KernelBounds>,
    files: &ListingFiles<'_>,
    history: Option<&History<'_>>,
    writer: &mut Output<W>,
) -> Result<u8, Fault>
    ensures { AnswersGiven W.contents
        (IsChecked (option_copied kernel.entry) files.now (option_copied history.entry))
        (texts_in texts.now) writer.old writer.new result }
{
    let opened = open_catalog(alloc, texts, kernel, ExpectedLookups::These(&[]))?;
    let names = kernel.unwrap_or(&opened.usual);
    put_report(writer, names, files, texts, history, &opened);
    unless_failed(writer, status_of_kept(opened.built.symbols))
}

/// The program's status, by how many symbols are kept.
fn status_of_kept(kept: u64) -> u8
    ensures { result ≡ status_of_kept kept }
{
    if kept == 0 { FAILED } else { SUCCEEDED }
}

/// Writes what applies to the listings with these texts, if these names bound the kernel, the
/// counts of a history, if they are from one, and the counts of their lines, and lets the writer
/// keep nothing back.
fn put_report<W: Write>(
    writer: &mut Output<W>,
    names: &KernelBounds,
    files: &ListingFiles<'_>,
    texts: &ListingTexts,
    history: Option<&History<'_>>,
    opened: &OpenedCatalog,
)
    requires modules { (text : List ℕ) → (texts_in texts.now).modules ≡ Some text
        → opened.now.modules_hidden ≡ are_modules_hidden (lines_of text) }
    requires unlisted { (text : List ℕ) → (texts_in texts.now).modules ≡ Some text
        → opened.now.unlisted ≡ unlisted_owner (modules_in (lines_of text))
        (symbols_of false (texts_in texts.now).kallsyms) }
    requires symbols { opened.now.symbols_hidden
        ≡ are_symbols_hidden (lines_of (texts_in texts.now).kallsyms) }
    ensures { Delivers W.contents writer.old writer.new
        (opened_report names.now files.now (option_copied history.entry) (texts_in texts.now)
        opened.now) }
{
    put_notes_if_listed(writer, names, files, texts, opened);
    let facts = SymbolFacts {
        is_alone: texts.modules.is_none(),
        hidden: opened.symbols_hidden,
        kept: opened.built.symbols,
        has_kernel: false,
    };
    put_symbol_notes(
        writer,
        names,
        files.kallsyms.as_bytes(),
        &texts.kallsyms,
        facts,
    );
    put_history(writer, history);
    put_counts(writer, &opened.tallies());
    writer.flush();
}

/// Writes what a history has, if there is one.
fn put_history<W: Write>(writer: &mut Output<W>, history: Option<&History<'_>>)
    ensures { Says W.contents writer.old writer.new
        (history_text (option_copied history.entry)) }
{
    if let Some(history) = history {
        put_history_line(writer, history);
    }
}

/// Writes how many listings and changes a history has, and the first and the last of their times.
fn put_history_line<W: Write>(writer: &mut Output<W>, history: &History<'_>)
    ensures { Says W.contents writer.old writer.new (history_line history.now) }
{
    let counts = history.counts();
    writer.put(LISTINGS);
    writer.put_decimal(counts.listings as u64);
    writer.put(CHANGES);
    writer.put_decimal(counts.changes as u64);
    put_span(writer, history.span());
    writer.put(b"\n");
}

/// Writes the first and the last time of a history, if it has any.
fn put_span<W: Write>(writer: &mut Output<W>, span: Option<(&[u8], &[u8])>)
    ensures { Says W.contents writer.old writer.new
        (span_text (option_map (λ s. (s.0.now, s.1.now)) span.entry)) }
{
    if let Some((first, last)) = span {
        writer.put(FROM);
        writer.put(first);
        writer.put(TO);
        writer.put(last);
    }
}

/// Writes what applies to the listing of modules, if there is one and these names bound the kernel.
fn put_notes_if_listed<W: Write>(
    writer: &mut Output<W>,
    names: &KernelBounds,
    files: &ListingFiles<'_>,
    texts: &ListingTexts,
    opened: &OpenedCatalog,
)
    requires modules { (text : List ℕ) → (texts_in texts.now).modules ≡ Some text
        → opened.now.modules_hidden ≡ are_modules_hidden (lines_of text) }
    requires unlisted { (text : List ℕ) → (texts_in texts.now).modules ≡ Some text
        → opened.now.unlisted ≡ unlisted_owner (modules_in (lines_of text))
        (symbols_of false (texts_in texts.now).kallsyms) }
    ensures { Says W.contents writer.old writer.new (lines_on_modules names.now files.now
        (texts_in texts.now).modules (texts_in texts.now).kallsyms opened.now.catalog) }
{
    match &texts.modules {
        Some(modules) => put_module_notes(
            writer,
            names,
            modules_name(files).as_bytes(),
            modules,
            &texts.kallsyms,
            ModuleFacts {
                hidden: opened.modules_hidden,
                with_mapping: false,
                unlisted: opened.unlisted,
            },
            &opened.catalog,
        ),
        None => {}
    }
}

/// The name of the file of modules, which is empty if there is none.
fn modules_name<'a>(files: &ListingFiles<'a>) -> &'a str
    ensures { result.now ≡ modules_name files.now }
{
    files.modules.unwrap_or("")
}

/// Writes the line of each note that applies to a listing of modules with this text beside one of
/// symbols, if this catalog is built of both and this is known.
fn put_module_notes<W: Write>(
    writer: &mut Output<W>,
    names: &KernelBounds,
    file: &[u8],
    text: &[u8],
    kallsyms: &[u8],
    known: ModuleFacts,
    catalog: &Catalog,
)
    requires hidden { known.hidden ≡ are_modules_hidden (lines_of text.now) }
    requires unlisted { known.unlisted ≡ unlisted_owner (modules_in (lines_of text.now))
        (symbols_of known.with_mapping kallsyms.now) }
    ensures { Says W.contents writer.old writer.new (applying_lines names.now file.now
        (is_of_modules known.with_mapping text.now kallsyms.now catalog.now)) }
{
    let notes = ListingNote::all();
    for note in notes {
        let applies = applies_to_modules(*note, text, kallsyms, known, catalog);
        put_note_where(writer, names, file, *note, applies);
    }
}

/// Writes the line of each note that applies to a listing of symbols with this text and these
/// facts.
fn put_symbol_notes<W: Write>(
    writer: &mut Output<W>,
    names: &KernelBounds,
    file: &[u8],
    text: &[u8],
    facts: SymbolFacts,
)
    requires hidden { facts.hidden ≡ are_symbols_hidden (lines_of text.now) }
    requires kernel { facts.has_kernel ≡ true
        → HasBounds names.now (symbols_in (lines_of text.now)) }
    ensures { Says W.contents writer.old writer.new (applying_lines names.now file.now
        (is_of_kallsyms names.now facts.is_alone text.now facts.kept)) }
{
    let notes = ListingNote::all();
    for note in notes {
        let applies = applies_to_kallsyms(*note, text, names, facts);
        put_note_where(writer, names, file, *note, applies);
    }
}
