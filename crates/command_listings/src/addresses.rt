//! From the bytes of listings and from names to the lines with the places of the symbols.
ghost use Rattle.std.specs.Prelude.{◌≡◌, if◌then◌else◌, map};
ghost use Rattle.std.specs.Option.{option_copied};
ghost use Rattle.command_listings.specs.Addresses.{IsAddressed};
ghost use Rattle.command_listings.specs.GivenAnswers.{AnswersGiven, AnswersListings};
ghost use Rattle.command_parts.specs.HistoryFiles.{AnswersHistory, symbols_alone};
ghost use Rattle.command_parts.specs.OpenedCatalogs.{known_given, listing_failures, texts_in};
ghost use Rattle.histories.specs.ListingsAt.{listing_at};

use crate::address_texts::{AddressOptions, has_any_line, put_words};
use crate::kept_symbols::symbols_sought;
use command_parts::{
    FAILED, Fault, Finished, ListingReaders, ListingTexts, SUCCEEDED, open_catalog, read_given,
    read_listing_at, unless_failed,
};
use modules::{ExpectedLookups, IndexedCatalog, KernelBounds};
use std::alloc::Global;
use std::io::{Read, Write};
use texts::{Counted, Output};

/// Writes the places of the kept symbols of each name, in the order listed, as objects of JSON or
/// as lines of text. Returns what is noted of the listings, and the status 1 if no name has a line.
/// A name may have the module in front of it, and an offset after it.
///
/// All is read, and the catalog is there, before the first byte is written; so every fault but a
/// failed write leaves the writer as it was. docs/FORMATS.md has the names and the lines.
pub fn address_engine<M: Read, K: Read, R: Read, W: Write>(
    alloc: Global,
    readers: &mut ListingReaders<M, K, R>,
    form: AddressOptions,
    kernel: Option<&KernelBounds>,
    words: &[&str],
    writer: &mut Output<W>,
) -> Result<Finished, Fault>
    ensures { AnswersListings W.contents
        (IsAddressed form (option_copied kernel.entry) (map (λ w. w.now) words.now))
        (known_given M.remaining K.remaining R.remaining readers.old)
        (listing_failures readers.old readers.new) writer.old writer.new result }
{
    let texts = read_given(alloc, readers)?;
    answer_names(alloc, &texts, form, kernel, words, writer)
}

/// Writes and returns as [`address_engine`] does, by the listing that a history has at a time in
/// nanoseconds, or without a time by its last one.
pub fn address_engine_at<R: Read, W: Write>(
    alloc: Global,
    history: &mut Counted<R>,
    time: Option<u64>,
    form: AddressOptions,
    kernel: Option<&KernelBounds>,
    words: &[&str],
    writer: &mut Output<W>,
) -> Result<Finished, Fault>
    ensures { AnswersHistory R.remaining (λ parts. AnswersGiven W.contents
        (IsAddressed form (option_copied kernel.entry) (map (λ w. w.now) words.now))
        (symbols_alone (listing_at time parts)) writer.old writer.new)
        history.old history.new writer.old writer.new result }
{
    let texts = read_listing_at(alloc, history, time)?;
    answer_names(alloc, &texts, form, kernel, words, writer)
}

/// Writes their places in the listings with these texts.
fn answer_names<W: Write>(
    alloc: Global,
    texts: &ListingTexts,
    form: AddressOptions,
    kernel: Option<&KernelBounds>,
    words: &[&str],
    writer: &mut Output<W>,
) -> Result<Finished, Fault>
    ensures { AnswersGiven W.contents
        (IsAddressed form (option_copied kernel.entry) (map (λ w. w.now) words.now))
        (texts_in texts.now) writer.old writer.new result }
{
    let opened = open_catalog(alloc, texts, kernel, ExpectedLookups::Any)?;
    let notes = opened.notes;
    let index = IndexedCatalog::new(alloc, opened.catalog)?;
    let sought = symbols_sought(alloc, &index, &texts.kallsyms, words)?;
    put_words(writer, form, &sought, words);
    writer.flush();
    let status = status_of_found(has_any_line(form, &sought, words));
    unless_failed(writer, Finished { status, notes })
}

/// The program's status, by whether a name has a line.
fn status_of_found(found: bool) -> u8
    ensures { result ≡ (if found then 0 else 1) }
{
    if found { SUCCEEDED } else { FAILED }
}
