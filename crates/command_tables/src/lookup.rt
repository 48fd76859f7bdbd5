//! From the bytes of the listings to the lines that a lookup of addresses writes.
ghost use Rattle.std.specs.Prelude.{◌≡◌, [], Err, Ok, All, Some, true, unwrap_or};
ghost use Rattle.std.specs.Option.{option_copied};
ghost use Rattle.histories.specs.ListingsAt.{listing_at};
ghost use Rattle.listing.specs.Opening.{listed_in};
ghost use Rattle.listing.specs.Tallies.{tallies_of};
ghost use Rattle.modules.specs.Lines.{region_fits};
ghost use Rattle.command_parts.specs.HistoryFiles.{AnswersHistory, symbols_alone};
ghost use Rattle.command_parts.specs.OpenedCatalogs.{known_given, listing_failures, texts_in};
ghost use Rattle.command_parts.specs.Readings.{failures_in, known_text, last_failures};
ghost use Rattle.command_tables.specs.Inputs.{failures_behind, inputs, inputs_of, known_inputs};
ghost use Rattle.command_tables.specs.LookupTexts.{lookup_lines};
ghost use Rattle.command_tables.specs.Lookups.{AnswersLookup, GivesAddresses, WritesLookup};
ghost use Rattle.command_tables.specs.Lookups.{addresses_known, bounds_beside};

use crate::lookup_texts::put_lookup;
use crate::table::answers_of;
use command_parts::{
    AnswerForm, Fault, ListingReaders, ListingTexts, all_written, noted, read_given,
    read_listing_at,
};
use listing::{AddressRule, ListingNotes, Listings, OpenedCatalog, open, read_addresses};
use modules::{ExpectedLookups, KernelBounds};
use std::alloc::{AllocError, Global};
use std::io::{Read, Write};
use std::marker::Model;
use texts::{Counted, Output};

/// The place of the file of addresses among those that are read.
const ADDRESSES_PLACE: u64 = 3;

/// Which addresses are looked up, how they are taken, and how the answers are written.
#[derive(Drop)]
pub struct LookupOptions<'a> {
    /// The names of the symbols that bound the kernel's own region, if they are given. Else it lies
    /// between `_stext` and `_end` if modules are listed, and has its usual regions if not.
    pub kernel: Option<&'a KernelBounds<'a>>,
    /// How the addresses are taken that are looked up.
    pub rule: AddressRule,
    /// How the answers are written.
    pub form: AnswerForm,
    /// The addresses that are looked up before the ones of a file.
    pub addresses: &'a [u64],
}

impl<'a> Model for LookupOptions<'a> {
    ghost use Rattle.std.specs.Option.{option_copied};
    ghost use Rattle.command_tables.specs.LookupTexts.{Query};

    ghost Value = { Query };

    ghost view = { λ o. record {
      kernel = option_copied o.kernel;
      rule = o.rule;
      form = o.form;
      addresses = o.addresses.now;
    } };
}

/// Looks addresses up in listings, and writes a line for each address and the counts of each
/// listing. Returns the notes on the listings. A listing of modules gives the places of modules,
/// perhaps with one of regions; without it the addresses of the symbols do. The addresses of a file
/// are looked up after the given ones.
///
/// All is read, and all answers are there, before the first byte is written; so every fault but a
/// failed write leaves the writer as it was. docs/FORMATS.md has the files and the lines.
pub fn lookup_engine<M: Read, K: Read, R: Read, A: Read, W: Write>(
    alloc: Global,
    listings: &mut ListingReaders<M, K, R>,
    file: &mut Option<Counted<A>>,
    options: &LookupOptions<'_>,
    writer: &mut Output<W>,
) -> Result<ListingNotes, Fault>
    ensures { AnswersLookup W.contents options.now
        (known_inputs (addresses_known options.now (known_text A.remaining file.old))
        (known_given M.remaining K.remaining R.remaining listings.old))
        (failures_behind (listing_failures listings.old listings.new)
        (failures_in file.old) (failures_in file.new)) writer.old writer.new result }
{
    let texts = read_given(alloc, listings)?;
    answer_over(alloc, &texts, file, options, writer)
}

/// Looks addresses up as [`lookup_engine`] does, in the listing that a history has at a time in
/// nanoseconds, or without a time in its last one.
pub fn lookup_engine_at<R: Read, A: Read, W: Write>(
    alloc: Global,
    history: &mut Counted<R>,
    time: Option<u64>,
    file: &mut Option<Counted<A>>,
    options: &LookupOptions<'_>,
    writer: &mut Output<W>,
) -> Result<ListingNotes, Fault>
    ensures { AnswersHistory R.remaining (λ parts. AnswersLookup W.contents options.now
        (inputs_of (addresses_known options.now (known_text A.remaining file.old))
        (symbols_alone (listing_at time parts)))
        (last_failures (failures_in file.old) (failures_in file.new)) writer.old writer.new)
        history.old history.new writer.old writer.new result }
{
    let texts = read_listing_at(alloc, history, time)?;
    answer_over(alloc, &texts, file, options, writer)
}

/// Looks addresses up in listings with these texts: the ones that are given, and after them the
/// ones of the file.
fn answer_over<A: Read, W: Write>(
    alloc: Global,
    texts: &ListingTexts,
    file: &mut Option<Counted<A>>,
    options: &LookupOptions<'_>,
    writer: &mut Output<W>,
) -> Result<ListingNotes, Fault>
    ensures { AnswersLookup W.contents options.now
        (inputs_of (addresses_known options.now (known_text A.remaining file.old))
        (texts_in texts.now))
        (last_failures (failures_in file.old) (failures_in file.new)) writer.old writer.new result }
{
    let listings = texts.listings(alloc)?;
    let addresses = all_addresses(alloc, options.addresses, file)?;
    answer_with(alloc, &listings, options, &addresses, writer)
}

/// The addresses that are given, and after them the ones of the file, if there is one.
fn all_addresses<A: Read>(
    alloc: Global,
    given: &[u64],
    file: &mut Option<Counted<A>>,
) -> Result<Vec<u64>, Fault>
    ensures { GivesAddresses given.now (known_text A.remaining file.old)
        (failures_in file.old) (failures_in file.new) result }
{
    let mut addresses = Vec::from_slice(alloc, given)?;
    if let Some(reader) = file {
        match read_addresses(alloc, reader) {
            Ok(listed) => addresses.extend_from_slice(&listed)?,
            Err(fault) => return Err(Fault::of_lines(ADDRESSES_PLACE, fault)),
        }
    }
    Ok(addresses)
}

/// Looks the addresses up, and writes what is found. Mapping symbols are kept if modules are
/// listed.
fn answer_with<W: Write>(
    alloc: Global,
    listings: &Listings<'_>,
    options: &LookupOptions<'_>,
    addresses: &[u64],
    writer: &mut Output<W>,
) -> Result<ListingNotes, Fault>
    requires { All (λ r. region_fits r ≡ true) (unwrap_or (listed_in listings.now).regions []) }
    ensures { AnswersLookup W.contents options.now
        (Some (Ok (inputs (listed_in listings.now) addresses.now))) []
        writer.old writer.new result }
{
    let usual = KernelBounds::usual();
    let kernel = bounds_beside(options.kernel, listings.modules, &usual);
    let places = places_of(alloc, options.rule, addresses)?;
    let asked = ExpectedLookups::These(&places);
    let opened = open(alloc, listings, kernel, listings.modules.is_some(), asked)?;
    let done = write_lookup(alloc, &opened, options, addresses, writer);
    noted(done, opened.notes)
}

/// The names that bound the kernel: those that are given, or else the usual ones if modules are
/// listed.
fn bounds_beside<'k>(
    kernel: Option<&'k KernelBounds<'k>>,
    modules: Option<&[u8]>,
    usual: &'k KernelBounds<'k>,
) -> Option<&'k KernelBounds<'k>>
    ensures { option_copied result
        ≡ bounds_beside usual.now (option_copied kernel.entry) (option_copied modules.entry) }
{
    match modules {
        Some(_) => Some(kernel.unwrap_or(usual)),
        None => kernel,
    }
}

/// Looks the addresses up in a catalog, and writes what is found and the counts of its listings.
fn write_lookup<W: Write>(
    alloc: Global,
    opened: &OpenedCatalog,
    options: &LookupOptions<'_>,
    addresses: &[u64],
    writer: &mut Output<W>,
) -> Result<(), Fault>
    ensures { WritesLookup W.contents opened.now.catalog
        (lookup_lines options.now.form opened.now.catalog options.now.rule addresses.now
        (tallies_of opened.now)) writer.old writer.new result }
{
    let answers = answers_of(alloc, &opened.catalog, options.rule, addresses)?;
    let tallies = opened.tallies();
    put_lookup(
        writer,
        &opened.catalog,
        options.rule,
        options.form,
        &answers,
        &tallies,
    );
    all_written(writer)
}

/// The addresses that will be looked up, as a hint for the build.
fn places_of(alloc: Global, rule: AddressRule, addresses: &[u64]) -> Result<Vec<u64>, AllocError> {
    addresses
        .iter()
        .filter_map(|addr| rule.place_of(*addr))
        .collect(alloc)
}
