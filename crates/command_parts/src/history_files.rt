//! A history in place of a listing of symbols: the listing is the one that it has at a time.
//!
//! ```text
//!     reader    read_at    bytes    history_in    history    texts_at    the listing, alone
//! ```
ghost use Rattle.std.specs.Prelude.{◌≡◌, IfOk};
ghost use Rattle.logs.specs.Lines.{lines};
ghost use Rattle.histories.specs.Grammar.{history_of};
ghost use Rattle.histories.specs.ListingsAt.{listing_at};
ghost use Rattle.command_parts.specs.HistoryFiles.{GivesHistory, ReadsListingAt, symbols_alone};
ghost use Rattle.command_parts.specs.OpenedCatalogs.{texts_in};

use crate::fault::Fault;
use crate::opened_catalogs::ListingTexts;
use crate::readings::{KALLSYMS_PLACE, read_at};
use histories::{History, read_history};
use std::alloc::{AllocError, Global};
use std::io::Read;
use texts::Counted;

/// Reads a history in place of a listing of symbols. Returns the listing that it has at a time in
/// nanoseconds, or without a time the last one; there is no other listing beside it.
pub fn read_listing_at<R: Read>(
    alloc: Global,
    reader: &mut Counted<R>,
    time: Option<u64>,
) -> Result<ListingTexts, Fault>
    ensures { ReadsListingAt R.remaining time reader.old reader.new result }
{
    let file = read_at(alloc, reader, KALLSYMS_PLACE)?;
    let history = history_in(alloc, &file)?;
    Ok(texts_at(alloc, &history, time)?)
}

/// The history that the bytes of a file of symbols are.
pub fn history_in<'a>(alloc: Global, file: &'a [u8]) -> Result<History<'a>, Fault>
    ensures { GivesHistory (history_of (lines file.now)) result }
{
    match read_history(alloc, file) {
        Ok(history) => Ok(history),
        Err(fault) => Err(Fault::of_lines(KALLSYMS_PLACE, fault)),
    }
}

/// The listing that a history has at a time in nanoseconds, or without a time the last one, with no
/// other listing beside it.
pub fn texts_at(
    alloc: Global,
    history: &History<'_>,
    time: Option<u64>,
) -> Result<ListingTexts, AllocError>
    ensures { IfOk result
        (λ texts. texts_in texts ≡ symbols_alone (listing_at time history.now)) }
{
    let listing = history.listing_at(alloc, time)?;
    Ok(ListingTexts::of_symbols(listing.into_text(alloc)?))
}
