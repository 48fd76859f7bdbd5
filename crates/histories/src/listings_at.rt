//! The listing at a time, kept from one line of a log to the next.
//!
//! ```text
//!     parts       listing   change   change   listing   change
//!     time        0.5       7.3      9.1      60.0      61.2
//!
//!     at 9.5      |------------------->                          2 changes of the first listing
//!     at 61.5                                 |-------->         1 change of the second
//!     9.5 again   |------------------->                          made again, from its listing on
//! ```
//!
//! A listing is a slice of the file until it is changed. What a time needs is made of the listing
//! that is there, if this comes before, or else of the last whole one: no part is looked at twice,
//! and none before the last listing.
ghost use Rattle.std.specs.Prelude.{◌≡◌, ◌≤◌, drop, length, IfOk, List, ℕ, Some};
ghost use Rattle.std.specs.Cow.{cow_slice_items};
ghost use Rattle.texts.specs.Said.{GivesInGrammar};
ghost use Rattle.logs.specs.Lines.{lines};
ghost use Rattle.histories.specs.Grammar.{AreInOrder};
ghost use Rattle.histories.specs.ListingsAt.{AreChanges};
ghost use Rattle.histories.specs.ListingsAt.{after_part, after_parts, before_all, count_at};
ghost use Rattle.histories.specs.ListingsAt.{kernel_lines, listing_after, listing_in};

use crate::changes::changed_by;
use crate::history::{History, Part, read_history};
use crate::lines::{line_length, without_end};
use crate::listing_lines::is_of_kernel;
use std::alloc::{AllocError, Global};
use std::borrow::CowSlice;
use std::marker::Model;
use texts::LineFault;

/// The lines of the kernel itself.
fn kernel_lines(alloc: Global, listing: &[u8]) -> Result<Vec<u8>, AllocError>
    ensures { IfOk result (λ kept. kept.items ≡ kernel_lines listing.now) }
{
    let mut out = Vec::new(alloc);
    let mut rest = listing;
    while !rest.is_empty() {
        let end = line_length(rest);
        let line = &rest[..end];
        if is_of_kernel(without_end(line)) {
            out.extend_from_slice(line)?;
        }
        rest = &rest[end..];
    }
    Ok(out)
}

/// The listing before the first part: the kernel itself.
fn before_all<'a>(alloc: Global, parts: &[Part<'a>]) -> Result<CowSlice<'a, u8>, AllocError>
    ensures { IfOk result (λ text. cow_slice_items text ≡ before_all parts.now) }
{
    match parts {
        [] => Ok(CowSlice::Borrowed(&[])),
        [first, ..] => Ok(CowSlice::Owned(kernel_lines(alloc, first.text)?)),
    }
}

/// The listing from a part on, if this one was before.
fn after_part<'a>(
    alloc: Global,
    before: CowSlice<'a, u8>,
    part: &Part<'a>,
) -> Result<CowSlice<'a, u8>, AllocError>
    ensures { IfOk result
        (λ text. cow_slice_items text ≡ after_part (cow_slice_items before.entry) part.now) }
{
    if part.header.is_change {
        Ok(CowSlice::Owned(changed_by(alloc, part.text, before.as_slice())?))
    } else {
        Ok(CowSlice::Borrowed(part.text))
    }
}

/// The parts from the last listing on, or all if none is a listing. Those before it make no
/// difference.
fn from_last_listing<'p, 'a>(parts: &'p [Part<'a>]) -> &'p [Part<'a>]
    ensures is { (before : List ℕ) → after_parts before result.now ≡ after_parts before parts.now }
    ensures few { AreChanges (drop 1 result.now) }
{
    let mut i = parts.len();
    while i > 0 {
        i -= 1;
        let part = &parts[i];
        if !part.header.is_change {
            return &parts[i..];
        }
    }
    parts
}

/// The listing after these parts, if this one was before them.
fn after_parts<'a>(
    alloc: Global,
    before: CowSlice<'a, u8>,
    parts: &[Part<'a>],
) -> Result<CowSlice<'a, u8>, AllocError>
    ensures { IfOk result
        (λ text. cow_slice_items text ≡ after_parts (cow_slice_items before.entry) parts.now) }
{
    let mut text = before;
    let mut rest = from_last_listing(parts);
    while let [part, more @ ..] = rest {
        text = after_part(alloc, text, part)?;
        rest = more;
    }
    Ok(text)
}

/// How many parts have a time that is not above this one: these come before all others.
fn count_until(parts: &[Part], time: u64) -> usize
    requires { AreInOrder parts.now }
    ensures is { result ≡ count_at (Some time) parts.now }
    ensures within { result ≤ length parts.now }
{
    parts.partition_point(|part| part.header.time <= time)
}

/// The listing after the first `count` parts.
fn listing_after<'a>(
    alloc: Global,
    parts: &[Part<'a>],
    count: usize,
) -> Result<CowSlice<'a, u8>, AllocError>
    requires { count ≤ length parts.now }
    ensures { IfOk result (λ text. cow_slice_items text ≡ listing_after count parts.now) }
{
    if count == 0 {
        before_all(alloc, parts)
    } else {
        after_parts(alloc, CowSlice::Borrowed(&[]), &parts[..count])
    }
}

/// A listing of a history, and after how many parts it is. A contract sees this number and the
/// bytes.
#[derive(Drop)]
pub struct ListingAt<'a> {
    count: usize,
    text: CowSlice<'a, u8>,
}

impl<'a> Model for ListingAt<'a> {
    ghost use Rattle.std.specs.Cow.{cow_slice_items};
    ghost use Rattle.histories.specs.ListingsAt.{ListingAfter};

    ghost Value = { ListingAfter };

    ghost view = { λ l. record { count = l.count; text = cow_slice_items l.text } };
}

impl<'a> ListingAt<'a> {
    /// The text of the listing, in the form of /proc/kallsyms.
    pub fn text(&self) -> &[u8]
        ensures { result.now ≡ self.now.text }
    {
        self.text.as_slice()
    }

    /// The text of the listing, which is copied if it is a slice of the file.
    pub fn into_text(self, alloc: Global) -> Result<Vec<u8>, AllocError>
        ensures { IfOk result (λ text. text.items ≡ self.entry.text) }
    {
        match self.text {
            CowSlice::Owned(text) => Ok(text),
            CowSlice::Borrowed(text) => {
                let mut copy = Vec::with_capacity(alloc, text.len())?;
                copy.extend_from_slice(text)?;
                Ok(copy)
            }
        }
    }
}

/// The text of the listing that a history has at a time in nanoseconds, or without a time of its
/// last one. The file of the history is understood as [`read_history`] says.
pub fn listing_in(alloc: Global, file: &[u8], time: Option<u64>) -> Result<Vec<u8>, LineFault>
    ensures { GivesInGrammar (λ text. text.items) result (listing_in time (lines file.now)) }
{
    let history = read_history(alloc, file)?;
    let listing = history.listing_at(alloc, time)?;
    Ok(listing.into_text(alloc)?)
}

impl<'a> History<'a> {
    ghost use Rattle.std.specs.Prelude.{◌==◌};
    ghost use Rattle.histories.specs.ListingsAt.{IsAt, IsOf, first_count};

    /// How many of its parts have a time that is not above this one, or without a time all.
    fn count_at(&self, time: Option<u64>) -> usize
        ensures is { result ≡ count_at time self.now }
        ensures within { result ≤ length self.now }
    {
        match time {
            None => self.parts.len(),
            Some(time) => count_until(self.parts.as_slice(), time),
        }
    }

    /// The listing at a time in nanoseconds, or without a time the last one. Before its first time
    /// a history has the kernel itself alone, as its first listing shows it.
    pub fn listing_at(&self, alloc: Global, time: Option<u64>) -> Result<ListingAt<'a>, AllocError>
        ensures at { IfOk result (IsAt time self.now) }
        ensures of { IfOk result (IsOf self.now) }
    {
        let count = self.count_at(time);
        let text = listing_after(alloc, self.parts.as_slice(), count)?;
        Ok(ListingAt { count, text })
    }

    /// The first listing, as the file has it. It shows the place of the kernel itself, which does
    /// not move in a boot.
    pub fn first_listing(&self, alloc: Global) -> Result<ListingAt<'a>, AllocError>
        ensures first { IfOk result (λ l. l.count ≡ first_count self.now) }
        ensures of { IfOk result (IsOf self.now) }
    {
        let count = self.parts.len().min(1);
        let text = listing_after(alloc, self.parts.as_slice(), count)?;
        Ok(ListingAt { count, text })
    }

    /// Whether a listing of this history is the one at a time in nanoseconds.
    pub fn is_at(&self, listing: &ListingAt<'a>, time: u64) -> bool
        ensures { result ≡ (listing.now.count == count_at (Some time) self.now) }
    {
        listing.count == self.count_at(Some(time))
    }

    /// The listing at a time in nanoseconds, made of this one if it comes before. If it is this one
    /// nothing is copied.
    #[tactic(auto, using(crate::proofs::PartLemmas::more_parts))]
    pub fn moved_to(
        &self,
        alloc: Global,
        listing: ListingAt<'a>,
        time: u64,
    ) -> Result<ListingAt<'a>, AllocError>
        requires { IsOf self.now listing }
        ensures at { IfOk result (IsAt (Some time) self.now) }
        ensures of { IfOk result (IsOf self.now) }
    {
        let count = self.count_at(Some(time));
        if listing.count == count {
            return Ok(listing);
        }
        let parts = self.parts.as_slice();
        let text = if 0 < listing.count && listing.count < count {
            after_parts(alloc, listing.text, &parts[listing.count..count])?
        } else {
            listing_after(alloc, parts, count)?
        };
        Ok(ListingAt { count, text })
    }
}
