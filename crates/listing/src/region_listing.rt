//! Listings of regions.
//!
//! The first line is `latchregions 1`, and each later one a region of a module:
//!
//! ```text
//! latchregions 1
//! ext4 core 0xffffffffc0c00000 1196032
//! ext4 init 0xffffffffc0e00000 4096
//! NAME PART BASE               SIZE
//! ```
//!
//! The parts have exactly one blank between them, and names any bytes but a blank.
ghost use Rattle.std.specs.Prelude.{◌≡◌, true, All, map, IfOk};
ghost use Rattle.texts.specs.Said.{GivesInGrammar};
ghost use Rattle.listing.specs.RegionListing.{part_of, placed_region, region_by};
ghost use Rattle.listing.specs.RegionListing.{region_of_words, regions_of_text};
ghost use Rattle.modules.specs.Lines.{region_fits};

use modules::{Part, RegionLine};
use std::alloc::{AllocError, Global};
use texts::{Form, LineFault, cut_line, entries_in, number, words_in};

/// The first line.
const HEADER: &[u8] = b"latchregions 1";

// the parts of a module
const CORE: &[u8] = b"core";

const INIT: &[u8] = b"init";

/// The part of a module that a word names.
fn part_named(word: &[u8]) -> Option<Part>
    ensures { result ≡ part_of word.now }
{
    if word == CORE {
        Some(Part::Core)
    } else if word == INIT {
        Some(Part::Init)
    } else {
        None
    }
}

/// The region, if one of its size fits below 2^64 at its address.
fn placed(region: RegionLine<'_>) -> Option<RegionLine<'_>>
    ensures { result ≡ placed_region region.entry }
{
    if region.fits() { Some(region) } else { None }
}

/// The region that these words are.
fn region_in_words<'a>(words: &[&'a [u8]]) -> Option<RegionLine<'a>>
    ensures { result ≡ region_of_words (map (λ w. w.now) words.now) }
{
    let [name, part, base, size] = words else {
        return None;
    };
    if name.is_empty() {
        return None;
    }
    placed(RegionLine {
        name,
        part: part_named(part)?,
        base: number(base)?,
        size: number(size)?,
    })
}

/// The region that a line is.
#[tactic(auto, using(crate::proofs::RegionLineLemmas::regions_too_long))]
fn region_in<'a>(line: &'a [u8]) -> Option<RegionLine<'a>>
    ensures { result ≡ region_by line.now }
{
    region_in_words(&words_in::<4>(line)?)
}

/// The form of a line after the first.
#[derive(Drop)]
struct RegionForm;

impl<'a> Form<'a> for RegionForm {
    type Entry = RegionLine<'a>;

    ghost entry_of = { λ _ line. region_by line };

    fn entry(&self, line: &'a [u8]) -> Result<Option<RegionLine<'a>>, AllocError> {
        Ok(region_in(line))
    }
}

/// The regions of a listing, in their order.
///
/// The first line is `latchregions 1`. Each later line is `NAME PART BASE SIZE` with exactly one
/// blank between two words, or is passed over: it is empty, or a comment that begins with `#`. NAME
/// is one byte or more and has no blank, PART is `core` or `init`, BASE and SIZE are NUMBERs other
/// than 0 (as [`number`] reads them) with a sum of at most the greatest `u64`. No line has more
/// than [`LONGEST_LINE`](texts::LONGEST_LINE) bytes. Any other line is [`LineFault::BadLine`], the
/// first of them, and a text of no bytes has a bad line 1. No reader is asked here, so that
/// [`LineFault::Read`] is never returned. The names are parts of the text.
pub fn read_regions<'a>(alloc: Global, text: &'a [u8]) -> Result<Vec<RegionLine<'a>>, LineFault>
    ensures regions { GivesInGrammar (λ regions. regions.items) result (regions_of_text text.now) }
    ensures fit { IfOk result (λ regions. All (λ r. region_fits r ≡ true) regions.items) }
{
    if text.is_empty() {
        return Err(LineFault::BadLine(1));
    }
    let (first, rest) = cut_line(text);
    if first != HEADER {
        return Err(LineFault::BadLine(1));
    }
    entries_in(alloc, &RegionForm, 2, rest)
}
