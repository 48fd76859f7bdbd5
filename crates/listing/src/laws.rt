//! What follows from the grammars, as contracts of functions that do nothing.
ghost use Rattle.std.specs.Prelude.{◌≡◌, ℕ, ◌+◌, List, length, sum, MatchResult};
ghost use Rattle.std.specs.Prelude.{◌<◌, true, Contains, Option};
ghost use Rattle.texts.specs.Lines.{lines_of};
ghost use Rattle.listing.specs.ModuleListing.{module_counts, modules_in};
ghost use Rattle.listing.specs.SymbolListing.{symbol_counts, symbols_in};
ghost use Rattle.listing.specs.Addresses.{address_in_line, addresses_of};
ghost use Rattle.listing.specs.RegionListing.{regions_of_text, IsFirstBadRegion, IsRegionListingBy};
ghost use Rattle.texts.specs.Understood.{AreSaidBy, IsFirstBadFrom};
ghost use Rattle.listing.specs.Overlaps.{is_left_out};
ghost use Rattle.modules.specs.Catalogs.{catalog_of, counts_of};
ghost use Rattle.modules.specs.Listed.{BoundNames, ListedModule, ListedRegion, ListedSymbol};

use crate::causes::each_line_is_counted_once;
use crate::module_listing::SkippedModule;
use crate::symbol_listing::SkippedSymbol;
use modules::{ModuleLine, SymbolLine};

/// A text is a listing of regions exactly if each of its lines is in the grammar, and its regions
/// are then its lines' regions, in their order; otherwise the line that is named is the first one
/// that is not.
#[tactic(auto, using(crate::proofs::RegionLineLemmas::regions_by_lines))]
pub fn regions_by_their_lines()
    ensures { (text : List ℕ)
        → MatchResult (regions_of_text text) (IsRegionListingBy (lines_of text))
        (IsFirstBadRegion (lines_of text)) }
{}

/// What is read of a file of addresses is what its lines say, one after the other.
#[tactic(auto, using(texts::proofs::UnderstoodLemmas::are_entries))]
pub fn addresses_by_their_lines()
    ensures { (text : List ℕ)
        → MatchResult (addresses_of text) (AreSaidBy address_in_line (lines_of text))
        (IsFirstBadFrom address_in_line 1 (lines_of text)) }
{}

/// Each line of a listing is taken, or is counted for one cause for which it is skipped.
pub fn each_listed_line_is_counted_once()
    ensures modules { (text : List ℕ) → let lines = lines_of text in
        length (modules_in lines) + sum (module_counts lines) ≡ length lines }
    ensures symbols { (text : List ℕ) → let lines = lines_of text in
        length (symbols_in lines) + sum (symbol_counts lines) ≡ length lines }
{
    each_line_is_counted_once::<ModuleLine<'static>, SkippedModule, 5>();
    each_line_is_counted_once::<SymbolLine<'static>, SkippedSymbol, 3>();
}

/// A listed module that a catalog lacks has a line that was kept out as one that overlaps.
#[tactic(auto, using(crate::proofs::OverlapLemmas::left_out_overlaps))]
pub fn left_out_modules_overlap()
    ensures { (names : Option BoundNames) → (modules : List ListedModule)
        → (regions : List ListedRegion) → (symbols : List ListedSymbol) → (m : ListedModule)
        → Contains modules m
        → is_left_out (catalog_of names modules regions symbols) m.name ≡ true
        → 0 < (counts_of names modules regions symbols).overlap }
{}
