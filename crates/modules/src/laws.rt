//! What follows from the definitions, as contracts of functions that do nothing.

ghost use Rattle.std.specs.Prelude.{◌≡◌, ◌+◌, ◌-◌, ◌^◌, ◌<◌, ◌≤◌, true, ℕ, All, List, MatchOption};
ghost use Rattle.std.specs.Prelude.{length, sum_by, Option, Some};
ghost use Rattle.modules.specs.Accepted.{Accepted};
ghost use Rattle.modules.specs.Catalogs.{catalog_of, catalog_with, counts_of, entries_of};
ghost use Rattle.modules.specs.Catalogs.{IsNoneAbsent, IsSoundCatalog, kept_counts};
ghost use Rattle.modules.specs.Entries.{CatalogEntries, SymbolEntry};
ghost use Rattle.modules.specs.Found.{IsFound, found_in};
ghost use Rattle.modules.specs.FromSymbols.{HasItsRegions, is_kept_line, IsFromSymbols};
ghost use Rattle.modules.specs.Kept.{belongs};
ghost use Rattle.modules.specs.Lines.{fits, region_fits};
ghost use Rattle.modules.specs.Listed.{BoundNames, ListedModule, ListedRegion, ListedSymbol};
ghost use Rattle.modules.specs.ListingParts.{changed_lines, changed_parts, parts_of};
ghost use Rattle.modules.specs.Placed.{are_few, PlacedModule};

/// Each line of each listing is counted once.
#[tactic(auto, using(crate::proofs::CountLemmas::counted_once))]
pub fn each_line_is_counted_once()
    ensures modules { (names : Option BoundNames) (modules : List ListedModule)
        (regions : List ListedRegion) (symbols : List ListedSymbol)
        → let n = counts_of names modules regions symbols in
        n.modules + n.double + n.overlap ≡ length modules }
    ensures regions { (names : Option BoundNames) (modules : List ListedModule)
        (regions : List ListedRegion) (symbols : List ListedSymbol)
        → let n = counts_of names modules regions symbols in
        n.regions + n.stray_regions ≡ length regions }
    ensures symbols { (names : Option BoundNames) (modules : List ListedModule)
        (regions : List ListedRegion) (symbols : List ListedSymbol)
        → let n = counts_of names modules regions symbols in
        n.symbols + n.stray ≡ length symbols }
{}

/// Each kept line is the symbol of one module: the modules have as many symbols as lines were kept.
#[tactic(auto, using(crate::proofs::CountLemmas::kept_in_one))]
pub fn each_kept_line_is_in_one_module()
    ensures { (names : Option BoundNames) (modules : List ListedModule)
        (regions : List ListedRegion) (symbols : List ListedSymbol)
        → All (λ l. fits l ≡ true) modules → All (λ l. region_fits l ≡ true) regions
        → are_few regions ≡ true
        → let c = catalog_of names modules regions symbols in
        sum_by (λ m. length m.symbols) (entries_of c)
        ≡ (counts_of names modules regions symbols).symbols }
{}

/// So it is with the lines of symbols alone: each is counted once, and is the symbol of one module
/// if it is kept.
#[tactic(auto, using(crate::proofs::AloneLemmas::alone_counted))]
pub fn each_line_of_symbols_alone_is_counted_once()
    ensures counted { (a : Accepted) (symbols : List ListedSymbol)
        → let n = kept_counts a symbols in
        n.symbols + n.stray ≡ length symbols }
    ensures kept { (names : Option BoundNames) (symbols : List ListedSymbol) (a : Accepted)
        → IsFromSymbols names symbols a
        → sum_by (λ m. length m.symbols) (entries_of (catalog_with a symbols))
        ≡ (kept_counts a symbols).symbols }
{}

/// In the catalog of lines that fit, each module has 1 to 7 regions and one of its core, the
/// regions have addresses and lie apart, and no two modules from number 1 on have one name.
pub fn every_catalog_is_sound()
    ensures sound { (names : Option BoundNames) (modules : List ListedModule)
        (regions : List ListedRegion) (symbols : List ListedSymbol)
        → All (λ l. fits l ≡ true) modules → All (λ l. region_fits l ≡ true) regions
        → are_few regions ≡ true
        → IsSoundCatalog (catalog_of names modules regions symbols) }
    ensures few { (names : Option BoundNames) (modules : List ListedModule)
        (regions : List ListedRegion) (symbols : List ListedSymbol)
        → are_few regions ≡ true
        → All (λ m. length m.regions ≤ 7) (catalog_of names modules regions symbols).modules }
{}

/// The modules of symbols alone make a sound catalog: each has a region, the regions have addresses
/// and lie apart, and no two modules from number 1 on have one name.
pub fn every_catalog_of_symbols_is_sound()
    ensures { (names : Option BoundNames) (lines : List ListedSymbol) (a : Accepted)
        → IsFromSymbols names lines a → IsSoundCatalog (catalog_with a lines) }
{}

/// No module of a sound catalog has the number of an absent one, as long as there are
/// fewer regions.
#[tactic(auto, using(crate::proofs::AbsentLemmas::none_absent))]
pub fn no_module_is_absent()
    ensures { (c : CatalogEntries) → IsSoundCatalog c → IsNoneAbsent c }
{}

/// What is found for an address is the symbol at or below it that no other lies between, the first
/// of those listed, and it reaches to the next symbol above its own address or to the region's end.
/// Nothing is found exactly if all symbols lie above the address.
#[tactic(auto, using(crate::proofs::FindLemmas::found_by_place))]
pub fn a_found_symbol_is_the_nearest()
    ensures { (symbols : List SymbolEntry) (end addr : ℕ)
        → MatchOption (found_in symbols end addr) (All (λ s. addr < s.addr) symbols)
        (IsFound symbols end addr) }
{}

/// A listing of symbols alone determines the kernel's regions and the modules with their regions.
#[tactic(auto, using(crate::proofs::SpacedLemmas::same_accepted))]
pub fn the_symbols_determine_the_modules()
    ensures { (names : Option BoundNames) (lines : List ListedSymbol) (a b : Accepted)
        → IsFromSymbols names lines a → IsFromSymbols names lines b → a ≡ b }
{}

/// A line of a module that has its regions lies in one of them if its own address is that
/// module's, and nowhere else: so what is kept by the regions is what is kept by the lines.
#[tactic(auto, using(crate::proofs::SpacedLemmas::kept_same))]
pub fn a_line_is_kept_by_its_own_address()
    ensures { (lines : List ListedSymbol) (m : PlacedModule) (l : ListedSymbol)
        → HasItsRegions lines m → l.addr < 2 ^ 64 - 1 → l.owner ≡ Some m.name
        → belongs m l ≡ is_kept_line lines l }
{}

/// A change of the parts of a listing leaves the parts of the listing after the change. So the
/// catalog after it is the catalog of what the change makes of the listing, whichever listing it was
/// that has these parts.
#[tactic(auto, using(crate::proofs::ListingPartLemmas::parts_changed))]
pub fn changed_parts_are_of_the_changed_listing()
    ensures { (names : Option BoundNames) (named : List (List ℕ))
        (added lines : List ListedSymbol)
        → changed_parts named added (parts_of names lines)
        ≡ parts_of names (changed_lines named added lines) }
{}
