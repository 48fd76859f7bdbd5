//! The catalog of the modules that may be loaded, with the symbols of each, and the symbol that an
//! address belongs to.
#![tactic(auto)]

mod admission;
mod at_address;
mod buckets;
mod build;
mod by_name;
pub mod catalog;
mod expected_lookups;
mod finder;
pub mod found_symbols;
mod from_symbols;
mod gathering;
mod guesses;
pub mod laws;
mod line_marks;
pub mod lines;
mod loads;
mod marks;
pub mod module;
pub mod names;
mod placed_modules;
mod placing;
mod presort;
pub mod region_index;
mod regions;
pub mod shared_listings;
pub mod symbol_lines;
pub mod symbol_names;
mod symbol_tables;
mod symbol_texts;
pub mod symbols;

pub use catalog::{ABSENT_MODULE, BuildCounts, Catalog, Held};
pub use expected_lookups::ExpectedLookups;
pub use finder::{Finder, MOST_EXPECTED};
pub use found_symbols::{FoundSymbol, symbol_in, symbol_of};
pub use lines::{KernelBounds, ModuleLine, Part, RegionLine, SymbolLine};
pub use module::{MOST_REGIONS, Module};
pub use names::Names;
pub use region_index::IndexedCatalog;
pub use regions::Region;
pub use shared_listings::SharedListing;
pub use symbol_lines::{NameTest, SymbolLines};
pub use symbol_names::{NamedSymbol, SymbolNames};
pub use symbols::{IndexEntry, Symbol, is_rising};
