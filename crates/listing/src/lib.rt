//! The grammars of the listings, the notes on them, and the text of an answer.
#![tactic(auto)]

mod address_rules;
mod addresses;
mod answers;
mod causes;
mod gaps;
mod kernel_lines;
mod laws;
mod listing_notes;
mod looks;
mod module_listing;
mod note_texts;
mod opening;
mod overlaps;
mod owners;
mod region_listing;
mod symbol_listing;
mod tallies;

pub use address_rules::{AddressRule, Callers, LogRule};
pub use addresses::{address_of_text, read_addresses};
pub use answers::{SymbolAnswer, answer_of, farther, put_answer, sought};
pub use causes::{Cause, Counts, each_line_is_counted_once};
pub use kernel_lines::{kernel_base, shows_symbol, without_modules};
pub use laws::{
    addresses_by_their_lines, each_listed_line_is_counted_once, left_out_modules_overlap,
    regions_by_their_lines,
};
pub use listing_notes::{
    ListingNote, ListingNotes, ModuleFacts, SymbolFacts, applies_to_kallsyms, applies_to_modules,
};
pub use looks::{are_modules_hidden, are_symbols_hidden, is_gzip, is_narrow, is_utf_16};
pub use module_listing::{ModuleCounts, SkippedModule, read_modules};
pub use note_texts::{ended_text, plain_text};
pub use opening::{Listings, OpenedCatalog, open};
pub use owners::Owner;
pub use region_listing::read_regions;
pub use symbol_listing::{
    SkippedSymbol, SymbolCounts, cut, cut_tabbed_line, is_mapping, module_of_line, read_kallsyms,
    symbol_of_line,
};
pub use tallies::{LineTallies, LineTally, Row, put_counts};
