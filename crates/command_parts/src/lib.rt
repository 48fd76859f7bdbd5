//! What the commands of the program share: why one fails or the status that it comes to, the
//! listings that it reads with the catalog that they say, and the members of its objects of JSON.
//!
//! ```text
//!     readers of listings     read_given    ListingTexts    open_catalog     catalog, notes
//!                             -- Fault: of the file at this place -->
//! ```
#![tactic(auto)]

mod fault;
mod forms;
mod history_files;
mod json;
mod json_texts;
mod opened_catalogs;
mod outputs;
mod readings;
mod reasons;

pub use fault::{
    FAILED, Fault, Finished, SUCCEEDED, all_written, noted, unless_failed, with_notes, with_status,
    without_notes,
};
pub use forms::AnswerForm;
pub use history_files::{history_in, read_listing_at, texts_at};
pub use json::{FIRST_TO_ROUND, digit, put_json_number};
pub use json_texts::{
    put_address_member, put_json_count, put_json_counts, put_json_line, put_named_module,
    put_offset_members, put_symbol_members,
};
pub use opened_catalogs::{ListingReaders, ListingTexts, open_catalog, open_symbols, read_given};
pub use outputs::Outputs;
pub use readings::{KALLSYMS_PLACE, MODULES_PLACE, REGIONS_PLACE, read_at};
pub use reasons::{LONGEST_WORDS, words_of};
