//! What the commands of the program do that need no table: a log is annotated, listings are
//! checked, and names are looked for, each from the bytes of its files to the bytes that it writes.
//!
//! An engine is generic over its readers and its writers. It knows no word of a command line, and
//! the names of the listings and of the log only for notes.
#![tactic(auto)]

mod address_texts;
mod addresses;
mod annotations;
mod asked_names;
mod checks;
mod following;
mod history_annotations;
mod history_offsets;
mod kept_symbols;
mod kernel_names;
mod lasting_log;
mod line_runs;
mod log_aliases;
mod log_answers;
mod log_index;
mod log_notes;
mod name_filter;
mod no_names;
mod note_texts;
mod notes;
mod own_offsets;
mod sources;
mod timed_logs;

pub use address_texts::AddressOptions;
pub use addresses::{address_engine, address_engine_at};
pub use annotations::{Annotate, LOG_PLACE, LogReading, LogRequest, annotate_engine};
pub use checks::{check_engine, check_engine_at};
pub use following::{Followed, Part, follow_engine};
pub use history_annotations::history_annotate_engine;
pub use history_offsets::history_own_offset_engine;
pub use lasting_log::{LastingLog, Unlisted};
pub use line_runs::LogTimes;
pub use log_notes::{ListedKernel, LogNote};
pub use no_names::NoNames;
pub use note_texts::{put_if_noted, put_listing_notes, put_note_head, put_notes_of};
pub use own_offsets::own_offset_engine;
pub use sources::{ListingFiles, Sources, SymbolSource};
pub use timed_logs::{Pending, TimedEnd, TimedLines, TimedLog, Turn};
