//! What `lookup` and `run` do: they build a table of the regions of listed modules, and look
//! addresses up in it, `run` on threads as its script says; each from the bytes of its files to the
//! bytes that it writes.
//!
//! An engine is generic over its readers and its writer. It knows no word of a command line and no
//! name of a file: a fault names a file by its place in the order in which they are read. The
//! commands that need no table are in `command_listings`.
#![tactic(auto)]

mod assignments;
mod lookup;
mod lookup_texts;
mod run_texts;
mod runs;
mod table;

pub use lookup::{LookupOptions, lookup_engine, lookup_engine_at};
pub use runs::run_engine;
