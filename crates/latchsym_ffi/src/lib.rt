//! The catalog and the latched table for callers in C.
//!
//! Each export takes a *handle*: a struct of C's own that holds a catalog, a writer or a reader
//! while it is open. All bytes 0 are a closed handle. A call takes the content out of its handle,
//! lets the Rust call work on it, and puts it back, so that a handle that is closed, or holds
//! something else, is an answer and no fault.
//!
//! ```text
//! C's handle: kind, pointer       the pointer is a box's, and the model is the box's content: the
//!                   |             clauses of an export say of it what the Rust call's clauses say
//!                   v
//!               content: a catalog, a writer or a reader
//! ```
//!
//! The answers are numbers, and each means one thing (`CallOutcome`): 0 is success, the others below
//! 20 are the refusals that the program prints, and 101 is for a handle that does not hold what is
//! wanted. include/latchsym.h documents each call.
#![tactic(auto)]

mod adding;
mod answer_texts;
mod answers;
mod batches;
mod by_number;
mod calls;
mod catalogs;
mod changing;
mod contents;
mod enlarging;
mod finding;
mod flattening;
mod following;
mod handles;
mod listings;
mod lookups;
mod loose;
mod noting;
mod number_texts;
mod open_catalogs;
mod opening;
mod opening_tables;
mod pointers;
mod pools;
mod replacing;
mod taking;
mod threads;
mod updates;
mod view_rows;
mod viewing;
mod views;
