//! Updates of a table, and what a list of them makes of it.
//!
//! These are plain values: whoever loads a module of a catalog needs no latch to say what changes,
//! and whoever changes a latched tree needs no catalog.
#![tactic(auto)]

pub mod entries;
pub mod updates;

pub use entries::Entries;
pub use updates::Update;
