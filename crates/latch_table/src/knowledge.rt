//! What a seat knows.
//!
//! No value of these types is made: they are in the clauses of a seat, which a proof reads and no
//! program keeps. A clause reads an array as a list, of any length.

use atomic_table::Seat;
use order_laws::Item;
use std::snapshot::Snapshot;
use table_updates::Update;
use word_layout::Layout;

/// What a reader knows.
pub struct ReaderKnowledge {
    /// The opening generation, and the number of nodes.
    pub base: u64,
    pub capacity: u32,
    /// The sequences that it loaded from word 0.
    pub seen: [u64; 0],
    /// The updates that it knows to be shown.
    pub known: [Update; 0],
    /// Those that were shown when it was made.
    pub floor: [Update; 0],
    /// Its loads since its last load of word 0, that one at their head: each word with its value.
    pub loads: [(u64, u64); 0],
    /// The loads from one load of word 0 to the next, with both, if it has loaded nothing since.
    pub ended: [(u64, u64); 0],
}

/// What the writer knows.
pub struct WriterKnowledge {
    /// The opening generation, and the number of nodes.
    pub base: u64,
    pub capacity: u32,
    /// All words.
    pub picture: [u64; 0],
    /// The updates that were shown.
    pub known: [Update; 0],
    /// All accepted updates: those that were shown, and the pending update.
    pub accepted: [Update; 0],
    /// All words when the last update began, and the table before it.
    pub began: [u64; 0],
    pub old: [Item; 0],
    /// The loads of its last lookup.
    pub loads: [(u64, u64); 0],
}

/// What one seat knows: the writer's seat as the writer, a reader's as a reader, and both while the
/// two are joined.
pub struct Knowledge {
    pub writer: Option<WriterKnowledge>,
    pub reader: Option<ReaderKnowledge>,
}

/// A seat of the table.
pub type TableSeat = Seat<(), Knowledge>;

/// The origin of a row of words.
#[derive(Drop)]
pub enum Origin {
    /// An empty table, with its sequence at this number.
    Start(Layout, u64),
    /// These words, with what this seat knew.
    Moved(Layout, Snapshot<TableSeat>, Snapshot<Vec<u64>>),
}
