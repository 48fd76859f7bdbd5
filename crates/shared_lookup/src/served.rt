//! What several writers and readers come back with.

use latch_table::Reader;
use order_laws::{HalfOpen, Item, Refusal};
use table_updates::Update;

/// What a reader found.
#[derive(Clone, Copy, Debug, PartialEq, Eq, Drop)]
pub struct Answer {
    /// The list of keys, from 0.
    pub reader: u32,
    /// The place in that list, from 0.
    pub place: u64,
    /// The key.
    pub key: u64,
    /// The generation: how many updates of the log the answer is after.
    pub generation: u64,
    /// What the key lies in, if anything.
    pub item: Option<Item>,
}

/// What became of lists of changes and lists of keys.
#[derive(Drop)]
pub struct Served {
    /// For each list of changes, and each change of it, its generation, or why it was refused.
    pub changes: Vec<Vec<Result<u64, Refusal>>>,
    /// For each list of keys its answers, in order.
    pub answers: Vec<Vec<Answer>>,
    /// For each list of keys whether it ended early, because memory ran out.
    pub ended: Vec<bool>,
    /// For each list of keys its reader, which has met the writer since; none if there was no
    /// thread.
    pub readers: Vec<Option<Reader<HalfOpen>>>,
    /// Every accepted update, in order.
    pub log: Vec<Update>,
    /// How many answers, accepted changes and entries of the log do not agree with each other; it
    /// stays at the greatest number.
    pub wrong: u64,
}
