//! What a table holds.

/// Three words: for a range of addresses its first address, its end, and a number that names what
/// lies there.
#[derive(Clone, Copy, Debug, PartialEq, Eq, Drop)]
pub struct Item {
    /// The first word, which names the item in its table.
    pub a: u64,
    /// The second word.
    pub b: u64,
    /// What the owner of the table likes to keep with the item.
    pub tag: u64,
}
