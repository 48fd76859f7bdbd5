//! How far a reader is in its attempt.

ghost use Rattle.std.specs.Prelude.{◌<◌, ◌≤◌};
ghost use Rattle.word_layout.specs.Limits.{most_nodes};

/// Which value a reader waits for.
#[derive(Clone, Copy, Debug, PartialEq, Eq, Drop)]
pub enum AwaitedValue {
    /// The first reading of the sequence.
    First,
    /// The root of the stable copy.
    Root,
    /// The first word of the node's item.
    WordA,
    /// Its second word.
    WordB,
    /// Its tag.
    Tag,
    /// The node's left link.
    Left,
    /// The node's right link.
    Right,
    /// The second reading of the sequence, after a node whose item has the key.
    Found,
    /// The second reading of the sequence, after a walk that ended at link 0.
    Missing,
    /// The second reading of the sequence, after a walk that came to a link that no tree has.
    Stuck,
}

/// The first reading of the sequence, the node in hand with the words of its item, and how many
/// visits are left.
#[derive(Clone, Copy, Debug, Drop)]
pub struct AttemptProgress {
    pub first: u64,
    pub a: u64,
    pub b: u64,
    pub tag: u64,
    pub capacity: u32,
    pub node: u32,
    pub visits_left: u32,
    pub awaited: AwaitedValue,
    ghost within: { node < capacity },
    ghost most: { capacity ≤ most_nodes },
}
