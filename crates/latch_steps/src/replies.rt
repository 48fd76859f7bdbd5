//! What a step replies, and what a run notes.

ghost use Rattle.std.specs.Prelude.{◌≡◌};
ghost use Rattle.latch_steps.specs.Quiet.{is_flip};
ghost use Rattle.latch_steps.specs.WorldSteps.{is_refused_for_memory};

use order_laws::{Item, Refusal};
use word_layout::Store;

/// A lookup that returned. The counts stay at the greatest `u64`.
#[derive(Clone, Copy, Debug, PartialEq, Eq, Drop)]
pub struct Returned<K> {
    /// The reader's number.
    pub reader: u32,
    /// What it looked up.
    pub key: K,
    /// The item that the key is in, or none.
    pub answer: Option<Item>,
    /// The generation of the table that this is the lookup of.
    pub generation: u64,
    /// How many events there were up to and with its start.
    pub first: u64,
    /// How many events there were up to and with its last load.
    pub last: u64,
    /// How many loads it made.
    pub loads: u64,
    /// How many attempts it made.
    pub attempts: u64,
}

/// What a pending lookup loads next. The counts stay at the greatest `u64`.
#[derive(Clone, Copy, Debug, PartialEq, Eq, Drop)]
pub struct NextLoad<K> {
    /// What is looked up.
    pub key: K,
    /// The word that is loaded.
    pub word: usize,
    /// What the word holds now.
    pub value: u64,
    /// How many loads there are with this one.
    pub loads: u64,
    /// How many attempts there are with the one that it belongs to.
    pub attempts: u64,
}

/// What a step replies.
#[derive(Clone, Copy, Debug, PartialEq, Eq, Drop)]
pub enum Reply<K> {
    /// The update is pending, and takes this many steps.
    Begun(u64),
    /// The writer made this store.
    Wrote(Store),
    /// The writer has no pending update.
    Idle,
    /// The lookup is pending.
    Started,
    /// The reader loaded a word.
    Loaded,
    /// The reader loaded a word, and its attempt has to be made again.
    Retried,
    /// The reader loaded a word, and its lookup returned.
    Returned(Returned<K>),
    /// Nothing was done.
    Refused(Refusal),
}

impl<K> Reply<K> {
    /// Whether the step flipped the sequence.
    pub fn is_flip(&self) -> bool
        ensures { result ≡ is_flip self.now }
    {
        match self {
            Reply::Wrote(store) => store.word == 0,
            _ => false,
        }
    }

    /// Whether the step was refused because memory ran out.
    pub fn is_refused_for_memory(&self) -> bool
        ensures { result ≡ is_refused_for_memory self.now }
    {
        match self {
            Reply::Refused(Refusal::OutOfMemory) => true,
            _ => false,
        }
    }
}

/// What a run notes: each lookup that returned and each refusal.
#[derive(Clone, Copy, Debug, PartialEq, Eq, Drop)]
pub enum Note<K> {
    /// A lookup that returned.
    Returned(Returned<K>),
    /// An event that was refused.
    Refused(Refusal),
}
