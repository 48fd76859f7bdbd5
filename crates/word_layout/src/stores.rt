//! One store of one word.

/// A word and the value that it is given.
#[derive(Clone, Copy, Debug, PartialEq, Eq, Drop)]
pub struct Store {
    /// The number of the word.
    pub word: usize,
    /// What it holds afterwards.
    pub value: u64,
}

ghost use Rattle.std.specs.Prelude.{◌≡◌, ◌+◌, ◌<◌, ◌≤◌, ◌++◌, length, vec_len, vec_capacity};
ghost use Rattle.word_layout.specs.Stores.{words_after};

/// Gives the word its value and changes no other.
pub fn apply(words: &mut [u64], s: Store)
    requires { s.word < length words.old }
    ensures { words.new ≡ words_after words.old s }
{
    words[s.word] = s.value;
}

/// Appends stores, for which there is room. Takes no memory.
#[inline]
pub fn append(out: &mut Vec<Store>, stores: &[Store])
    requires { vec_len out.old + length stores.now ≤ vec_capacity out.old }
    ensures items { out.new.items ≡ out.old.items ++ stores.now }
    ensures len { vec_len out.new ≡ vec_len out.old + length stores.now }
    ensures capacity { vec_capacity out.new ≡ vec_capacity out.old }
{
    for store in stores {
        out.push_reserved(*store);
    }
}
