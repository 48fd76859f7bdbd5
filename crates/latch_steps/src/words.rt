//! The words of a world: before any event, one load, one store.

ghost use Rattle.std.specs.Prelude.{◌≡◌, IfOk};
ghost use Rattle.word_layout.specs.Words.{at};
ghost use Rattle.word_layout.specs.Stores.{words_after};
ghost use Rattle.word_layout.specs.Layouts.{capacity_of};
ghost use Rattle.latch_core.specs.Latches.{opening_latch};

use std::alloc::{AllocError, Global};
use word_layout::{Layout, Store, apply};

/// The words before any event: the sequence at its start, and all others 0.
pub(crate) fn opening_words(alloc: Global, l: Layout, start: u64) -> Result<Vec<u64>, AllocError>
    ensures { IfOk result (λ words. words.items ≡ (opening_latch (capacity_of l) start).words) }
{
    let mut words = vec![in alloc; 0; l.words()]?;
    words[0] = start;
    Ok(words)
}

/// What a word holds; 0 past the last.
pub(crate) fn word_at(words: &[u64], word: usize) -> u64
    ensures { result ≡ at words.now word }
{
    if word < words.len() { words[word] } else { 0 }
}

/// Makes a store; one past the last word changes nothing.
pub(crate) fn put(words: &mut Vec<u64>, store: Store)
    ensures { words.new.items ≡ words_after words.old.items store }
{
    if store.word < words.len() {
        apply(words.as_mut_slice(), store);
    }
}
