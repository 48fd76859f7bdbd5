//! Readers.
//!
//! A reader's table is seen in [`seated`] alone, and the words of an attempt in [`words`] alone,
//! which loads them one by one, each load a step that the seat knows of. So nothing that an
//! attempt does, or a search of several, can look at a word in another way.

use order_laws::Item;

mod attempts;
mod lookups;
mod memory;
mod seated;
mod words;

pub use seated::Reader;

/// What an attempt came to.
#[derive(Clone, Copy, Debug, PartialEq, Eq, Drop)]
pub enum Try {
    /// The item that the key lies in, if any, and the generation that this is of.
    Answered(Option<Item>, u64),
    /// The writer flipped meanwhile.
    Retry,
}
