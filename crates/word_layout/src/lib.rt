//! The words of a latched tree: a sequence, the roots of two copies, and seven words for each node.
//!
//! A memory is a row of 64-bit words. Word 0 holds the sequence; words 1 and 2 the roots of copy 0
//! and copy 1; then come seven words for each node: the item's `a`, `b` and `tag`, which serve both
//! copies, and the left and right link of copy 0 and of copy 1. A link is 0 for none, or a node's
//! number plus 1. docs/FORMATS.md has the numbering.
#![tactic(auto)]

pub mod held;
pub mod laws;
pub mod layouts;
pub mod places;
pub mod stores;

pub use layouts::{Layout, MOST_NODES};
pub use places::TreeCopy;
pub use stores::{Store, append, apply};
