//! The reader and the writer of a latched tree as pure machines.
//!
//! A tree cannot be changed by one store, so whoever walks it while the writer changes it may find
//! half of a change. A sequence lock has readers try again until the writer is done; but a reader
//! in an interrupt that stopped the writer would try for ever. A *latch*
//! (`raw_write_seqcount_latch` of include/linux/seqlock.h, include/linux/rbtree_latch.h) keeps two
//! copies of the tree under one counter, the *sequence* in word 0, whose lowest bit names the
//! *stable copy*: the one that readers walk and that the writer leaves alone.
//!
//! ```text
//!   sequence        2k                  2k + 1              2k + 2
//!   readers walk    copy 0              copy 1              copy 0
//!   writer stores   item words     |    links of copy 0  |  links of copy 1  .
//!                   of free nodes  |                     |
//!   readers find    the old table  |    the old table    |  the new table
//!                             first flip            second flip
//! ```
//!
//! **Two equal readings are enough.** An attempt loads the sequence, walks the stable copy that it
//! names and loads the sequence again. The sequence only rises, so if both are equal no flip
//! came between, and the writer has stored nothing but links of the other copy and words of nodes
//! that no link led to. So each value that the attempt loaded still is in its word at its last
//! load: the attempt is one in a memory that stood still, and its stable copy holds the table that
//! the sequence names. If they differ a new attempt begins.
//!
//! **An item's words serve both copies.** A node has three words for its item and two links for
//! each copy. The item's words are stored once, while no link of either copy leads to the node. An
//! erase takes the node out of copy 0 and then out of copy 1 and leaves its words as they are. From
//! then on the node is free: the next update, which begins after the last store of this one, may
//! store another item there. A reader that still is at the node began before the last flip, so
//! its second reading differs and what it loaded is thrown away.
//!
//! **A walk over torn words ends.** Between its two readings a reader may load words of different
//! updates, and the links may lead it anywhere. So each link is compared with the number of nodes
//! and visits are counted: an attempt ends after at most `4N + 3` loads, whatever it loads.
//!
//! **Not promised:** that a reader beside a writer that never rests ever returns, though it tries
//! again at most once for each flip; anything of weak memory orders. Here a reader is given one
//! value of one word at a time and the writer hands out one store at a time; neither knows how the
//! words are kept, nor how steps interleave.
//!
//! A user of the kernel's latch gives it `less` and `comp`, and calls `latch_tree_insert`,
//! `latch_tree_erase` and `latch_tree_find`. Here a [`TreeOrder`](order_laws::TreeOrder) has the
//! two functions, and the caller makes each store and each load:
//!
//! ```text
//! let l = Layout::new(1000)?;
//! let mut words = vec![in alloc; 0; l.words()]?;
//! let mut writer = WriterCore::<HalfOpen>::open(alloc, l, 0)?;
//!
//! // latch_tree_insert
//! writer.begin(&Update::Insert(Item { a: 16, b: 32, tag: 7 }))?;
//! while let Some(store) = writer.step() {
//!     apply(words.as_mut_slice(), store);
//! }
//!
//! // latch_tree_erase, up to its first store
//! writer.begin(&Update::Erase(16))?;
//!
//! // latch_tree_find, load by load: between two of them the writer may make stores
//! let lookup = ReaderCore::<HalfOpen>::start(l, 20);
//! let value = words[lookup.wanted()];
//! match lookup.take(value) {
//!     Taken::Going(lookup) | Taken::Retrying(lookup) => ..,   // it goes on with the next load
//!     Taken::Returned(answer, generation) => ..,              // it ends
//! }
//! ```
#![tactic(auto)]

pub mod attempts;
mod changes;
mod clashes;
pub mod laws;
mod nodes;
mod plans;
mod progress;
pub mod readers;
pub mod replacements;
pub mod sequences;
pub mod writers;

pub use attempts::{AttemptOutcome, Loads, attempt_from, attempt_in};
pub use readers::{ReaderCore, Taken};
pub use replacements::{Difference, rises};
pub use table_updates::{Entries, Update};
pub use writers::WriterCore;
