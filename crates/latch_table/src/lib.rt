//! The latched table over words that threads share: one writer, and readers that never wait.
//!
//! [`open`] makes a row of atomic words with one [`Writer`] and some [`Reader`]s. Each of these may
//! go to a thread of its own. Readers look keys up while the writer changes the tree; neither takes
//! a lock. The algorithm is latch_core's: here each of its loads and stores is one atomic step on a
//! word.
//!
//! A user of the kernel's latch (include/linux/rbtree_latch.h) gives it `less` and `comp`, and
//! calls `latch_tree_insert`, `latch_tree_erase` and `latch_tree_find`. Here a
//! [`TreeOrder`](order_laws::TreeOrder) has the two functions:
//!
//! ```text
//! // up to 1000 items, an opening sequence 0, 2 readers
//! let (mut writer, readers) = open::<HalfOpen>(alloc, Layout::new(1000)?, 0, 2)?;
//!
//! // in the writer's thread: latch_tree_insert, and latch_tree_erase step by step
//! writer.begin(Update::Insert(Item { a: 16, b: 32, tag: 7 }))?.finish();
//! let mut update = writer.begin(Update::Erase(16))?;
//! while let Some(did) = update.step() {
//!     // a store or a flip was made
//! }
//! let generation = update.finish();
//!
//! // in the thread of one of the readers: latch_tree_find, until there is an answer
//! let (answer, generation) = reader.find(&rt, 20);
//! // or one attempt at most, which comes to nothing if the writer flips meanwhile
//! if let Try::Answered(answer, generation) = reader.look(20) { .. }
//! ```
//!
//! ```text
//!                      words that all threads share
//!            sequence | root 0 | root 1 | nodes: a, b, tag, links of each copy
//!               ^  ^                          ^  ^
//!        loads, |  | loads             loads, |  | loads
//!        flips  |  |                   stores |  |
//!         the writer's seat            the seat of each reader
//!         knows: all words,            knows: the sequences that it loaded,
//!         the updates shown and        the updates shown by then,
//!         those accepted               the loads of its attempt
//! ```
//!
//! **Who holds which seat.** A step on the words is made through a *seat*, a token of no bytes. The
//! writer holds the one seat that may store; each reader holds a seat that only loads. A seat
//! cannot be copied, so there is one writer, and a reader is used by one thread at a time.
//!
//! **What a seat knows.** Each seat carries facts that only a proof reads (`specs/Seats.antt`), and
//! a step on a word is the only way to learn:
//!
//! | Step | What its seat then knows |
//! |---|---|
//! | a reader loads the sequence | this number, and the updates that were shown by then |
//! | a reader loads another word | the value, as one more load of its attempt |
//! | the writer loads a word | the value, which it knew; at the start of an update, the update |
//! | the writer stores a word | the words with this one changed |
//! | the writer flips the sequence | this, too; from the second flip on, the update as shown |
//! | a reader meets the writer ([`meet`]) | the reader: all updates that were shown |
//! | the writer copies a word | nothing more |
//!
//! **The rule of the words** (`specs/Rule.antt`) holds between any two steps of any threads: the
//! stable copy holds the table after the updates that were shown, as many as the sequence says;
//! what each seat knows is true; and while the sequence is what a reader first loaded in its
//! attempt, each value that it loaded since still is in its word. A step of the writer keeps
//! it, since the writer stores nothing that a reader of the stable copy can reach. So a reader that
//! loads that number again knows that nothing changed in its whole attempt, and its answer is right
//! in the table after the updates that were shown.
//!
//! **A reader remembers** the item that it found last, and the generation of that answer. If a
//! load of the sequence gives that generation again and the key lies in the item, the item is the
//! answer ([`Reader::recall`]), also in the midst of an update; [`Reader::look`] goes on with an
//! attempt if it is not, which begins with that load.
//!
//! ```text
//! known at the answer    u1 u2 u3        generation 3
//! known at the load      u1 u2 u3 ..     generation 3: so none more
//! ```
//!
//! The updates that a reader knew at the answer begin those that it knows now, and both are as many
//! as the generation says. So they are equal, and the item is still in the table.
//!
//! **A larger table** ([`Writer::enlarge`]) is a new row of words. Between two updates the writer
//! copies the words, puts the words of the new nodes after them, and its seat of the new row begins
//! with what its seat of the old one knew. New readers part from it; the old ones are given up with
//! their row.
//!
//! **Other items** ([`Writer::begin_replace`]) come as a list in order. The writer goes once over
//! the table and the list, and begins the batch of what differs. So readers find the old table or
//! the list, whole, and an item of both is neither erased nor inserted.
//!
//! **Not promised:** that [`Reader::find`] returns beside a writer that never rests; an order
//! between readers that met nobody; anything of weak memory orders: each step is sequentially
//! consistent.
#![tactic(auto)]

pub mod adding;
pub mod enlarging;
pub mod knowledge;
pub mod meeting;
pub mod opening;
pub mod readers;
mod rule;
pub mod writers;

pub use adding::MOST_READERS_IN_ALL;
pub use meeting::meet;
pub use opening::{MOST_READERS, open};
pub use readers::{Reader, Try};
pub use writers::{Did, InHand, Writer};
