//! Several writers that share one table, and readers beside them.
//!
//! A [`Ledger`] is the table's one writer with a log of every update that it accepted. Under a lock
//! ([`SharedWriter`]) it is changed by many threads, one whole change at a time: within one taking
//! of the lock the table itself says what it holds of the module, the catalog gives the update, and
//! the update is applied. Readers take no lock.
//!
//! ```text
//!   lists of changes          lock                words of all threads      lists of keys
//!   thread of writer 0 --.                                              .-- thread of reader 0
//!   thread of writer 1 ---+-> Ledger: writer, log ---> table <---------+--- thread of reader 1
//!   thread of writer 2 --'                                              '-- thread of reader 2
//! ```
//!
//! [`serve`] runs one thread for each list, and then checks what came back: it puts the answers in
//! the order of their generations and replays the log once through a second table, in which it
//! looks each key up at its generation.
//!
//! **Not promised:** which thread is first; that a thread gets its turn; that the threads run at
//! once.
#![tactic(auto)]

pub mod changes;
mod checks;
pub mod gates;
pub mod ledgers;
mod lists;
mod meetings;
mod outcomes;
mod replays;
mod resting;
pub mod served;
pub mod serving;
pub mod shared;
mod threads;

pub use changes::Change;
pub use gates::{Gate, Open, Point};
pub use ledgers::Ledger;
pub use served::{Answer, Served};
pub use serving::serve;
pub use shared::{NamesTable, SharedWriter};
