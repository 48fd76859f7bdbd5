//! Histories: the listings of one boot of a kernel, with times.
//!
//! What a listing says is true of one moment: a module may go, and another one come to its place. A
//! history is a file that has the first listing whole, and of each later one what has changed:
//!
//! ```text
//!     file                                  the listing from then on
//!
//!     latchhistory 1
//!     listing 0.500000                      before 0.5: do_one alone
//!     ffffffff81000108 T do_one             do_one
//!     ffffffffc0000010 t ext4_a  [ext4]     do_one  ext4_a
//!     change 7.360695
//!     gone ext4                             do_one
//!     change 9.104290
//!     ffffffffc0000010 t xfs_a  [xfs]       do_one  xfs_a
//! ```
//!
//! So the address `ffffffffc0000010` in a line of a log is in `ext4_a` or in `xfs_a`, by the time
//! of this line.
#![tactic(auto)]

pub mod changes;
mod grammar;
mod history;
mod line_times;
mod lines;
mod listing_lines;
mod listings_at;
mod times;

pub use changes::{bad_line_of, names_in};
pub use grammar::Header;
pub use history::{History, Part, PartCounts, read_history};
pub use line_times::{LogTime, line_time};
pub use listings_at::{ListingAt, listing_in};
pub use times::{Timestamp, time_of, timestamp_in};
